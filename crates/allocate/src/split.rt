// The hole that an allocation found, used and split.
ghost use Rattle.std.specs.Prelude.{◌≡◌, Ok};
ghost use Rattle.rules.specs.Sound.{holes};
ghost use Rattle.rules.specs.Inner.{Inside, Fulfils};
ghost use Rattle.walk.specs.Walk.{search_of};
ghost use Rattle.allocate.specs.Granted.{split_to, granted};

use joining::{Relinked, leads, link, remains};
use layout::Layout;
use rules::{Addr, Answer, Decided, Heap, Place, Write, Writes};
use walk::{Fit, Sound, candidate};

// What remains in front of a block stands where the hole stood; where nothing does, the hole before leads
// to what comes behind the block.
fn relink(
    first: Place,
    arena: &[u8],
    prev: Place,
    front: Option<Write>,
    rear: Option<Write>,
    to: Place,
) -> Relinked
    requires { Inside arena.now prev }
    ensures { result ≡ split_to first arena.now prev front rear to }
{
    match front {
        None => link(first, arena, prev, to, rear),
        Some(_) => Relinked {
            first,
            heads: Writes {
                one: rear,
                two: front,
            },
        },
    }
}

// Uses the hole that was found: what remains of it behind the block and in front of it become holes.
pub fn split_current(sound: Sound<'_>, fit: Fit, layout: Layout) -> Decided
    requires { search_of sound.loan.heap layout.size layout.align (holes sound.loan.heap sound.loan.arena.now) ≡ Ok fit }
    ensures { Fulfils (granted layout.size layout.align sound.entry.loan.heap sound.entry.loan.arena.now) sound.entry.loan.heap sound.entry.loan.arena.now (Ok result) }
{
    let h = sound.loan.heap;
    let base = h.base;
    let want = layout.size;
    let addr = fit.hole.addr;
    let start = candidate(addr, layout.align);
    let end = Addr(addr.0 + fit.hole.size);
    let next = fit.next;
    let rear = remains(base, Addr(start.0 + want), end, next);
    let behind = leads(rear, next);
    let front = remains(base, addr, start, behind);
    let list = relink(
        h.first,
        sound.loan.arena,
        fit.cursor.prev,
        front,
        rear,
        behind,
    );
    let first = list.first;
    Decided {
        heap: Heap {
            first,
            used: h.used + want,
            ..h
        },
        answer: Answer::Allocated {
            addr: start,
            count: fit.count,
        },
        heads: list.heads,
    }
}
