// Bytes of the arena behind top: they accumulate, or become free.
ghost use Rattle.std.specs.Prelude.{◌≡◌, Ok, ◌+◌, ◌≤◌};
ghost use Rattle.rules.specs.Fixed.{grain};
ghost use Rattle.rules.specs.Round.{down_to};
ghost use Rattle.rules.specs.Holes.{hole};
ghost use Rattle.rules.specs.Sound.{holes};
ghost use Rattle.rules.specs.Inner.{Fulfils};
ghost use Rattle.joining.specs.Span.{Free};
ghost use Rattle.extend.specs.Growth.{gathering, growing, extended_if_sound};

use joining::insert;
use numbers::{Loan, fair_size};
use rules::{Addr, Answer, Decided, GRAIN, Heap, Hole, MIN_SIZE, Refusal, Writes};
use walk::{Cursor, Sound, add_up, neighbours};

// The bytes only accumulate: every head stands, and none is written.
fn gather(loan: Loan<'_>, pending: u64) -> Decided
    ensures { result ≡ gathering loan.entry.heap pending }
{
    let h = loan.heap;
    Decided {
        heap: Heap { pending, ..h },
        answer: Answer::Extended {
            size: fair_size(h),
            pending,
        },
        heads: Writes {
            one: None,
            two: None,
        },
    }
}

// All but the last few bytes become a free span at top, behind the last hole, and top rises by it.
fn grow(sound: Sound<'_>, cursor: Cursor, by: u64) -> Decided
    requires { (sound.loan.heap.top.0 + by ≤ sound.loan.heap.base.0 + sound.loan.heap.len) × Free sound.loan.heap (holes sound.loan.heap sound.loan.arena.now) cursor (hole sound.loan.heap.top (down_to grain by)) }
    ensures { Fulfils (growing by sound.entry.loan.heap sound.entry.loan.arena.now) sound.entry.loan.heap sound.entry.loan.arena.now (Ok result) }
{
    let h = sound.loan.heap;
    let pending = by % GRAIN;
    let size = by - pending;
    let addr = h.top;
    let list = insert(sound, cursor, Hole { addr, size });
    let first = list.first;
    let top = addr.0 + size;
    Decided {
        heap: Heap {
            top: Addr(top),
            first,
            pending,
            ..h
        },
        answer: Answer::Extended {
            size: top - h.bottom.0,
            pending,
        },
        heads: list.heads,
    }
}

// Extends the heap by bytes of the arena behind top, or refuses with 5 or 9.
pub fn extend_top(loan: Loan<'_>, by: u64) -> Result<Decided, Refusal>
    ensures { Fulfils (extended_if_sound by loan.entry.heap loan.entry.arena.now) loan.entry.heap loan.entry.arena.now result }
{
    let h = loan.heap;
    let top = h.top;
    let near = neighbours(loan, top)?;
    add_up(loan, near.total)?;
    let room = h.base.0 + h.len - top.0 - h.pending;
    if room < by {
        return Err(Refusal::PastArena);
    }
    let sum = h.pending + by;
    if sum < MIN_SIZE {
        return Ok(gather(loan, sum));
    }
    Ok(grow(Sound { loan }, near.cursor, sum))
}
