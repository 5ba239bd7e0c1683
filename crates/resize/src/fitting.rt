// A block of rounded size that gets another, where it lies.
ghost use Rattle.std.specs.Prelude.{◌≡◌, ◌+◌, ◌^◌, ◌<◌};
ghost use Rattle.rules.specs.Fixed.{min_size, width};
ghost use Rattle.rules.specs.Sound.{gap};
ghost use Rattle.rules.specs.Inner.{Fulfils};
ghost use Rattle.resize.specs.Refits.{refitted_if_sound};

use free::find_span;
use joining::{link_rest, try_merge_next};
use layout::Layout;
use numbers::Loan;
use rules::{Addr, Answer, Decided, Heap, Hole, MIN_SIZE, Refusal};
use walk::Sound;

// 0 or at least 16 bytes lie between two addresses.
#[tactic(auto, unfolding(rules::specs::Sound::gap))]
fn leaves_gap(lo: Addr, hi: Addr) -> bool
    requires { lo.0 + min_size < 2 ^ width }
    ensures { result ≡ gap lo hi }
{
    lo == hi || Addr(lo.0 + MIN_SIZE) <= hi
}

// Gives a block another layout, or refuses with 5, 8 or 10. Its stretch is the block and the hole behind
// it, where that touches it.
pub fn refit(loan: Loan<'_>, addr: Addr, old: Layout, new: Layout) -> Result<Decided, Refusal>
    ensures { Fulfils (refitted_if_sound old.size addr old.align new.size loan.entry.heap loan.entry.arena.now) loan.entry.heap loan.entry.arena.now result }
{
    let cursor = find_span(loan, addr, old)?;
    let sound = Sound { loan };
    let h = loan.heap;
    let size = old.size;
    let want = new.size;
    let block = Hole { addr, size };
    let stretch = try_merge_next(h.base, loan.arena, block, cursor.hole);
    if !leaves_gap(Addr(addr.0 + want), Addr(addr.0 + stretch.size)) {
        return Err(Refusal::BadStretch);
    }
    let list = link_rest(sound, cursor, block, stretch, want);
    let first = list.first;
    let heads = list.heads;
    let used = h.used - size + want;
    Ok(Decided {
        heap: Heap { first, used, ..h },
        answer: Answer::Resized {
            rounded: want,
            used,
        },
        heads,
    })
}
