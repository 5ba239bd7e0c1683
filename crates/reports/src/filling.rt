// The rows that list fills.
ghost use Rattle.std.specs.Prelude.{◌≡◌};
ghost use Rattle.rules.specs.Sound.{holes};
ghost use Rattle.rules.specs.Outcome.{rows, in_rows};

use walk::{Sound, behind, first_floor, next};

// Addresses and sizes of the holes in order, as many as the shorter row holds. By index, since a proof knows
// no more than the length of a row that `iter_mut` goes over.
pub fn fill(sound: Sound<'_>, addrs: &mut [u64], sizes: &mut [u64])
    ensures { rows addrs.new sizes.new ≡ in_rows (holes sound.entry.loan.heap sound.entry.loan.arena.now) (rows addrs.old sizes.old) }
{
    let loan = sound.loan;
    let mut at = loan.heap.first;
    let mut floor = first_floor(loan.heap);
    for i in 0..addrs.len().min(sizes.len()) {
        // No further hole. A broken rule is never met: the holes keep them all.
        let Ok(Some(step)) = next(loan, at, floor) else {
            return;
        };
        let hole = step.hole;
        addrs[i] = hole.addr.0;
        sizes[i] = hole.size;
        floor = behind(hole);
        at = step.next;
    }
}
