// What a report gathers of the holes in one pass, which also tests every rule on them.
ghost use Rattle.std.specs.Prelude.{◌≡◌, ◌+◌, ◌≤◌};
ghost use Rattle.rules.specs.Fixed.{addr_limit, min_size};
ghost use Rattle.rules.specs.Sound.{holes};
ghost use Rattle.rules.specs.Allocate.{grant_of};
ghost use Rattle.reports.specs.Reports.{survey_of};

use crate::Survey;
use layout::Layout;
use numbers::Loan;
use rules::{Hole, MIN_SIZE, Refusal};
use walk::{add_up, behind, candidate, first_floor, next};

// The largest rounded size that a hole has room for at a layout's alignment: what lies from the candidate
// to the hole's end, if that is at least 16; else 0.
fn grant_of(hole: Hole, layout: Layout) -> u64
    requires { (hole.addr.0 + hole.size ≤ addr_limit) × (min_size ≤ hole.size) }
    ensures { result ≡ grant_of layout.align hole }
{
    let addr = hole.addr;
    let start = candidate(addr, layout.align).0;
    let end = addr.0 + hole.size;
    if end < start + MIN_SIZE {
        return 0;
    }
    end - start
}

// The number of holes, and the largest rounded size that one of them has room for at the layout's alignment.
pub fn survey(loan: Loan<'_>, layout: Layout) -> Result<Survey, Refusal>
    ensures { result ≡ survey_of loan.entry.heap layout.align (holes loan.entry.heap loan.entry.arena.now) }
{
    let mut at = loan.heap.first;
    let mut floor = first_floor(loan.heap);
    let mut total: u64 = 0;
    let mut count: u64 = 0;
    let mut largest: u64 = 0;
    loop {
        let Some(step) = next(loan, at, floor)? else {
            break;
        };
        let hole = step.hole;
        total += hole.size;
        count += 1;
        largest = largest.max(grant_of(hole, layout));
        floor = behind(hole);
        at = step.next;
    }
    add_up(loan, total)?;
    Ok(Survey { count, largest })
}
