// The walk to the neighbours of a span.
ghost use Rattle.std.specs.Prelude.{◌≡◌};
ghost use Rattle.rules.specs.Sound.{holes};
ghost use Rattle.walk.specs.Walk.{near_of};

use crate::{Cursor, Near, behind, first_floor, next};
use numbers::Loan;
use rules::{Addr, NONE, Refusal};

// The last hole that lies at or before an address, and the first that lies beyond it.
pub fn neighbours(loan: Loan<'_>, addr: Addr) -> Result<Near, Refusal>
    ensures { result ≡ near_of loan.entry.heap addr (holes loan.entry.heap loan.entry.arena.now) }
{
    let first = loan.heap.first;
    let mut cursor = Cursor {
        prev: NONE,
        hole: first,
    };
    let mut floor = first_floor(loan.heap);
    let mut total: u64 = 0;
    loop {
        let Some(step) = next(loan, cursor.hole, floor)? else {
            break;
        };
        let hole = step.hole;
        if addr < hole.addr {
            break;
        }
        total += hole.size;
        floor = behind(hole);
        cursor = Cursor {
            prev: cursor.hole,
            hole: step.next,
        };
    }
    Ok(Near {
        cursor,
        floor,
        total,
    })
}
