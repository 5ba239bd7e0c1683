// The walk to the hole that an allocation uses.
ghost use Rattle.std.specs.Prelude.{◌≡◌, ◌+◌, ◌≤◌};
ghost use Rattle.rules.specs.Fixed.{addr_limit, min_size};
ghost use Rattle.rules.specs.Round.{Power};
ghost use Rattle.rules.specs.Allocate as Allocate;
ghost use Rattle.rules.specs.Sound.{holes};
ghost use Rattle.walk.specs.Walk.{searched_of, search_of};

use crate::{Cursor, Fit, Search, add_up, behind, first_floor, next};
use align::{align_up, offset};
use layout::Layout;
use numbers::Loan;
use rules::{Addr, Hole, MIN_SIZE, NONE, Refusal};

// Where a block of the alignment would start in a hole at an address.
pub fn candidate(addr: Addr, align: u64) -> Addr
    requires { (Power align) × (align ≤ addr_limit) × (addr.0 + min_size ≤ addr_limit) }
    ensures { result ≡ Allocate.candidate align addr }
{
    if offset(addr.0, align) == 0 {
        return addr;
    }
    align_up(Addr(addr.0 + MIN_SIZE), align)
}

// The rounded size fits in the hole, and what remains behind is 0 or at least 16.
fn suits(hole: Hole, layout: Layout) -> bool
    requires { (hole.addr.0 + hole.size ≤ addr_limit) × (min_size ≤ hole.size) }
    ensures { result ≡ Allocate.suits layout.size layout.align hole }
{
    let want = layout.size;
    let size = hole.size;
    if size < want {
        return false;
    }
    let addr = hole.addr;
    let stop = candidate(addr, layout.align).0 + want;
    let end = addr.0 + size;
    if end < stop {
        return false;
    }
    if stop == end {
        return true;
    }
    stop + MIN_SIZE <= end
}

// The first hole that suits: the walk stops there and yields that hole. Where none does, what it has
// counted and summed. Kept out of its callers, its loop has the registers to itself: a head costs fewer
// instructions.
#[inline(never)]
pub fn seek(loan: Loan<'_>, layout: Layout) -> Result<Search, Refusal>
    ensures { result ≡ searched_of loan.entry.heap layout.size layout.align (holes loan.entry.heap loan.entry.arena.now) }
{
    let first = loan.heap.first;
    let mut cursor = Cursor {
        prev: NONE,
        hole: first,
    };
    let mut floor = first_floor(loan.heap);
    let mut total: u64 = 0;
    let mut count: u64 = 0;
    let found = loop {
        let Some(step) = next(loan, cursor.hole, floor)? else {
            return Ok(Search::Nowhere { count, total });
        };
        let hole = step.hole;
        total += hole.size;
        count += 1;
        if suits(hole, layout) {
            break step;
        }
        floor = behind(hole);
        cursor = Cursor {
            prev: cursor.hole,
            hole: step.next,
        };
    };
    Ok(Search::At(Fit {
        cursor,
        hole: found.hole,
        next: found.next,
        count,
        total,
    }))
}

// The first hole that suits. None does: 7, if the sizes of all add up.
pub fn first_fit(loan: Loan<'_>, layout: Layout) -> Result<Fit, Refusal>
    ensures { result ≡ search_of loan.entry.heap layout.size layout.align (holes loan.entry.heap loan.entry.arena.now) }
{
    match seek(loan, layout)? {
        Search::At(fit) => Ok(fit),
        Search::Nowhere { count, total } => {
            add_up(loan, total)?;
            Err(Refusal::NoRoom { holes: count })
        }
    }
}
