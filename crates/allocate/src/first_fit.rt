// The first suiting hole, once the rest of the walk has shown that the heap is sound.
ghost use Rattle.rules.specs.Inner.{Fulfils};
ghost use Rattle.allocate.specs.Granted.{granted_if_sound};

use crate::split::split_current;
use layout::Layout;
use numbers::Loan;
use rules::{Decided, Refusal};
use walk::{Sound, behind, finish, first_fit};

// Grants the first hole that suits a layout, or refuses with 5 or 7.
pub fn allocate_first_fit(loan: Loan<'_>, layout: Layout) -> Result<Decided, Refusal>
    ensures { Fulfils (granted_if_sound layout.size layout.align loan.entry.heap loan.entry.arena.now) loan.entry.heap loan.entry.arena.now result }
{
    let fit = first_fit(loan, layout)?;
    let floor = behind(fit.hole);
    finish(loan, fit.next, floor, fit.total)?;
    Ok(split_current(Sound { loan }, fit, layout))
}
