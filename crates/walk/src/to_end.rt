// The walk to the end, and the rule that the sizes of all holes add up.
ghost use Rattle.std.specs.Prelude.{◌≡◌, ℕ, ◌+◌, ◌≤◌, eqb};
ghost use Rattle.rules.specs.Fixed.{min_size};
ghost use Rattle.rules.specs.Holes.{holes_from};
ghost use Rattle.rules.specs.Sound.{size, sound_holes, holes};
ghost use Rattle.rules.specs.Inner.{Fair};
ghost use Rattle.walk.specs.Walk.{Enough, walked_of, adds_up, all_free, or_5};

use crate::{behind, first_floor, next};
use numbers::{Loan, fair_size};
use rules::{Addr, Heap, Place, Refusal};

// Every head from a place on, behind a floor, with the sum of the sizes before them. However far the
// list is read, the answer is that of its holes.
pub fn walk(loan: Loan<'_>, from: Place, low: Addr, before: u64) -> Result<u64, Refusal>
    requires { (loan.heap.bottom.0 + before ≤ low.0) × (low.0 ≤ loan.heap.top.0 + min_size) }
    ensures { (n : ℕ) → Enough loan.entry.heap low n → result ≡ walked_of loan.entry.heap low before (holes_from n loan.entry.heap.base loan.entry.arena.now from) }
{
    let mut at = from;
    let mut floor = low;
    let mut total = before;
    loop {
        let Some(step) = next(loan, at, floor)? else {
            break;
        };
        let hole = step.hole;
        total += hole.size;
        floor = behind(hole);
        at = step.next;
    }
    Ok(total)
}

// A sum of sizes is size − used: all that is free.
pub fn is_all_free(h: Heap, total: u64) -> bool
    requires { Fair h }
    ensures { result ≡ eqb (total + h.used) (size h) }
{
    let size = fair_size(h);
    if size < h.used {
        return false;
    }
    total == size - h.used
}

// A walk to the end found every rule kept, and the sum of the sizes is size − used.
pub fn adds_up(h: Heap, walked: Result<u64, Refusal>) -> bool
    requires { Fair h }
    ensures { result ≡ adds_up h walked }
{
    match walked {
        Ok(total) => is_all_free(h, total),
        Err(_) => false,
    }
}

// A sum of sizes is all that is free. Else 5.
pub fn add_up(loan: Loan<'_>, total: u64) -> Result<(), Refusal>
    ensures { result ≡ or_5 (all_free loan.entry.heap total) }
{
    if is_all_free(loan.heap, total) {
        return Ok(());
    }
    Err(Refusal::NotSound)
}

// Finishes a walk: the holes from a place on keep every rule too, and the sizes of all add up. Else 5.
pub fn finish(loan: Loan<'_>, from: Place, low: Addr, before: u64) -> Result<(), Refusal>
    requires { (loan.heap.bottom.0 + before ≤ low.0) × (low.0 ≤ loan.heap.top.0 + min_size) }
    ensures { (n : ℕ) → Enough loan.entry.heap low n → result ≡ or_5 (adds_up loan.entry.heap (walked_of loan.entry.heap low before (holes_from n loan.entry.heap.base loan.entry.arena.now from))) }
{
    let total = walk(loan, from, low, before)?;
    add_up(loan, total)
}

// The heap's holes keep every rule. Else 5.
pub fn sound(loan: Loan<'_>) -> Result<(), Refusal>
    ensures { result ≡ or_5 (sound_holes loan.entry.heap (holes loan.entry.heap loan.entry.arena.now)) }
{
    let first = loan.heap.first;
    finish(loan, first, first_floor(loan.heap), 0)
}
