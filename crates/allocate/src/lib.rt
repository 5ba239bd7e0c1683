// The call allocate, on a heap by value and a lent arena: its tests, its decision, and the decision
// carried out.
#![tactic(auto)]

mod first_fit;
mod split;

ghost use Rattle.rules.specs.Calls as Calls;
ghost use Rattle.rules.specs.Outcome.{Is, after};
ghost use Rattle.rules.specs.Inner.{Fulfils};

use first_fit::allocate_first_fit;
use hole::carry_out;
use numbers::lend;
use request::requested;
use rules::{Decided, Done, Heap, Refusal};

// What a request comes to: the tests 3, 4, 5, 6, 7, and the hole that is used.
pub fn decide(h: Heap, arena: &[u8], size: u64, align: u64) -> Result<Decided, Refusal>
    ensures { Fulfils (after (Calls.allocate size align) h arena.now) h arena.now result }
{
    let loan = lend(h, arena)?;
    let layout = requested(loan, size, align)?;
    allocate_first_fit(loan, layout)
}

// Grants a block: the lowest address, a multiple of `align`, where the rounded size lies in one hole
// and leaves 0 or at least 16 bytes on each side. It tests 3, 4, 5, 6, 7.
pub fn allocate(h: Heap, arena: &mut [u8], size: u64, align: u64) -> Done
    ensures { Is (after (Calls.allocate size align) h arena.old) result arena.new }
{
    let d = decide(h, arena, size, align);
    carry_out(h, arena, d)
}
