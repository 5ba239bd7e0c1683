// The call extend, on a heap by value and a lent arena: its tests, its decision, and the decision
// carried out.
#![tactic(auto)]

mod growth;

ghost use Rattle.rules.specs.Calls as Calls;
ghost use Rattle.rules.specs.Outcome.{Is, after};
ghost use Rattle.rules.specs.Inner.{Fulfils};

use growth::extend_top;
use hole::carry_out;
use numbers::lend;
use rules::{Decided, Done, Heap, Refusal};

// What an extension comes to: the tests 3, 4, 5, 9, and the bytes that accumulate or become free.
pub fn decide(h: Heap, arena: &[u8], by: u64) -> Result<Decided, Refusal>
    ensures { Fulfils (after (Calls.extend by) h arena.now) h arena.now result }
{
    let loan = lend(h, arena)?;
    extend_top(loan, by)
}

// Gives the heap `by` bytes more of its arena. It tests 3, 4, 5, 9.
pub fn extend(h: Heap, arena: &mut [u8], by: u64) -> Done
    ensures { Is (after (Calls.extend by) h arena.old) result arena.new }
{
    let d = decide(h, arena, by);
    carry_out(h, arena, d)
}
