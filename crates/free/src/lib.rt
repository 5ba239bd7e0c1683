// The call free, on a heap by value and a lent arena: its tests, its decision, and the decision
// carried out.
#![tactic(auto)]

mod deallocation;
mod find;
mod span;

ghost use Rattle.rules.specs.Calls as Calls;
ghost use Rattle.rules.specs.Outcome.{Is, after};
ghost use Rattle.rules.specs.Inner.{Fulfils};

use deallocation::deallocate;
pub use find::find_span;
use hole::carry_out;
use numbers::lend;
use request::requested;
use rules::{Addr, Decided, Done, Heap, Refusal};
pub use span::may_free;

// What a block given back comes to: the tests 3, 4, 5, 6, 8, and the span that becomes free.
pub fn decide(h: Heap, arena: &[u8], addr: Addr, size: u64, align: u64) -> Result<Decided, Refusal>
    ensures { Fulfils (after (Calls.free addr size align) h arena.now) h arena.now result }
{
    let loan = lend(h, arena)?;
    let layout = requested(loan, size, align)?;
    deallocate(loan, addr, layout)
}

// Takes a block back, named by its address, size and alignment. It tests 3, 4, 5, 6, 8.
pub fn free(h: Heap, arena: &mut [u8], addr: Addr, size: u64, align: u64) -> Done
    ensures { Is (after (Calls.free addr size align) h arena.old) result arena.new }
{
    let d = decide(h, arena, addr, size, align);
    carry_out(h, arena, d)
}
