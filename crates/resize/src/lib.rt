// The call resize, on a heap by value and a lent arena: its tests, its decision, and the decision
// carried out.
#![tactic(auto)]

mod fitting;

ghost use Rattle.rules.specs.Calls as Calls;
ghost use Rattle.rules.specs.Outcome.{Is, after};
ghost use Rattle.rules.specs.Inner.{Fulfils};

use fitting::refit;
use hole::carry_out;
use numbers::lend;
use request::requested;
use rules::{Addr, Decided, Done, Heap, Refusal};

// What a block of another size comes to: the tests 3, 4, 5, 6 for the old layout and for the new one, 8,
// 10, and the rest of its stretch.
pub fn decide(
    h: Heap,
    arena: &[u8],
    addr: Addr,
    old: u64,
    align: u64,
    new: u64,
) -> Result<Decided, Refusal>
    ensures { Fulfils (after (Calls.resize addr old align new) h arena.now) h arena.now result }
{
    let loan = lend(h, arena)?;
    let held = requested(loan, old, align)?;
    let want = requested(loan, new, align)?;
    refit(loan, addr, held, want)
}

// Lets a block grow or shrink where it lies, named by its address, old size and alignment. It tests 3,
// 4, 5, 6 for either layout, 8, 10.
pub fn resize(h: Heap, arena: &mut [u8], addr: Addr, old: u64, align: u64, new: u64) -> Done
    ensures { Is (after (Calls.resize addr old align new) h arena.old) result arena.new }
{
    let d = decide(h, arena, addr, old, align, new);
    carry_out(h, arena, d)
}
