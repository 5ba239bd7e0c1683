// The layout that a call asks for: the test of 6, which comes behind 5. Allocate, free, resize and room
// make it. `check` makes it of any heap and arena, with the tests of 3, 4 and 5 that come before it.
#![tactic(auto)]

ghost use Rattle.std.specs.Prelude.{◌≡◌, IfOk, MatchResult};
ghost use Rattle.rules.specs.Inner.{Bytes};
ghost use Rattle.layout.specs.Lays.{Lays};
ghost use Rattle.request.specs.Requested.{Denied, request_of};

use layout::{Layout, align_layout};
use numbers::{Loan, lend};
use rules::{Heap, Refusal};
use walk::sound;

// The layout that is asked for, or a refusal. A bad one is refused with 6 only where the holes keep every
// rule: 5 comes first. Where the layout is good, the holes are left to the walk that looks for a hole or
// for a span.
pub fn requested(loan: Loan<'_>, size: u64, align: u64) -> Result<Layout, Refusal>
    ensures { MatchResult result (Lays size align) (Denied loan.entry.heap loan.entry.arena.now size align) }
{
    let Some(layout) = align_layout(size, align) else {
        if let Err(r) = sound(loan) {
            return Err(r);
        }
        return Err(Refusal::BadLayout);
    };
    Ok(layout)
}

// Tests 3, 4, 5 and 6 of any heap, any arena and any request: the layout that is asked for, or the first refusal
// that is due; and what is lent are bytes.
pub fn check(h: Heap, arena: &[u8], size: u64, align: u64) -> Result<Layout, Refusal>
    ensures is { MatchResult result (λ l. request_of h arena.now size align ≡ Ok l.size) (λ r. request_of h arena.now size align ≡ Err r) }
    ensures aligned { IfOk result (λ l. l.align ≡ align) }
    ensures bytes { Bytes arena.now }
{
    let loan = lend(h, arena)?;
    requested(loan, size, align)
}
