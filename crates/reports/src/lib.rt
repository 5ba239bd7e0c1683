// The two reports on the holes. They change neither heap nor arena.
#![tactic(auto)]

mod filling;
mod gathering;

ghost use Rattle.std.specs.Prelude.{◌≡◌};
ghost use Rattle.rules.specs.Calls as Calls;
ghost use Rattle.rules.specs.Outcome.{after, rows, rows_after};

use filling::fill;
use gathering::survey;
use layout::Layout;
use numbers::{fair_size, lend};
use request::requested;
use rules::{Answer, Heap, MIN_SIZE, Refusal};
use walk::Sound;

// What a report gathers of the holes: their number, and the largest grant.
#[derive(Clone, Copy)]
pub struct Survey {
    pub count: u64,
    pub largest: u64,
}

// The largest rounded size that allocate would grant at the alignment, 0 if none, and the number of
// holes. It tests 3, 4, 5, 6, with the size counted as 16.
pub fn room(h: Heap, arena: &[u8], align: u64) -> Result<Answer, Refusal>
    ensures { result ≡ (after (Calls.room align) h arena.now).answer }
{
    let loan = lend(h, arena)?;
    let layout = requested(loan, MIN_SIZE, align)?;
    let Survey { count, largest } = survey(loan, layout)?;
    Ok(Answer::Room {
        largest,
        holes: count,
    })
}

// The number of holes and the free bytes and, into two lent rows, addresses and sizes in order. It
// tests 3, 4, 5; refused, the rows stay. Of the pass it leaves the largest grant, at alignment 1, unread.
pub fn list(h: Heap, arena: &[u8], addrs: &mut [u64], sizes: &mut [u64]) -> Result<Answer, Refusal>
    ensures { (result ≡ (after Calls.list h arena.now).answer) × (rows addrs.new sizes.new ≡ rows_after Calls.list h arena.now (rows addrs.old sizes.old)) }
{
    let loan = lend(h, arena)?;
    let smallest = Layout {
        size: MIN_SIZE,
        align: 1,
    };
    let found = survey(loan, smallest)?;
    fill(Sound { loan }, addrs, sizes);
    Ok(Answer::Listed {
        holes: found.count,
        free: fair_size(h) - h.used,
    })
}
