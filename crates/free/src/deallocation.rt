// A span of rounded size that becomes free.
ghost use Rattle.rules.specs.Inner.{Fulfils};
ghost use Rattle.free.specs.SpanTests.{freed_if_sound};

use crate::find::find_span;
use joining::insert;
use layout::Layout;
use numbers::Loan;
use rules::{Addr, Answer, Decided, Heap, Hole, Refusal};
use walk::Sound;

// Frees the span at an address, or refuses with 5 or 8.
pub fn deallocate(loan: Loan<'_>, addr: Addr, layout: Layout) -> Result<Decided, Refusal>
    ensures { Fulfils (freed_if_sound layout.size addr layout.align loan.entry.heap loan.entry.arena.now) loan.entry.heap loan.entry.arena.now result }
{
    let cursor = find_span(loan, addr, layout)?;
    let sound = Sound { loan };
    let h = loan.heap;
    let size = layout.size;
    let list = insert(sound, cursor, Hole { addr, size });
    let first = list.first;
    let heads = list.heads;
    let used = h.used - size;
    Ok(Decided {
        heap: Heap { first, used, ..h },
        answer: Answer::Freed {
            rounded: size,
            used,
        },
        heads,
    })
}
