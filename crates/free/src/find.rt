// The search for a span that could have been held: the walk over the holes decides 5, the span's neighbours
// decide 8.
ghost use Rattle.std.specs.Prelude.{MatchResult};
ghost use Rattle.free.specs.Spans.{Spans, Unfit};

use crate::span::may_free;
use layout::Layout;
use numbers::Loan;
use rules::{Addr, Hole, Refusal};
use walk::{Cursor, finish, neighbours};

// The neighbours of the span at an address that is as long as the layout says; or 5 or 8, if no such span
// could have been held.
pub fn find_span(loan: Loan<'_>, addr: Addr, layout: Layout) -> Result<Cursor, Refusal>
    ensures { MatchResult result (Spans loan.entry.heap loan.entry.arena.now addr layout.size layout.align) (Unfit loan.entry.heap loan.entry.arena.now addr layout.size layout.align) }
{
    let near = neighbours(loan, addr)?;
    let cursor = near.cursor;
    finish(loan, cursor.hole, near.floor, near.total)?;
    let span = Hole {
        addr,
        size: layout.size,
    };
    if !may_free(loan.heap, near, span, layout.align) {
        return Err(Refusal::BadSpan);
    }
    Ok(cursor)
}
