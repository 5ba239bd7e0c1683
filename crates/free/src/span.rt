// The tests of a span that is to become free: refusal 8.
ghost use Rattle.std.specs.Prelude.{◌≡◌, ◌+◌, ◌≤◌};
ghost use Rattle.rules.specs.Round.{Power};
ghost use Rattle.free.specs.SpanTests.{Around, keeps_gap, inside_of, between_of, may_free};

use align::offset;
use hole::addr_of;
use rules::{Addr, GRAIN, Heap, Hole, MIN_SIZE, NONE};
use walk::Near;

// 0 or at least 16 bytes lie between two addresses that are multiples of 8, the first not above the
// second.
#[tactic(auto, unfolding(crate::specs::SpanTests::keeps_gap))]
fn keeps_gap(lo: Addr, hi: Addr) -> bool
    ensures { result ≡ keeps_gap lo hi }
{
    lo <= hi && hi.0 - lo.0 != GRAIN
}

// The span lies inside [bottom, top) and leaves no 8 bytes to either.
#[tactic(auto, unfolding(crate::specs::SpanTests::keeps_gap, crate::specs::SpanTests::inside_of))]
fn inside(h: Heap, span: Hole) -> bool
    ensures { result ≡ inside_of h span }
{
    let bottom = h.bottom;
    let top = h.top;
    let addr = span.addr;
    addr <= top
        && span.size <= top.0 - addr.0
        && keeps_gap(bottom, addr)
        && keeps_gap(Addr(addr.0 + span.size), top)
}

// The span overlaps neither neighbour and leaves no 8 bytes to either.
#[tactic(auto, unfolding(crate::specs::SpanTests::between_of))]
fn between(h: Heap, near: Near, span: Hole) -> bool
    requires { Around h near × (span.addr.0 + span.size ≤ h.top.0) }
    ensures { result ≡ between_of h near span }
{
    let base = h.base;
    let addr = span.addr;
    let prev = near.cursor.prev;
    let hole = near.cursor.hole;
    (prev == NONE || keeps_gap(Addr(near.floor.0 - MIN_SIZE), addr))
        && (hole == NONE || keeps_gap(Addr(addr.0 + span.size), addr_of(base, hole)))
}

// Refusal 8 is not due.
#[tactic(auto, using(crate::proofs::Gaps::inside_end), unfolding(crate::specs::SpanTests::may_free))]
pub fn may_free(h: Heap, near: Near, span: Hole, align: u64) -> bool
    requires { Power align × Around h near }
    ensures { result ≡ may_free h near span align }
{
    let addr = span.addr.0;
    addr % GRAIN == 0 && offset(addr, align) == 0 && inside(h, span) && between(h, near, span)
}
