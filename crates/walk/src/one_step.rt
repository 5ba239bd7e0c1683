// One step of the walk: the floor that it starts with, and the floor behind a hole.
ghost use Rattle.std.specs.Prelude.{◌≡◌, ◌≤◌};
ghost use Rattle.rules.specs.Fixed.{addr_limit};
ghost use Rattle.rules.specs.Holes as Holes;
ghost use Rattle.rules.specs.Inner as Inner;
ghost use Rattle.rules.specs.Inner.{Fair};
ghost use Rattle.walk.specs.Walk.{start_of, last_of, step_of};

use crate::Step;
use hole::{addr_of, place_of, read_head};
use numbers::Loan;
use rules::{Addr, GRAIN, Heap, Hole, MIN_SIZE, NONE, Place, Refusal};

// The floor of the first head: bottom if it lies there, else 16 bytes on, so that 0 or at least 16
// bytes are left before it.
#[tactic(auto, unfolding(crate::specs::Walk::start_of))]
pub fn first_floor(h: Heap) -> Addr
    requires { Fair h }
    ensures { result ≡ start_of h }
{
    let bottom = h.bottom;
    if h.first == place_of(h.base, bottom) {
        return bottom;
    }
    Addr(bottom.0 + MIN_SIZE)
}

// The floor behind a hole: the next one lies at least 16 bytes behind its end.
pub fn behind(hole: Hole) -> Addr
    requires { (Holes.end hole).0 ≤ addr_limit }
    ensures { result ≡ Inner.behind hole }
{
    Addr(hole.addr.0 + hole.size + MIN_SIZE)
}

// Behind the last head 0 or at least 16 bytes are left.
#[tactic(auto, unfolding(crate::specs::Walk::last_of, rules::specs::Inner::ends))]
fn last(loan: Loan<'_>, floor: Addr) -> Result<Option<Step>, Refusal>
    ensures { result ≡ last_of loan.entry.heap floor }
{
    let top = loan.heap.top;
    if floor <= top {
        return Ok(None);
    }
    if floor == Addr(top.0 + MIN_SIZE) {
        return Ok(None);
    }
    Err(Refusal::NotSound)
}

// What stands at a place, the next hole lying nowhere below the floor: a hole, no further hole, or a
// broken rule. The tests are joined where a head costs fewer instructions so: a place within reach is not
// none, and two multiples of 8 are tested as one, by their `|`.
pub fn next(loan: Loan<'_>, at: Place, floor: Addr) -> Result<Option<Step>, Refusal>
    ensures { result ≡ step_of loan.entry.heap loan.entry.arena.now at floor }
{
    let base = loan.heap.base;
    let top = loan.heap.top;
    if place_of(base, top).0 - MIN_SIZE < at.0 {
        if at == NONE {
            return last(loan, floor);
        }
        return Err(Refusal::NotSound);
    }
    let head = read_head(loan.arena, at);
    let addr = addr_of(base, at);
    let size = head.size;
    if addr < floor {
        return Err(Refusal::NotSound);
    }
    if (addr.0 | size) % GRAIN != 0 {
        return Err(Refusal::NotSound);
    }
    if size < MIN_SIZE {
        return Err(Refusal::NotSound);
    }
    if top.0 - addr.0 < size {
        return Err(Refusal::NotSound);
    }
    let next = head.next;
    Ok(Some(Step {
        hole: Hole { addr, size },
        next,
    }))
}
