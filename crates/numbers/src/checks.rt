// The tests on the heap's numbers alone.
ghost use Rattle.std.specs.Prelude.{◌≡◌, Err, MatchResult, ◌≤◌, length};
ghost use Rattle.rules.specs.Tests.{any};
ghost use Rattle.rules.specs.Sound.{size, sound_numbers};
ghost use Rattle.rules.specs.Refusals.{refusal1};
ghost use Rattle.numbers.specs.Checks.{Based, checked_of};
ghost use Rattle.numbers.specs.Lends.{Lends};

use crate::Loan;
use align::align_up;
use hole::arena_len;
use rules::{ADDR_LIMIT, ARENA_LIMIT, Addr, GRAIN, Heap, MIN_SIZE, Refusal};

// The bytes between bottom and top, of a heap whose numbers keep their rules: it needs no more of them
// than this order.
pub fn fair_size(h: Heap) -> u64
    requires { h.bottom.0 ≤ h.top.0 }
    ensures { result ≡ size h }
{
    h.top.0 - h.bottom.0
}

// The rules on top and pending, once those on base and bottom hold.
fn sound_top(h: Heap) -> bool
    requires { Based h }
    ensures { result ≡ sound_numbers h }
{
    if h.top < h.bottom {
        return false;
    }
    let size = fair_size(h);
    if size % GRAIN != 0 {
        return false;
    }
    if size < MIN_SIZE {
        return false;
    }
    if 15 < h.pending {
        return false;
    }
    let end = Addr(h.base.0 + h.len);
    if end < h.top {
        return false;
    }
    h.pending <= end.0 - h.top.0
}

// The rules of soundness that stand before the list on holes. Any numbers may be asked about: no sum
// or difference is taken before a test that lets it fit.
pub fn sound_numbers(h: Heap) -> bool
    ensures { result ≡ sound_numbers h }
{
    let base = h.base;
    if base == Addr(0) {
        return false;
    }
    if ARENA_LIMIT < h.len {
        return false;
    }
    if ADDR_LIMIT - h.len < base.0 {
        return false;
    }
    let bottom = align_up(base, GRAIN);
    if h.bottom != bottom {
        return false;
    }
    sound_top(h)
}

// Refusals 3, 4, and 5 as far as the heap's numbers earn it.
#[tactic(auto, unfolding(crate::specs::Checks::checked_of))]
pub fn check(h: Heap, len: u64) -> Result<(), Refusal>
    ensures { result ≡ checked_of len h }
{
    if h.bottom == Addr(0) {
        return Err(Refusal::Unopened);
    }
    if len != h.len {
        return Err(Refusal::OtherLength);
    }
    if sound_numbers(h) {
        return Ok(());
    }
    Err(Refusal::NotSound)
}

// The arena on loan to the heap, or one of these refusals.
pub fn lend(h: Heap, arena: &[u8]) -> Result<Loan<'_>, Refusal>
    ensures { MatchResult result (Lends h arena.now) (λ r. checked_of (length arena.now) h ≡ Err r) }
{
    check(h, arena_len(arena))?;
    Ok(Loan { heap: h, arena })
}

// Refusal 1.
pub fn bad_opening(len: u64, base: Addr, named: u64) -> bool
    ensures { result ≡ any (refusal1 len base named) }
{
    if base == Addr(0) {
        return true;
    }
    if ARENA_LIMIT < len {
        return true;
    }
    if ADDR_LIMIT - len < base.0 {
        return true;
    }
    if len < named {
        return true;
    }
    named < align_up(base, GRAIN).0 - base.0 + MIN_SIZE
}
