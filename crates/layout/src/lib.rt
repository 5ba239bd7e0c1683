// The layout of a request: its rounded size and its alignment, or none where refusal 6 is due. No function
// here has a `requires`: any two numbers may be asked for.
#![tactic(auto)]

mod valid;

ghost use Rattle.std.specs.Prelude.{◌≡◌, None, MatchOption};
ghost use Rattle.rules.specs.Fixed.{min_size};
ghost use Rattle.rules.specs.Refusals.{layout_of};
ghost use Rattle.layout.specs.Lays.{Lays};

use align::align_up_size;
use rules::{ADDR_LIMIT, GRAIN, MIN_SIZE};
pub use valid::Layout;

// The least size of a hole: the bytes of its head.
pub fn min_size() -> u64
    ensures { result ≡ min_size }
{
    MIN_SIZE
}

// The layout that a request has: the larger of `size` and the least size, rounded up to a multiple
// of 8, or none where refusal 6 is due. The alignment is known by its count of ones, where the
// original trusts its `Layout`. A size above 2^63 is refused before any sum, which could wrap.
pub fn align_layout(size: u64, align: u64) -> Option<Layout>
    ensures { MatchOption result (layout_of size align ≡ None) (Lays size align) }
{
    if u64::count_ones(align) != 1 {
        return None;
    }
    if ADDR_LIMIT < size {
        return None;
    }
    let rounded = align_up_size(size.max(MIN_SIZE), GRAIN);
    if ADDR_LIMIT - align < rounded {
        return None;
    }
    Some(Layout {
        size: rounded,
        align,
    })
}
