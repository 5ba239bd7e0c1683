// Rounding to an alignment: the leaves of the original's lib.rs. Each function asks for a power of
// two, where the original panics: callers test the alignment first, and refuse with 6. An alignment
// of 0, which the original passes through, is no power of two either. The alignment stays a number with a
// `requires`, as in the original: most callers pass 8.
#![tactic(auto)]

ghost use Rattle.std.specs.Prelude.{◌≡◌, ◌+◌, ◌%◌, ◌^◌, ◌≤◌};
ghost use Rattle.rules.specs.Round.{Power, Below, Above};
ghost use Rattle.rules.specs.Fixed.{width};

use rules::Addr;

// How far a number lies above the multiple of `align` at or below it. The mask takes what a division
// would.
pub fn offset(x: u64, align: u64) -> u64
    requires { Power align }
    ensures { result ≡ x % align }
{
    x & (align - 1)
}

// Rounds a size down: the result is the greatest multiple of `align` at or below `size`. One mask
// clears the digits below the alignment's own. The panic on a bad alignment went to the callers'
// refusal 6.
pub fn align_down_size(size: u64, align: u64) -> u64
    requires { Power align }
    ensures { Below align size result }
{
    size & !(align - 1)
}

// Rounds a size up: the result is the least multiple of `align` at or above `size`. No sum wraps,
// since the caller shows that there is room for the alignment above `size`. The panic on a bad
// alignment went to the callers' refusal 6.
pub fn align_up_size(size: u64, align: u64) -> u64
    requires { (Power align) × (size + align ≤ 2 ^ width) }
    ensures { Above align size result }
{
    align_down_size(size + (align - 1), align)
}

// Rounds an address up: the result is the first address at or after `addr` that is a multiple of
// `align`. It asks for the same room as `align_up_size`, and here too the panic on a bad alignment
// went to the callers' refusal 6.
pub fn align_up(addr: Addr, align: u64) -> Addr
    requires { (Power align) × (addr.0 + align ≤ 2 ^ width) }
    ensures { Above align addr.0 result.0 }
{
    Addr(align_up_size(addr.0, align))
}
