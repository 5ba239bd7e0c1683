// An address becomes a place, and a place an address, through the base. No other function opens both
// kinds of number.
ghost use Rattle.std.specs.Prelude.{◌≡◌, ◌+◌, ◌^◌, ◌≤◌, ◌<◌};
ghost use Rattle.rules.specs.Fixed.{width};
ghost use Rattle.rules.specs.Kinds.{addr_of, place_of};

use rules::{Addr, Place};

// The address of a place.
pub fn addr_of(base: Addr, p: Place) -> Addr
    requires { base.0 + p.0 < 2 ^ width }
    ensures { result ≡ addr_of base p }
{
    Addr(base.0 + p.0)
}

// The place of an address that lies at the base or behind it.
pub fn place_of(base: Addr, a: Addr) -> Place
    requires { base.0 ≤ a.0 }
    ensures { result ≡ place_of base a }
{
    Place(a.0 - base.0)
}
