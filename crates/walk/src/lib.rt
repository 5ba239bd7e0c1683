// The walk over the heads of an arena. A step tests all that document 01 asks of one head, and every
// walk above it goes step by step: to the hole that an allocation uses, to the neighbours of a span, or
// to the end. Each ends with 5 at the first head that breaks a rule. Nothing here writes.
#![tactic(auto)]

mod one_step;
mod settled;
mod to_end;
mod to_fit;
mod to_span;

pub use one_step::{behind, first_floor, next};
use rules::{Addr, Hole, Place};
pub use settled::Sound;
pub use to_end::{add_up, adds_up, finish, is_all_free, sound, walk};
pub use to_fit::{candidate, first_fit, seek};
pub use to_span::neighbours;

// What a step finds, where there is a further hole: the hole, and the place of the next head.
#[derive(Clone, Copy)]
pub struct Step {
    pub hole: Hole,
    pub next: Place,
}

// Two places: of a hole, and of the hole before it, none where it is the first.
#[derive(Clone, Copy)]
pub struct Cursor {
    pub prev: Place,
    pub hole: Place,
}

// The hole that an allocation uses: where it lies, the hole itself, the place of the next one, how
// many holes were looked at, and the sum of their sizes.
#[derive(Clone, Copy)]
pub struct Fit {
    pub cursor: Cursor,
    pub hole: Hole,
    pub next: Place,
    pub count: u64,
    pub total: u64,
}

// What the search for a hole finds: the first that suits; or that none does, with their number and the sum
// of their sizes, whether or not that is all that is free.
#[derive(Clone, Copy)]
pub enum Search {
    At(Fit),
    Nowhere { count: u64, total: u64 },
}

// Where a span lies among the holes: behind `prev` and before `hole`, where these are; the floor
// behind the one and the sum of the sizes up to it.
#[derive(Clone, Copy)]
pub struct Near {
    pub cursor: Cursor,
    pub floor: Addr,
    pub total: u64,
}
