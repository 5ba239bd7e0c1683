// Heads in the arena's bytes: a head read, and a decided change written, by the only writer there is. An
// address becomes a place here, and back. No other crate reads or writes the arena.
#![tactic(auto)]

mod places;
mod reads;
mod writes;

pub use places::{addr_of, place_of};
pub use reads::{arena_len, read_head};
pub use writes::{carry_out, write};
