// A hole's head read: its size, then the place of the next head, each eight bytes, low byte first.
ghost use Rattle.std.specs.Prelude.{◌≡◌, ◌+◌, ◌≤◌, length};
ghost use Rattle.rules.specs.Fixed.{min_size};
ghost use Rattle.rules.specs.Words.{word};
ghost use Rattle.rules.specs.Holes.{head_at};
ghost use Rattle.rules.specs.Inner.{Bytes};

use rules::{Head, Place};

// The number in the eight bytes from an index on.
#[tactic(auto, using(crate::proofs::Words::word_between))]
fn read_word(m: &[u8], i: usize) -> u64
    requires { i + 8 ≤ length m.now }
    ensures { result ≡ word 8 m.now i }
{
    u64::from_le_bytes(m[i..i + 8].try_into().unwrap())
}

// The length of an arena; and what is lent are bytes.
pub fn arena_len(arena: &[u8]) -> u64
    ensures { (result ≡ length arena.now) × Bytes arena.now }
{
    arena.len() as u64
}

// The head at a place.
#[tactic(auto, unfolding(rules::specs::Holes::head_at))]
pub fn read_head(arena: &[u8], at: Place) -> Head
    requires { at.0 + min_size ≤ length arena.now }
    ensures { result ≡ head_at arena.now at }
{
    let i = at.0 as usize;
    Head {
        size: read_word(arena, i),
        next: Place(read_word(arena, i + 8)),
    }
}
