// A decided change written: a refused call decides to write nothing, an accepted one at most two heads.
ghost use Rattle.std.specs.Prelude.{◌≡◌, ◌+◌, ◌≤◌, length};
ghost use Rattle.rules.specs.Fixed.{min_size};
ghost use Rattle.rules.specs.Kinds.{place};
ghost use Rattle.rules.specs.Words.{store};
ghost use Rattle.rules.specs.Holes.{put_head};
ghost use Rattle.rules.specs.Inner as Inner;
ghost use Rattle.rules.specs.Inner.{Lands, Writable, carried, written};
ghost use Rattle.rules.specs.Outcome.{Is};

use rules::{Decided, Done, Head, Heap, Place, Refusal, Write, Writes};

// Writes a number into the eight bytes from an index on.
#[tactic(auto, using(crate::proofs::Words::put_between))]
fn put_word(m: &mut [u8], i: usize, x: u64)
    requires { i + 8 ≤ length m.old }
    ensures { m.new ≡ store 8 m.old i x }
{
    m[i..i + 8].copy_from_slice(&x.to_le_bytes());
}

// The head writer: it makes a hole of the sixteen bytes that it is lent.
#[tactic(auto, unfolding(rules::specs::Holes::put_head))]
fn make_hole(head: &mut [u8], size: u64, next: Place)
    requires { length head.old ≡ min_size }
    ensures { head.new ≡ put_head head.old (place 0) (record { size = size; next = next }) }
{
    put_word(head, 0, size);
    put_word(head, 8, next.0);
}

// Writes a head at a place of the arena: the head writer is lent its sixteen bytes.
fn put_head(arena: &mut [u8], at: Place, head: Head)
    requires { at.0 + min_size ≤ length arena.old }
    ensures { arena.new ≡ put_head arena.old at head }
{
    let i = at.0 as usize;
    let next = head.next;
    make_hole(&mut arena[i..i + 16], head.size, next);
}

// Writes a head at its place, if there is one.
#[tactic(auto, unfolding(rules::specs::Inner::put))]
fn put(arena: &mut [u8], w: Option<Write>)
    requires { Lands arena.old w }
    ensures { arena.new ≡ Inner.put w arena.old }
{
    if let Some(w) = w {
        put_head(arena, w.at, w.head);
    }
}

// Writes the heads that a call decided. Nothing else writes a head.
#[tactic(auto, unfolding(rules::specs::Inner::written))]
pub fn write(arena: &mut [u8], heads: Writes)
    requires { Lands arena.old heads.one × Lands arena.old heads.two }
    ensures { arena.new ≡ written heads arena.old }
{
    put(arena, heads.one);
    put(arena, heads.two);
}

// Carries out what a call decided, and gives back its heap and its answer. A refused call leaves heap and
// arena as they are.
#[tactic(auto, unfolding(rules::specs::Inner::carried))]
pub fn carry_out(h: Heap, arena: &mut [u8], decided: Result<Decided, Refusal>) -> Done
    requires { Writable arena.old decided }
    ensures { Is (carried h arena.old decided) result arena.new }
{
    match decided {
        Ok(d) => {
            write(arena, d.heads);
            Done {
                heap: d.heap,
                answer: Ok(d.answer),
            }
        }
        Err(r) => Done {
            heap: h,
            answer: Err(r),
        },
    }
}
