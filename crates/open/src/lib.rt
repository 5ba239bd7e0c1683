// Opening: an unopened heap, and the call that makes a heap of an arena: its tests, its decision, and
// the decision carried out. No public function has a `requires`.
#![tactic(auto)]

ghost use Rattle.std.specs.Prelude.{◌≡◌, false, List, ℕ, length};
ghost use Rattle.rules.specs.Tests.{any};
ghost use Rattle.rules.specs.Kinds.{none};
ghost use Rattle.rules.specs.Sound.{unopened};
ghost use Rattle.rules.specs.Calls as Calls;
ghost use Rattle.rules.specs.Calls.{opened};
ghost use Rattle.rules.specs.Refusals.{refusal1};
ghost use Rattle.rules.specs.Outcome.{Is, after};
ghost use Rattle.rules.specs.Inner.{Fulfils};

use align::align_up;
use hole::{arena_len, carry_out, place_of};
use numbers::{bad_opening, fair_size};
use rules::{Addr, Answer, Decided, Done, GRAIN, Head, Heap, NONE, Place, Refusal, Write, Writes};

// An unopened heap: bottom is 0 and so is the rest.
pub fn empty() -> Heap
    ensures { result ≡ unopened }
{
    Heap {
        base: Addr(0),
        len: 0,
        bottom: Addr(0),
        top: Addr(0),
        first: Place(0),
        pending: 0,
        used: 0,
    }
}

// The heap that an opening makes of the named bytes of an arena.
fn new(len: u64, base: Addr, named: u64) -> Heap
    requires { any (refusal1 len base named) ≡ false }
    ensures { result ≡ opened len base named }
{
    let bottom = align_up(base, GRAIN);
    let left = named - (bottom.0 - base.0);
    let pending = left % GRAIN;
    let size = left - pending;
    let first = place_of(base, bottom);
    Heap {
        base,
        len,
        bottom,
        top: Addr(bottom.0 + size),
        first,
        pending,
        used: 0,
    }
}

// What an opening comes to on any arena of `len` bytes, since it reads none of them: the tests 2 and 1,
// and the one hole that the heap begins with.
pub fn decide(h: Heap, len: u64, base: Addr, named: u64) -> Result<Decided, Refusal>
    ensures { (m : List ℕ) → length m ≡ len → Fulfils (after (Calls.opening base named) h m) h m result }
{
    if h.bottom != Addr(0) {
        return Err(Refusal::AlreadyOpened);
    }
    if bad_opening(len, base, named) {
        return Err(Refusal::BadOpening);
    }
    let heap = new(len, base, named);
    let bottom = heap.bottom;
    let size = fair_size(heap);
    let head = Head { size, next: NONE };
    Ok(Decided {
        heap,
        answer: Answer::Opened { bottom, size },
        heads: Writes {
            one: Some(Write {
                at: heap.first,
                head,
            }),
            two: None,
        },
    })
}

// Opens a heap on the first `named` bytes of the arena, whose first byte has the address `base`. It
// tests 2, then 1.
pub fn open(h: Heap, arena: &mut [u8], base: Addr, named: u64) -> Done
    ensures { Is (after (Calls.opening base named) h arena.old) result arena.new }
{
    let decided = decide(h, arena_len(arena), base, named);
    carry_out(h, arena, decided)
}
