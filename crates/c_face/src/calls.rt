// The exports that may change the heap: the calls of crates open, allocate, free, resize and extend, each
// decided on the heap that the words say.
ghost use Rattle.rules.specs.Kinds.{addr};
ghost use Rattle.rules.specs.Calls as Calls;
ghost use Rattle.rules.specs.Outcome.{after};
ghost use Rattle.rules.specs.Inner.{Writable, carried};
ghost use Rattle.c_face.specs.Face.{heap_of, Shows};

use crate::words::{load, store, tell};
use hole::{arena_len, write};
use rules::{Addr, Decided, Refusal};

// Puts what a call decided into the words of its heap and its answer, and then writes its heads. The words
// go first: nothing tells the compiler that the lent arrays do not overlap, and a head stored before
// them would keep every word of the heap alive through the search. A refused call's heap keeps its words.
fn carry_out(
    heap: &mut [u64; 7],
    arena: &mut [u8],
    answer: &mut [u64; 2],
    decided: Result<Decided, Refusal>,
) -> u64
    requires { Writable arena.old decided }
    ensures { Shows (carried (heap_of heap.old) arena.old decided) result heap.new answer.new arena.new }
{
    match decided {
        Ok(d) => {
            store(heap, d.heap);
            let n = tell(answer, Ok(d.answer));
            write(arena, d.heads);
            n
        }
        Err(r) => tell(answer, Err(r)),
    }
}

// Opens the heap on the first `named` bytes of the arena. Bottom, size.
#[unsafe(no_mangle)]
pub extern "C" fn lantern_open(
    heap: &mut [u64; 7],
    arena: &mut [u8],
    base: u64,
    named: u64,
    answer: &mut [u64; 2],
) -> u64
    ensures { Shows (after (Calls.opening (addr base) named) (heap_of heap.old) arena.old) result heap.new answer.new arena.new }
{
    let d = open::decide(load(heap), arena_len(arena), Addr(base), named);
    carry_out(heap, arena, answer, d)
}

// Grants a block. Its address, the count of holes looked at.
#[unsafe(no_mangle)]
pub extern "C" fn lantern_allocate(
    heap: &mut [u64; 7],
    arena: &mut [u8],
    size: u64,
    align: u64,
    answer: &mut [u64; 2],
) -> u64
    ensures { Shows (after (Calls.allocate size align) (heap_of heap.old) arena.old) result heap.new answer.new arena.new }
{
    let d = allocate::decide(load(heap), arena, size, align);
    carry_out(heap, arena, answer, d)
}

// Takes the block at the address `at` back. Rounded size, used.
#[unsafe(no_mangle)]
pub extern "C" fn lantern_free(
    heap: &mut [u64; 7],
    arena: &mut [u8],
    at: u64,
    size: u64,
    align: u64,
    answer: &mut [u64; 2],
) -> u64
    ensures { Shows (after (Calls.free (addr at) size align) (heap_of heap.old) arena.old) result heap.new answer.new arena.new }
{
    let d = free::decide(load(heap), arena, Addr(at), size, align);
    carry_out(heap, arena, answer, d)
}

// Lets the block at the address `at` grow or shrink where it lies. New rounded size, used.
#[unsafe(no_mangle)]
pub extern "C" fn lantern_resize(
    heap: &mut [u64; 7],
    arena: &mut [u8],
    at: u64,
    old: u64,
    align: u64,
    new: u64,
    answer: &mut [u64; 2],
) -> u64
    ensures { Shows (after (Calls.resize (addr at) old align new) (heap_of heap.old) arena.old) result heap.new answer.new arena.new }
{
    let d = resize::decide(load(heap), arena, Addr(at), old, align, new);
    carry_out(heap, arena, answer, d)
}

// Gives the heap `by` bytes more of its arena. Size, pending.
#[unsafe(no_mangle)]
pub extern "C" fn lantern_extend(
    heap: &mut [u64; 7],
    arena: &mut [u8],
    by: u64,
    answer: &mut [u64; 2],
) -> u64
    ensures { Shows (after (Calls.extend by) (heap_of heap.old) arena.old) result heap.new answer.new arena.new }
{
    let d = extend::decide(load(heap), arena, by);
    carry_out(heap, arena, answer, d)
}
