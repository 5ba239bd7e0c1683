// The calls on blocks, which a program makes most, on a heap that is lent and changed in place.
//
// Each is its by-value call (crates allocate, free and resize) and no more: the heap behind the reference
// is copied out, handed to the call, and the heap that the call hands back is stored there. So each
// ensures what that call ensures, of the heap as it was when the reference was lent and as it is at the
// end.
#![tactic(auto)]

ghost use Rattle.std.specs.Prelude.{◌≡◌};
ghost use Rattle.rules.specs.Calls as Calls;
ghost use Rattle.rules.specs.Outcome.{after};
ghost use Rattle.in_place.specs.Stored.{Stored};

use rules::{Addr, Answer, Heap, Refusal};

// Grants a block, or refuses: a refusal alters neither the lent heap nor the arena.
pub fn allocate(heap: &mut Heap, arena: &mut [u8], size: u64, align: u64) -> Result<Answer, Refusal>
    ensures { (result ≡ (after (Calls.allocate size align) heap.old arena.old).answer) × (heap.new ≡ (after (Calls.allocate size align) heap.old arena.old).heap) × (arena.new ≡ (after (Calls.allocate size align) heap.old arena.old).arena) }
{
    let done = allocate::allocate(*heap, arena, size, align);
    *heap = done.heap;
    done.answer
}

// Takes a block back, named by its address, size and alignment, or refuses.
pub fn free(
    heap: &mut Heap,
    arena: &mut [u8],
    addr: Addr,
    size: u64,
    align: u64,
) -> Result<Answer, Refusal>
    ensures { (result ≡ (after (Calls.free addr size align) heap.old arena.old).answer) × (heap.new ≡ (after (Calls.free addr size align) heap.old arena.old).heap) × (arena.new ≡ (after (Calls.free addr size align) heap.old arena.old).arena) }
{
    let done = free::free(*heap, arena, addr, size, align);
    *heap = done.heap;
    done.answer
}

// Lets a block grow or shrink where it lies, named by its address, old size and alignment, or refuses.
pub fn resize(
    heap: &mut Heap,
    arena: &mut [u8],
    addr: Addr,
    old: u64,
    align: u64,
    new: u64,
) -> Result<Answer, Refusal>
    ensures { Stored (after (Calls.resize addr old align new) heap.old arena.old) result heap.new arena.new }
{
    let done = resize::resize(*heap, arena, addr, old, align, new);
    *heap = done.heap;
    done.answer
}
