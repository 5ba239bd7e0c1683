// The exports that only read the heap and its arena: the two reports of crate reports.
ghost use Rattle.rules.specs.Calls as Calls;
ghost use Rattle.rules.specs.Outcome.{after, rows};
ghost use Rattle.c_face.specs.Face.{heap_of, Tells, Lists};

use crate::words::{load, tell};

// The largest rounded size that allocate would grant at the alignment, the number of holes. Heap and
// arena are only read.
#[unsafe(no_mangle)]
pub extern "C" fn lantern_room(
    heap: &[u64; 7],
    arena: &[u8],
    align: u64,
    answer: &mut [u64; 2],
) -> u64
    ensures { Tells (after (Calls.room align) (heap_of heap.now) arena.now).answer result answer.new }
{
    tell(answer, reports::room(load(heap), arena, align))
}

// The number of holes, the free bytes; addresses and sizes go into the rows, in order, as many as the
// shorter row holds. Heap and arena are only read.
#[unsafe(no_mangle)]
pub extern "C" fn lantern_list(
    heap: &[u64; 7],
    arena: &[u8],
    addrs: &mut [u64],
    sizes: &mut [u64],
    answer: &mut [u64; 2],
) -> u64
    ensures { Lists (heap_of heap.now) arena.now (rows addrs.old sizes.old) result answer.new (rows addrs.new sizes.new) }
{
    tell(answer, reports::list(load(heap), arena, addrs, sizes))
}
