// The exports that read the heap's numbers alone: the five readers of crate numbers, one export each for C.
ghost use Rattle.std.specs.Prelude.{◌≡◌};
ghost use Rattle.rules.specs.Kinds.{number};
ghost use Rattle.rules.specs.Readers.{bottom_of, top_of, size_of, used_of, free_of};
ghost use Rattle.numbers.specs.Reads.{Reads};
ghost use Rattle.c_face.specs.Face.{heap_of};

use crate::words::load;
use numbers::Readings;

// What all five say of the heap that the words say.
fn read(words: &[u64; 7]) -> Readings
    ensures { Reads (heap_of words.now) result }
{
    numbers::read(load(words))
}

// The address of the heap's first byte.
#[unsafe(no_mangle)]
pub extern "C" fn lantern_bottom(heap: &[u64; 7]) -> u64
    ensures { result ≡ number (bottom_of (heap_of heap.now)) }
{
    read(heap).bottom.0
}

// The address after the heap's last byte, pending bytes counted.
#[unsafe(no_mangle)]
pub extern "C" fn lantern_top(heap: &[u64; 7]) -> u64
    ensures { result ≡ number (top_of (heap_of heap.now)) }
{
    read(heap).top.0
}

// The bytes that the heap deals out, pending ones not counted.
#[unsafe(no_mangle)]
pub extern "C" fn lantern_size(heap: &[u64; 7]) -> u64
    ensures { result ≡ size_of (heap_of heap.now) }
{
    read(heap).size
}

// The bytes that are held.
#[unsafe(no_mangle)]
pub extern "C" fn lantern_used(heap: &[u64; 7]) -> u64
    ensures { result ≡ used_of (heap_of heap.now) }
{
    read(heap).used
}

// The bytes that are free.
#[unsafe(no_mangle)]
pub extern "C" fn lantern_free_bytes(heap: &[u64; 7]) -> u64
    ensures { result ≡ free_of (heap_of heap.now) }
{
    read(heap).free
}
