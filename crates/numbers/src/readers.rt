// The five readers. They take no arena and look at no head; where the numbers break a rule they say 0.
ghost use Rattle.std.specs.Prelude.{◌≡◌, not};
ghost use Rattle.rules.specs.Tests.{any};
ghost use Rattle.rules.specs.Readers.{unreadable, bottom_of, top_of, size_of, used_of, free_of};
ghost use Rattle.numbers.specs.Reads.{Reads};

use crate::Readings;
use crate::checks::{fair_size, sound_numbers};
use rules::{Addr, Heap};

// The heap is opened, its numbers keep their rules, and used is at most size.
fn readable(h: Heap) -> bool
    ensures { result ≡ not (any (unreadable h)) }
{
    if sound_numbers(h) {
        return h.used <= fair_size(h);
    }
    false
}

// All five at once: the numbers are tested only once.
pub fn read(h: Heap) -> Readings
    ensures { Reads h result }
{
    if readable(h) {
        let bottom = h.bottom;
        let size = fair_size(h);
        return Readings {
            bottom,
            top: Addr(h.top.0 + h.pending),
            size,
            used: h.used,
            free: size - h.used,
        };
    }
    Readings {
        bottom: Addr(0),
        top: Addr(0),
        size: 0,
        used: 0,
        free: 0,
    }
}

// The address of the heap's first byte.
pub fn bottom(h: Heap) -> Addr
    ensures { result ≡ bottom_of h }
{
    read(h).bottom
}

// The address after the heap's last byte, pending bytes counted.
pub fn top(h: Heap) -> Addr
    ensures { result ≡ top_of h }
{
    read(h).top
}

// The bytes that the heap deals out, pending ones not counted.
pub fn size(h: Heap) -> u64
    ensures { result ≡ size_of h }
{
    read(h).size
}

// The bytes that are held.
pub fn used(h: Heap) -> u64
    ensures { result ≡ used_of h }
{
    read(h).used
}

// The bytes that are free.
pub fn free_bytes(h: Heap) -> u64
    ensures { result ≡ free_of h }
{
    read(h).free
}
