// The kinds of value that document 01 speaks of. Their meaning is in specs/: the paper as
// definitions, which every contract of the crates above cites.
#![tactic(auto)]

// The numbers that the paper fixes, as specs/Fixed.antt has them: the most bytes of an arena; 2^63,
// what base + arena length is at most, and a rounded size with its alignment; the bytes of a head,
// which are the least size of a hole; and what addresses and sizes are multiples of.
pub const ARENA_LIMIT: u64 = 16_777_216;

pub const ADDR_LIMIT: u64 = 0x8000_0000_0000_0000;

pub const MIN_SIZE: u64 = 16;

pub const GRAIN: u64 = 8;

// An address. It and a place are two kinds of number, converted only through the base.
#[derive(Clone, Copy, PartialEq, Eq, PartialOrd, Ord)]
pub struct Addr(pub u64);

// A place in the arena, counted from its start; all ones for none, as heads and the heap's numbers hold it,
// and so no Option.
#[derive(Clone, Copy, PartialEq, Eq, PartialOrd, Ord)]
pub struct Place(pub u64);

// All ones: no place.
pub const NONE: Place = Place(0xffff_ffff_ffff_ffff);

// The first 16 bytes of a hole: its size, and the place of the next head.
#[derive(Clone, Copy)]
pub struct Head {
    pub size: u64,
    pub next: Place,
}

// A free stretch, known by address and size.
#[derive(Clone, Copy)]
pub struct Hole {
    pub addr: Addr,
    pub size: u64,
}

// What a heap remembers, in the paper's order. Unopened: all zeros.
#[derive(Clone, Copy)]
pub struct Heap {
    pub base: Addr,
    pub len: u64,
    pub bottom: Addr,
    pub top: Addr,
    pub first: Place,
    pub pending: u64,
    pub used: u64,
}

// Why the box says no: the paper's refusals 1 to 9 and, for resize, 10, in order.
#[derive(Clone, Copy)]
pub enum Refusal {
    // 1: no heap can be made of what was lent.
    BadOpening,
    // 2: bottom is not 0.
    AlreadyOpened,
    // 3: bottom is 0.
    Unopened,
    // 4: the arena's length differs from that at opening.
    OtherLength,
    // 5: the heap is not sound.
    NotSound,
    // 6: no valid alignment, or too large a size for it.
    BadLayout,
    // 7: no hole suits; holes is how many there are.
    NoRoom { holes: u64 },
    // 8: the span is no block that could have been held.
    BadSpan,
    // 9: the arena has not that many bytes left.
    PastArena,
    // 10: the stretch less the new rounded size is neither 0 nor at least 16.
    BadStretch,
}

// What an accepted call answers: two values of its own.
#[derive(Clone, Copy)]
pub enum Answer {
    // Open: where the heap begins, and how many bytes it deals out.
    Opened { bottom: Addr, size: u64 },
    // Allocate: the block's address, and how many holes were looked at, the used one included.
    Allocated { addr: Addr, count: u64 },
    // Free: the rounded size that was given back, and what is still held.
    Freed { rounded: u64, used: u64 },
    // Resize: the new rounded size, and what is held then.
    Resized { rounded: u64, used: u64 },
    // Extend: the bytes that the heap deals out now, and those that wait behind top.
    Extended { size: u64, pending: u64 },
    // List: how many holes there are, and the bytes in them.
    Listed { holes: u64, free: u64 },
    // Room: the largest rounded size that allocate would grant at the alignment, 0 if none, and how many
    // holes there are.
    Room { largest: u64, holes: u64 },
}

// What a call that may change the heap gives back: the heap, and the answer or why not.
#[derive(Clone, Copy)]
pub struct Done {
    pub heap: Heap,
    pub answer: Result<Answer, Refusal>,
}

// A head to be written, and its place.
#[derive(Clone, Copy)]
pub struct Write {
    pub at: Place,
    pub head: Head,
}

// The heads that change, at most two: first the one is written, then the other.
#[derive(Clone, Copy)]
pub struct Writes {
    pub one: Option<Write>,
    pub two: Option<Write>,
}

// What an accepted call decides on an arena as it stands: the heap and the answer that it gives back,
// and the heads to be written.
#[derive(Clone, Copy)]
pub struct Decided {
    pub heap: Heap,
    pub answer: Answer,
    pub heads: Writes,
}
