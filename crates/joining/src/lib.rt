// The list of holes, relinked: a hole before leads to a new place, a free span becomes a hole and joins
// every hole that it touches, and what remains behind a block that is resized becomes one, or nothing does.
// Nothing is written here: a call decides which heads are to be.
#![tactic(auto)]

ghost use Rattle.std.specs.Prelude.{◌≡◌, ◌+◌, ◌≤◌};
ghost use Rattle.rules.specs.Sound.{holes};
ghost use Rattle.rules.specs.Free.{freed};
ghost use Rattle.rules.specs.Resize.{resized};
ghost use Rattle.rules.specs.InWords.{Gap};
ghost use Rattle.rules.specs.Inner.{Inside, Relinks};
ghost use Rattle.joining.specs.Span.{Free, MayMerge, MayEnd, merged_head, remainder, leads_to, linked_to, ends_at};

use hole::{addr_of, place_of, read_head};
use rules::{Addr, Head, Hole, NONE, Place, Write, Writes};
use walk::{Cursor, Sound};

// What becomes of the list: the place of its first hole, and the heads to be written.
#[derive(Clone, Copy)]
pub struct Relinked {
    pub first: Place,
    pub heads: Writes,
}

// The hole before leads to a place, or the list begins there where no hole is before; one more head may
// be written first.
#[tactic(auto, unfolding(crate::specs::Span::linked_to))]
pub fn link(first: Place, arena: &[u8], prev: Place, to: Place, one: Option<Write>) -> Relinked
    requires { Inside arena.now prev }
    ensures { result ≡ linked_to first arena.now prev to one }
{
    if prev == NONE {
        return Relinked {
            first: to,
            heads: Writes { one, two: None },
        };
    }
    let before = read_head(arena, prev);
    let two = Some(Write {
        at: prev,
        head: Head {
            size: before.size,
            next: to,
        },
    });
    Relinked {
        first,
        heads: Writes { one, two },
    }
}

// What remains between two addresses becomes a hole that leads to `next`; between equal ones nothing
// remains.
#[tactic(auto, unfolding(crate::specs::Span::remainder))]
pub fn remains(base: Addr, lo: Addr, hi: Addr, next: Place) -> Option<Write>
    requires { (base.0 ≤ lo.0) × (lo.0 ≤ hi.0) }
    ensures { result ≡ remainder base lo hi next }
{
    if lo == hi {
        return None;
    }
    Some(Write {
        at: place_of(base, lo),
        head: Head {
            size: hi.0 - lo.0,
            next,
        },
    })
}

// The place of what remains; where nothing does, that of the next hole.
#[tactic(auto, unfolding(crate::specs::Span::leads_to))]
pub fn leads(w: Option<Write>, next: Place) -> Place
    ensures { result ≡ leads_to w next }
{
    match w {
        Some(w) => w.at,
        None => next,
    }
}

// The head of a span that is followed by a hole at a place, or by none: joined with it if it touches
// it, else leading to it.
#[tactic(auto, unfolding(crate::specs::Span::merged_head))]
pub fn try_merge_next(base: Addr, arena: &[u8], span: Hole, hole: Place) -> Head
    requires { MayMerge base arena.now span hole }
    ensures { result ≡ merged_head base arena.now span hole }
{
    let size = span.size;
    if hole == NONE {
        return Head { size, next: hole };
    }
    if Addr(span.addr.0 + size) != addr_of(base, hole) {
        return Head { size, next: hole };
    }
    let head = read_head(arena, hole);
    let next = head.next;
    Head {
        size: size + head.size,
        next,
    }
}

// A hole at a place, where there is one, ends at another place.
#[tactic(auto, unfolding(crate::specs::Span::ends_at))]
fn ends_at(arena: &[u8], prev: Place, at: Place) -> bool
    requires { MayEnd arena.now prev }
    ensures { result ≡ ends_at arena.now prev at }
{
    if prev == NONE {
        return false;
    }
    let before = read_head(arena, prev);
    prev.0 + before.size == at.0
}

// Inserts a span between the holes of a cursor. It is joined with the hole behind it, and then with
// the one before.
pub fn insert(sound: Sound<'_>, cursor: Cursor, span: Hole) -> Relinked
    requires { Free sound.loan.heap (holes sound.loan.heap sound.loan.arena.now) cursor span }
    ensures { Relinks sound.entry.loan.heap.base sound.entry.loan.arena.now (freed span (holes sound.entry.loan.heap sound.entry.loan.arena.now)) result.first result.heads }
{
    let arena = sound.loan.arena;
    let base = sound.loan.heap.base;
    let first = sound.loan.heap.first;
    let prev = cursor.prev;
    let merged = try_merge_next(base, arena, span, cursor.hole);
    let next = merged.next;
    let at = place_of(base, span.addr);
    if !ends_at(arena, prev, at) {
        return link(first, arena, prev, at, Some(Write { at, head: merged }));
    }
    let before = read_head(arena, prev);
    let one = Some(Write {
        at: prev,
        head: Head {
            size: before.size + merged.size,
            next,
        },
    });
    Relinked {
        first,
        heads: Writes { one, two: None },
    }
}

// A block between the holes of a cursor has `want` bytes from now on. The rest of its stretch, which is
// the block and the hole behind it where that touches it, becomes a hole or nothing.
pub fn link_rest(
    sound: Sound<'_>,
    cursor: Cursor,
    block: Hole,
    stretch: Head,
    want: u64,
) -> Relinked
    requires { Free sound.loan.heap (holes sound.loan.heap sound.loan.arena.now) cursor block × (stretch ≡ merged_head sound.loan.heap.base sound.loan.arena.now block cursor.hole) × Gap (block.addr.0 + want) (block.addr.0 + stretch.size) }
    ensures { Relinks sound.entry.loan.heap.base sound.entry.loan.arena.now (resized block want (holes sound.entry.loan.heap sound.entry.loan.arena.now)) result.first result.heads }
{
    let arena = sound.loan.arena;
    let base = sound.loan.heap.base;
    let addr = block.addr;
    let next = stretch.next;
    let end = Addr(addr.0 + stretch.size);
    let rest = remains(base, Addr(addr.0 + want), end, next);
    let to = leads(rest, next);
    let first = sound.loan.heap.first;
    link(first, arena, cursor.prev, to, rest)
}
