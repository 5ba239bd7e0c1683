// A talk over the wire: bytes that come in any pieces are cut into lines, each line is answered, and the
// answers wait behind each other until they are written. Reading and writing themselves are the caller's.
#![tactic(auto)]

mod buffer;

ghost use Rattle.std.specs.Prelude.{◌≡◌, ◌≤◌, [], ◌∷◌, ◌++◌, length, replicate, take, MatchOption};
ghost use Rattle.lines.specs.Wire.{arena_bytes, longest};
ghost use Rattle.talk.specs.Hearing.{lf, line_room, answers_room, come, answered, Bounded, Hears};
ghost use Rattle.talk.specs.Transcript.{NoEnd, at};

pub use buffer::Buffer;
use lines::{ARENA, FRAME, LONGEST, answer_line};
use memchr::memchr;
use rules::Heap;

const LF: u8 = 10;

// The bytes kept of a line: one more than the longest frame has, so that what is kept of a longer line
// is no frame either.
pub const KEPT: usize = FRAME + 1;

// The bytes for answers that wait: the longest twice.
pub const WAITING: usize = 2 * LONGEST;

// The box, what is kept of the line that has not ended, and the answers that wait. `reply` is where an
// answer is printed before it waits; what it holds between two lines means nothing.
#[derive(Clone, Copy)]
pub struct Talk {
    pub heap: Heap,
    pub arena: [u8; ARENA],
    pub kept: Buffer<KEPT>,
    pub waits: Buffer<WAITING>,
    pub reply: [u8; LONGEST],
}

impl Talk {
    // A talk that begins: the heap as given, a zeroed arena, and nothing heard.
    pub fn new(heap: Heap) -> Self
        ensures heap { result.heap ≡ heap }
        ensures arena { result.arena ≡ replicate arena_bytes 0 }
        ensures kept { result.kept.items ≡ [] }
        ensures waits { result.waits.items ≡ [] }
    {
        Talk {
            heap,
            arena: [0; ARENA],
            kept: Buffer::new(),
            waits: Buffer::new(),
            reply: [0; LONGEST],
        }
    }

    // Answers the line that is kept, as one that has ended.
    pub fn answer(&mut self)
        requires { Bounded self.old }
        ensures answered { come self.new ≡ answered (come self.old) }
        ensures fits { length self.new.waits.items ≤ answers_room }
    {
        answer(
            &mut self.heap,
            &mut self.arena,
            &mut self.kept,
            &mut self.waits,
            &mut self.reply,
        );
    }

    // Hears bytes, and gives those that it has not heard: each LF ends a line, which is answered. It stops
    // where one more answer might not find room behind those that wait, or with the bytes.
    pub fn hear<'a>(&mut self, bytes: &'a [u8]) -> &'a [u8]
        requires { Bounded self.old }
        ensures { Hears bytes.now (come self.old) result.now (come self.new) }
    {
        hear(
            &mut self.heap,
            &mut self.arena,
            &mut self.kept,
            &mut self.waits,
            &mut self.reply,
            bytes,
        )
    }
}

// `Talk::answer` over parts that are lent: a caller may have the arena elsewhere, and talks may share a
// reply's memory.
pub fn answer(
    heap: &mut Heap,
    arena: &mut [u8; ARENA],
    kept: &mut Buffer<KEPT>,
    waits: &mut Buffer<WAITING>,
    reply: &mut [u8; LONGEST],
)
    requires { length waits.old.items ≤ longest }
    ensures answered { at heap.new arena.new kept.new.items waits.new.items ≡ answered (at heap.old arena.old kept.old.items waits.old.items) }
    ensures fits { length waits.new.items ≤ answers_room }
{
    let replied = answer_line(*heap, arena, kept, reply);
    *heap = replied.heap;
    kept.clear();
    waits.extend(&reply[..replied.len]);
}

// `Talk::hear` over parts that are lent.
pub fn hear<'a>(
    heap: &mut Heap,
    arena: &mut [u8; ARENA],
    kept: &mut Buffer<KEPT>,
    waits: &mut Buffer<WAITING>,
    reply: &mut [u8; LONGEST],
    bytes: &'a [u8],
) -> &'a [u8]
    requires { length waits.old.items ≤ longest }
    ensures { Hears bytes.now (at heap.old arena.old kept.old.items waits.old.items) result.now (at heap.new arena.new kept.new.items waits.new.items) }
{
    let mut rest = bytes;
    while waits.len() <= LONGEST {
        let Some((line, more)) = first_line(rest) else {
            keep(kept, rest);
            return &[];
        };
        keep(kept, line);
        answer(heap, arena, kept, waits, reply);
        rest = more;
    }
    rest
}

// Keeps more bytes of a line, as far as there is room for them.
fn keep(kept: &mut Buffer<KEPT>, part: &[u8])
    ensures had { length kept.old.items ≤ line_room }
    ensures has { length kept.new.items ≤ line_room }
    ensures keeps { kept.new.items ≡ take line_room (kept.old.items ++ part.now) }
{
    let room = KEPT - kept.len();
    let n = part.len().min(room);
    kept.extend(&part[..n]);
}

// The first line, its LF taken off, and the bytes behind it.
fn first_line(bytes: &[u8]) -> Option<(&[u8], &[u8])>
    ensures { MatchOption result (NoEnd bytes.now) (λ cut. NoEnd cut.0.now × (bytes.now ≡ cut.0.now ++ lf ∷ cut.1.now)) }
{
    let end = memchr(LF, bytes)?;
    Some((&bytes[..end], &bytes[end + 1..]))
}
