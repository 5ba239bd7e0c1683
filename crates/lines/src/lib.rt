// Lines on the wire: frames read, answers printed, and one function that takes a line and the box and
// gives the answer's bytes. It has no `requires`.
#![tactic(auto)]

mod answer;
mod printing;
mod reading;

pub use answer::answer_line;
pub use printing::LINE;
pub use reading::FRAME;
use rules::Heap;

// The bytes of the arena that the wire program holds. The number is the program's own, whatever the
// library's limit is.
pub const ARENA: usize = 65_536;

// The most holes of a sound heap on that arena: a hole has at least 16 bytes, and so has what lies
// between two.
const MOST: usize = (ARENA + 16) / 32;

// The bytes of the longest answer: the list's line, and one for each hole.
pub const LONGEST: usize = LINE * (MOST + 1);

// What a line comes to: the heap, and how many bytes of the answer are printed (into memory that is lent, since
// nothing here allocates).
#[derive(Clone, Copy)]
pub struct Replied {
    pub heap: Heap,
    pub len: usize,
}
