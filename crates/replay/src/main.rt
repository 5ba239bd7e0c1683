// Replays stored answers of the original: calls as wire frames on standard input, each followed by
// the lines that the original gave, marked by '='. It runs the calls and says how many lines agree.
// How the list was made: tests/against/sample.sh.
#![tactic(auto)]

ghost use Rattle.std.specs.Prelude.{◌≤◌, length};
ghost use Rattle.lines.specs.Wire.{longest};

use lines::{ARENA, LINE, LONGEST, answer_line};
use rules::Heap;
use std::io::{self, Read};

const LF: u8 = 10;

// The bytes of the list that are read, at most.
const TEXT: usize = 262_144;

// The box, its last answer, whose bytes from `at` up to `len` are still to be compared, and the counts,
// which stop at the highest number.
#[derive(Drop)]
struct Replay {
    heap: Heap,
    arena: [u8; ARENA],
    reply: [u8; LONGEST],
    at: usize,
    len: usize,
    agree: u64,
    differ: u64,
    ghost left: { (at ≤ len) × (len ≤ longest) },
}

impl Replay {
    fn new() -> Self {
        Replay {
            heap: open::empty(),
            arena: [0; ARENA],
            reply: [0; LONGEST],
            at: 0,
            len: 0,
            agree: 0,
            differ: 0,
        }
    }

    // A line of the list.
    fn line(&mut self, line: &[u8]) {
        match line.strip_prefix(b"=") {
            Some(given) => self.stored(given),
            None => self.call(line),
        }
    }

    // A line that the original gave.
    fn stored(&mut self, given: &[u8]) {
        let at = self.at;
        if self.len - at < LINE {
            self.differ = self.differ.saturating_add(1);
            return;
        }
        if given == &self.reply[at..at + LINE - 1] {
            self.agree = self.agree.saturating_add(1);
        } else {
            self.differ = self.differ.saturating_add(1);
        }
        self.at = at + LINE;
    }

    // A call.
    fn call(&mut self, line: &[u8]) {
        self.differ = self.differing();
        let replied = answer_line(self.heap, &mut self.arena, line, &mut self.reply);
        self.heap = replied.heap;
        self.at = 0;
        self.len = replied.len;
    }

    // What differs, lines of the last answer that the original did not give included.
    fn differing(&self) -> u64 {
        if self.at < self.len {
            self.differ.saturating_add(1)
        } else {
            self.differ
        }
    }
}

// Reads until the room is full, the input ends or a read fails, and says how many bytes came.
fn read_full<R: Read>(from: &mut R, room: &mut [u8]) -> usize
    ensures { result ≤ length room.new }
{
    let mut n = 0;
    while let Ok(got @ 1..) = from.read(&mut room[n..]) {
        n += got;
    }
    n
}

fn main(rt: HostRuntime) -> io::Result<()> {
    let mut text = [0; TEXT];
    let n = read_full(&mut rt.stdin(), &mut text);
    let mut replay = Replay::new();
    for line in text[..n].split_inclusive(|b| *b == LF) {
        replay.line(line.strip_suffix(b"\n").unwrap_or(line));
    }
    println!(rt; "{} agree, {} differ", replay.agree, replay.differing())
}
