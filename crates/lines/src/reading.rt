// Frames read: one byte for the call, then numbers of eight bytes, high byte first, two lowercase
// hexadecimal digits a byte.
ghost use Rattle.std.specs.Prelude.{◌≡◌, ◌≤◌, ◌<◌, length, MatchOption};
ghost use Rattle.lines.specs.Frames.{digit, forms, form_of, frame_of};
ghost use Rattle.lines.specs.Read.{read, filled};

// A call with its numbers.
#[derive(Clone, Copy)]
pub enum Frame {
    // 01: base, named size.
    Open {
        base: u64,
        named: u64,
    },
    // 02: size, alignment.
    Allocate {
        size: u64,
        align: u64,
    },
    // 03: address, size, alignment.
    Free {
        addr: u64,
        size: u64,
        align: u64,
    },
    // 04: the bytes that the heap is given.
    Extend {
        by: u64,
    },
    // 05: no number.
    List,
    // 06: alignment.
    Room {
        align: u64,
    },
    // 07: address, old size, alignment, new size.
    Resize {
        addr: u64,
        old: u64,
        align: u64,
        new: u64,
    },
}

// The digits of the call's byte, and those of a number.
const CALL: usize = 2;

const NUMBER: usize = 16;

// The most numbers of a frame, and the most digits.
const NUMBERS: usize = 4;

pub const FRAME: usize = CALL + NUMBER * NUMBERS;

// The value of a digit.
#[tactic(auto, using(std::proofs::lemmas::Bool::Decides::nat_tests), unfolding(crate::specs::Frames::digit))]
fn digit_of(b: u8) -> Option<u64>
    ensures { MatchOption result (digit b ≡ 16) (λ v. (v ≡ digit b) × (v < 16)) }
{
    match b {
        b'0'..=b'9' => Some(u64::from(b - b'0')),
        b'a'..=b'f' => Some(u64::from(b - b'a') + 10),
        _ => None,
    }
}

// The number that digits make, high digit first. There are at most sixteen, so it fits.
fn number(digits: &[u8]) -> Option<u64>
    requires { length digits.now ≤ 16 }
    ensures { result ≡ read 0 digits.now }
{
    let mut sum: u64 = 0;
    for b in digits {
        sum = sum * 16 + digit_of(*b)?;
    }
    Some(sum)
}

// The table of the calls: the frame that a call's byte and its numbers make.
#[tactic(auto, using(std::proofs::lemmas::Bool::Decides::nat_tests), unfolding(crate::specs::Frames::form_of, crate::specs::Read::filled))]
fn made(call: u64, numbers: &[u64]) -> Option<Frame>
    ensures { result ≡ filled numbers.now (form_of forms call) }
{
    match (call, numbers) {
        (0x01, &[base, named]) => Some(Frame::Open { base, named }),
        (0x02, &[size, align]) => Some(Frame::Allocate { size, align }),
        (0x03, &[addr, size, align]) => Some(Frame::Free { addr, size, align }),
        (0x04, &[by]) => Some(Frame::Extend { by }),
        (0x05, &[]) => Some(Frame::List),
        (0x06, &[align]) => Some(Frame::Room { align }),
        (0x07, &[addr, old, align, new]) => Some(Frame::Resize {
            addr,
            old,
            align,
            new,
        }),
        _ => None,
    }
}

// The frame that a line is, its LF taken off. A longer line than any frame is refused at once.
pub fn read_frame(line: &[u8]) -> Option<Frame>
    ensures { result ≡ frame_of line.now }
{
    if FRAME < line.len() {
        return None;
    }
    let (call, rest) = line.split_at_checked(CALL)?;
    let call = number(call)?;
    if rest.len() % NUMBER != 0 {
        return None;
    }
    let mut numbers = [0u64; NUMBERS];
    for (i, digits) in rest.chunks_exact(NUMBER).enumerate() {
        numbers[i] = number(digits)?;
    }
    made(call, &numbers[..rest.len() / NUMBER])
}
