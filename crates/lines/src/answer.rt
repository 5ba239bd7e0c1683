// A line and the box.
ghost use Rattle.std.specs.Prelude.{◌≡◌, ◌≤◌, take};
ghost use Rattle.rules.specs.Calls as Calls;
ghost use Rattle.rules.specs.Answers.{answer_numbers};
ghost use Rattle.rules.specs.Outcome.{outcome};
ghost use Rattle.lines.specs.Wire.{numbers_line, spoken, replied, longest, Answers};

use crate::printing::{put_holes, put_line};
use crate::reading::{Frame, read_frame};
use crate::{ARENA, LINE, LONGEST, MOST, Replied};
use answers::Told;
use rules::{Addr, Done, Heap};

// Prints what a call gave back.
fn tell(out: &mut [u8; LONGEST], done: Done) -> Replied
    ensures { (result.heap ≡ done.heap) × (take result.len out.new ≡ numbers_line (answer_numbers done.answer)) × (result.len ≤ longest) }
{
    let t = Told::from(done.answer);
    put_line(&mut out[..LINE], t.no, t.one, t.two);
    Replied {
        heap: done.heap,
        len: LINE,
    }
}

// Prints the list: its line, then a line for each hole. A sound heap on this arena has at most 2,048; a
// refusal says 0 where the list says how many there are.
fn tell_list(h: Heap, arena: &[u8; ARENA], out: &mut [u8; LONGEST]) -> Replied
    ensures { (result.heap ≡ h) × (take result.len out.new ≡ spoken (outcome Calls.list h arena.now)) × (result.len ≤ longest) }
{
    let mut addrs = [0u64; MOST];
    let mut sizes = [0u64; MOST];
    let answer = reports::list(h, arena, &mut addrs, &mut sizes);
    let t = Told::from(answer);
    put_line(&mut out[..LINE], t.no, t.one, t.two);
    let n = t.one as usize;
    put_holes(&mut out[LINE..], &addrs[..n], &sizes[..n]);
    Replied {
        heap: h,
        len: LINE * (n + 1),
    }
}

// What a line, its LF taken off, comes to: the bytes printed, the heap and the arena. A line that is
// no frame gives ff, 0, 0 and does nothing.
pub fn answer_line(
    h: Heap,
    arena: &mut [u8; ARENA],
    line: &[u8],
    out: &mut [u8; LONGEST],
) -> Replied
    ensures { Answers (replied line.now h arena.old) result out.new arena.new }
{
    let Some(frame) = read_frame(line) else {
        put_line(&mut out[..LINE], 0xff, 0, 0);
        return Replied { heap: h, len: LINE };
    };
    match frame {
        Frame::Open { base, named } => tell(out, open::open(h, arena, Addr(base), named)),
        Frame::Allocate { size, align } => tell(out, allocate::allocate(h, arena, size, align)),
        Frame::Free { addr, size, align } => {
            tell(out, free::free(h, arena, Addr(addr), size, align))
        }
        Frame::Resize {
            addr,
            old,
            align,
            new,
        } => tell(out, resize::resize(h, arena, Addr(addr), old, align, new)),
        Frame::Extend { by } => tell(out, extend::extend(h, arena, by)),
        Frame::List => tell_list(h, arena, out),
        Frame::Room { align } => {
            let answer = reports::room(h, arena, align);
            tell(out, Done { heap: h, answer })
        }
    }
}
