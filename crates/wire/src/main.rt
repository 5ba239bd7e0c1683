// The wire program: calls on standard input, a frame a line, answers on standard output. It holds a
// zeroed arena of 65,536 bytes. What a line means is `lines::answer_line`'s promise, and how bytes are
// cut into lines and answers queued is `talk::hear`'s. Here bytes are read, and what waits is written,
// in memory that does not grow with the input.
#![tactic(auto)]

ghost use Rattle.std.specs.Prelude.{◌≡◌, OnOk};
ghost use Rattle.std.specs.Io.KnownBytes.{Appends};
ghost use Rattle.talk.specs.Hearing.{come, taken};
ghost use Rattle.wire.specs.Bounds.{ended, Said, Settled, Talked, Took};

use std::io::{self, Read, Write};
use talk::Talk;

// The bytes taken by one read, at most.
const INPUT: usize = 65_536;

// Hands answers to the output. They are all that wait, no more and no less, whatever the output takes.
fn write_out<W: Write>(talk: &Talk, out: &mut W, answers: &[u8]) -> io::Result<()>
    requires { answers.now ≡ talk.now.waits.items }
    ensures { OnOk result (Appends (W.contents out.old) (W.contents out.new) answers.now) }
{
    out.write_all(answers)
}

// Writes what waits, no more and no less. What the output does not take is lost.
fn flush<W: Write>(talk: &mut Talk, out: &mut W) -> io::Result<()>
    ensures rest { come talk.new ≡ taken (come talk.old) }
    ensures written { OnOk result (Appends (W.contents out.old) (W.contents out.new) talk.old.waits.items) }
{
    let written = write_out(talk, out, &talk.waits);
    talk.waits.clear();
    written
}

// Hears bytes to their end, and writes the answers whenever one more might not find room. It stops
// where the output does not take them. (The proof calls the loop by its label.)
fn answer_all<W: Write>(talk: &mut Talk, out: &mut W, bytes: &[u8]) -> io::Result<()>
    requires { Settled talk.old }
    ensures settled { Settled talk.new }
    ensures said { OnOk result (Said (come talk.old) bytes.now (W.contents out.old) (W.contents out.new) (come talk.new)) }
{
    let mut rest = bytes;
    'hearing: while !rest.is_empty() {
        rest = talk.hear(rest);
        flush(talk, out)?;
    }
    Ok(())
}

// Reads to the end of the input, and answers every whole line that has come before it waits for more. A
// proved loop has to end, and nothing says that the input does: the reads are counted, up to a number
// that no run reaches.
fn answer_input<R: Read, W: Write>(talk: &mut Talk, from: &mut R, out: &mut W) -> io::Result<()>
    requires { Settled talk.old }
    ensures settled { Settled talk.new }
    ensures took { OnOk result (Took (come talk.old) (R.remaining from.old) (R.remaining from.new) (W.contents out.old) (W.contents out.new)
        (come talk.new)) }
{
    let mut input = [0; INPUT];
    for _ in 0..u64::MAX {
        let n = from.read(&mut input)?;
        if n == 0 {
            return Ok(());
        }
        answer_all(talk, out, &input[..n])?;
    }
    Ok(())
}

// Answers what is kept at the end: the last line may lack its LF.
fn answer_last<W: Write>(talk: &mut Talk, out: &mut W) -> io::Result<()>
    requires { Settled talk.old }
    ensures settled { Settled talk.new }
    ensures written { OnOk result (Appends (W.contents out.old) (W.contents out.new) (ended (come talk.old)).waits) }
{
    if !talk.kept.is_empty() {
        talk.answer();
    }
    flush(talk, out)
}

// All that is read is answered. A line that a failed read cuts off is not: nothing says that it has ended.
fn talk_on<R: Read, W: Write>(talk: &mut Talk, from: &mut R, out: &mut W) -> io::Result<()>
    requires { Settled talk.old }
    ensures settled { Settled talk.new }
    ensures talked { OnOk result (Talked (come talk.old) (R.remaining from.old) (R.remaining from.new) (W.contents out.old) (W.contents out.new)) }
{
    answer_input(talk, from, out)?;
    answer_last(talk, out)
}

// An input that fails and an output that takes no more end the program as the input's end does.
fn main(rt: HostRuntime) {
    let mut talk = Talk::new(open::empty());
    let _ = talk_on(&mut talk, &mut rt.stdin(), &mut rt.stdout());
}
