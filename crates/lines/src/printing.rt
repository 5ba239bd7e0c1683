// Answers printed: lines of one byte and two numbers, high byte first, two lowercase hexadecimal
// digits a byte.
ghost use Rattle.std.specs.Prelude.{◌≡◌, ◌++◌, ◌*◌, ◌≤◌, ◌<◌, length, drop};
ghost use Rattle.lines.specs.Lines.{glyph, hex, line};
ghost use Rattle.lines.specs.Printed.{row_lines};

// The bytes of a line of an answer.
pub const LINE: usize = 35;

// The digit of a value below 16.
#[tactic(auto, using(std::proofs::lemmas::Bool::Decides::nat_tests), unfolding(crate::specs::Lines::glyph))]
fn glyph_of(d: u64) -> u8
    requires { d < 16 }
    ensures { result ≡ glyph d }
{
    match d {
        0..=9 => b'0' + d as u8,
        _ => b'a' + (d - 10) as u8,
    }
}

// Writes the last digits of a number, as many as there is room for: the low digit first, from the end. By
// index, since a proof knows no more than the length of a slice that `iter_mut` goes over.
fn put_hex(out: &mut [u8], x: u64)
    ensures { out.new ≡ hex (length out.old) x }
{
    let mut rest = x;
    for i in (0..out.len()).rev() {
        out[i] = glyph_of(rest % 16);
        rest /= 16;
    }
}

// Writes a line of 35 bytes.
pub fn put_line(out: &mut [u8], code: u64, one: u64, two: u64)
    requires { length out.old ≡ 35 }
    ensures { out.new ≡ line code one two }
{
    put_hex(&mut out[..2], code);
    put_hex(&mut out[2..18], one);
    put_hex(&mut out[18..34], two);
    out[34] = b'\n';
}

// Writes a line 20, address, size for each hole of two rows. Its parts are lent by index too.
pub fn put_holes(out: &mut [u8], addrs: &[u64], sizes: &[u64])
    requires { (35 * length addrs.now ≤ length out.old) × (length addrs.now ≡ length sizes.now) }
    ensures { out.new ≡ row_lines addrs.now sizes.now ++ drop (35 * length addrs.now) out.old }
{
    for (i, (addr, size)) in addrs.iter().zip(sizes).enumerate() {
        let at = LINE * i;
        put_line(&mut out[at..at + LINE], 0x20, *addr, *size);
    }
}
