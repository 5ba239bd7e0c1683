// Runs the layout leaf at the limits of its numbers and prints what it answers: a line for each size
// and alignment, `size align rounded` or `size align -`. tests/limits.rs makes the same lines with
// the original and Rust's own `Layout`; the stored output is what it printed.
#![tactic(auto)]

use layout::{Layout, align_layout};
use std::io;

const SIZES: [u64; 16] = [
    0,
    1,
    15,
    16,
    17,
    0x3fff_ffff_ffff_fff8,
    0x4000_0000_0000_0000,
    0x4000_0000_0000_0001,
    0x7fff_ffff_ffff_f000,
    0x7fff_ffff_ffff_fff8,
    0x7fff_ffff_ffff_fff9,
    0x7fff_ffff_ffff_ffff,
    0x8000_0000_0000_0000,
    0x8000_0000_0000_0001,
    0xffff_ffff_ffff_fff8,
    0xffff_ffff_ffff_ffff,
];

const ALIGNS: [u64; 10] = [
    0,
    1,
    2,
    3,
    8,
    4096,
    0x4000_0000_0000_0000,
    0x7fff_ffff_ffff_ffff,
    0x8000_0000_0000_0000,
    0xffff_ffff_ffff_ffff,
];

fn case(rt: &impl Print, size: u64, align: u64) -> io::Result<()> {
    match align_layout(size, align) {
        Some(Layout { size: rounded, .. }) => println!(rt;
            "{size:016x} {align:016x} {rounded:016x}"
        ),
        None => println!(rt; "{size:016x} {align:016x} -"),
    }
}

fn main(rt: HostRuntime) -> io::Result<()> {
    for size in SIZES {
        for align in ALIGNS {
            case(&rt, size, align)?;
        }
    }
    Ok(())
}
