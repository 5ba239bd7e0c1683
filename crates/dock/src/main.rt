// The dock box: arenas at the limit, one byte below it and one above. A line has the arena's length, then
// what open answers on it, or whether an opened heap of that length keeps the rules on its numbers (0,
// or 5). Neither looks at a byte, so no memory is lent here; tests/dock.c makes the calls on 16 MiB.
#![tactic(auto)]

use answers::Told;
use rules::{ARENA_LIMIT, Addr, Heap, NONE};
use std::io;

// The three lengths: at the limit, one byte below it and one above.
const LENGTHS: [u64; 3] = [ARENA_LIMIT - 1, ARENA_LIMIT, ARENA_LIMIT + 1];

fn tell(rt: &impl Print, len: u64, told: Told) -> io::Result<()> {
    let Told { no, one, two } = told;
    println!(rt; "{len:016x} {no:02x} {one:016x} {two:016x}")
}

fn opens(rt: &impl Print, len: u64) -> io::Result<()> {
    let decided = open::decide(open::empty(), len, Addr(0x1000), len);
    tell(rt, len, Told::from(decided.map(|d| d.answer)))
}

// A heap of one block, sound but for its length where that breaks a rule.
fn claims(rt: &impl Print, len: u64) -> io::Result<()> {
    let h = Heap {
        base: Addr(0x1000),
        len,
        bottom: Addr(0x1000),
        top: Addr(0x1010),
        first: NONE,
        pending: 0,
        used: 16,
    };
    match numbers::check(h, len) {
        Ok(()) => println!(rt; "{len:016x} 00"),
        Err(r) => tell(rt, len, Told::from(r)),
    }
}

fn main(rt: HostRuntime) -> io::Result<()> {
    for len in LENGTHS {
        opens(&rt, len)?;
    }
    for len in LENGTHS {
        claims(&rt, len)?;
    }
    Ok(())
}
