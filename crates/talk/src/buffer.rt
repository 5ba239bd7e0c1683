// Bytes that stand one behind the other, in memory of their own: what a talk keeps and what waits. A buffer
// is Copy, so that a talk is.
ghost use Rattle.std.specs.Prelude.{◌≡◌, ◌==◌, [], ◌++◌, ◌+◌, ◌≤◌, length, take};

use std::marker::Model;
use std::ops::DerefSlice;

// The bytes before `end`, at most N. Those behind it mean nothing.
#[derive(Clone, Copy)]
pub struct Buffer<const N: usize> {
    pub cells: [u8; N],
    pub end: usize,
}

impl<const N: usize> Model for Buffer<N> {
    ghost use Rattle.std.specs.Prelude.{◌≡◌, ◌≤◌, ◌++◌, length, take, drop};
    ghost use Rattle.std.proofs.Common.{take-append-drop, length-take-le};
    ghost use Rattle.talk.specs.Held.{Held};

    ghost Value = { Held };

    ghost view = { λ b. record { items = take b.end b.cells; spare = drop b.end b.cells } };

    ghost invariant = { λ b. (b.end ≤ length b.cells) × (length b.cells ≡ N) };

    ghost inverse = { λ held. record { cells = held.items ++ held.spare; end = length held.items } };

    ghost inverse_ok = { λ b fits i. record {
      cells = take-append-drop b.end b.cells i;
      end = length-take-le b.end b.cells fits.0 i;
    } };
}

// It reads as a slice of its bytes.
impl<const N: usize> DerefSlice for Buffer<N> {
    type Elem = u8;

    ghost deref_gives = { λ buffer bytes. (bytes ≡ buffer.items) × (length bytes ≤ N) };

    fn deref(&self) -> &[u8] {
        &self.cells[..self.end]
    }
}

impl<const N: usize> Buffer<N> {
    // No byte.
    pub fn new() -> Self
        ensures { result.items ≡ [] }
    {
        Buffer {
            cells: [0; N],
            end: 0,
        }
    }

    // How many bytes there are.
    pub fn len(&self) -> usize
        ensures value { result ≡ length self.now.items }
        ensures fits { result ≤ N }
    {
        let bytes: &[u8] = self;
        bytes.len()
    }

    // Whether there is none.
    pub fn is_empty(&self) -> bool
        ensures { result ≡ (length self.now.items == 0) }
    {
        self.len() == 0
    }

    // Lets go of all bytes.
    pub fn clear(&mut self)
        ensures { self.new.items ≡ [] }
    {
        self.end = 0;
    }

    // Puts more bytes behind them.
    pub fn extend(&mut self, more: &[u8])
        requires { length self.old.items + length more.now ≤ N }
        ensures { self.new.items ≡ self.old.items ++ more.now }
    {
        let end = self.end;
        put(&mut self.cells, end, more);
        self.end = end + more.len();
    }
}

// Writes bytes into memory, from an index on.
fn put(cells: &mut [u8], at: usize, bytes: &[u8])
    requires { at + length bytes.now ≤ length cells.old }
    ensures { take (at + length bytes.now) cells.new ≡ take at cells.old ++ bytes.now }
{
    cells[at..at + bytes.len()].copy_from_slice(bytes);
}
