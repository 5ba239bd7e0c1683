// A heap as seven words, and an answer as a number and two words.
ghost use Rattle.std.specs.Prelude.{◌≡◌};
ghost use Rattle.c_face.specs.Face.{heap_of, words_of, Tells};

use answers::Told;
use rules::{Addr, Answer, Heap, Place, Refusal};

// The heap that seven words say. No `From`: neither type is this crate's.
pub fn load(words: &[u64; 7]) -> Heap
    ensures { result ≡ heap_of words.now }
{
    Heap {
        base: Addr(words[0]),
        len: words[1],
        bottom: Addr(words[2]),
        top: Addr(words[3]),
        first: Place(words[4]),
        pending: words[5],
        used: words[6],
    }
}

// The seven words of a heap.
pub fn store(words: &mut [u64; 7], h: Heap)
    ensures { words.new ≡ words_of h }
{
    *words = [
        h.base.0, h.len, h.bottom.0, h.top.0, h.first.0, h.pending, h.used,
    ];
}

// Puts the two values into the answer's words and gives the number.
pub fn tell(answer: &mut [u64; 2], a: Result<Answer, Refusal>) -> u64
    ensures { Tells a result answer.new }
{
    let t = Told::from(a);
    *answer = [t.one, t.two];
    t.no
}
