// A heap and the arena that it is lent, once the tests on its numbers have passed.
ghost use Rattle.numbers.specs.Ready.{Ready};

use rules::Heap;

// A heap whose numbers keep the rules that a walk uses, and an arena of the length that they say.
#[derive(Clone, Copy)]
pub struct Loan<'a> {
    pub heap: Heap,
    pub arena: &'a [u8],
    ghost ready: { Ready heap arena.now },
}
