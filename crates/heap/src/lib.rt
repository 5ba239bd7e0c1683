// The heap: every call of document 01, and resize, on a heap by value and a lent arena.
//
// No public function has a `requires`. Each tests its own input, refuses with the paper's number and
// ensures, for any seven numbers and any bytes, what it answers, the heap that it hands back and the
// entire arena that it leaves: those of `after`, the paper as a definition (crate rules). This crate
// has no code of its own: it names the calls, each of which stands in its own crate. The five readers
// are in crate numbers.
#![tactic(auto)]

pub use allocate::allocate;
pub use extend::extend;
pub use free::free;
pub use open::{empty, open};
pub use reports::{list, room};
pub use resize::resize;
