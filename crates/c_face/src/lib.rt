// The C face (include/leanlantern.h): a heap is seven 64-bit words in the paper's order, base, arena
// length, bottom, top, first, pending, used; a call's number is its result, and its two values are the
// answer's words.
//
// Each export is the function that it wraps, on the heap that the words say. None has a `requires`: any
// words and any bytes may be lent. What C has to keep is what a reference means: arrays of these lengths
// that do not overlap.
#![tactic(auto)]

pub mod calls;
pub mod readers;
pub mod report;
mod words;
