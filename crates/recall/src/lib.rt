// The backward pass over a text, with its steps remembered: a step depends on the row of bits behind and on the byte alone, so
// where both were seen before, the row that came of them is copied.
// Not here: what a step does (crate trees), and where the lent words lie.
#![tactic(auto)]

mod memory;
mod pass;
mod slots;

pub use pass::{backward, scan};
