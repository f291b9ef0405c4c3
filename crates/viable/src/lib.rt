// Reads a text through sets of states of an automaton: whether it is of the automaton's form, and where it breaks if not.
// Not here: how a form or a view is laid into a table (crates pairs and clear), and lines, columns or messages.
#![tactic(auto)]

mod bytes;
mod reading;
mod scanner;
mod states;

pub use bytes::{ByteRange, ByteSet};
pub use reading::{Break, read};
