// Cuts a text into the parts of a tree, by the bits that say which parts can begin where, and marks where each part ends.
// Not here: how those bits are found, and what the parts are used for.
#![tactic(auto)]

mod cells;
mod cut;
mod pass;

pub use pass::{end_of, mark_all};
