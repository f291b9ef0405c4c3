// Grows the tree of one side of a row's view: nodes stand at the places of the row.
// Not here: the words of a node, and the passes over a text that use the tree (crate trees).
#![tactic(auto)]

mod nodes;

pub use nodes::grow;
