// A form as a tree in lent words; one step of the backward pass over a text, which finds for every node and every place of the
// text whether a part of that node that is not empty can begin there; and what the table of it says.
// Not here: who fills the tree, the pass over a whole text (crate recall), and what the bits are used for.
#![tactic(auto)]

mod nodes;
mod null;
mod scanned;
mod step;
mod table;
mod tree;

pub use nodes::{Node, node_at, put_node, up_at};
pub use null::mark_null;
pub use scanned::Scanned;
pub use step::Spot;
pub use table::{begun_at, matches};
pub use tree::Tree;
