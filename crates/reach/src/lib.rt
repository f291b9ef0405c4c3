// Which nodes of a finite graph are reached from some of them: the search, proved once for every graph.
// Not here: the graphs. A crate above says what the nodes stand for, and implements `Graph`.
#![tactic(auto)]

mod find;
mod graph;
mod hints;
mod search;

pub use graph::{Graph, Moves};
pub use search::close;
