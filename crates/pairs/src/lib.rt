// Two runs of one automaton side by side: whether they meet, and whether they cross.
// The automaton stands in lent words (table.rt, automaton.rt); the search goes over pairs of states (search.rt).
#![tactic(auto)]

mod answer;
mod automaton;
mod graph;
mod search;
mod table;

pub use answer::Answer;
pub use automaton::Automaton;
pub use table::{Step, put_step, step_at};
