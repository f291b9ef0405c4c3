// Whether a view is clear: each condition is a question about two runs of an automaton. Also a side laid into one alone.
// Not here: the automaton and the search (crate pairs), and why the questions are the right ones (crate automata).
#![tactic(auto)]

mod automaton;
mod fill;
mod side;
mod verdict;

pub use automaton::lay;
pub use pairs::Answer;
pub use side::Side;
pub use verdict::is_clear;
