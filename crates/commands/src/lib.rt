// The programs show, put and judge, as functions from their arguments to what they print, or to why they refuse. Not here:
// what a view does with a text (crate views).
#![tactic(auto)]

mod answering;
mod asking;
mod excerpts;
mod inputs;
mod judging;
mod misfits;
mod places;
mod putting;
mod refusals;
mod running;
mod showing;

pub use judging::judge;
pub use putting::put;
pub use refusals::Refusal;
pub use running::{arguments, deliver};
pub use showing::show;
