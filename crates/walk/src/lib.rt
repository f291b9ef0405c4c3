// Walks over a cut text of one side of a view, and gives what it turns into on the other side.
// Not here: how the text is cut (crate marks), and how two cut texts are walked over together (crate put_back).
#![tactic(auto)]

mod count;
mod cut_text;
mod delivery;
mod give;
mod sink;
mod span;
mod turning;
mod written;

pub use count::Count;
pub use cut_text::{CutText, second_of};
pub use delivery::{Give, deliver};
pub use give::give_part;
pub use sink::Sink;
pub use span::Span;
pub use turning::Turned;
pub use written::Written;
