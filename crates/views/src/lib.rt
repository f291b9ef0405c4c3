// The calls on views: what is said of one, and what it does with texts.
#![tactic(auto)]

mod admitting;
mod cutting;
mod fitting;
mod judging;
mod made;
mod putting;
mod room;
mod turning;

pub use clear::Side;
pub use fitting::{Unfit, viable_prefix};
pub use judging::{Judged, floor, judge};
pub use made::{Made, Refused};
pub use putting::put;
pub use room::work_words;
pub use turning::{make, show};
pub use viable::{Break, ByteRange, ByteSet};
