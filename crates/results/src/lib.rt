// What comes of a call in the memory of a program, which is at most 16 MiB: the text that is wanted, or why there is none.
// Not here: files and messages (crate commands).
#![tactic(auto)]

mod calling;
mod room;

pub use calling::{Unmade, made, put_back, shown};
pub use room::{LIMIT, Lent, lend, need};
