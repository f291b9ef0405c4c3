// An answer in a line: how many bytes were written, as Done(3), or why none were.
use std::fmt;
use views::Made;

#[derive(Clone, Copy)]
pub struct Told(pub Made);

impl fmt::Display for Told {
    fn fmt<W: fmt::Write>(&self, f: &mut fmt::Formatter<W>) -> fmt::Result {
        match self.0 {
            Ok(len) => write!(f, "Done({len})"),
            Err(why) => write!(f, "{why:?}"),
        }
    }
}
