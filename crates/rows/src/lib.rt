// Views as rows of bytes: at most 1,024 bytes in prefix order, read one node at a time.
// Not here: the readable notation (crate notation), and what a view means (crate lens).
#![tactic(auto)]

ghost use Rattle.rows.specs.Cases.{NumberRow};
ghost use Rattle.rows.specs.Reads.{IsView, PartEnd};

mod nodes;
mod parts;
mod row;

pub use nodes::{FormNode, ViewNode, form_node, view_node};
pub use parts::Kind;
pub use row::{MAX_ROW, Row};

// Whether these bytes say a view.
pub fn is_view(bytes: &[u8]) -> bool
    ensures { IsView bytes.now result }
{
    Row::of_view(bytes).is_some()
}

// Where the part that begins at `at` ends, or none: no such part begins there, or the bytes are too many for a row.
pub fn part_end(bytes: &[u8], at: usize, kind: Kind) -> Option<usize>
    ensures { PartEnd kind bytes.now at result }
{
    Row::new(bytes)?.part_end(at, kind)
}

// The row of a worked view. It does nothing: its contract is the theorem.
pub fn number_row() -> u8
    ensures { NumberRow }
{
    0
}
