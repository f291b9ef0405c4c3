// Places in an input, as people and editors count them.
ghost use Rattle.std.specs.Prelude.{◌≡◌, ◌-◌, ◌^◌, min, take};
ghost use Rattle.notation.specs.Places.{line_of, column_of};

use notation::{Fault, Wrong};

// A line and a column, both from 1. The column counts bytes.
#[derive(Clone, Copy)]
pub struct Place {
    pub line: usize,
    pub column: usize,
}

// Where the byte at `at` stands, counted as the notation counts for its own faults.
pub fn place_of(text: &[u8], at: usize) -> Place
    ensures line { result.line ≡ min (line_of (take at text.now)) (2 ^ 64 - 1) }
    ensures column { result.column ≡ min (column_of (take at text.now)) (2 ^ 64 - 1) }
{
    let Fault { line, column, .. } = Fault::new(text, at, Wrong::NoEnd);
    Place { line, column }
}

// The byte that stands at a place, or the end of a text that has no such place.
pub fn offset_of(text: &[u8], place: Place) -> usize {
    let mut line: usize = 1;
    let mut column: usize = 1;
    for (at, byte) in text.iter().enumerate() {
        if line == place.line && column == place.column {
            return at;
        }
        if *byte == b'\n' {
            line = line.saturating_add(1);
            column = 1;
        } else {
            column = column.saturating_add(1);
        }
    }
    text.len()
}
