// A row: bytes that are few enough to say a view.
// Not here: its nodes (nodes.rt), and how its parts are read (parts.rt).
ghost use Rattle.std.specs.Prelude.{◌≤◌, length};
ghost use Rattle.rows.specs.Parts.{PartEnds};

use crate::parts::{Kind, part_end};

// The most bytes that a row may have.
pub const MAX_ROW: usize = 1024;

#[derive(Clone, Copy)]
pub struct Row<'a> {
    pub bytes: &'a [u8],
    ghost short: { length bytes.now ≤ 1024 },
}

impl<'a> Row<'a> {
    ghost use Rattle.rows.specs.Reads.{Taken, Read};

    // The bytes as a row, or none if they are too many.
    pub fn new(bytes: &'a [u8]) -> Option<Row<'a>>
        ensures { Taken bytes.now result }
    {
        if bytes.len() > MAX_ROW {
            return None;
        }
        Some(Row { bytes })
    }

    // The bytes as a row, or none if they say no view.
    pub fn of_view(bytes: &'a [u8]) -> Option<Row<'a>>
        ensures { Read bytes.now result }
    {
        let row = Row::new(bytes)?;
        let end = row.part_end(0, Kind::View)?;
        if end == bytes.len() { Some(row) } else { None }
    }

    // Where the part at `at` ends, or none: no such part begins there. The bound on the row bounds the recursion.
    pub fn part_end(&self, at: usize, kind: Kind) -> Option<usize>
        ensures { PartEnds kind self.now.bytes.now at result }
    {
        part_end(self.bytes, at, kind)
    }
}
