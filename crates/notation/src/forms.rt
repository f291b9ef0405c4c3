// Writes forms without parts into a row: the empty form, a range, a literal, what some bytes leave.
// Not here: forms with parts, whose tags the parser puts before them (parser).
ghost use Rattle.std.specs.Prelude.{◌≤◌, ◌∷◌, ◌++◌, take, drop, OnOk};
ghost use Rattle.lens.specs.Forms.{one};
ghost use Rattle.notation.specs.Written.{Grown, spelled};
ghost use Rattle.rows.specs.Rows.{form_row};

use crate::row::Row;
use crate::tags::Tag;
use std::alloc::AllocError;

// One byte from `low` to `high`.
pub fn range(row: &mut Row, low: u8, high: u8) -> Result<(), AllocError>
    ensures { OnOk result (Grown row.old row.new (λ s. s ++ form_row (one low high))) }
{
    row.extend(&[Tag::One as u8, low, high])
}

// The bytes, one after the other.
pub fn literal(row: &mut Row, bytes: &[u8]) -> Result<(), AllocError>
    ensures { OnOk result (Grown row.old row.new (λ s. s ++ form_row (spelled bytes.now))) }
{
    let Some((last, front)) = bytes.split_last() else {
        row.push(Tag::Empty as u8)?;
        return Ok(());
    };
    for byte in front {
        row.push(Tag::Seq as u8)?;
        range(row, *byte, *byte)?;
    }
    range(row, *last, *last)?;
    Ok(())
}

// The form f that begins at `at` becomes f f*.
pub fn more(row: &mut Row, at: usize) -> Result<(), AllocError>
    requires { at ≤ row.old.total }
    ensures { OnOk result (Grown row.old row.new (λ s. take at s ++ 2 ∷ (drop at s ++ 4 ∷ drop at s))) }
{
    let end = row.len();
    row.repeat(at)?;
    row.tag(end, Tag::Many as u8)?;
    row.tag(at, Tag::Seq as u8)?;
    Ok(())
}

// One byte that is none of `bytes`, as the ranges that they leave; false if they leave none, of which the caller says where.
pub fn none_of(row: &mut Row, bytes: &[u8]) -> Result<bool, AllocError>
    ensures { OnOk result (row.old.total ≤ row.new.total) }
{
    let mut left = [true; 256];
    for byte in bytes {
        left[usize::from(*byte)] = false;
    }
    ranges(row, &left)
}

// One byte of those marked, as ranges upward; false if none is. The loop counts through all bytes, each of which may end a
// range.
fn ranges(row: &mut Row, marked: &[bool; 256]) -> Result<bool, AllocError>
    ensures { OnOk result (row.old.total ≤ row.new.total) }
{
    let mut at = row.len();
    let mut some = false;
    // Where the range begins that ends at `high` or later.
    let mut low: u8 = 0;
    for high in 0..=255u8 {
        if !marked[usize::from(high)] {
            low = high.saturating_add(1);
        } else if high == 255 || !marked[usize::from(high) + 1] {
            if some {
                row.tag(at, Tag::Or as u8)?;
                at = row.len();
            }
            range(row, low, high)?;
            some = true;
        }
    }
    Ok(some)
}
