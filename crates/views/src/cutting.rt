// A text cut into the parts of one side of a view, in lent words: one pass over the text in each direction.
ghost use Rattle.std.specs.Prelude.{◌+◌, ◌*◌, ◌^◌, ◌≤◌, length};
ghost use Rattle.views.specs.Room.{cut_words};
ghost use Rattle.views.specs.Cut.{ClearRow, Cuts};

use clear::Side;
use grow::grow;
use marks::mark_all;
use recall::scan;
use rows::Row;
use trees::{Tree, mark_null};
use walk::CutText;

// Cuts the text by the view, which is clear, or says that the text isn't of the form of that side. A type for clear rows
// would keep that there is a view, and not which, which the cut is about.
pub(crate) fn cut_text<'w, 't>(
    row: &Row,
    side: Side,
    text: &'t [u8],
    work: &'w mut [u32],
) -> Option<CutText<'w, 't>>
    requires clear { ClearRow row.now.bytes.now }
    requires small { length text.now * length row.now.bytes.now + 2 ^ 32 ≤ 2 ^ 64 }
    requires enough { cut_words (length row.now.bytes.now) (length text.now) ≤ length work.old }
    ensures { Cuts side row.now.bytes.now text.now result }
{
    let size = row.bytes.len();
    let (words, rest) = work.split_at_mut(4 * size);
    let (null, rest) = rest.split_at_mut(size / 32 + 1);
    let (rests, rest) = rest.split_at_mut(size / 32 + 1);
    let cells = text.len() * size / 32 + 1;
    let (starts, rest) = rest.split_at_mut(cells);
    // The words behind the marks are touched only as far as steps are remembered, so that a caller can lend memory that costs
    // nothing until it is.
    let (marks, memory) = rest.split_at_mut(cells);
    grow(row, side, words);
    mark_null(words, size, null);
    let tree = Tree {
        words,
        null,
        size,
        root: 0,
    };
    let scanned = scan(tree, rests, text, starts, memory);
    if !mark_all(&scanned, marks) {
        return None;
    }
    Some(CutText {
        side,
        scanned,
        marks,
    })
}
