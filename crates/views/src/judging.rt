// judge: whether bytes say a view, and whether it is clear. Decided for all texts, never by trying some.
ghost use Rattle.std.specs.Prelude.{◌≡◌, ◌+◌, ◌*◌, min, length};
ghost use Rattle.views.specs.Judged.{JudgedPost};

use clear::is_clear;
use rows::Row;

// What is said of a view: it is clear, it is not, the bytes say none, or there are too few work words to tell. Four verdicts,
// none of which is a failure of the call, so it is no Result.
#[derive(Clone, Copy, Debug, PartialEq, Eq)]
pub enum Judged {
    Plain,
    Unclear,
    NoView,
    Few,
}

// Says of the bytes whether they are a view, and whether it is clear. What the work words hold afterwards is free.
pub fn judge(view: &[u8], work: &mut [u32]) -> Judged
    ensures { JudgedPost view.now (length work.old) result }
{
    if work.len() < floor(view.len()) {
        return Judged::Few;
    }
    let Some(row) = Row::of_view(view) else {
        return Judged::NoView;
    };
    if is_clear(&row, work).yes {
        Judged::Plain
    } else {
        Judged::Unclear
    }
}

// The work words that judging a view of so many bytes wants.
pub fn floor(len: usize) -> usize
    ensures { result ≡ 4096 + min 1025 len * min 1025 len }
{
    let counted = len.min(1025);
    4096 + counted * counted
}
