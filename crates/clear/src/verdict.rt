// Whether a row's view is clear: both sides of it are laid into an automaton, one after the other in the same words.
ghost use Rattle.std.specs.Prelude.{◌≤◌, length};
ghost use Rattle.clear.specs.Verdict.{clear_words, Tells, TellsSide};

use crate::fill::fill_view;
use crate::side::Side;
use pairs::Answer;
use rows::Row;

// Whether the view that the row says is clear, and how many pairs of states were visited to tell. What the words hold
// afterwards is free.
pub fn is_clear(row: &Row, work: &mut [u32]) -> Answer
    requires enough { clear_words (length row.now.bytes.now) ≤ length work.old }
    ensures { Tells row.now.bytes.now result }
{
    is_clear_on(row, Side::Source, work) & is_clear_on(row, Side::Look, work)
}

fn is_clear_on(row: &Row, side: Side, work: &mut [u32]) -> Answer
    requires enough { clear_words (length row.now.bytes.now) ≤ length work.old }
    ensures { TellsSide side row.now.bytes.now result }
{
    let (table, room) = work.split_at_mut(4 * row.bytes.len());
    table.fill(0);
    match fill_view(row, 0, row.bytes.len(), side, table, room) {
        Some((_, clear)) => clear,
        None => Answer::known(false),
    }
}
