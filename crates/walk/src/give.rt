// What a walk gives at the views that have no views in them: a part of the text as it is, or one of the texts of a hide.
ghost use Rattle.std.specs.Prelude.{ℕ, ◌≤◌, length};
ghost use Rattle.lens.specs.Forms.{Text};
ghost use Rattle.rows.specs.Rows.{text_row, TextFine};
ghost use Rattle.rows.proofs.Tags.{Hidden, hidden_row, HiddenFine};
ghost use Rattle.clear.specs.Filled.{Laid};
ghost use Rattle.walk.specs.Spans.{slice};
ghost use Rattle.walk.specs.Turns.{other_text};

use crate::sink::Sink;
use crate::span::Span;
use clear::Side;
use rows::{Kind, Row};

// Gives a part of the bytes.
pub fn give_part<S: Sink>(bytes: &[u8], part: Span, sink: &mut S)
    requires ordered { part.at ≤ part.«end» }
    requires inside { part.«end» ≤ length bytes.now }
    ensures { S.took sink.old sink.new (slice bytes.now part.at part.«end») }
{
    sink.take(&bytes[part.at..part.end]);
}

// Gives what the hide, whose form begins at `form`, has for the other side: what it shows of a source, or what it puts where
// there was none.
pub(crate) fn give_hidden<S: Sink>(row: &Row, side: Side, form: usize, sink: &mut S)
    ensures { (p : Hidden) (e : ℕ) → Laid hidden_row HiddenFine row.now.bytes.now form e p → S.took sink.old sink.new (other_text side p.1.0 p.1.1) }
{
    let Some(shown) = row.part_end(form, Kind::Form) else {
        return;
    };
    let Some(fresh) = row.part_end(shown, Kind::Text) else {
        return;
    };
    match side {
        Side::Source => give_text(row, shown, sink),
        Side::Look => give_text(row, fresh, sink),
    }
}

// Gives the text at `at`, without its length.
fn give_text<S: Sink>(row: &Row, at: usize, sink: &mut S)
    ensures { (v : Text) (e : ℕ) → Laid text_row TextFine row.now.bytes.now at e v → S.took sink.old sink.new v }
{
    let Some(end) = row.part_end(at, Kind::Text) else {
        return;
    };
    give_part(row.bytes, Span { at: at + 1, end }, sink);
}
