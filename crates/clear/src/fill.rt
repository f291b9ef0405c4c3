// Lays one side of a row into the table of an automaton, node by node, and asks each condition of that side as
// soon as the states that it is about stand in the table. States are places of the row; the end is its length.
// The room stays a parameter: in a struct beside the row, each call would have to say that the row is still the same.
ghost use Rattle.std.specs.Prelude.{◌≡◌, ◌+◌, ◌*◌, ◌<◌, ◌≤◌, length};
ghost use Rattle.pairs.specs.Room.{pair_words};
ghost use Rattle.pairs.specs.Table.{Bounded};
ghost use Rattle.clear.specs.Filled.{Ready, FormFills, TextFills, ViewFills, CopyFills, HiddenFills, LiteralFills, SeriesFills, TurnedFills, ChoiceFills, PartsFills};

use crate::side::Side;
use pairs::{Answer, Automaton, Step, put_step};
use rows::{FormNode, Kind, Row, ViewNode, form_node, view_node};

pub(crate) fn fill_form(row: &Row, at: usize, next: usize, table: &mut [u32]) -> Option<usize>
    requires ready { Ready row.now.bytes.now next table.old }
    ensures fills { FormFills row.now.bytes.now at next table.old table.new result }
    ensures bounded { Bounded (length row.now.bytes.now + 1) table.new }
{
    match form_node(row.bytes, at)? {
        FormNode::Empty => {
            put_step(table, at, Step::To(next as u32));
            Some(at + 1)
        }
        FormNode::One(low, high) => {
            put_step(table, at, Step::Leaf(low as u32, high as u32, next as u32));
            Some(at + 3)
        }
        FormNode::Seq(first) => {
            let second = row.part_end(first, Kind::Form)?;
            put_step(table, at, Step::To(first as u32));
            let _ = fill_form(row, first, second, table)?;
            fill_form(row, second, next, table)
        }
        FormNode::Or(first) => {
            let second = row.part_end(first, Kind::Form)?;
            put_step(table, at, Step::Fork(first as u32, second as u32));
            let _ = fill_form(row, first, next, table)?;
            fill_form(row, second, next, table)
        }
        FormNode::Many(body) => {
            put_step(table, at, Step::Fork(next as u32, body as u32));
            fill_form(row, body, at, table)
        }
    }
}

// A text's place, its length byte, stands for the whole text; each place reads the byte behind it. The loop counts, since a
// place is a state's number.
fn fill_text(row: &Row, at: usize, next: usize, table: &mut [u32]) -> Option<usize>
    requires ready { Ready row.now.bytes.now next table.old }
    ensures fills { TextFills row.now.bytes.now at next table.old table.new result }
    ensures bounded { Bounded (length row.now.bytes.now + 1) table.new }
{
    let end = row.part_end(at, Kind::Text)?;
    let last = end - 1;
    for place in at..last {
        let byte = row.bytes[place + 1] as u32;
        put_step(table, place, Step::Leaf(byte, byte, (place + 1) as u32));
    }
    put_step(table, last, Step::To(next as u32));
    Some(end)
}

// Lays one side of the view at `at`, and answers where the view ends, and whether it is clear on that side.
#[cycle(filling)]
pub(crate) fn fill_view(
    row: &Row,
    at: usize,
    next: usize,
    side: Side,
    table: &mut [u32],
    room: &mut [u32],
) -> Option<(usize, Answer)>
    requires ready { Ready row.now.bytes.now next table.old }
    requires enough { 3 * pair_words (length row.now.bytes.now + 1) ≤ length room.old }
    ensures fills { ViewFills side row.now.bytes.now at next table.old table.new result }
    ensures bounded { Bounded (length row.now.bytes.now + 1) table.new }
{
    match view_node(row.bytes, at)? {
        ViewNode::Copy(_) => fill_copy(row, at, next, table),
        ViewNode::Hide(_) => match side {
            Side::Source => fill_hidden(row, at, next, table, room),
            Side::Look => fill_literal(row, at, next, table),
        },
        ViewNode::Then(first) => {
            let second = row.part_end(first, Kind::View)?;
            fill_series(row, at, second, next, side, table, room)
        }
        ViewNode::Swap(first) => {
            let second = row.part_end(first, Kind::View)?;
            match side {
                Side::Source => fill_series(row, at, second, next, side, table, room),
                Side::Look => fill_turned(row, at, second, next, side, table, room),
            }
        }
        ViewNode::Either(first) => {
            let second = row.part_end(first, Kind::View)?;
            fill_choice(row, at, second, next, side, table, room)
        }
        ViewNode::Each(_) => fill_parts(row, at, next, side, table, room),
    }
}

// copy: its form, on both sides.
fn fill_copy(row: &Row, at: usize, next: usize, table: &mut [u32]) -> Option<(usize, Answer)>
    requires ready { Ready row.now.bytes.now next table.old }
    requires inside { at < length row.now.bytes.now }
    ensures fills { CopyFills row.now.bytes.now at next table.old table.new result }
    ensures bounded { Bounded (length row.now.bytes.now + 1) table.new }
{
    let form = at + 1;
    put_step(table, at, Step::To(form as u32));
    let end = fill_form(row, form, next, table)?;
    Some((end, Answer::known(true)))
}

// hide, as its sources stand: its form; the text for a new source has to be of it.
fn fill_hidden(
    row: &Row,
    at: usize,
    next: usize,
    table: &mut [u32],
    room: &mut [u32],
) -> Option<(usize, Answer)>
    requires ready { Ready row.now.bytes.now next table.old }
    requires enough { 3 * pair_words (length row.now.bytes.now + 1) ≤ length room.old }
    requires inside { at < length row.now.bytes.now }
    ensures fills { HiddenFills row.now.bytes.now at next table.old table.new result }
    ensures bounded { Bounded (length row.now.bytes.now + 1) table.new }
{
    let form = at + 1;
    let shown = row.part_end(form, Kind::Form)?;
    let fresh = row.part_end(shown, Kind::Text)?;
    put_step(table, at, Step::To(form as u32));
    let _ = fill_form(row, form, next, table)?;
    let end = fill_text(row, fresh, next, table)?;
    let fits = laid(row, table).meets(fresh, form, next, room);
    Some((end, fits))
}

// hide, as its looks stand: the text that it shows.
fn fill_literal(row: &Row, at: usize, next: usize, table: &mut [u32]) -> Option<(usize, Answer)>
    requires ready { Ready row.now.bytes.now next table.old }
    requires inside { at < length row.now.bytes.now }
    ensures fills { LiteralFills row.now.bytes.now at next table.old table.new result }
    ensures bounded { Bounded (length row.now.bytes.now + 1) table.new }
{
    let shown = row.part_end(at + 1, Kind::Form)?;
    let fresh = row.part_end(shown, Kind::Text)?;
    let end = row.part_end(fresh, Kind::Text)?;
    put_step(table, at, Step::To(shown as u32));
    let _ = fill_text(row, shown, next, table)?;
    Some((end, Answer::known(true)))
}

// Two views, one after the other as they stand in the row.
#[cycle(filling)]
fn fill_series(
    row: &Row,
    at: usize,
    second: usize,
    next: usize,
    side: Side,
    table: &mut [u32],
    room: &mut [u32],
) -> Option<(usize, Answer)>
    requires ready { Ready row.now.bytes.now next table.old }
    requires enough { 3 * pair_words (length row.now.bytes.now + 1) ≤ length room.old }
    requires inside { at < length row.now.bytes.now }
    requires second_after { at < second }
    requires second_inside { second ≤ length row.now.bytes.now }
    ensures fills { SeriesFills side row.now.bytes.now at second next table.old table.new result }
    ensures bounded { Bounded (length row.now.bytes.now + 1) table.new }
{
    let first = at + 1;
    put_step(table, at, Step::To(first as u32));
    let (_, front) = fill_view(row, first, second, side, table, room)?;
    let (end, back) = fill_view(row, second, next, side, table, room)?;
    let crossed = laid(row, table).crosses(first, second, next, room);
    Some((end, front & back & !crossed))
}

// Two views of which the second one's texts come first, as the looks of swap do. One function for both orders would take a
// flag, and choose three of its four places by it.
#[cycle(filling)]
fn fill_turned(
    row: &Row,
    at: usize,
    second: usize,
    next: usize,
    side: Side,
    table: &mut [u32],
    room: &mut [u32],
) -> Option<(usize, Answer)>
    requires ready { Ready row.now.bytes.now next table.old }
    requires enough { 3 * pair_words (length row.now.bytes.now + 1) ≤ length room.old }
    requires inside { at < length row.now.bytes.now }
    requires second_after { at < second }
    requires second_inside { second ≤ length row.now.bytes.now }
    ensures fills { TurnedFills side row.now.bytes.now at second next table.old table.new result }
    ensures bounded { Bounded (length row.now.bytes.now + 1) table.new }
{
    let first = at + 1;
    put_step(table, at, Step::To(second as u32));
    let (_, back) = fill_view(row, first, next, side, table, room)?;
    let (end, front) = fill_view(row, second, first, side, table, room)?;
    let crossed = laid(row, table).crosses(second, first, next, room);
    Some((end, back & front & !crossed))
}

// One of two views.
#[cycle(filling)]
fn fill_choice(
    row: &Row,
    at: usize,
    second: usize,
    next: usize,
    side: Side,
    table: &mut [u32],
    room: &mut [u32],
) -> Option<(usize, Answer)>
    requires ready { Ready row.now.bytes.now next table.old }
    requires enough { 3 * pair_words (length row.now.bytes.now + 1) ≤ length room.old }
    requires inside { at < length row.now.bytes.now }
    requires second_after { at < second }
    requires second_inside { second ≤ length row.now.bytes.now }
    ensures fills { ChoiceFills side row.now.bytes.now at second next table.old table.new result }
    ensures bounded { Bounded (length row.now.bytes.now + 1) table.new }
{
    let first = at + 1;
    put_step(table, at, Step::Fork(first as u32, second as u32));
    let (_, left) = fill_view(row, first, next, side, table, room)?;
    let (end, right) = fill_view(row, second, next, side, table, room)?;
    let both = laid(row, table).meets(first, second, next, room);
    Some((end, left & right & !both))
}

// Any number of parts of one view, none of them empty.
#[cycle(filling)]
fn fill_parts(
    row: &Row,
    at: usize,
    next: usize,
    side: Side,
    table: &mut [u32],
    room: &mut [u32],
) -> Option<(usize, Answer)>
    requires ready { Ready row.now.bytes.now next table.old }
    requires enough { 3 * pair_words (length row.now.bytes.now + 1) ≤ length room.old }
    requires inside { at < length row.now.bytes.now }
    ensures fills { PartsFills side row.now.bytes.now at next table.old table.new result }
    ensures bounded { Bounded (length row.now.bytes.now + 1) table.new }
{
    let part = at + 1;
    put_step(table, at, Step::Fork(next as u32, part as u32));
    let (end, body) = fill_view(row, part, at, side, table, room)?;
    let empty = laid(row, table).meets(part, at, at, room);
    let crossed = laid(row, table).crosses(part, at, next, room);
    Some((end, body & (!empty & !crossed)))
}

// The table as an automaton, with a state for each place of the row and one for its end.
fn laid<'a>(row: &Row, table: &'a [u32]) -> Automaton<'a>
    requires bounded { Bounded (length row.now.bytes.now + 1) table.now }
    ensures table { result.table.now ≡ table.now }
    ensures states { result.states ≡ length row.now.bytes.now + 1 }
{
    Automaton::new(table, row.bytes.len() + 1)
}
