// Where a part of a row ends: forms, views and texts, read in prefix order.
ghost use Rattle.rows.specs.Rows.{form_row, view_row, text_row, FormFine, ViewFine, TextFine};
ghost use Rattle.rows.specs.Stands.{Ends};
ghost use Rattle.rows.specs.Parts.{PartEnds, PairEnds};

use crate::nodes::{FormNode, ViewNode, form_node, view_node};

// What a part of a row is: a form, a view, or a text with its length in front.
#[derive(Clone, Copy, Debug, PartialEq, Eq)]
pub enum Kind {
    Form,
    View,
    Text,
}

// Where the part at `at` ends.
#[cycle(ends)]
pub(crate) fn part_end(row: &[u8], at: usize, kind: Kind) -> Option<usize>
    ensures { PartEnds kind row.now at result }
{
    match kind {
        Kind::Form => form_end(row, at),
        Kind::View => view_end(row, at),
        Kind::Text => text_end(row, at),
    }
}

// Where the second of two parts of one kind ends, of which the first begins at `at`.
#[cycle(ends)]
fn pair_end(row: &[u8], at: usize, kind: Kind) -> Option<usize>
    ensures { PairEnds kind row.now at result }
{
    let second = part_end(row, at, kind)?;
    part_end(row, second, kind)
}

#[cycle(ends)]
fn form_end(row: &[u8], at: usize) -> Option<usize>
    ensures { Ends form_row FormFine row.now at result }
{
    match form_node(row, at)? {
        FormNode::Empty => Some(at + 1),
        FormNode::One(_, _) => Some(at + 3),
        FormNode::Seq(first) => pair_end(row, first, Kind::Form),
        FormNode::Or(first) => pair_end(row, first, Kind::Form),
        FormNode::Many(body) => part_end(row, body, Kind::Form),
    }
}

#[cycle(ends)]
fn view_end(row: &[u8], at: usize) -> Option<usize>
    ensures { Ends view_row ViewFine row.now at result }
{
    match view_node(row, at)? {
        ViewNode::Copy(form) => part_end(row, form, Kind::Form),
        ViewNode::Hide(form) => {
            let texts = part_end(row, form, Kind::Form)?;
            pair_end(row, texts, Kind::Text)
        }
        ViewNode::Then(first) => pair_end(row, first, Kind::View),
        ViewNode::Swap(first) => pair_end(row, first, Kind::View),
        ViewNode::Either(first) => pair_end(row, first, Kind::View),
        ViewNode::Each(body) => part_end(row, body, Kind::View),
    }
}

// A text is its length in one byte and then its bytes.
fn text_end(row: &[u8], at: usize) -> Option<usize>
    ensures { Ends text_row TextFine row.now at result }
{
    if at >= row.len() {
        return None;
    }
    let len = row[at] as usize;
    let start = at + 1;
    if row.len() - start < len {
        return None;
    }
    Some(start + len)
}
