// Cuts what stands at a place of a text into parts, in the order of the text, and marks the last place of each part that
// is not empty. What begins where is known, so the way is never tried and given up: the part that is not empty first.
// `marks` and its room are no field beside the scanned text: what it holds in the end is the caller's.
ghost use Rattle.std.specs.Prelude.{◌≡◌, ◌+◌, ◌*◌, ◌≤◌, true, length};
ghost use Rattle.trees.specs.Nodes.{node_at};
ghost use Rattle.trees.specs.Cells.{cell, begun};
ghost use Rattle.marks.specs.Cut.{whole, inner, series};
ghost use Rattle.marks.specs.Passes.{Here, HereSeries, Fresh, Cuts};

use crate::cells::add_mark;
use trees::{Node, Scanned, node_at};

// Cuts the part of the node that begins at `at`, and returns where it ends. Its own mark is made last.
#[cycle(marking)]
pub(crate) fn mark_part(
    scanned: &Scanned<'_, '_>,
    marks: &mut [u32],
    place: usize,
    at: usize,
) -> usize
    requires room { length scanned.now.text.now * scanned.now.tree.size ≤ 32 * length marks.old }
    requires fresh { Fresh (cell scanned.now.tree marks.old) at }
    requires here { Here scanned.now place at }
    ensures { Cuts scanned.now (whole place) place marks.old marks.new at result }
{
    if !scanned.begins_at(place, at) {
        return at;
    }
    let end = mark_inner(scanned, marks, place, at);
    add_mark(&scanned.tree, marks, place, end - 1);
    end
}

// Cuts what a part that is not empty is made of.
#[cycle(marking)]
fn mark_inner(scanned: &Scanned<'_, '_>, marks: &mut [u32], place: usize, at: usize) -> usize
    requires room { length scanned.now.text.now * scanned.now.tree.size ≤ 32 * length marks.old }
    requires fresh { Fresh (cell scanned.now.tree marks.old) at }
    requires here { Here scanned.now place at }
    requires some { begun scanned.now at place ≡ true }
    ensures { Cuts scanned.now (inner (node_at scanned.now.tree.words.now place)) (place + 1) marks.old marks.new at result }
{
    match node_at(scanned.tree.words, place) {
        Node::None | Node::Empty => at,
        Node::One(_, _) => at + 1,
        Node::Byte(_, rest) => mark_part(scanned, marks, rest as usize, at + 1),
        Node::Seq(first, second) => {
            let middle = mark_part(scanned, marks, first as usize, at);
            mark_part(scanned, marks, second as usize, middle)
        }
        Node::Or(left, right) => {
            if scanned.begins_at(left as usize, at) {
                mark_part(scanned, marks, left as usize, at)
            } else {
                mark_part(scanned, marks, right as usize, at)
            }
        }
        Node::Many(part) => mark_series(scanned, marks, part as usize, at),
        Node::Same(part) => mark_part(scanned, marks, part as usize, at),
    }
}

// Cuts parts of the node one after the other, as long as another one begins.
#[cycle(marking)]
fn mark_series(scanned: &Scanned<'_, '_>, marks: &mut [u32], place: usize, at: usize) -> usize
    requires room { length scanned.now.text.now * scanned.now.tree.size ≤ 32 * length marks.old }
    requires fresh { Fresh (cell scanned.now.tree marks.old) at }
    requires here { HereSeries scanned.now place at }
    ensures { Cuts scanned.now (series place) place marks.old marks.new at result }
{
    let mut end = at;
    'parts: while scanned.begins_at(place, end) {
        end = mark_part(scanned, marks, place, end);
    }
    end
}
