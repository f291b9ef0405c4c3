// A text that has been cut into the parts of one side of a view, and where its parts are.
// Not here: how a text is cut (crate marks).
ghost use Rattle.std.specs.Prelude.{◌≡◌};
ghost use Rattle.trees.specs.Nodes.{node_at};
ghost use Rattle.walk.specs.Walks.{other_of};

use clear::Side;
use trees::{Node, Scanned, node_at};

#[derive(Clone, Copy)]
pub struct CutText<'w, 't> {
    pub side: Side,
    // The text with the tree of the side, whose nodes stand at the places of the row, and which of its parts begin where.
    pub scanned: Scanned<'w, 't>,
    // Which parts that are not empty end where: a bit for each place of the text and each node.
    pub marks: &'w [u32],
}

impl<'w, 't> CutText<'w, 't> {
    ghost use Rattle.walk.specs.Walks.{Ends, Takes, other_part};

    // Where the part of the node that begins at `at` ends.
    pub fn end_of(&self, place: usize, at: usize) -> usize
        ensures { Ends self.now place at result }
    {
        let nodes = self.scanned.tree.size;
        marks::end_of(
            nodes,
            self.scanned.text,
            self.scanned.starts,
            self.marks,
            place,
            at,
        )
    }

    // The place of the second part of the view at `place`, whose first part stands at `first`.
    pub fn second_of(&self, place: usize, first: usize) -> usize
        ensures { result ≡ other_part self.now place first }
    {
        second_of(self.scanned.tree.words, place, first)
    }

    // Whether the cut took the first of two nodes: a part of it that is not empty begins at `at`, or none of either does
    // and the empty text is of it.
    pub fn takes_first(&self, first: usize, second: usize, at: usize) -> bool
        ensures { Takes self.now first second at result }
    {
        if self.scanned.begins_at(first, at) {
            return true;
        }
        if self.scanned.begins_at(second, at) {
            return false;
        }
        bits::get(self.scanned.tree.null, first)
    }
}

// The place of the second part of the node at `place`, whose first part stands at `first`, by the nodes in any words.
pub fn second_of(words: &[u32], place: usize, first: usize) -> usize
    ensures { result ≡ other_of (node_at words.now place) first }
{
    match node_at(words, place) {
        Node::Seq(left, right) => {
            if left as usize == first {
                right as usize
            } else {
                left as usize
            }
        }
        Node::Or(_, right) => right as usize,
        _ => 0,
    }
}
