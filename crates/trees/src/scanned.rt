// A text with the table of what begins where in it, and what the table says: of a node and a place, and of the whole text.
// Not here: who fills the table, and how its bits are read (table.rt).
ghost use Rattle.std.specs.Prelude.{◌≡◌, ◌+◌, ◌*◌, ◌^◌, ◌≤◌, length};
ghost use Rattle.trees.specs.Rows.{Tabled, BeginsAt, Accepts};

use crate::table::{begun_at, matches};
use crate::tree::Tree;

#[derive(Clone, Copy)]
pub struct Scanned<'w, 't> {
    pub tree: Tree<'w>,
    pub text: &'t [u8],
    // A row of bits for each place of the text: bit at * size + place says whether a part of the node `place` that is not
    // empty begins at the place `at` of the text.
    pub starts: &'w [u32],
    pub ghost tabled: { ∥ Tabled tree starts.now text.now 0 ∥₁ },
    // A part is named by a word, whatever stands at places that are no nodes, so the number of no bit wraps.
    pub ghost small: { length text.now * tree.size + 2 ^ 32 ≤ 2 ^ 64 },
}

impl<'w, 't> Scanned<'w, 't> {
    ghost use Rattle.trees.specs.Cells.{begun};

    // Whether a part of the node that is not empty begins at the place `at` of the text. None does at its end, nor of a place
    // that is not in the tree.
    pub fn begins_at(&self, place: usize, at: usize) -> bool
        ensures begins { BeginsAt self.now.tree self.now.text.now at place result }
        ensures begun { result ≡ begun self.now at place }
    {
        begun_at(self.tree.size, self.text, self.starts, place, at)
    }

    // Whether the text is of the form of the whole tree.
    pub fn matches(&self) -> bool
        ensures { Accepts self.now.tree self.now.text.now result }
    {
        matches(&self.tree, self.text, self.starts)
    }
}
