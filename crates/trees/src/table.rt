// What bits that were lent say of a text, in rows of bits, one for each node. Whether they are a table of the text is asked only
// where it matters.
ghost use Rattle.std.specs.Prelude.{◌≡◌, ◌+◌, ◌*◌, ◌^◌, ◌≤◌, length};
ghost use Rattle.trees.specs.Cells.{begun_of};
ghost use Rattle.trees.specs.Rows.{Tabled, Accepts};

use crate::tree::Tree;

// Whether bits, in rows of so many nodes, say that a part of the node that is not empty begins at the place `at` of the text.
// They say so of no place at its end, nor of a node that has no place in a row.
pub fn begun_at(nodes: usize, text: &[u8], starts: &[u32], place: usize, at: usize) -> bool
    requires small { length text.now * nodes + 2 ^ 32 ≤ 2 ^ 64 }
    ensures { result ≡ begun_of nodes text.now starts.now at place }
{
    if at >= text.len() || place >= nodes {
        return false;
    }
    bits::get(starts, at * nodes + place)
}

// Whether the text is of the form of the whole tree, by its table, however long it is.
pub fn matches(tree: &Tree<'_>, text: &[u8], starts: &[u32]) -> bool
    requires tabled { Tabled tree.now starts.now text.now 0 }
    ensures { Accepts tree.now text.now result }
{
    if text.is_empty() {
        bits::get(tree.null, tree.root)
    } else {
        bits::get(starts, tree.root)
    }
}
