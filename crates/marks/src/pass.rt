// The forward pass over a text, and where a part ends by the marks that the pass made.
ghost use Rattle.std.specs.Prelude.{◌≡◌, ℕ, ◌+◌, ◌*◌, ◌^◌, ◌≤◌, true, List, length};
ghost use Rattle.trees.specs.Rows.{Accepts};
ghost use Rattle.marks.specs.Tables.{PartOf, Part};
ghost use Rattle.marks.specs.Passes.{Grown};

use crate::cells::cell_at;
use crate::cut::mark_part;
use trees::{Scanned, begun_at};

// Whether the text is of the form of the whole tree; if it is, all its parts are marked.
pub fn mark_all(scanned: &Scanned<'_, '_>, marks: &mut [u32]) -> bool
    requires grown { Grown scanned.now.tree }
    requires room { length scanned.now.text.now * scanned.now.tree.size ≤ 32 * length marks.old }
    ensures accepts { Accepts scanned.now.tree scanned.now.text.now result }
    ensures marked { result ≡ true → Part scanned.now marks.new scanned.now.tree.root 0 (length scanned.now.text.now) }
{
    if !scanned.matches() {
        return false;
    }
    bits::clear(marks);
    let _ = mark_part(scanned, marks, scanned.tree.root, 0);
    true
}

// Where the part of the node that begins at `at` ends: at once if no part that is not empty begins there, or else behind
// the first mark of the node.
// It goes by the bits alone, in rows of so many nodes: they need not be the table of a tree.
pub fn end_of(
    nodes: usize,
    text: &[u8],
    starts: &[u32],
    marks: &[u32],
    place: usize,
    at: usize,
) -> usize
    requires small { length text.now * nodes + 2 ^ 32 ≤ 2 ^ 64 }
    ensures { (words : List ℕ) (e : ℕ) → PartOf words nodes text.now starts.now marks.now place at e → result ≡ e }
{
    if !begun_at(nodes, text, starts, place, at) {
        return at;
    }
    let end = text.len();
    (at..end)
        .find(|&last| cell_at(nodes, marks, place, last))
        .map_or(end, |last| last + 1)
}

#[cfg(test)]
mod tests {
    use super::*;

    // Bits that are the table of no tree, in rows of two nodes: a part of the node 1 begins at the place 0, and its mark stands
    // at the place 1, or nowhere.
    #[test]
    fn ends_by_any_bits(rt: HostRuntime) {
        assert_eq!(rt; end_of(2, b"abc", &[2], &[8], 1, 0), 2);
        assert_eq!(rt; end_of(2, b"abc", &[2], &[8], 0, 0), 0);
        assert_eq!(rt; end_of(2, b"abc", &[2], &[], 1, 0), 3);
    }
}
