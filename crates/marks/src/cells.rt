// Bits for nodes and places of a text, a row of nodes for each place.
ghost use Rattle.std.specs.Prelude.{◌≡◌, ◌+◌, ◌*◌, ◌^◌, ◌<◌, ◌≤◌, length};
ghost use Rattle.trees.specs.Cells.{cell, cell_of};
ghost use Rattle.marks.specs.Passes.{Adds};

use trees::Tree;

// The bit of the node in the row of `at`, in rows of so many nodes; a place that is not among them has none.
pub(crate) fn cell_at(nodes: usize, bits: &[u32], place: usize, at: usize) -> bool
    requires small { at * nodes + nodes ≤ 2 ^ 64 }
    ensures { result ≡ cell_of nodes bits.now at place }
{
    if place >= nodes {
        return false;
    }
    bits::get(bits, at * nodes + place)
}

// Marks the node at a place of the text.
pub(crate) fn add_mark(tree: &Tree<'_>, marks: &mut [u32], place: usize, at: usize)
    requires inside { place < tree.now.size }
    requires room { at * tree.now.size + tree.now.size ≤ 32 * length marks.old }
    requires small { at * tree.now.size + tree.now.size ≤ 2 ^ 64 }
    ensures { Adds (cell tree.now marks.old) (cell tree.now marks.new) at place }
{
    bits::set(marks, at * tree.size + place);
}
