// The backward pass over a text, step by step from its end.
ghost use Rattle.std.specs.Prelude.{◌≡◌, ◌+◌, ◌*◌, ◌^◌, ◌≤◌, length};
ghost use Rattle.trees.specs.Rows.{Tabled};

use crate::memory::Memory;
use trees::{Scanned, Spot, Tree};

// Fills a row of bits for each place of the text, from its end. Bit i * size + q says whether a part of the node q that
// is not empty begins at the place i. `rests` is room to work in, a bit for each node, and `memory` room to remember steps in,
// of any length.
pub fn backward(
    tree: &Tree<'_>,
    rests: &mut [u32],
    text: &[u8],
    bits: &mut [u32],
    memory: &mut [u32],
)
    requires rests_room { tree.now.size ≤ 32 * length rests.old }
    requires bits_room { length text.now * tree.now.size ≤ 32 * length bits.old }
    requires small { length text.now * tree.now.size + 2 ^ 32 ≤ 2 ^ 64 }
    ensures { Tabled tree.now bits.new text.now 0 }
{
    let mut memory = Memory::new(*tree, memory);
    let mut slot = None;
    // The loop counts, since i names the row too: with `enumerate().rev()` a proof finds i again from what was yielded.
    for i in (0..text.len()).rev() {
        let spot = Spot {
            tree: *tree,
            row: i * tree.size,
            byte: text[i],
            last: i + 1 == text.len(),
        };
        slot = memory.step(&spot, rests, bits, slot);
    }
}

// The same, with the text and its table as one value; what the bits hold once that is let go is not said.
pub fn scan<'w, 't>(
    tree: Tree<'w>,
    rests: &mut [u32],
    text: &'t [u8],
    bits: &'w mut [u32],
    memory: &mut [u32],
) -> Scanned<'w, 't>
    requires rests_room { tree.size ≤ 32 * length rests.old }
    requires bits_room { length text.now * tree.size ≤ 32 * length bits.old }
    requires small { length text.now * tree.size + 2 ^ 32 ≤ 2 ^ 64 }
    ensures tree { result.tree ≡ tree.entry }
    ensures text { result.text.now ≡ text.now }
{
    backward(&tree, rests, text, bits, memory);
    Scanned {
        tree,
        text,
        starts: bits,
    }
}
