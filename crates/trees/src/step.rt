// One step of the backward pass: from the row of bits behind a spot of the text to the row of the spot. The step depends
// on that row and on the byte alone, never on the text.
// First it finds, for each node, whether the text behind fits what must stand behind the node (its stack), parents before
// parts; and then, for each node, whether a part that is not empty begins at the spot, parts before their node.
// Both loops count, since a place is the number by which nodes name it. `bits` is no field of a spot: what it holds in the end
// is the caller's.
ghost use Rattle.std.specs.Prelude.{◌≡◌, ◌+◌, ◌*◌, ◌^◌, ◌≤◌, length};

use crate::nodes::{Node, node_at, up_at};
use crate::null::is_null;
use crate::tree::Tree;

// A place of a text, for a tree.
#[derive(Clone, Copy)]
pub struct Spot<'a> {
    pub tree: Tree<'a>,
    // The bit at which its row begins. The row of the next place begins behind it.
    pub row: usize,
    pub byte: u8,
    // Whether the text ends behind it. Then there is no row behind: nothing begins there.
    pub last: bool,
    // A part is named by a word, whatever stands at places that are no nodes, so with 2^32 to spare the number of no bit wraps.
    pub ghost small: { row + tree.size + 2 ^ 32 ≤ 2 ^ 64 },
}

impl<'a> Spot<'a> {
    ghost use Rattle.trees.specs.Rows.{Rested, Steps, row_at, row_behind};
    ghost use Rattle.trees.specs.Rules.{rest, start};

    // Fills the row of the spot. `rests` is room to work in, a bit for each node.
    pub fn step_back(&self, rests: &mut [u32], bits: &mut [u32])
        requires rests_room { self.now.tree.size ≤ 32 * length rests.old }
        requires bits_room { self.now.row + self.now.tree.size ≤ 32 * length bits.old }
        ensures { Steps self.now bits.old bits.new 0 }
    {
        self.mark_rests(rests, bits);
        self.mark_starts(rests, bits);
    }

    // Finds for each node whether the text behind fits its stack, parents before their parts.
    fn mark_rests(&self, rests: &mut [u32], bits: &[u32])
        requires room { self.now.tree.size ≤ 32 * length rests.old }
        ensures { Rested bits.now self.now rests.new self.now.tree.size }
    {
        for place in 0..self.tree.size {
            let value = self.rest_at(rests, bits, place);
            bits::put(rests, place, value);
        }
    }

    // Whether the text behind fits the stack of a node, by the bit of its parent and the row behind.
    fn rest_at(&self, rests: &[u32], bits: &[u32], place: usize) -> bool
        ensures { result ≡ rest rests.now bits.now self.now place }
    {
        if place == self.tree.root {
            return self.last;
        }
        let parent = up_at(self.tree.words, place);
        let above = bits::get(rests, parent as usize);
        match node_at(self.tree.words, parent as usize) {
            Node::Seq(first, second) => {
                let follows = self.starts_behind(bits, second)
                    | (is_null(self.tree.null, second) & above);
                if place == first as usize {
                    follows
                } else {
                    above
                }
            }
            Node::Many(_) => self.starts_behind(bits, parent) | above,
            Node::None
            | Node::Empty
            | Node::One(_, _)
            | Node::Or(_, _)
            | Node::Same(_)
            | Node::Byte(_, _) => above,
        }
    }

    // Finds for each node whether a part that is not empty begins here, parts before their node.
    fn mark_starts(&self, rests: &[u32], bits: &mut [u32])
        requires room { self.now.row + self.now.tree.size ≤ 32 * length bits.old }
        requires rested { Rested bits.old self.now rests.now self.now.tree.size }
        ensures { Steps self.now bits.old bits.new 0 }
    {
        for place in (0..self.tree.size).rev() {
            let value = self.start_at(rests, bits, place);
            bits::put(bits, self.row + place, value);
        }
    }

    // Whether a part of a node that is not empty begins here, by the bits of its parts and the row behind.
    fn start_at(&self, rests: &[u32], bits: &[u32], place: usize) -> bool
        ensures { result ≡ start rests.now bits.now self.now place }
    {
        let byte = u32::from(self.byte);
        let rest = bits::get(rests, place);
        match node_at(self.tree.words, place) {
            Node::None | Node::Empty => false,
            Node::One(low, high) => (low <= byte) & ((byte <= high) & rest),
            Node::Seq(first, second) => {
                self.starts_here(bits, first)
                    | (is_null(self.tree.null, first) & self.starts_here(bits, second))
            }
            Node::Or(left, right) => self.starts_here(bits, left) | self.starts_here(bits, right),
            Node::Many(part) => self.starts_here(bits, part),
            Node::Same(part) => self.starts_here(bits, part),
            Node::Byte(want, part) => {
                (byte == want)
                    & (self.starts_behind(bits, part) | (is_null(self.tree.null, part) & rest))
            }
        }
    }

    // The bit of a node in the row of the spot.
    fn starts_here(&self, bits: &[u32], place: u32) -> bool
        ensures { result ≡ row_at bits.now self.now.row place }
    {
        bits::get(bits, self.row + place as usize)
    }

    // The bit of a node in the row behind.
    fn starts_behind(&self, bits: &[u32], place: u32) -> bool
        ensures { result ≡ row_behind bits.now self.now place }
    {
        !self.last & bits::get(bits, self.row + self.tree.size + place as usize)
    }
}
