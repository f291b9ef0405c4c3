// Which nodes of a tree the empty text is of.
ghost use Rattle.std.specs.Prelude.{◌≡◌, ◌*◌, ◌≤◌, length};
ghost use Rattle.bits.specs.Bits.{bit};
ghost use Rattle.trees.specs.Nodes.{node_at, Linked};
ghost use Rattle.trees.specs.Ready.{Nulls};
ghost use Rattle.trees.specs.Rules.{null_rule};

use crate::nodes::{Node, node_at};

// Gives each place its bit, the last place first: parts stand behind their node.
// The loop counts, since a place is the number by which nodes name it.
pub fn mark_null(words: &[u32], size: usize, null: &mut [u32])
    requires linked { Linked size words.now }
    requires room { size ≤ 32 * length null.old }
    ensures { Nulls size words.now (bit null.new) 0 }
{
    for place in (0..size).rev() {
        let value = null_at(words, null, place);
        bits::put(null, place, value);
    }
}

// Whether the empty text is of the node, by the bits of its parts.
fn null_at(words: &[u32], null: &[u32], place: usize) -> bool
    ensures { result ≡ null_rule (bit null.now) (node_at words.now place) }
{
    match node_at(words, place) {
        Node::None => false,
        Node::Empty => true,
        Node::One(_, _) => false,
        Node::Seq(first, second) => is_null(null, first) & is_null(null, second),
        Node::Or(left, right) => is_null(null, left) | is_null(null, right),
        Node::Many(_) => true,
        Node::Same(part) => is_null(null, part),
        Node::Byte(_, _) => false,
    }
}

// The bit of a part.
pub(crate) fn is_null(null: &[u32], part: u32) -> bool
    ensures { result ≡ bit null.now part }
{
    bits::get(null, part as usize)
}
