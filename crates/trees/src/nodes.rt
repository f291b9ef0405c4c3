// The nodes of a tree in lent words: four words a place, a kind, two operands, and the place of the parent.
ghost use Rattle.std.specs.Prelude.{◌≡◌, ◌+◌, ◌*◌, ◌<◌, length};
ghost use Rattle.trees.specs.Nodes.{node_of_words, node_at, up_at, Changed};

use records::{put_record, record_at};

// A node, with the places of its parts: none at all; the form of the empty text; one byte from the first number to the
// second; one part after the other; one or the other; any number of parts; the same as its part; one byte, and then
// its part. `None` is one of them and no Option: the passes go by it as by the other nodes without parts.
#[derive(Clone, Copy, Debug, PartialEq, Eq)]
pub enum Node {
    None,
    Empty,
    One(u32, u32),
    Seq(u32, u32),
    Or(u32, u32),
    Many(u32),
    Same(u32),
    Byte(u32, u32),
}

// The three words of a node: any other kind is no node. The words are lent, so a kind is a number there.
impl From<[u32; 3]> for Node {
    ghost from_gives = { λ words node. node ≡ node_of_words words };

    fn from(words: [u32; 3]) -> Self {
        let [kind, first, second] = words;
        match kind {
            1 => Node::Empty,
            2 => Node::One(first, second),
            3 => Node::Seq(first, second),
            4 => Node::Or(first, second),
            5 => Node::Many(first),
            6 => Node::Same(first),
            7 => Node::Byte(first, second),
            _ => Node::None,
        }
    }
}

impl From<Node> for [u32; 3] {
    ghost from_gives = { λ node words. node_of_words words ≡ node };

    fn from(node: Node) -> Self {
        match node {
            Node::None => [0, 0, 0],
            Node::Empty => [1, 0, 0],
            Node::One(low, high) => [2, low, high],
            Node::Seq(first, second) => [3, first, second],
            Node::Or(left, right) => [4, left, right],
            Node::Many(part) => [5, part, 0],
            Node::Same(part) => [6, part, 0],
            Node::Byte(byte, rest) => [7, byte, rest],
        }
    }
}

// The node at a place; past the end of the words there is none.
pub fn node_at(words: &[u32], place: usize) -> Node
    ensures { result ≡ node_at words.now place }
{
    let [kind, first, second, _] = record_at(words, place);
    Node::from([kind, first, second])
}

// The place of a node's parent.
pub fn up_at(words: &[u32], place: usize) -> u32
    ensures { result ≡ up_at words.now place }
{
    let [_, _, _, up] = record_at(words, place);
    up
}

// Puts a node at a place, with the place of its parent.
pub fn put_node(words: &mut [u32], place: usize, node: Node, up: u32)
    requires inside { 4 * place + 3 < length words.old }
    ensures { Changed words.old words.new place node up }
{
    let [kind, first, second]: [u32; 3] = node.into();
    put_record(words, place, [kind, first, second, up]);
}
