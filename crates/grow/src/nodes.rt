// From a row to the tree of one side of its view. Each node stands at its own place of the row; the other places have
// no node.
// That the words have room for the tree stays in each contract: what they hold afterwards is promised, and a struct that held
// them would have each contract say that they are still the same words.
ghost use Rattle.std.specs.Prelude.{◌≡◌, ◌*◌, ◌≤◌, length};
ghost use Rattle.grow.specs.Grown.{FormGrows, TextGrows, ShownGrows, ViewGrows, TreeOf, swapped};

use clear::Side;
use rows::{FormNode, Kind, Row, ViewNode, form_node, view_node};
use trees::{Node, put_node};

// The tree of one side of the view that the row says: its root is the place 0, and it has a place for each byte.
pub fn grow(row: &Row, side: Side, tree: &mut [u32])
    requires tree_long { 4 * length row.now.bytes.now ≤ length tree.old }
    ensures { TreeOf side row.now.bytes.now tree.new }
{
    // Not every byte of a row becomes a node; a place of zeros is none.
    tree[..4 * row.bytes.len()].fill(0);
    grow_view(row, 0, 0, side, tree);
}

// The form at `at`, as a part of the node at `up`.
fn grow_form(row: &Row, at: usize, up: u32, tree: &mut [u32])
    requires tree_long { 4 * length row.now.bytes.now ≤ length tree.old }
    requires inside { at ≤ length row.now.bytes.now }
    ensures { FormGrows row.now.bytes.now at up tree.old tree.new }
{
    let Some(node) = form_node(row.bytes, at) else {
        return;
    };
    match node {
        FormNode::Empty => put_node(tree, at, Node::Empty, up),
        FormNode::One(low, high) => put_node(tree, at, Node::One(low as u32, high as u32), up),
        FormNode::Seq(first) => {
            let Some(second) = row.part_end(first, Kind::Form) else {
                return;
            };
            put_node(tree, at, Node::Seq(first as u32, second as u32), up);
            grow_form(row, first, at as u32, tree);
            grow_form(row, second, at as u32, tree);
        }
        FormNode::Or(first) => {
            let Some(second) = row.part_end(first, Kind::Form) else {
                return;
            };
            put_node(tree, at, Node::Or(first as u32, second as u32), up);
            grow_form(row, first, at as u32, tree);
            grow_form(row, second, at as u32, tree);
        }
        FormNode::Many(body) => {
            put_node(tree, at, Node::Many(body as u32), up);
            grow_form(row, body, at as u32, tree);
        }
    }
}

// The text at `at`, as a part of the node at `up`: each place stands for the bytes behind it, so the length byte stands
// for the whole text, and the last byte for the empty one. The loop counts, since a place is the number by which nodes name it.
fn grow_text(row: &Row, at: usize, up: u32, tree: &mut [u32])
    requires tree_long { 4 * length row.now.bytes.now ≤ length tree.old }
    ensures { TextGrows row.now.bytes.now at up tree.old tree.new }
{
    let Some(end) = row.part_end(at, Kind::Text) else {
        return;
    };
    let last = end - 1;
    let mut above = up;
    for place in at..last {
        let rest = place + 1;
        put_node(
            tree,
            place,
            Node::Byte(row.bytes[rest] as u32, rest as u32),
            above,
        );
        above = place as u32;
    }
    put_node(tree, last, Node::Empty, above);
}

// One side of the view at `at`, as a part of the node at `up`.
fn grow_view(row: &Row, at: usize, up: u32, side: Side, tree: &mut [u32])
    requires tree_long { 4 * length row.now.bytes.now ≤ length tree.old }
    requires inside { at ≤ length row.now.bytes.now }
    ensures { ViewGrows side row.now.bytes.now at up tree.old tree.new }
{
    let Some(node) = view_node(row.bytes, at) else {
        return;
    };
    match node {
        ViewNode::Copy(form) => {
            put_node(tree, at, Node::Same(form as u32), up);
            grow_form(row, form, at as u32, tree);
        }
        ViewNode::Hide(form) => match side {
            Side::Source => {
                put_node(tree, at, Node::Same(form as u32), up);
                grow_form(row, form, at as u32, tree);
            }
            Side::Look => grow_shown(row, at, up, tree),
        },
        ViewNode::Then(first) => {
            let Some(second) = row.part_end(first, Kind::View) else {
                return;
            };
            put_node(tree, at, Node::Seq(first as u32, second as u32), up);
            grow_view(row, first, at as u32, side, tree);
            grow_view(row, second, at as u32, side, tree);
        }
        ViewNode::Swap(first) => {
            let Some(second) = row.part_end(first, Kind::View) else {
                return;
            };
            put_node(tree, at, swap_node(first as u32, second as u32, side), up);
            grow_view(row, first, at as u32, side, tree);
            grow_view(row, second, at as u32, side, tree);
        }
        ViewNode::Either(first) => {
            let Some(second) = row.part_end(first, Kind::View) else {
                return;
            };
            put_node(tree, at, Node::Or(first as u32, second as u32), up);
            grow_view(row, first, at as u32, side, tree);
            grow_view(row, second, at as u32, side, tree);
        }
        ViewNode::Each(body) => {
            put_node(tree, at, Node::Many(body as u32), up);
            grow_view(row, body, at as u32, side, tree);
        }
    }
}

// The looks of the hide at `at`: the text that it shows, which stands behind its form.
fn grow_shown(row: &Row, at: usize, up: u32, tree: &mut [u32])
    requires tree_long { 4 * length row.now.bytes.now ≤ length tree.old }
    requires inside { at ≤ length row.now.bytes.now }
    ensures { ShownGrows row.now.bytes.now at up tree.old tree.new }
{
    let Some(shown) = row.part_end(at + 1, Kind::Form) else {
        return;
    };
    put_node(tree, at, Node::Same(shown as u32), up);
    grow_text(row, shown, at as u32, tree);
}

// Two views of which the second one's looks come first.
fn swap_node(first: u32, second: u32, side: Side) -> Node
    ensures { result ≡ swapped side first second }
{
    match side {
        Side::Source => Node::Seq(first, second),
        Side::Look => Node::Seq(second, first),
    }
}
