// One node of a row: the tag and what belongs to it alone.
// Not here: where its parts end (parts.rt).
ghost use Rattle.std.specs.Prelude.{◌≡◌, ◌<◌, length, slice_index};
ghost use Rattle.rows.specs.Nodes.{IsFormNode, IsViewNode};

// A node of a form; a place is where its first part begins.
#[derive(Clone, Copy, Debug, PartialEq, Eq)]
pub enum FormNode {
    Empty,
    One(u8, u8),
    Seq(usize),
    Or(usize),
    Many(usize),
}

// A node of a view; a place is where its first part begins.
#[derive(Clone, Copy, Debug, PartialEq, Eq)]
pub enum ViewNode {
    Copy(usize),
    Hide(usize),
    Then(usize),
    Swap(usize),
    Either(usize),
    Each(usize),
}

// The node of a form at `at`, or none: no form begins there. A tag is a byte of the format.
pub fn form_node(row: &[u8], at: usize) -> Option<FormNode>
    ensures { IsFormNode row.now at result }
{
    if at >= row.len() {
        return None;
    }
    let first = at + 1;
    match row[at] {
        0 => Some(FormNode::Empty),
        1 => range_node(row, at),
        2 => Some(FormNode::Seq(first)),
        3 => Some(FormNode::Or(first)),
        4 => Some(FormNode::Many(first)),
        5..=255 => None,
    }
}

// The range behind the tag at `at`; one that goes downward is no form.
fn range_node(row: &[u8], at: usize) -> Option<FormNode>
    requires inside { at < length row.now }
    requires tagged { slice_index row.now at ≡ 1 }
    ensures { IsFormNode row.now at result }
{
    if row.len() - at < 3 {
        return None;
    }
    let low = row[at + 1];
    let high = row[at + 2];
    let range = FormNode::One(low, high);
    if low <= high { Some(range) } else { None }
}

// The node of a view at `at`, or none: no view begins there. A tag is a byte of the format.
pub fn view_node(row: &[u8], at: usize) -> Option<ViewNode>
    ensures { IsViewNode row.now at result }
{
    if at >= row.len() {
        return None;
    }
    let first = at + 1;
    match row[at] {
        0..=9 => None,
        10 => Some(ViewNode::Copy(first)),
        11 => Some(ViewNode::Hide(first)),
        12 => Some(ViewNode::Then(first)),
        13 => Some(ViewNode::Swap(first)),
        14 => Some(ViewNode::Either(first)),
        15 => Some(ViewNode::Each(first)),
        16..=255 => None,
    }
}
