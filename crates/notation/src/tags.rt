// The tags that the notation writes: the byte with which each node of a row begins.
// Not here: which bytes are read as which nodes (crate rows).

#[derive(Clone, Copy)]
pub enum Tag {
    // Nodes of forms.
    Empty = 0,
    One = 1,
    Seq = 2,
    Or = 3,
    Many = 4,
    // Nodes of views.
    Copy = 10,
    Hide = 11,
    Then = 12,
    Swap = 13,
    Either = 14,
    Each = 15,
}
