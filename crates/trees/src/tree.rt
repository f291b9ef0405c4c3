// A form as a tree in lent words, as the passes over a text take it.
ghost use Rattle.trees.specs.Ready.{Ready};

#[derive(Clone, Copy)]
pub struct Tree<'a> {
    // The nodes, four words a place.
    pub words: &'a [u32],
    // A bit a place: whether the empty text is of the node's form.
    pub null: &'a [u32],
    // How many places there are.
    pub size: usize,
    // The place of the whole form.
    pub root: usize,
    pub ghost ready: { ∥ Ready words.now null.now size root ∥₁ },
}
