// A graph in a table: the entry of a node has the two nodes that its edges lead to, and a number past the end leads nowhere.
ghost use Rattle.std.specs.Prelude.{length};
ghost use Rattle.reach_cases.specs.Edges.{Linked};

use reach::{Graph, Moves};

#[derive(Drop)]
pub struct Links<'a> {
    pub pairs: &'a [(u32, u32)],
}

impl<'a> Graph for Links<'a> {
    ghost edge = { λ s. Linked s.pairs.now };

    ghost nodes = { λ s. length s.pairs.now };

    fn size(&self) -> usize {
        self.pairs.len()
    }

    fn moves(&self, node: usize) -> Moves {
        let size = self.pairs.len();
        let first = self.pairs[node].0 as usize;
        let second = self.pairs[node].1 as usize;
        match (first < size, second < size) {
            (true, true) => Moves::Two(first, second),
            (true, false) => Moves::One(first),
            (false, true) => Moves::One(second),
            (false, false) => Moves::None,
        }
    }
}
