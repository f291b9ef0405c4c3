// What the search asks of a graph: how many nodes it has, and where the edges out of a node lead.
ghost use Rattle.std.specs.Prelude.{◌≡◌, ℕ, ◌<◌};
ghost use Rattle.reach.specs.Graphs.{Leads};

// The nodes that the edges out of a node lead to, two at most.
#[derive(Clone, Copy, Debug, PartialEq, Eq)]
pub enum Moves {
    None,
    One(usize),
    Two(usize, usize),
}

// A graph whose nodes are the numbers below `nodes`.
pub trait Graph {
    // Whether an edge leads from one node to another.
    ghost edge: { Self → ℕ → ℕ → Type 0 };

    ghost nodes: { Self → ℕ };

    fn size(&self) -> usize
        ensures { result ≡ nodes self.now };

    // Where the edges out of a node lead, and that they stay within the graph.
    fn moves(&self, node: usize) -> Moves
        requires { node < nodes self.now }
        ensures { Leads (edge self.now node) (nodes self.now) result };
}
