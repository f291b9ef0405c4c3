// A graph that stands in no memory: from each node of a ring to twice its number, and to the next.
ghost use Rattle.reach_cases.specs.Edges.{Around};

use reach::{Graph, Moves};

#[derive(Clone, Copy)]
pub struct Ring {
    pub size: u32,
}

impl Graph for Ring {
    ghost edge = { λ s. Around s.size };

    ghost nodes = { λ s. s.size };

    fn size(&self) -> usize {
        self.size as usize
    }

    fn moves(&self, node: usize) -> Moves {
        let size = self.size as usize;
        Moves::Two(2 * node % size, (node + 1) % size)
    }
}
