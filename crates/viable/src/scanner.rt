// An automaton by which a text is read. Its moves without a byte are a graph of its states.
ghost use Rattle.std.specs.Prelude.{◌≡◌, ◌<◌};
ghost use Rattle.viable.specs.Moves.{Quiet, quiet_moves};

use pairs::{Automaton, Step};
use reach::{Graph, Moves};

// A text is read from the state 0 on.
#[derive(Drop)]
pub(crate) struct Scanner<'a> {
    pub automaton: Automaton<'a>,
    ghost some: { 0 < automaton.states },
}

impl<'a> Graph for Scanner<'a> {
    ghost edge = { λ g. Quiet g.automaton.table.now };

    ghost nodes = { λ g. g.automaton.states };

    fn size(&self) -> usize {
        self.automaton.states
    }

    fn moves(&self, node: usize) -> Moves {
        quiet(self.automaton.step(node))
    }
}

// Where a state goes on without a byte.
fn quiet(step: Step) -> Moves
    ensures { result ≡ quiet_moves step }
{
    match step {
        Step::Stop => Moves::None,
        Step::To(next) => Moves::One(next as usize),
        Step::Fork(next, choice) => Moves::Two(next as usize, choice as usize),
        Step::Leaf(_, _, _) => Moves::None,
    }
}
