// The pairs of states as a graph: the pair of `first` and `second` is the node first * states + second, and its edges
// are the moves of two runs side by side.
// A state is a word of the table or a place that a caller counts, so each contract says its bound, and no type does.
ghost use Rattle.std.specs.Prelude.{◌≡◌, ℕ, ◌+◌, ◌*◌, ◌^◌, ◌<◌, ◌≤◌};
ghost use Rattle.automata.specs.Automaton.{stop};
ghost use Rattle.automata.specs.Coded.{coded, Edge};
ghost use Rattle.pairs.specs.Pairs.{stopped, numbered, listed};
ghost use Rattle.pairs.specs.Table.{shape};

use crate::automaton::Automaton;
use crate::table::Step;
use reach::{Graph, Moves};

#[derive(Drop)]
pub(crate) struct Pairs<'a> {
    pub automaton: Automaton<'a>,
    // The state at which both runs stop, whatever the table says.
    pub end: usize,
    ghost few: { automaton.states ≤ 1025 },
}

impl<'a> Graph for Pairs<'a> {
    ghost edge = { λ g. Edge g.automaton.states (stopped g.automaton.table.now g.«end») };

    ghost nodes = { λ g. g.automaton.states * g.automaton.states };

    fn size(&self) -> usize {
        self.automaton.states * self.automaton.states
    }

    fn moves(&self, node: usize) -> Moves {
        self.moves_of(node / self.automaton.states, node % self.automaton.states)
    }
}

impl<'a> Pairs<'a> {
    // What a state does; the end stops.
    pub fn step(&self, state: usize) -> Step
        ensures { shape result ≡ stopped self.now.automaton.table.now self.now.«end» state }
    {
        if state == self.end {
            Step::Stop
        } else {
            self.automaton.step(state)
        }
    }

    // The node of a pair.
    pub fn node(&self, first: usize, second: usize) -> usize
        requires first_small { first < 2 ^ 32 }
        requires second_small { second < 2 ^ 32 }
        ensures { result ≡ coded self.now.automaton.states (first, second) }
    {
        first * self.automaton.states + second
    }

    // Where a pair moves: the first run without a byte as long as it can; then, while it waits, the second one; then
    // both read one byte, if one fits both.
    fn moves_of(&self, first: usize, second: usize) -> Moves
        requires first_small { first < 2 ^ 32 }
        requires second_small { second < 2 ^ 32 }
        ensures { listed result ≡ numbered self.now.automaton.states first second (stopped self.now.automaton.table.now self.now.«end» first) (stopped self.now.automaton.table.now self.now.«end» second) }
    {
        match self.step(first) {
            Step::Stop => self.follow(first, self.step(second)),
            Step::To(next) => Moves::One(self.node(next as usize, second)),
            Step::Fork(next, choice) => {
                Moves::Two(
                    self.node(next as usize, second),
                    self.node(choice as usize, second),
                )
            }
            Step::Leaf(low, high, next) => match self.step(second) {
                Step::Leaf(from, to, after) => {
                    if low.max(from) <= high.min(to) {
                        Moves::One(self.node(next as usize, after as usize))
                    } else {
                        Moves::None
                    }
                }
                other => self.follow(first, other),
            },
        }
    }

    // Where a pair moves whose first run waits: the second one without a byte.
    fn follow(&self, first: usize, step: Step) -> Moves
        requires small { first < 2 ^ 32 }
        ensures { (second : ℕ) → listed result ≡ numbered self.now.automaton.states first second stop (shape step) }
    {
        match step {
            Step::Stop => Moves::None,
            Step::To(next) => Moves::One(self.node(first, next as usize)),
            Step::Fork(next, choice) => {
                Moves::Two(
                    self.node(first, next as usize),
                    self.node(first, choice as usize),
                )
            }
            Step::Leaf(_, _, _) => Moves::None,
        }
    }
}
