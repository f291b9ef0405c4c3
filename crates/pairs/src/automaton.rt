// An automaton in lent words.
ghost use Rattle.std.specs.Prelude.{◌≡◌, ◌^◌, ◌<◌};
ghost use Rattle.pairs.specs.Pairs.{Stays};
ghost use Rattle.pairs.specs.Table.{shape_at, shape, Bounded};

use crate::table::{Step, step_at};

// States are the numbers below `states`: wherever one goes on is one of them.
#[derive(Clone, Copy)]
pub struct Automaton<'a> {
    pub table: &'a [u32],
    pub states: usize,
    ghost few: { states < 2 ^ 32 },
    ghost stays: { Stays states table.now },
}

impl<'a> Automaton<'a> {
    pub fn new(table: &'a [u32], states: usize) -> Self
        requires bounded { Bounded states table.now }
        requires few { states < 2 ^ 32 }
        ensures table { result.table.now ≡ table.now }
        ensures states { result.states ≡ states }
    {
        Automaton { table, states }
    }

    // What a state does.
    pub fn step(&self, state: usize) -> Step
        ensures { shape result ≡ shape_at self.now.table.now state }
    {
        step_at(self.table, state)
    }
}
