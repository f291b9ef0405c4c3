// Which pairs of states are reached together, reading the same text.
ghost use Rattle.std.specs.Prelude.{◌≡◌, ◌+◌, ◌*◌, ◌<◌, ◌≤◌, length, Decides, nat_eq};
ghost use Rattle.automata.specs.Automaton.{Leaf, Meets, Crosses};
ghost use Rattle.pairs.specs.Marks.{Only, Enters};
ghost use Rattle.pairs.specs.Pairs.{stopped};
ghost use Rattle.pairs.specs.Room.{pair_words};
ghost use Rattle.pairs.specs.Table.{shape_at, shape};

use crate::answer::Answer;
use crate::automaton::Automaton;
use crate::graph::Pairs;
use crate::table::Step;

impl<'a> Automaton<'a> {
    // Whether runs from `first` and `second` come to `end` with the same text.
    pub fn meets(&self, first: usize, second: usize, end: usize, room: &mut [u32]) -> Answer
        requires few { self.now.states ≤ 1025 }
        requires first_inside { first < self.now.states }
        requires second_inside { second < self.now.states }
        requires end_inside { «end» < self.now.states }
        requires enough { 3 * pair_words self.now.states ≤ length room.old }
        ensures { Decides result.yes (Meets (λ s. nat_eq s «end») (shape_at self.now.table.now) first second «end») }
    {
        let pairs = Pairs {
            automaton: *self,
            end,
        };
        let words = pair_words(self.states);
        let (seen, rest) = room.split_at_mut(words);
        let (done, hints) = rest.split_at_mut(words);
        mark_only(seen, pairs.node(first, second));
        let visited = reach::close(&pairs, seen, done, hints);
        let yes = bits::get(seen, pairs.node(end, end));
        Answer { yes, visited }
    }

    // Whether of two runs from `first` one comes to `middle` while the other is about to read a byte before it,
    // and both then come to `end` with the same text.
    pub fn crosses(&self, first: usize, middle: usize, end: usize, room: &mut [u32]) -> Answer
        requires few { self.now.states ≤ 1025 }
        requires first_inside { first < self.now.states }
        requires middle_inside { middle < self.now.states }
        requires end_inside { «end» < self.now.states }
        requires enough { 3 * pair_words self.now.states ≤ length room.old }
        ensures { Decides result.yes (Crosses (λ s. nat_eq s middle) (λ s. nat_eq s «end») (shape_at self.now.table.now) first middle «end») }
    {
        let before = Pairs {
            automaton: *self,
            end: middle,
        };
        let words = pair_words(self.states);
        let (seen, rest) = room.split_at_mut(words);
        let (entered, rest) = rest.split_at_mut(words);
        let (done, hints) = rest.split_at_mut(words);
        mark_only(seen, before.node(first, first));
        let visited_before = reach::close(&before, seen, done, hints);
        enter(&before, seen, entered);
        let after = Pairs {
            automaton: *self,
            end,
        };
        let visited_after = reach::close(&after, entered, done, hints);
        let yes = bits::get(entered, after.node(end, end));
        Answer {
            yes,
            visited: visited_before + visited_after,
        }
    }
}

// How many words hold a bit for each pair of states.
fn pair_words(states: usize) -> usize
    requires few { states ≤ 1025 }
    ensures { result ≡ pair_words states }
{
    states * states / 32 + 1
}

// Makes one bit true, and the others false.
fn mark_only(words: &mut [u32], node: usize)
    requires inside { node < 32 * length words.old }
    ensures { Only words.new node }
{
    bits::clear(words);
    bits::set(words, node);
}

// Marks the pairs from which two runs may go on behind the middle, where `before` stops: the first one is there, and
// the second one is about to read a byte. The loop counts, since states are numbers.
fn enter(before: &Pairs, seen: &[u32], entered: &mut [u32])
    requires middle_inside { before.now.«end» < before.now.automaton.states }
    requires enough { before.now.automaton.states * before.now.automaton.states ≤ 32 * length entered.old }
    ensures { Enters before.now.automaton.states (stopped before.now.automaton.table.now before.now.«end») before.now.«end» seen.now before.now.automaton.states entered.new }
{
    bits::clear(entered);
    for state in 0..before.automaton.states {
        let node = before.node(before.end, state);
        let reached = bits::get(seen, node);
        let reads = is_leaf(before.step(state));
        bits::put(entered, node, reached & reads);
    }
}

fn is_leaf(step: Step) -> bool
    ensures { Decides result (Leaf (shape step)) }
{
    matches!(step, Step::Leaf(_, _, _))
}
