// The table of an automaton: four words a state, a kind and what belongs to it.
ghost use Rattle.std.specs.Prelude.{◌≡◌, ◌+◌, ◌*◌, ◌<◌, length};
ghost use Rattle.pairs.specs.Table.{shape_of_words, shape_at, shape, Changed};

use records::{put_record, record_at};

// What a state does: nothing more; go on at a state; at one of two; or read a byte from the first number to the
// second, and go on at the third.
#[derive(Clone, Copy, Debug, PartialEq, Eq)]
pub enum Step {
    Stop,
    To(u32),
    Fork(u32, u32),
    Leaf(u32, u32, u32),
}

// A kind, and what belongs to it; any other kind stops. The words are lent, so a kind is a number there.
impl From<[u32; 4]> for Step {
    ghost from_gives = { λ words step. shape step ≡ shape_of_words words };

    fn from(words: [u32; 4]) -> Self {
        let [kind, first, second, third] = words;
        match kind {
            1 => Step::To(first),
            2 => Step::Fork(first, second),
            3 => Step::Leaf(first, second, third),
            _ => Step::Stop,
        }
    }
}

impl From<Step> for [u32; 4] {
    ghost from_gives = { λ step words. shape_of_words words ≡ shape step };

    fn from(step: Step) -> Self {
        match step {
            Step::Stop => [0, 0, 0, 0],
            Step::To(next) => [1, next, 0, 0],
            Step::Fork(one, other) => [2, one, other, 0],
            Step::Leaf(low, high, next) => [3, low, high, next],
        }
    }
}

// What the state does; past the end of the table it stops.
pub fn step_at(table: &[u32], state: usize) -> Step
    ensures { shape result ≡ shape_at table.now state }
{
    Step::from(record_at(table, state))
}

// Says what the state does from now on.
pub fn put_step(table: &mut [u32], state: usize, step: Step)
    requires inside { 4 * state + 3 < length table.old }
    ensures { Changed table.old table.new state (shape step) }
{
    put_record(table, state, step.into());
}
