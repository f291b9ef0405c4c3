// Sets of states as bits: those that are come to with the text so far. A set is closed under moves without a byte, and a
// byte of the text leads from one set to the next.
// That a set has a bit for each state is one inequality in each contract; a name for it would only hide it.
ghost use Rattle.std.specs.Prelude.{◌≡◌, ◌*◌, ◌<◌, ◌≤◌, [], length};
ghost use Rattle.viable.specs.States.{After, MarksOn, Advanced, Follows, Expects};

use crate::bytes::ByteSet;
use crate::scanner::Scanner;
use pairs::Step;

impl<'a> Scanner<'a> {
    // The states that are come to before any byte.
    pub fn begin(&self, set: &mut [u32], done: &mut [u32], hints: &mut [u32])
        requires set_room { self.now.automaton.states ≤ 32 * length set.old }
        requires done_room { self.now.automaton.states ≤ 32 * length done.old }
        ensures { After self.now.automaton.table.now self.now.automaton.states [] set.new }
    {
        bits::clear(set);
        bits::set(set, 0);
        let _ = reach::close(self, set, done, hints);
    }

    // Goes through the text as far as some state reads its next byte, and answers how far.
    pub fn follow(
        &self,
        text: &[u8],
        set: &mut [u32],
        next: &mut [u32],
        done: &mut [u32],
        hints: &mut [u32],
    ) -> usize
        requires set_room { self.now.automaton.states ≤ 32 * length set.old }
        requires next_room { length next.old ≡ length set.old }
        requires done_room { self.now.automaton.states ≤ 32 * length done.old }
        requires begun { After self.now.automaton.table.now self.now.automaton.states [] set.old }
        ensures { Follows self.now.automaton.table.now self.now.automaton.states text.now set.new result }
    {
        for (at, byte) in text.iter().enumerate() {
            if !self.advance(set, *byte as u32, next) {
                return at;
            }
            set.copy_from_slice(next);
            let _ = reach::close(self, set, done, hints);
        }
        text.len()
    }

    // The bytes that some state of the set reads. `next` is room to work in. The loop counts through all bytes.
    pub fn expected(&self, set: &[u32], next: &mut [u32]) -> ByteSet
        requires set_room { self.now.automaton.states ≤ 32 * length set.now }
        requires next_room { self.now.automaton.states ≤ 32 * length next.old }
        ensures { Expects self.now.automaton.table.now self.now.automaton.states set.now 256 result.words }
    {
        let mut words = [0u32; 8];
        for byte in 0..256u32 {
            let reads = self.advance(set, byte, next);
            bits::put(&mut words, byte as usize, reads);
        }
        ByteSet { words }
    }

    // Marks in `next` the states at which those of the set go on with the byte. Whether there are any.
    fn advance(&self, set: &[u32], byte: u32, next: &mut [u32]) -> bool
        requires set_room { self.now.automaton.states ≤ 32 * length set.now }
        requires next_room { self.now.automaton.states ≤ 32 * length next.old }
        ensures { Advanced self.now.automaton.table.now self.now.automaton.states set.now byte next.new result }
    {
        bits::clear(next);
        let mut some = false;
        let mut from = 0;
        while let Some(state) = bits::first(set, &[], self.automaton.states, from) {
            some |= self.go_on(state, byte, next);
            from = state + 1;
        }
        some
    }

    // Marks in `next` too where the state goes on with the byte. Whether it does.
    fn go_on(&self, state: usize, byte: u32, next: &mut [u32]) -> bool
        requires inside { state < self.now.automaton.states }
        requires next_room { self.now.automaton.states ≤ 32 * length next.old }
        ensures { MarksOn self.now.automaton.table.now state byte next.old next.new result }
    {
        match self.automaton.step(state) {
            Step::Leaf(low, high, after) => {
                if low > byte || byte > high {
                    return false;
                }
                bits::set(next, after as usize);
                true
            }
            _ => false,
        }
    }
}
