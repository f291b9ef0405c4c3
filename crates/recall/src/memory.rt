// Room to remember steps in, and one step of the pass, remembered or made and then remembered.
ghost use Rattle.std.specs.Prelude.{◌≡◌, ◌+◌, ◌*◌, ◌^◌, ◌<◌, ◌≤◌, IfSome, length};
ghost use Rattle.recall.specs.Recalls.{Recalls, Room, Leads};
ghost use Rattle.recall.specs.Slots.{Keeps, Copies, SameSlots, Finds};

use crate::slots::{keep_row, slot_words};
use trees::{Spot, Tree};

// The most slots that are used: finding a row among them costs little against making a step.
const MAX_SLOTS: usize = 256;

// Rows of bits in slots, and the steps between them.
#[derive(Drop)]
pub(crate) struct Memory<'w, 'm> {
    pub tree: Tree<'w>,
    // The rows, each in whole words.
    pub rows: &'m mut [u32],
    // For each slot and byte one more than the slot that this step leads to, and 0 if none is known.
    pub next: &'m mut [u32],
    pub slots: usize,
    // How many slots have a row. The others hold anything.
    pub used: usize,
    ghost room: { Room tree.size rows.now next.now slots used },
    ghost recalls: { ∥ Recalls tree rows.now next.now used ∥₁ },
}

impl<'w, 'm> Memory<'w, 'm> {
    ghost use Rattle.trees.specs.Rows.{Steps};
    ghost use Rattle.recall.specs.Memory.{Known, KnownBehind, MadeStep, IsSameRoom, Takes, Notes};

    // Nothing is remembered yet. The words may be of any number.
    pub fn new(tree: Tree<'w>, words: &'m mut [u32]) -> Self
        ensures tree { result.tree ≡ tree.entry }
        ensures none { result.used ≡ 0 }
    {
        let width = slot_words(tree.size);
        let slots = MAX_SLOTS.min(words.len().min(u32::MAX as usize) / (width + 256));
        let (rows, next) = words.split_at_mut(slots * width);
        bits::clear(rows);
        Memory {
            tree,
            rows,
            next,
            slots,
            used: 0,
        }
    }

    // The step at a spot; `from` has the row behind it, if some slot has. If the step by its byte is remembered, the row that
    // this leads to is copied; otherwise the step is made. Returns the slot that has the row of the spot.
    pub fn step(
        &mut self,
        spot: &Spot<'_>,
        rests: &mut [u32],
        bits: &mut [u32],
        from: Option<usize>,
    ) -> Option<usize>
        requires tree { spot.now.tree ≡ self.old.tree }
        requires rests_room { spot.now.tree.size ≤ 32 * length rests.old }
        requires bits_room { spot.now.row + spot.now.tree.size ≤ 32 * length bits.old }
        requires behind { KnownBehind self.old bits.old spot.now from }
        ensures tree { self.new.tree ≡ self.old.tree }
        ensures steps { Steps spot.now bits.old bits.new 0 }
        ensures known { Known self.new bits.new spot.now.row result }
    {
        if let Some(slot) = from {
            if let Some(to) = self.recall(slot, spot.byte) {
                self.copy(to, bits, spot.row);
                return Some(to);
            }
        }
        spot.step_back(rests, bits);
        self.remember(spot, bits, from)
    }

    // Where the byte leads from a slot, if that is remembered.
    fn recall(&self, from: usize, byte: u8) -> Option<usize>
        requires inside { from < self.now.used }
        ensures { IfSome result (λ to. (to < self.now.used) × Leads self.now.tree self.now.rows.now from byte to) }
    {
        let to = self.next[256 * from + byte as usize] as usize;
        to.checked_sub(1)
    }

    // Copies the row of a used slot to the bit `row` and behind it, a word at a time.
    fn copy(&self, slot: usize, bits: &mut [u32], row: usize)
        requires inside { slot < self.now.used }
        requires room { row + self.now.tree.size ≤ 32 * length bits.old }
        requires small { row + self.now.tree.size + 2 ^ 32 ≤ 2 ^ 64 }
        ensures { Copies self.now.tree.size self.now.rows.now slot bits.old bits.new row self.now.tree.size }
    {
        let first = slot * slot_words(self.tree.size);
        let whole = self.tree.size / 32;
        for (word, &value) in self.rows[first..first + whole].iter().enumerate() {
            bits::put_bits(bits, row + 32 * word, 32, value);
        }
        let rest = self.tree.size % 32;
        if rest > 0 {
            let value = self.rows[first + whole] % (1 << rest);
            bits::put_bits(bits, row + 32 * whole, rest, value);
        }
    }

    // Keeps the row of a spot, whose step was made, in a slot, unless a slot has it already, and remembers the step.
    fn remember(&mut self, spot: &Spot<'_>, bits: &[u32], from: Option<usize>) -> Option<usize>
        requires tree { spot.now.tree ≡ self.old.tree }
        requires made { MadeStep self.old bits.now spot.now from }
        ensures tree { self.new.tree ≡ self.old.tree }
        ensures known { Known self.new bits.now spot.now.row result }
    {
        if self.used >= self.slots {
            return None;
        }
        self.keep(bits, spot.row);
        let to = self.place()?;
        if let Some(slot) = from {
            self.note(slot, spot.byte, to);
        }
        Some(to)
    }

    // Keeps the row that begins at a bit in the first slot behind the used ones.
    fn keep(&mut self, bits: &[u32], row: usize)
        requires free { self.old.used < self.old.slots }
        requires small { row + self.old.tree.size + 2 ^ 32 ≤ 2 ^ 64 }
        ensures room { IsSameRoom self.old self.new }
        ensures used { self.new.used ≡ self.old.used }
        ensures keeps { Keeps self.old.tree.size bits.now row self.old.rows.now self.new.rows.now self.old.used self.old.tree.size }
    {
        keep_row(self.tree.size, bits, row, self.rows, self.used);
    }

    // A used slot for the row that stands in the first slot behind the used ones: one that has the same row, or that slot
    // itself. There is none if it has to stay free.
    fn place(&mut self) -> Option<usize>
        requires free { self.old.used < self.old.slots }
        ensures room { IsSameRoom self.old self.new }
        ensures rows { self.new.rows.now ≡ self.old.rows.now }
        ensures more { self.old.used ≤ self.new.used }
        ensures inside { IfSome result (λ slot. slot < self.new.used) }
        ensures same { IfSome result (λ slot. SameSlots self.old.tree.size self.old.rows.now slot self.old.used) }
    {
        match self.find() {
            Some(slot) => Some(slot),
            None => self.take(),
        }
    }

    // The first used slot that has the same words as the slot behind the used ones.
    fn find(&self) -> Option<usize>
        requires free { self.now.used < self.now.slots }
        ensures { IfSome result (Finds self.now.tree.size self.now.rows.now self.now.used) }
    {
        let words = slot_words(self.tree.size);
        let (used, behind) = self.rows.split_at(self.used * words);
        let row = &behind[..words];
        used.chunks(words).position(|other| other == row)
    }

    // Takes the first slot behind the used ones, from which no step is known yet. The last slot stays free to compare by.
    fn take(&mut self) -> Option<usize>
        requires free { self.old.used < self.old.slots }
        ensures room { IsSameRoom self.old self.new }
        ensures rows { self.new.rows.now ≡ self.old.rows.now }
        ensures taken { IfSome result (λ slot. (slot ≡ self.old.used) × (slot < self.new.used)) }
        ensures takes { Takes self.old.next.now self.new.next.now self.old.used self.old.slots self.new.used }
    {
        let slot = self.used;
        if slot + 1 >= self.slots {
            return None;
        }
        self.next[256 * slot..256 * slot + 256].fill(0);
        self.used += 1;
        Some(slot)
    }

    // Remembers the step from a slot by a byte to another slot.
    fn note(&mut self, slot: usize, byte: u8, to: usize)
        requires inside { slot < self.old.used }
        requires there { to < self.old.used }
        requires leads { Leads self.old.tree self.old.rows.now slot byte to }
        ensures room { IsSameRoom self.old self.new }
        ensures used { self.new.used ≡ self.old.used }
        ensures rows { self.new.rows.now ≡ self.old.rows.now }
        ensures notes { Notes self.old.next.now self.new.next.now slot byte to }
    {
        self.next[256 * slot + byte as usize] = to as u32 + 1;
    }
}
