// A stack of nodes that may be fresh, in lent words. It makes the search fast, and nothing rests on what it names: what a
// full stack drops is found again by the scan over the words. The calls have no heap, so it is no Vec.
ghost use Rattle.std.specs.Prelude.{◌≡◌, ◌+◌, ◌^◌, ◌<◌, ◌≤◌, length, IsSome};

#[derive(Drop)]
pub(crate) struct Hints<'a> {
    pub room: &'a mut [u32],
    pub count: usize,
    ghost within: { count ≤ length room.now },
}

impl<'a> Hints<'a> {
    pub fn new(room: &'a mut [u32]) -> Self {
        Hints { room, count: 0 }
    }

    // Names a node, if there is room.
    pub fn push(&mut self, node: usize)
        requires small { node < 2 ^ 32 }
        ensures room { length self.new.room.now ≡ length self.old.room.now }
    {
        if self.count < self.room.len() {
            self.room[self.count] = node as u32;
            self.count += 1;
        }
    }

    // The node that was named last.
    pub fn pop(&mut self) -> Option<usize>
        ensures fewer { IsSome result → self.new.count + 1 ≡ self.old.count }
        ensures room { length self.new.room.now ≡ length self.old.room.now }
    {
        if self.count == 0 {
            return None;
        }
        self.count -= 1;
        Some(self.room[self.count] as usize)
    }
}
