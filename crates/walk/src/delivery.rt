// What can be given to a sink, written into lent bytes if all of it fits: counted first, and then written by the same code.
ghost use Rattle.std.specs.Prelude.{◌≡◌, ℕ, List};
ghost use Rattle.walk.specs.Turns.{GivesSome};
ghost use Rattle.walk.specs.Delivers.{Delivers};

use crate::count::Count;
use crate::sink::Sink;
use crate::written::Written;

pub trait Give {
    // It can be given.
    ghost can: { Self → Type 0 };

    // The texts that may be given.
    ghost gives: { Self → List ℕ → Type 0 };

    // There is one at most.
    ghost one: { (s : Self) (u w : List ℕ) → can s → gives s u → gives s w → u ≡ w };

    fn give<S: Sink>(&self, sink: &mut S)
        requires { can self.now }
        ensures { GivesSome (gives self.now) (S.took sink.old sink.new) };
}

// Writes what is given at the front of `out` and says how many bytes that are, or writes nothing if there are too many.
pub fn deliver<G: Give>(given: &G, out: &mut [u8]) -> Option<usize>
    requires { G.can given.now }
    ensures { Delivers (G.gives given.now) out.old out.new result }
{
    let mut count = Count { bytes: 0 };
    given.give(&mut count);
    let len = count.bytes;
    if len > out.len() {
        return None;
    }
    let mut written = Written { bytes: out, len: 0 };
    given.give(&mut written);
    Some(len)
}
