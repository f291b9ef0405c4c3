// Looks for a fresh node: one that was met (its bit in `seen`), and not visited yet (its bit in `done`).
ghost use Rattle.std.specs.Prelude.{◌≡◌, not, ◌&&◌};
ghost use Rattle.bits.specs.Bits.{bit};
ghost use Rattle.reach.specs.Search.{Picks};

pub(crate) fn is_fresh(seen: &[u32], done: &[u32], node: usize) -> bool
    ensures { result ≡ (bit seen.now node && not (bit done.now node)) }
{
    let met = bits::get(seen, node);
    let visited = bits::get(done, node);
    met & !visited
}

// Some fresh node below `size`, if there is one. `from` is where to look first: a search that goes on where it stood comes
// by the words once, and once more for what it left behind.
pub(crate) fn find_any(seen: &[u32], done: &[u32], size: usize, from: usize) -> Option<usize>
    ensures { Picks seen.now done.now size result }
{
    bits::first(seen, done, size, from).or_else(|| bits::first(seen, done, size, 0))
}
