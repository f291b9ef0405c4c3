// The search: visits one fresh node after the other, and marks where its edges lead. It tries what the hints name first;
// a hint that is wrong is passed over.
ghost use Rattle.std.specs.Prelude.{◌≡◌, ◌*◌, ◌^◌, ◌<◌, ◌≤◌, true, length};
ghost use Rattle.bits.specs.Bits.{Puts};
ghost use Rattle.reach.specs.Closed.{Closed};
ghost use Rattle.reach.specs.Search.{HasRoom, Fresh, Expands, Advances};

use crate::find::{find_any, is_fresh};
use crate::graph::{Graph, Moves};
use crate::hints::Hints;

// Marks in `seen` every node that is reached from one that is marked, and answers how many nodes it visited.
// `done` and `hints` are room to work in: they hold anything before and after.
pub fn close<G: Graph>(g: &G, seen: &mut [u32], done: &mut [u32], hints: &mut [u32]) -> usize
    requires seen_room { G.nodes g.now ≤ 32 * length seen.old }
    requires done_room { G.nodes g.now ≤ 32 * length done.old }
    requires small { G.nodes g.now < 2 ^ 32 }
    ensures { Closed (G.edge g.now) (G.nodes g.now) seen.old seen.new result }
{
    bits::clear(done);
    let size = g.size();
    let mut hints = Hints::new(hints);
    let mut visits = 0;
    let mut from = 0;
    while let Some(node) = find_any(seen, done, size, from) {
        visit(g, seen, done, &mut hints, node);
        visits += 1 + drain(g, seen, done, &mut hints);
        from = node;
    }
    visits
}

// Visits what the hints name, until there are none. Answers how many nodes it visited.
fn drain<G: Graph>(g: &G, seen: &mut [u32], done: &mut [u32], hints: &mut Hints<'_>) -> usize
    requires room { HasRoom (G.nodes g.now) seen.old done.old }
    ensures { Advances (G.edge g.now) (G.nodes g.now) seen.old done.old seen.new done.new result }
{
    let size = g.size();
    let mut visits = 0;
    while let Some(hint) = hints.pop() {
        if hint < size && is_fresh(seen, done, hint) {
            visit(g, seen, done, hints, hint);
            visits += 1;
        }
    }
    visits
}

// Visits a fresh node: it is done once its moves are marked.
fn visit<G: Graph>(g: &G, seen: &mut [u32], done: &mut [u32], hints: &mut Hints<'_>, node: usize)
    requires room { HasRoom (G.nodes g.now) seen.old done.old }
    requires inside { node < G.nodes g.now }
    requires fresh { Fresh seen.old done.old node }
    ensures way { Advances (G.edge g.now) (G.nodes g.now) seen.old done.old seen.new done.new 1 }
    ensures hints_room { length hints.new.room.now ≡ length hints.old.room.now }
{
    bits::set(done, node);
    expand(g, seen, hints, node);
}

// Marks the nodes that the edges out of `node` lead to.
fn expand<G: Graph>(g: &G, seen: &mut [u32], hints: &mut Hints<'_>, node: usize)
    requires seen_room { G.nodes g.now ≤ 32 * length seen.old }
    requires small { G.nodes g.now < 2 ^ 32 }
    requires inside { node < G.nodes g.now }
    ensures all { Expands (G.edge g.now node) (G.nodes g.now) seen.old seen.new }
    ensures hints_room { length hints.new.room.now ≡ length hints.old.room.now }
{
    match g.moves(node) {
        Moves::None => {}
        Moves::One(first) => mark(seen, hints, first),
        Moves::Two(first, second) => {
            mark(seen, hints, first);
            mark(seen, hints, second);
        }
    }
}

// Marks a node, and names a new one as a hint.
fn mark(seen: &mut [u32], hints: &mut Hints<'_>, node: usize)
    requires inside { node < 32 * length seen.old }
    requires small { node < 2 ^ 32 }
    ensures marked { Puts seen.old node true seen.new }
    ensures hints_room { length hints.new.room.now ≡ length hints.old.room.now }
{
    if bits::get(seen, node) {
        return;
    }
    bits::set(seen, node);
    hints.push(node);
}
