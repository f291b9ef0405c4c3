// Runs the search on a few graphs, with room for hints and with none, and prints how many nodes it visits and what it marks.
#![tactic(auto)]

ghost use Rattle.std.specs.Prelude.{◌^◌, ◌<◌};

use reach::Graph;
use std::alloc::{AllocError, Global};
use std::io;

mod links;
mod ring;

use links::Links;
use ring::Ring;

// What a search from one node has marked, and how many nodes it visited.
#[derive(Drop)]
struct Found {
    seen: Vec<u32>,
    visits: usize,
}

fn search<G: Graph>(heap: Global, g: &G, start: usize, room: usize) -> Result<Found, AllocError>
    requires { G.nodes g.now < 2 ^ 32 }
{
    let words = g.size() / 32 + 1;
    let mut seen: Vec<u32> = vec![in heap; 0; words]?;
    let mut done: Vec<u32> = vec![in heap; 0; words]?;
    let mut hints: Vec<u32> = vec![in heap; 0; room]?;
    if start < g.size() {
        bits::set(&mut seen, start);
    }
    let visits = reach::close(g, &mut seen, &mut done, &mut hints);
    Ok(Found { seen, visits })
}

fn main(rt: HostRuntime) -> io::Result<()> {
    let pairs = [(1, 2), (9, 9), (3, 9), (2, 0), (5, 4), (0, 9)];
    for start in 0..7 {
        for room in [0usize, 1, 8] {
            let found = search(rt.alloc(), &Links { pairs: &pairs }, start, room)?;
            let visits = found.visits;
            let marked = found.seen;
            println!(rt; "from {start}, room {room}: {visits} visited, {marked:?} marked")?;
        }
    }
    for room in [0usize, 1_000, 1_000_000] {
        let found = search(rt.alloc(), &Ring { size: 1_000_000 }, 7, room)?;
        let visits = found.visits;
        println!(rt; "ring, room {room}: {visits} visited")?;
    }
    Ok(())
}
