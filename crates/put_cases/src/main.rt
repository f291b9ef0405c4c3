// Puts looks back into sources, at the edges of the room and of the lent bytes, and prints what came of it, with both laws:
// what one sees, put back, gives the source again, and what was put back is what one then sees. Then the same of megabytes,
// where the result is known.
#![tactic(auto)]

mod cases;
mod large;
mod told;

use cases::CASES;
use std::alloc::{AllocError, Global};
use std::io;
use told::Told;
use views::Made;

fn main(rt: HostRuntime) -> io::Result<()> {
    for case in CASES.iter() {
        let view = case.view;
        let Ok(row) = notation::parse(rt.alloc(), view.as_bytes()) else {
            println!(rt; "{view}: no view")?;
            continue;
        };
        let source = case.source;
        let look = case.look;
        let mut out = [46u8; 56];
        let made = put(
            rt.alloc(),
            &row,
            source.as_bytes(),
            look.as_bytes(),
            &mut out,
            0,
        )?;
        let left = text_of(rt.alloc(), &out)?;
        let told = Told(made);
        println!(rt; "{view}")?;
        println!(rt; "  {look:?} into {source:?}: {told}: {left:?}")?;
        if let Ok(len) = made {
            edges(&rt, &row, source.as_bytes(), look.as_bytes(), len)?;
        }
    }
    large::run(&rt)
}

// One work word less than are wanted, one lent byte less than the result takes, and just as many of both; and the laws.
fn edges(rt: &HostRuntime, row: &[u8], source: &[u8], look: &[u8], len: usize) -> io::Result<()> {
    let heap = rt.alloc();
    let mut short = vec![in heap; 46u8; len.saturating_sub(1)]?;
    let mut enough = vec![in heap; 46u8; len]?;
    let small = Told(put(heap, row, source, look, &mut enough, 1)?);
    let full = Told(put(heap, row, source, look, &mut short, 0)?);
    let done = Told(put(heap, row, source, look, &mut enough, 0)?);
    let laws = if laws_hold(heap, row, source, look, &enough)? {
        "both laws hold"
    } else {
        "A LAW IS BROKEN"
    };
    println!(rt; "  {small}, {full}, {done}; {laws}")
}

// Whether both laws hold of a source, and of a look that was put back into it and gave the changed source.
pub fn laws_hold(
    heap: Global,
    row: &[u8],
    source: &[u8],
    look: &[u8],
    changed: &[u8],
) -> Result<bool, AllocError> {
    let Some(seen) = shown(heap, row, source)? else {
        return Ok(false);
    };
    let mut again = vec![in heap; 46u8; source.len()]?;
    let made = put(heap, row, source, &seen, &mut again, 0)?;
    let same = made == Ok(source.len()) && again.as_slice() == source;
    let Some(seen) = shown(heap, row, changed)? else {
        return Ok(false);
    };
    Ok(same && seen.as_slice() == look)
}

// The look of a source, if it has one.
fn shown(heap: Global, row: &[u8], source: &[u8]) -> Result<Option<Vec<u8>>, AllocError> {
    let mut work = vec![in heap; 7u32; room(row.len(), source.len())]?;
    let mut out = vec![in heap; 46u8; source.len().saturating_add(1024)]?;
    let Ok(len) = views::show(row, source, &mut out, &mut work) else {
        return Ok(None);
    };
    out.truncate(len);
    Ok(Some(out))
}

// Puts a look back with so many work words less than are wanted.
pub fn put(
    heap: Global,
    row: &[u8],
    source: &[u8],
    look: &[u8],
    out: &mut [u8],
    fewer: usize,
) -> Result<Made, AllocError> {
    let words = room(row.len(), source.len().saturating_add(look.len()));
    let mut work = vec![in heap; 7u32; words.saturating_sub(fewer)]?;
    Ok(views::put(row, source, look, out, &mut work))
}

// The work words that a call wants, counted here once more, since this is what holds the call's own count to its rule.
fn room(view: usize, texts: usize) -> usize {
    let n = view.min(1025);
    let cells = (n + 1).saturating_mul(texts.saturating_add(1));
    views::floor(view)
        .saturating_add(64)
        .saturating_add(cells / 8)
}

fn text_of(heap: Global, bytes: &[u8]) -> Result<String, AllocError> {
    let mut text = String::new(heap);
    for byte in bytes {
        text.push(char::from(*byte))?;
    }
    Ok(text)
}
