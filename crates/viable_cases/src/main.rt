// Reads texts by worked views, by views of 1,024 bytes, and at the edges of the room, and prints where they break and what
// could stand there.
#![tactic(auto)]

mod cases;
mod said;

use cases::{CASES, LINES};
use said::Said;
use std::alloc::{AllocError, Global};
use std::io;
use views::{Side, viable_prefix};

fn main(rt: HostRuntime) -> io::Result<()> {
    for case in CASES.iter() {
        let view = case.view;
        let side = case.side;
        println!(rt; "{side:?}: {view}")?;
        let Ok(row) = notation::parse(rt.alloc(), view.as_bytes()) else {
            println!(rt; "  no view")?;
            continue;
        };
        for text in case.texts.iter() {
            let text = *text;
            let said = read(rt.alloc(), &row, side, text.as_bytes())?;
            println!(rt; "  {text:?} {said}")?;
        }
    }
    edges(&rt)?;
    rows(&rt)?;
    long_views(&rt)?;
    long_texts(&rt)
}

// What is said of a text with just as many work words as the call wants.
fn read(heap: Global, row: &[u8], side: Side, text: &[u8]) -> Result<Said, AllocError> {
    let mut work = vec![in heap; 7u32; room(row.len(), text.len())]?;
    Ok(Said {
        fit: viable_prefix(row, side, text, &mut work),
    })
}

// With one work word less.
fn edges(rt: &HostRuntime) -> io::Result<()> {
    println!(rt; "one work word less")?;
    let row = [10, 1, 97, 97];
    for text in ["", "a", "b"].iter() {
        let text = *text;
        let words = room(row.len(), text.len()).saturating_sub(1);
        let mut work = vec![in rt.alloc(); 7u32; words]?;
        let said = Said {
            fit: viable_prefix(&row, Side::Source, text.as_bytes(), &mut work),
        };
        println!(rt; "  {text:?} {said}")?;
    }
    Ok(())
}

// Rows that say no view, the last of them too long by a byte.
fn rows(rt: &HostRuntime) -> io::Result<()> {
    println!(rt; "rows")?;
    let none = read(rt.alloc(), &[], Side::Source, b"a")?;
    let downward = read(rt.alloc(), &[10, 1, 98, 97], Side::Source, b"a")?;
    let mut row = chain(rt.alloc())?;
    row.push(0)?;
    let long = read(rt.alloc(), &row, Side::Source, b"a")?;
    println!(rt; "  {none}, {downward}, {long}")
}

// Views of 1,024 bytes.
fn long_views(rt: &HostRuntime) -> io::Result<()> {
    println!(rt; "256 times 'a', one after the other")?;
    let row = chain(rt.alloc())?;
    for len in [0, 255, 256, 257] {
        letters(rt, &row, len, b'a')?;
    }
    letters(rt, &row, 100, b'b')?;
    println!(rt; "204 times 'a'*, or 'a'")?;
    let row = choices(rt.alloc())?;
    letters(rt, &row, 1000, b'a')?;
    letters(rt, &row, 1000, b'b')
}

// Reads the letter a so many times, the last byte another one.
fn letters(rt: &HostRuntime, row: &[u8], len: usize, last: u8) -> io::Result<()> {
    let mut text = vec![in rt.alloc(); b'a'; len.saturating_sub(1)]?;
    if len > 0 {
        text.push(last)?;
    }
    let size = row.len();
    let said = read(rt.alloc(), row, Side::Source, &text)?;
    println!(rt; "  {size} bytes, {len} letters: {said}")
}

// copy of the letter a, 256 times in a row.
fn chain(heap: Global) -> Result<Vec<u8>, AllocError> {
    let mut row = vec![in heap; 10u8]?;
    for _ in 0..255 {
        row.extend_from_slice(&[2, 1, b'a', b'a'])?;
    }
    row.extend_from_slice(&[1, b'a', b'a'])?;
    Ok(row)
}

// copy of a choice: any number of the letter a, 204 times, or one.
fn choices(heap: Global) -> Result<Vec<u8>, AllocError> {
    let mut row = vec![in heap; 10u8]?;
    for _ in 0..204 {
        row.extend_from_slice(&[3, 4, 1, b'a', b'a'])?;
    }
    row.extend_from_slice(&[1, b'a', b'a'])?;
    Ok(row)
}

// A catalogue of 1 MiB: whole, without its last byte, and with another last byte.
fn long_texts(rt: &HostRuntime) -> io::Result<()> {
    println!(rt; "65536 lines: {LINES}")?;
    let Ok(row) = notation::parse(rt.alloc(), LINES.as_bytes()) else {
        return Ok(());
    };
    let mut text = Vec::new(rt.alloc());
    for _ in 0..65536 {
        text.extend_from_slice(b"123456;abcdefgh\n")?;
    }
    let whole = read(rt.alloc(), &row, Side::Source, &text)?;
    let _ = text.pop();
    let short = read(rt.alloc(), &row, Side::Source, &text)?;
    text.push(b';')?;
    let other = read(rt.alloc(), &row, Side::Source, &text)?;
    println!(rt; "  {whole}")?;
    println!(rt; "  {short}")?;
    println!(rt; "  {other}")
}

// The work words that the call wants, counted here once more, since this is what holds the call's own count to its rule.
fn room(view: usize, text: usize) -> usize {
    let n = view.min(1025);
    let cells = (n + 1).saturating_mul(text.saturating_add(1));
    views::floor(view)
        .saturating_add(64)
        .saturating_add(cells / 8)
}
