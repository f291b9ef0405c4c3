// Random rows in several distributions, read by both readers: how many are views to each, and where they disagree.
use crate::dice::Dice;
use crate::stack::{Wanted, wanted_end};
use rows::Kind;
use std::alloc::{AllocError, Global};
use std::io;

const SAMPLES: usize = 2_500;

const SMALL: [u8; 13] = [0, 1, 2, 3, 4, 10, 11, 12, 13, 14, 15, 97, 98];

const FEW: [u8; 4] = [0, 4, 10, 12];

// each of digits, hidden letters, and a mark or what is always empty.
const GOOD: [u8; 30] = [
    15, 12, 10, 2, 1, 48, 57, 4, 1, 48, 57, 12, 11, 4, 1, 97, 122, 1, 46, 2, 97, 98, 14, 10, 1, 59,
    59, 10, 4, 0,
];

// How a sample is thrown: bytes of all kinds, of few kinds, or a good row with two bytes thrown anew.
#[derive(Clone, Copy)]
enum Throw {
    Uniform,
    Small,
    Few,
    Changed,
}

// To one reader: how many samples are views, and how many forms, views and texts begin at all their places.
#[derive(Clone, Copy)]
struct Found {
    views: usize,
    parts: usize,
}

#[derive(Clone, Copy)]
struct Tally {
    first: Found,
    by_stack: Found,
    disagreements: usize,
}

pub fn show(rt: &HostRuntime) -> io::Result<()> {
    show_throws(rt, "uniform", Throw::Uniform)?;
    show_throws(rt, "small alphabet", Throw::Small)?;
    show_throws(rt, "four bytes", Throw::Few)?;
    show_throws(rt, "two bytes changed", Throw::Changed)
}

fn show_throws(rt: &HostRuntime, name: &str, throw: Throw) -> io::Result<()> {
    let mut dice = Dice::new(2_026);
    let none = Found { views: 0, parts: 0 };
    let mut tally = Tally {
        first: none,
        by_stack: none,
        disagreements: 0,
    };
    for _ in 0..SAMPLES {
        let row = thrown(rt.alloc(), &mut dice, throw)?;
        count(rt.alloc(), &row, &mut tally)?;
    }
    let views = tally.first.views;
    let parts = tally.first.parts;
    println!(rt; "{name}, {SAMPLES} rows: {views} views, {parts} parts")?;
    let views = tally.by_stack.views;
    let parts = tally.by_stack.parts;
    let disagreements = tally.disagreements;
    println!(rt; "  by the stack: {views} views, {parts} parts; {disagreements} disagreements")
}

fn thrown(heap: Global, dice: &mut Dice, throw: Throw) -> Result<Vec<u8>, AllocError> {
    let mut row = Vec::new(heap);
    match throw {
        Throw::Uniform => {
            for _ in 0..dice.byte() % 41 {
                row.push(dice.byte())?;
            }
        }
        Throw::Small => {
            for _ in 0..dice.byte() % 41 {
                row.push(SMALL[(dice.byte() % 13) as usize])?;
            }
        }
        Throw::Few => {
            for _ in 0..dice.byte() % 41 {
                row.push(FEW[(dice.byte() % 4) as usize])?;
            }
        }
        Throw::Changed => {
            let first = dice.byte() % 30;
            let second = dice.byte() % 30;
            for (place, byte) in (0u8..30).zip(GOOD) {
                let anew = place == first || place == second;
                row.push(if anew { dice.byte() % 16 } else { byte })?;
            }
        }
    }
    Ok(row)
}

fn count(heap: Global, row: &[u8], tally: &mut Tally) -> Result<(), AllocError> {
    let is_view = rows::is_view(row);
    let by_stack = wanted_end(heap, row, 0, Wanted::View)? == Some(row.len());
    note(&mut tally.first.views, is_view);
    note(&mut tally.by_stack.views, by_stack);
    note(&mut tally.disagreements, is_view != by_stack);
    for at in 0..=row.len() {
        for (kind, wanted) in [
            (Kind::Form, Wanted::Form),
            (Kind::View, Wanted::View),
            (Kind::Text, Wanted::Text),
        ] {
            let end = rows::part_end(row, at, kind);
            let by_stack = wanted_end(heap, row, at, wanted)?;
            note(&mut tally.first.parts, end.is_some());
            note(&mut tally.by_stack.parts, by_stack.is_some());
            note(&mut tally.disagreements, end != by_stack);
        }
    }
    Ok(())
}

fn note(count: &mut usize, seen: bool) {
    if seen {
        *count = count.saturating_add(1);
    }
}
