// Rows of views that are hard to judge: families that grow with the bytes that they may have.
use std::alloc::{AllocError, Global};

// The format's tags as bytes, and not the notation's names for them: no notation stands between these rows and the reader.
const THEN: u8 = 12;

const SWAP: u8 = 13;

const EITHER: u8 = 14;

const EACH: u8 = 15;

// Which bytes the letters of a row are: one after the other, or all the same.
#[derive(Clone, Copy)]
pub enum Letters {
    Distinct,
    Equal,
}

#[derive(Clone, Copy)]
pub enum Family {
    // a (a (a a)) and ((a a) a) a, under a tag of two views.
    Right(u8, Letters),
    Left(u8, Letters),
    // Many of a wide or, and many of another.
    Ors(Letters),
    // Many of many of .. a letter, and many of many of .. another.
    Manies(Letters),
    // each each .. a.
    Eachs,
    // each (a each (b ..)).
    Steps(Letters),
    // A hide with long texts and a wide or.
    Hides(Letters),
    // A long literal with nothing behind it, or before it, again and again.
    NothingBehind(Letters),
    NothingBefore(Letters),
    // each (each (.. a) a), each (a | each (a | ..)), each each (a each each (..)), and each (nothing each (..)).
    LeftSteps,
    OrSteps,
    DoubleSteps,
    NothingSteps,
    // each each .. of each (each (.. a) a), of a wide or, and of many a again and again.
    EachsOfSteps,
    EachsOfOrs,
    EachsOfManies,
    // Many a, again and again, to the right and to the left.
    ManyRight,
    ManyLeft,
    // Many of a and b, again and again, with a mark between them or none.
    Repeats,
    Marked,
    // Many of a and b, and then an a and a fixed number of a and b.
    Suffix,
    // either of b, ab, aab and so on; and each of that.
    Ladder,
    EachLadder,
}

pub const FAMILIES: [(&str, Family); 37] = [
    (
        "then to the right, distinct",
        Family::Right(THEN, Letters::Distinct),
    ),
    (
        "then to the right, equal",
        Family::Right(THEN, Letters::Equal),
    ),
    (
        "then to the left, distinct",
        Family::Left(THEN, Letters::Distinct),
    ),
    (
        "then to the left, equal",
        Family::Left(THEN, Letters::Equal),
    ),
    (
        "swap to the right, distinct",
        Family::Right(SWAP, Letters::Distinct),
    ),
    (
        "swap to the right, equal",
        Family::Right(SWAP, Letters::Equal),
    ),
    (
        "swap to the left, distinct",
        Family::Left(SWAP, Letters::Distinct),
    ),
    (
        "swap to the left, equal",
        Family::Left(SWAP, Letters::Equal),
    ),
    (
        "either to the right, distinct",
        Family::Right(EITHER, Letters::Distinct),
    ),
    (
        "either to the left, distinct",
        Family::Left(EITHER, Letters::Distinct),
    ),
    (
        "wide ors under many, distinct",
        Family::Ors(Letters::Distinct),
    ),
    ("wide ors under many, equal", Family::Ors(Letters::Equal)),
    ("many in many, distinct", Family::Manies(Letters::Distinct)),
    ("many in many, equal", Family::Manies(Letters::Equal)),
    ("each in each", Family::Eachs),
    (
        "each behind a letter, distinct",
        Family::Steps(Letters::Distinct),
    ),
    ("each behind a letter, equal", Family::Steps(Letters::Equal)),
    ("each before a letter", Family::LeftSteps),
    ("each of a letter or each", Family::OrSteps),
    ("each of each behind a letter", Family::DoubleSteps),
    ("each behind nothing", Family::NothingSteps),
    (
        "each in each, of each before a letter",
        Family::EachsOfSteps,
    ),
    ("each in each, of a wide or", Family::EachsOfOrs),
    ("each in each, of many a again", Family::EachsOfManies),
    ("many a to the right", Family::ManyRight),
    ("many a to the left", Family::ManyLeft),
    ("long hides, distinct", Family::Hides(Letters::Distinct)),
    ("long hides, equal", Family::Hides(Letters::Equal)),
    (
        "nothing behind a literal, distinct",
        Family::NothingBehind(Letters::Distinct),
    ),
    (
        "nothing behind a literal, equal",
        Family::NothingBehind(Letters::Equal),
    ),
    (
        "nothing before a literal, distinct",
        Family::NothingBefore(Letters::Distinct),
    ),
    (
        "nothing before a literal, equal",
        Family::NothingBefore(Letters::Equal),
    ),
    ("many a or b, again", Family::Repeats),
    ("many a or b, with marks", Family::Marked),
    ("many a or b, then a fixed number", Family::Suffix),
    ("either of a ladder", Family::Ladder),
    ("each of a ladder", Family::EachLadder),
];

// The row of the family with at most `size` bytes, which is at least 64.
pub fn row(heap: Global, family: Family, size: usize) -> Result<Vec<u8>, AllocError> {
    let mut row = Vec::new(heap);
    match family {
        Family::Right(tag, letters) => right(&mut row, tag, size, letters)?,
        Family::Left(tag, letters) => left(&mut row, tag, size, letters)?,
        Family::Ors(letters) => many_ors(&mut row, size, letters)?,
        Family::Manies(letters) => manies(&mut row, size, letters)?,
        Family::Eachs => {
            fill(&mut row, EACH, size.saturating_sub(4))?;
            copy_letter(&mut row, b'a')?;
        }
        Family::Steps(letters) => steps(&mut row, size, letters)?,
        Family::LeftSteps => left_steps(&mut row, size)?,
        Family::OrSteps => nested(&mut row, size, &[EACH, EITHER, 10, 1, b'a', b'a'])?,
        Family::DoubleSteps => nested(&mut row, size, &[EACH, EACH, THEN, 10, 1, b'a', b'a'])?,
        Family::NothingSteps => nested(&mut row, size, &[EACH, THEN, 10, 0])?,
        Family::EachsOfSteps => {
            fill(&mut row, EACH, size / 2)?;
            left_steps(&mut row, size / 2)?;
        }
        Family::EachsOfOrs => {
            fill(&mut row, EACH, size / 2)?;
            row.push(10)?;
            ors(&mut row, 0, (size / 2).saturating_sub(1), Letters::Equal)?;
        }
        Family::EachsOfManies => {
            fill(&mut row, EACH, size / 2)?;
            row.push(10)?;
            manies_again(&mut row, (size / 2).saturating_sub(1))?;
        }
        Family::ManyRight => nested(&mut row, size, &[THEN, 10, 4, 1, b'a', b'a'])?,
        Family::ManyLeft => many_left(&mut row, size)?,
        Family::Hides(letters) => hides(&mut row, size, letters)?,
        Family::NothingBehind(letters) => nothing_behind(&mut row, size, letters)?,
        Family::NothingBefore(letters) => nothing_before(&mut row, size, letters)?,
        Family::Repeats => repeats(&mut row, size)?,
        Family::Marked => marked(&mut row, size)?,
        Family::Suffix => suffix(&mut row, size)?,
        Family::Ladder => ladder(&mut row, size)?,
        Family::EachLadder => {
            row.push(EACH)?;
            ladder(&mut row, size.saturating_sub(1))?;
        }
    }
    Ok(row)
}

// The letter at a place, of letters that begin with `first`.
fn letter(letters: Letters, first: u8, place: usize) -> u8 {
    match letters {
        Letters::Distinct => first.wrapping_add((place % 256) as u8),
        Letters::Equal => b'a',
    }
}

fn fill(row: &mut Vec<u8>, byte: u8, count: usize) -> Result<(), AllocError> {
    for _ in 0..count {
        row.push(byte)?;
    }
    Ok(())
}

fn push_letter(row: &mut Vec<u8>, byte: u8) -> Result<(), AllocError> {
    row.extend_from_slice(&[1, byte, byte])
}

fn copy_letter(row: &mut Vec<u8>, byte: u8) -> Result<(), AllocError> {
    row.extend_from_slice(&[10, 1, byte, byte])
}

fn right(row: &mut Vec<u8>, tag: u8, size: usize, letters: Letters) -> Result<(), AllocError> {
    let count = size.saturating_sub(4) / 5;
    for place in 0..count {
        row.push(tag)?;
        copy_letter(row, letter(letters, 0, place))?;
    }
    copy_letter(row, letter(letters, 0, count))
}

fn left(row: &mut Vec<u8>, tag: u8, size: usize, letters: Letters) -> Result<(), AllocError> {
    let count = size.saturating_sub(4) / 5;
    fill(row, tag, count)?;
    for place in 0..=count {
        copy_letter(row, letter(letters, 0, place))?;
    }
    Ok(())
}

// One of the letters from `first` on, in at most `size` bytes.
fn ors(row: &mut Vec<u8>, first: u8, size: usize, letters: Letters) -> Result<(), AllocError> {
    let count = size.saturating_sub(3) / 4;
    for place in 0..count {
        row.push(3)?;
        push_letter(row, letter(letters, first, place))?;
    }
    push_letter(row, letter(letters, first, count))
}

fn many_ors(row: &mut Vec<u8>, size: usize, letters: Letters) -> Result<(), AllocError> {
    let half = size.saturating_sub(5) / 2;
    row.extend_from_slice(&[THEN, 10, 4])?;
    ors(row, 0, half, letters)?;
    row.extend_from_slice(&[10, 4])?;
    ors(row, 128, half, letters)
}

fn manies(row: &mut Vec<u8>, size: usize, letters: Letters) -> Result<(), AllocError> {
    let half = size.saturating_sub(9) / 2;
    row.extend_from_slice(&[THEN, 10])?;
    fill(row, 4, half)?;
    push_letter(row, letter(letters, 0, 0))?;
    row.push(10)?;
    fill(row, 4, half)?;
    push_letter(row, letter(letters, 0, 1))
}

fn steps(row: &mut Vec<u8>, size: usize, letters: Letters) -> Result<(), AllocError> {
    let count = size.saturating_sub(4) / 6;
    for place in 0..count {
        row.extend_from_slice(&[EACH, THEN])?;
        copy_letter(row, letter(letters, 0, place))?;
    }
    copy_letter(row, letter(letters, 0, count))
}

fn left_steps(row: &mut Vec<u8>, size: usize) -> Result<(), AllocError> {
    let count = size.saturating_sub(4) / 6;
    for _ in 0..count {
        row.extend_from_slice(&[EACH, THEN])?;
    }
    for _ in 0..=count {
        copy_letter(row, b'a')?;
    }
    Ok(())
}

// The same first part again and again, each time with the rest behind it, and at last a letter.
fn nested(row: &mut Vec<u8>, size: usize, first: &[u8]) -> Result<(), AllocError> {
    for _ in 0..size.saturating_sub(4) / first.len().max(1) {
        row.extend_from_slice(first)?;
    }
    copy_letter(row, b'a')
}

// The form of many a, many a and so on.
fn manies_again(row: &mut Vec<u8>, size: usize) -> Result<(), AllocError> {
    for _ in 0..size.saturating_sub(3) / 5 {
        row.extend_from_slice(&[2, 4, 1, b'a', b'a'])?;
    }
    push_letter(row, b'a')
}

fn many_left(row: &mut Vec<u8>, size: usize) -> Result<(), AllocError> {
    let count = size.saturating_sub(5) / 6;
    fill(row, THEN, count)?;
    for _ in 0..=count {
        row.extend_from_slice(&[10, 4, 1, b'a', b'a'])?;
    }
    Ok(())
}

// A quarter for each of the two texts, and the rest for the form; then a letter that is none of it.
fn hides(row: &mut Vec<u8>, size: usize, letters: Letters) -> Result<(), AllocError> {
    let quarter = ((size / 4).min(250) & 0xff) as u8;
    row.extend_from_slice(&[THEN, 11, 4])?;
    ors(row, b'a', (size / 2).saturating_sub(11), letters)?;
    row.push(quarter)?;
    fill(row, b'a', quarter as usize)?;
    row.push(quarter)?;
    fill(row, b'a', quarter as usize)?;
    copy_letter(row, 0)
}

// A literal in at most `size` bytes.
fn literal(row: &mut Vec<u8>, size: usize, letters: Letters) -> Result<(), AllocError> {
    let count = size.saturating_sub(3) / 4;
    for place in 0..count {
        row.push(2)?;
        push_letter(row, letter(letters, 0, place))?;
    }
    push_letter(row, letter(letters, 0, count))
}

fn nothing_behind(row: &mut Vec<u8>, size: usize, letters: Letters) -> Result<(), AllocError> {
    let count = size / 6;
    fill(row, THEN, count)?;
    row.push(10)?;
    literal(row, (size / 2).saturating_sub(1), letters)?;
    for _ in 0..count {
        row.extend_from_slice(&[10, 0])?;
    }
    Ok(())
}

fn nothing_before(row: &mut Vec<u8>, size: usize, letters: Letters) -> Result<(), AllocError> {
    for _ in 0..size / 6 {
        row.extend_from_slice(&[THEN, 10, 0])?;
    }
    row.push(10)?;
    literal(row, (size / 2).saturating_sub(1), letters)
}

// One of a and b.
fn a_or_b(row: &mut Vec<u8>) -> Result<(), AllocError> {
    row.extend_from_slice(&[3, 1, b'a', b'a', 1, b'b', b'b'])
}

fn copy_many(row: &mut Vec<u8>) -> Result<(), AllocError> {
    row.extend_from_slice(&[10, 4])?;
    a_or_b(row)
}

fn repeats(row: &mut Vec<u8>, size: usize) -> Result<(), AllocError> {
    for _ in 0..size.saturating_sub(9) / 10 {
        row.push(THEN)?;
        copy_many(row)?;
    }
    copy_many(row)
}

fn marked(row: &mut Vec<u8>, size: usize) -> Result<(), AllocError> {
    for _ in 0..size.saturating_sub(9) / 15 {
        row.push(THEN)?;
        copy_many(row)?;
        row.push(THEN)?;
        copy_letter(row, b';')?;
    }
    copy_many(row)
}

fn suffix(row: &mut Vec<u8>, size: usize) -> Result<(), AllocError> {
    row.push(THEN)?;
    copy_many(row)?;
    row.extend_from_slice(&[10, 2, 1, b'a', b'a'])?;
    for _ in 0..size.saturating_sub(22) / 8 {
        row.push(2)?;
        a_or_b(row)?;
    }
    a_or_b(row)
}

// b, or ab, or aab, as long as the next still has its place.
fn ladder(row: &mut Vec<u8>, size: usize) -> Result<(), AllocError> {
    let mut left = size.saturating_sub(4);
    for rung in 1..size {
        let needed = rung.saturating_mul(4).saturating_add(5);
        if needed > left {
            break;
        }
        left -= needed;
        row.extend_from_slice(&[EITHER, 10])?;
        for _ in 0..rung {
            row.extend_from_slice(&[2, 1, b'a', b'a'])?;
        }
        push_letter(row, b'b')?;
    }
    copy_letter(row, b'b')
}
