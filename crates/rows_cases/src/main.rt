// Reads rows of bytes: each tag, the edges of ranges, texts and lengths, parts and random rows.
#![tactic(auto)]

mod dice;
mod samples;
mod stack;

use rows::Kind;
use std::alloc::{AllocError, Global};
use std::io;

// The fields of a row that is long: shown digits, a mark, and hidden letters with the look "." and the new "ab".
const DIGITS: [u8; 5] = [10, 4, 1, 48, 57];

const MARK: [u8; 4] = [10, 1, 59, 59];

const HIDDEN: [u8; 10] = [11, 4, 1, 97, 122, 1, 46, 2, 97, 98];

const KINDS: [(&str, Kind); 3] = [
    ("form", Kind::Form),
    ("view", Kind::View),
    ("text", Kind::Text),
];

fn main(rt: HostRuntime) -> io::Result<()> {
    show_tags(&rt)?;
    show_ranges(&rt)?;
    show_texts(&rt)?;
    show_prefixes(&rt)?;
    show_lengths(&rt)?;
    show_parts(&rt)?;
    samples::show(&rt)
}

fn answer(row: &[u8]) -> &'static str {
    if rows::is_view(row) {
        "view"
    } else {
        "no view"
    }
}

// Which tags begin a part before what follows, and which end it there.
fn show_tags(rt: &HostRuntime) -> io::Result<()> {
    show_tags_before(rt, &[])?;
    show_tags_before(rt, &[0])?;
    show_tags_before(rt, &[0, 0])?;
    show_tags_before(rt, &[97, 98])?;
    show_tags_before(rt, &[0, 0, 0])?;
    show_tags_before(rt, &[10, 0])?;
    show_tags_before(rt, &[10, 0, 10, 0])?;
    show_tags_before(rt, &[11, 0, 0, 0, 10, 0])
}

fn show_tags_before(rt: &HostRuntime, behind: &[u8]) -> io::Result<()> {
    for (name, kind) in KINDS {
        let mut begin: usize = 0;
        let mut whole = Vec::new(rt.alloc());
        for tag in 0..=255u8 {
            let row = joined(rt.alloc(), &[tag], behind)?;
            if let Some(end) = rows::part_end(&row, 0, kind) {
                begin = begin.saturating_add(1);
                if end == row.len() {
                    whole.push(tag)?;
                }
            }
        }
        println!(rt; "before {behind:?}, {begin} tags begin a {name}, and a whole one {whole:?}")?;
    }
    Ok(())
}

fn joined(heap: Global, first: &[u8], second: &[u8]) -> Result<Vec<u8>, AllocError> {
    let mut row = Vec::new(heap);
    row.extend_from_slice(first)?;
    row.extend_from_slice(second)?;
    Ok(row)
}

fn show_ranges(rt: &HostRuntime) -> io::Result<()> {
    for (low, high) in [
        (97, 98),
        (97, 97),
        (98, 97),
        (0, 255),
        (255, 0),
        (0, 0),
        (255, 255),
        (254, 255),
        (255, 254),
    ] {
        let row = [10, 1, low, high];
        let said = answer(&row);
        println!(rt; "range {low} to {high}: {said}")?;
    }
    let mut upward: usize = 0;
    for low in 0..=255u8 {
        for high in 0..=255u8 {
            if rows::is_view(&[10, 1, low, high]) {
                upward = upward.saturating_add(1);
            }
        }
    }
    println!(rt; "of 65536 ranges {upward} are views")
}

// Hides whose look or whose new text has so many bytes, with the length before them right, one more, and one less.
fn show_texts(rt: &HostRuntime) -> io::Result<()> {
    for count in [0u8, 1, 2, 254, 255] {
        for letter in [97u8, 0, 1] {
            show_text(rt, count, count, letter)?;
            if count < 255 {
                show_text(rt, count, count + 1, letter)?;
            }
            if count > 0 {
                show_text(rt, count, count - 1, letter)?;
            }
        }
    }
    Ok(())
}

fn show_text(rt: &HostRuntime, count: u8, said: u8, letter: u8) -> io::Result<()> {
    let heap = rt.alloc();
    let text = vec![in heap; letter; count as usize]?;
    let mut look = joined(heap, &[11, 0, said], &text)?;
    look.push(0)?;
    let new = joined(heap, &[11, 0, 0, said], &text)?;
    let of_look = answer(&look);
    let of_new = answer(&new);
    println!(rt; "{count} bytes of {letter} behind the length {said}: look {of_look}, new {of_new}")
}

// A row of 93 bytes: each of four lines of fields and a mark.
fn long_row(heap: Global) -> Result<Vec<u8>, AllocError> {
    let mut row = Vec::new(heap);
    row.push(15)?;
    for _ in 0..4 {
        row.push(12)?;
        row.extend_from_slice(&DIGITS)?;
        row.push(12)?;
        row.extend_from_slice(&MARK)?;
        row.push(12)?;
        row.extend_from_slice(&HIDDEN)?;
    }
    row.extend_from_slice(&MARK)?;
    Ok(row)
}

// How many of the places where a row can be cut short leave a view, and what bytes behind it make of it.
fn show_prefixes(rt: &HostRuntime) -> io::Result<()> {
    let mut row = long_row(rt.alloc())?;
    let len = row.len();
    let whole = answer(&row);
    let mut views: usize = 0;
    for end in 0..len {
        if rows::is_view(&row[0..end]) {
            views = views.saturating_add(1);
        }
    }
    println!(rt; "a row of {len} bytes: {whole}, and of its proper prefixes {views} are views")?;
    for byte in [0u8, 10] {
        row.push(byte)?;
        let longer = row.len();
        let said = answer(&row);
        println!(rt; "with {byte} behind it, {longer} bytes: {said}")?;
    }
    Ok(())
}

// Rows at the edge of what a row may have, and past it.
fn show_lengths(rt: &HostRuntime) -> io::Result<()> {
    let none = answer(&[]);
    println!(rt; "0 bytes: {none}")?;
    for len in [2usize, 3, 1_023, 1_024, 1_025, 5_000] {
        let heap = rt.alloc();
        let mut each = vec![in heap; 15; len - 2]?;
        each.extend_from_slice(&[10, 0])?;
        let tags = vec![in heap; 4; len - 2]?;
        let mut many = joined(heap, &[10], &tags)?;
        many.push(0)?;
        let ends = ends_of(rt.alloc(), &many, 1)?;
        let of_each = answer(&each);
        let of_many = answer(&many);
        let many_len = many.len();
        println!(rt;
            "{len} bytes: each in each {of_each}; many in many ({many_len}) {of_many}, from 1 on {ends}"
        )?;
    }
    Ok(())
}

// Where a form, a view and a text at `at` end, with - for none.
fn ends_of(heap: Global, row: &[u8], at: usize) -> Result<String, AllocError> {
    let mut line = String::new(heap);
    let mut sep = "";
    for (name, kind) in KINDS {
        let end = match rows::part_end(row, at, kind) {
            Some(end) => format!(in heap; "{sep}{name} {end}")?,
            None => format!(in heap; "{sep}{name} -")?,
        };
        line.push_str(end.as_str())?;
        sep = ", ";
    }
    Ok(line)
}

fn show_parts(rt: &HostRuntime) -> io::Result<()> {
    show_parts_of(rt, &[12, 10, 4, 1, 97, 98, 11, 1, 48, 57, 1, 46, 0])?;
    show_parts_of(rt, &[14, 13, 10, 2, 0, 3, 0, 0, 10, 0, 15, 10, 0])?;
    show_parts_of(rt, &[11, 4, 0, 2, 0, 1, 0, 9])?;
    show_parts_of(rt, &[])
}

fn show_parts_of(rt: &HostRuntime, row: &[u8]) -> io::Result<()> {
    println!(rt; "parts of {row:?}")?;
    for at in 0..=row.len() {
        let ends = ends_of(rt.alloc(), row, at)?;
        println!(rt; "  at {at}: {ends}")?;
    }
    let past = ends_of(rt.alloc(), row, usize::MAX)?;
    println!(rt; "  far behind: {past}")
}
