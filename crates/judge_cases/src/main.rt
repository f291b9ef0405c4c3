// Judges views in notation and as rows, and holds what is said of each to what is expected.
#![tactic(auto)]

mod cases;

use cases::{Case, FAULTS, WORKED};
use std::alloc::{AllocError, Global};
use std::io;
use views::Judged;

// Rows with what is to be said of them.
const ROWS: [(&[u8], Judged); 10] = [
    (&[12, 10, 0, 10, 0], Judged::Plain),
    (&[15, 10, 0], Judged::Unclear),
    (&[14, 10, 0, 11, 0, 1, 98, 0], Judged::Unclear),
    (&[13, 10, 4, 1, 97, 97, 10, 1, 97, 97], Judged::Plain),
    (&[], Judged::NoView),
    (&[0], Judged::NoView),
    (&[10], Judged::NoView),
    (&[10, 0, 0], Judged::NoView),
    (&[10, 1, 98, 97], Judged::NoView),
    (&[11, 0, 2, 98, 0], Judged::NoView),
];

// Rows for which the work words are counted: plain, unclear and none.
const COUNTED: [(&[u8], Judged); 4] = [
    (&[10, 0], Judged::Plain),
    (&[13, 10, 4, 1, 97, 97, 10, 1, 97, 97], Judged::Plain),
    (&[15, 10, 4, 1, 97, 97], Judged::Unclear),
    (&[10, 1, 98, 97], Judged::NoView),
];

// How many cases there were, and of how many something else was said than is expected.
#[derive(Clone, Copy)]
struct Tally {
    cases: usize,
    unexpected: usize,
}

fn main(rt: HostRuntime) -> io::Result<()> {
    let mut tally = Tally {
        cases: 0,
        unexpected: 0,
    };
    judge_written(&rt, &WORKED, &mut tally)?;
    judge_written(&rt, &FAULTS, &mut tally)?;
    judge_rows(&rt, &mut tally)?;
    judge_counted(&rt, &mut tally)?;
    judge_long(&rt, &mut tally)?;
    let Tally { cases, unexpected } = tally;
    println!(rt; "{cases} cases, {unexpected} unexpected")
}

// Prints what is said of a view, and counts it.
fn note(
    rt: &HostRuntime,
    name: &str,
    judged: Judged,
    expected: Judged,
    tally: &mut Tally,
) -> io::Result<()> {
    let said = answer(judged);
    tally.cases = tally.cases.saturating_add(1);
    if judged == expected {
        return println!(rt; "{name}: {said}");
    }
    tally.unexpected = tally.unexpected.saturating_add(1);
    let hoped = answer(expected);
    println!(rt; "{name}: {said}, where {hoped} is expected")
}

fn answer(judged: Judged) -> &'static str {
    match judged {
        Judged::Plain => "plain",
        Judged::Unclear => "unclear",
        Judged::NoView => "no view",
        Judged::Few => "few",
    }
}

// What is said with so many work words.
fn judged_with(heap: Global, row: &[u8], words: usize) -> Result<Judged, AllocError> {
    let mut work = vec![in heap; 0u32; words]?;
    Ok(views::judge(row, &mut work))
}

fn judge_written(rt: &HostRuntime, cases: &[Case], tally: &mut Tally) -> io::Result<()> {
    for case in cases {
        match notation::parse(rt.alloc(), case.text.as_bytes()) {
            Ok(row) => {
                let judged = judged_with(rt.alloc(), &row, views::floor(row.len()))?;
                note(rt, case.name, judged, case.expected, tally)?;
            }
            Err(fault) => {
                let name = case.name;
                let column = fault.column;
                tally.unexpected = tally.unexpected.saturating_add(1);
                println!(rt; "{name}: at {column}: {fault}")?;
            }
        }
    }
    Ok(())
}

fn judge_rows(rt: &HostRuntime, tally: &mut Tally) -> io::Result<()> {
    for (row, expected) in ROWS {
        let name = format!(in rt.alloc(); "{row:?}")?;
        let judged = judged_with(rt.alloc(), row, views::floor(row.len()))?;
        note(rt, name.as_str(), judged, expected, tally)?;
    }
    Ok(())
}

// With just enough words and with more the answer is the row's; with one word less, and with none, it is few.
fn judge_counted(rt: &HostRuntime, tally: &mut Tally) -> io::Result<()> {
    for (row, expected) in COUNTED {
        let floor = views::floor(row.len());
        judge_with(rt, row, floor.saturating_add(1), expected, tally)?;
        judge_with(rt, row, floor, expected, tally)?;
        judge_with(rt, row, floor.saturating_sub(1), Judged::Few, tally)?;
        judge_with(rt, row, 0, Judged::Few, tally)?;
    }
    Ok(())
}

fn judge_with(
    rt: &HostRuntime,
    row: &[u8],
    words: usize,
    expected: Judged,
    tally: &mut Tally,
) -> io::Result<()> {
    let len = row.len();
    let name = format!(in rt.alloc(); "{len} bytes with {words} words")?;
    let judged = judged_with(rt.alloc(), row, words)?;
    note(rt, name.as_str(), judged, expected, tally)
}

// A row of 1,024 bytes is the longest view, and past 1,025 a row wants no more words: it can't be one.
fn judge_long(rt: &HostRuntime, tally: &mut Tally) -> io::Result<()> {
    let most = 4_096 + 1_024 * 1_024;
    let past = 4_096 + 1_025 * 1_025;
    let longest = nested(rt.alloc(), 1_024)?;
    judge_with(rt, &longest, most, Judged::Plain, tally)?;
    judge_with(rt, &longest, most - 1, Judged::Few, tally)?;
    for len in [1_025usize, 5_000] {
        let longer = nested(rt.alloc(), len)?;
        judge_with(rt, &longer, past, Judged::NoView, tally)?;
        judge_with(rt, &longer, past - 1, Judged::Few, tally)?;
    }
    Ok(())
}

// A row of so many bytes: copy, then many many times, then the empty form.
fn nested(heap: Global, len: usize) -> Result<Vec<u8>, AllocError> {
    let mut row = vec![in heap; 4u8; len.saturating_sub(1)]?;
    row.push(0)?;
    if !row.is_empty() {
        row[0] = 10;
    }
    Ok(row)
}
