// Judges views that are hard to judge, and prints how many pairs of states are visited for each: how that grows
// with the bytes of a row shows what judging costs. With --time it prints the milliseconds too.
#![tactic(auto)]

mod families;

use families::{FAMILIES, Family};
use rows::Row;
use std::alloc::{AllocError, Global};
use std::time::Instant;
use std::{env, io};

const SIZES: [usize; 5] = [64, 128, 256, 512, 1_024];

fn main(rt: HostRuntime) -> io::Result<()> {
    let mut args = env::args(&rt)?;
    let _ = args.next();
    let timed = match args.next() {
        Some(word) => word.as_str() == "--time",
        None => false,
    };
    let catalogue = catalogue(rt.alloc())?;
    let _ = judge(&rt, "catalogue", &catalogue, 0, timed)?;
    for (name, family) in FAMILIES {
        judge_family(&rt, name, family, timed)?;
    }
    Ok(())
}

fn judge_family(rt: &HostRuntime, name: &str, family: Family, timed: bool) -> io::Result<()> {
    let mut before = 0;
    for size in SIZES {
        let row = families::row(rt.alloc(), family, size)?;
        before = judge(rt, name, &row, before, timed)?;
    }
    Ok(())
}

// Prints what is said of a row and how many pairs were visited, and how often as many as for the row before.
fn judge(
    rt: &HostRuntime,
    name: &str,
    bytes: &[u8],
    before: usize,
    timed: bool,
) -> io::Result<usize> {
    let len = bytes.len();
    let Some(row) = Row::of_view(bytes) else {
        println!(rt; "{name}, {len} bytes: no view")?;
        return Ok(0);
    };
    let mut work = vec![in rt.alloc(); 0u32; 4_096 + len * len]?;
    let start = Instant::now(rt)?;
    let verdict = clear::is_clear(&row, &mut work);
    let spent = start.elapsed(rt)?.as_micros();
    let said = if verdict.yes { "plain" } else { "unclear" };
    let visited = verdict.visited;
    print!(rt; "{name}, {len} bytes: {said}, {visited} pairs")?;
    if before > 0 {
        let tenths = visited.saturating_mul(10) / before;
        let whole = tenths / 10;
        let rest = tenths % 10;
        print!(rt; ", x{whole}.{rest}")?;
    }
    if timed {
        let whole = spent / 1_000;
        let rest = spent % 1_000;
        print!(rt; ", {whole}.{rest:03} ms")?;
    }
    println!(rt; "")?;
    Ok(visited)
}

// Each line of a catalogue: number, title, year, lender and remark, with the lender hidden.
fn catalogue(heap: Global) -> Result<Vec<u8>, AllocError> {
    let digits = [10, 4, 1, b'0', b'9'];
    let field = [4, 3, 1, 0, 9, 3, 1, 11, 58, 1, 60, 255];
    let mark = [10, 1, b';', b';'];
    let mut row = Vec::new(heap);
    row.extend_from_slice(&[15, 12])?;
    row.extend_from_slice(&digits)?;
    row.push(12)?;
    row.extend_from_slice(&mark)?;
    row.extend_from_slice(&[12, 10])?;
    row.extend_from_slice(&field)?;
    row.push(12)?;
    row.extend_from_slice(&mark)?;
    row.push(12)?;
    row.extend_from_slice(&digits)?;
    row.push(12)?;
    row.extend_from_slice(&mark)?;
    row.extend_from_slice(&[12, 11])?;
    row.extend_from_slice(&field)?;
    row.extend_from_slice(&[0, 0, 12])?;
    row.extend_from_slice(&mark)?;
    row.extend_from_slice(&[12, 10, 4, 3, 1, 0, 9, 1, 11, 255])?;
    row.extend_from_slice(&[10, 1, b'\n', b'\n'])?;
    Ok(row)
}
