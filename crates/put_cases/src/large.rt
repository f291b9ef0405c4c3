// Megabytes put back, where the result is known: a catalogue in which each thing has a lender of its own, and pages of fewer,
// of as many and of more things, with every remark changed.
use crate::{laws_hold, put};
use std::alloc::{AllocError, Global};
use std::io;
use views::Refused;

const VIEW: &str =
    "each (copy ('0'..'9')+ \";\" hide (not \";\\n\")* new \"none\" \";\" copy (not \"\\n\")* \"\\n\")";

const THINGS: u32 = 24_000;

pub fn run(rt: &HostRuntime) -> io::Result<()> {
    let Ok(row) = notation::parse(rt.alloc(), VIEW.as_bytes()) else {
        return println!(rt; "no view");
    };
    let source = catalogue(
        rt.alloc(),
        THINGS,
        "to be kept; dry and dark, far from the stove",
    )?;
    for things in [20_000, THINGS, 28_000] {
        let look = page(
            rt.alloc(),
            things,
            "seen again in spring; in good condition",
        )?;
        let result = catalogue(
            rt.alloc(),
            things,
            "seen again in spring; in good condition",
        )?;
        let said = if holds(rt.alloc(), &row, &source, &look, &result)? {
            "as known, and both laws hold"
        } else {
            "OTHERWISE"
        };
        let (from, put, gives) = (source.len(), look.len(), result.len());
        println!(rt; "{put} bytes into {from} give {gives}: {said}")?;
    }
    Ok(())
}

// Whether the look gives the result, in bytes that hold others behind it; whether it is refused with one byte or one work word
// too few, and nothing is written then; and whether both laws hold.
fn holds(
    heap: Global,
    row: &[u8],
    source: &[u8],
    look: &[u8],
    res: &[u8],
) -> Result<bool, AllocError> {
    let mut before = vec![in heap; 46u8; res.len().saturating_add(99)]?;
    let mut after = Vec::from_slice(heap, res)?;
    after.extend_from_slice(&[46; 99])?;
    let done = put(heap, row, source, look, &mut before, 0)?;
    let mut short = vec![in heap; 46u8; res.len().saturating_sub(1)]?;
    let untouched = vec![in heap; 46u8; res.len().saturating_sub(1)]?;
    let full = put(heap, row, source, look, &mut short, 0)?;
    let small = put(heap, row, source, look, &mut short, 1)?;
    Ok(
        done == Ok(res.len())
            && before == after
            && (res.is_empty() || full == Err(Refused::Full))
            && small == Err(Refused::Small)
            && short == untouched
            && laws_hold(heap, row, source, look, res)?,
    )
}

// So many things with this remark; those that the catalogue never had have no lender.
fn catalogue(heap: Global, things: u32, remark: &str) -> Result<Vec<u8>, AllocError> {
    let mut text = String::new(heap);
    for number in 0..things {
        let line = if number < THINGS {
            format!(in heap; "{number};Family {number};{remark} {number}\n")?
        } else {
            format!(in heap; "{number};none;{remark} {number}\n")?
        };
        text.push_str(line.as_str())?;
    }
    Ok(text.into_bytes())
}

// Their page.
fn page(heap: Global, things: u32, remark: &str) -> Result<Vec<u8>, AllocError> {
    let mut text = String::new(heap);
    for number in 0..things {
        let line = format!(in heap; "{number};;{remark} {number}\n")?;
        text.push_str(line.as_str())?;
    }
    Ok(text.into_bytes())
}
