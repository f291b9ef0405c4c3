// Another reader of rows, to hold the first to: no recursion, but a stack of what is still wanted, a byte a turn.
use std::alloc::{AllocError, Global};

#[derive(Clone, Copy)]
pub enum Wanted {
    Form,
    View,
    Text,
    // The first byte of a range; the second, behind such a first; a byte of a text, with so many behind it.
    Low,
    High(u8),
    Letter(u8),
}

const LONGEST: usize = 1024;

// Where what is wanted at `at` ends, or none.
pub fn wanted_end(
    heap: Global,
    row: &[u8],
    at: usize,
    first: Wanted,
) -> Result<Option<usize>, AllocError> {
    if row.len() > LONGEST {
        return Ok(None);
    }
    let mut wanted = Vec::new(heap);
    wanted.push(first)?;
    for place in at..row.len() {
        let Some(next) = wanted.pop() else {
            return Ok(None);
        };
        if !fits(&mut wanted, next, row[place])? {
            return Ok(None);
        }
        if wanted.is_empty() {
            return Ok(Some(place + 1));
        }
    }
    Ok(None)
}

// Whether the byte begins what is wanted next; what is wanted behind the byte goes on the stack.
fn fits(wanted: &mut Vec<Wanted>, next: Wanted, byte: u8) -> Result<bool, AllocError> {
    match next {
        Wanted::Form => form_fits(wanted, byte),
        Wanted::View => view_fits(wanted, byte),
        Wanted::Text => letters(wanted, byte),
        Wanted::Low => {
            wanted.push(Wanted::High(byte))?;
            Ok(true)
        }
        Wanted::High(low) => Ok(low <= byte),
        Wanted::Letter(behind) => letters(wanted, behind),
    }
}

fn form_fits(wanted: &mut Vec<Wanted>, tag: u8) -> Result<bool, AllocError> {
    match tag {
        0 => {}
        1 => wanted.push(Wanted::Low)?,
        2 | 3 => wanted.extend_from_slice(&[Wanted::Form, Wanted::Form])?,
        4 => wanted.push(Wanted::Form)?,
        _ => return Ok(false),
    }
    Ok(true)
}

fn view_fits(wanted: &mut Vec<Wanted>, tag: u8) -> Result<bool, AllocError> {
    match tag {
        10 => wanted.push(Wanted::Form)?,
        11 => wanted.extend_from_slice(&[Wanted::Text, Wanted::Text, Wanted::Form])?,
        12..=14 => wanted.extend_from_slice(&[Wanted::View, Wanted::View])?,
        15 => wanted.push(Wanted::View)?,
        _ => return Ok(false),
    }
    Ok(true)
}

fn letters(wanted: &mut Vec<Wanted>, count: u8) -> Result<bool, AllocError> {
    if count > 0 {
        wanted.push(Wanted::Letter(count - 1))?;
    }
    Ok(true)
}
