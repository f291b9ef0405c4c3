// Reads what a program is given: files by name, and standard input by -. An input that is too long is refused before it is
// read whole. What is read is outside of every contract.
use crate::excerpts::excerpt;
use crate::places::{Place, offset_of};
use crate::refusals::{Refusal, Spot, Why};
use notation::{Fault, Wrong};
use std::alloc::{AllocError, Global};
use std::fs;
use std::fs::OpenFile;
use std::io::Read;

// The bytes that the text of a view may have, comments and all. Parsing takes a few times as many at most.
const LONGEST_VIEW: usize = 1024 * 1024;

// How many bytes are read at a time, and how much room is made for them. A call needs two and a half bytes or more for each
// byte of its texts, so while room is made, the old and the new fit the program's memory, with a step too much read.
const STEP: usize = 1024 * 1024;

// How long an input may be.
#[derive(Clone, Copy)]
enum Limit {
    // The text of a view, or a row.
    View,
    // A text, beside a row and other texts of so many bytes.
    Text { row: usize, texts: usize },
}

impl Limit {
    // Refuses an input of so many bytes if it is too long.
    fn check(self, len: usize) -> Result<(), Why> {
        match self {
            Limit::View => {
                if len > LONGEST_VIEW {
                    return Err(Why::LongView(LONGEST_VIEW));
                }
            }
            Limit::Text { row, texts } => {
                let need = results::need(row, texts.saturating_add(len));
                if need > results::LIMIT as u128 {
                    return Err(Why::Large(need));
                }
            }
        }
        Ok(())
    }
}

// What was read, with the name that it goes by; of a view, its row.
#[derive(Drop)]
pub struct Input {
    pub name: String,
    pub bytes: Vec<u8>,
}

// The row of the view that the input says in notation.
pub fn read_view(rt: &HostRuntime, name: &str) -> Result<Input, Refusal> {
    let heap = rt.alloc();
    let text = read_row(rt, name)?;
    match notation::parse(heap, &text.bytes) {
        Ok(row) => Ok(Input {
            name: text.name,
            bytes: row,
        }),
        Err(fault) => Err(no_view(heap, &text, fault)?),
    }
}

// The refusal of a text that says no view. A fault of the whole view has no line to quote.
fn no_view(heap: Global, text: &Input, fault: Fault) -> Result<Refusal, AllocError> {
    let place = Place {
        line: fault.line,
        column: fault.column,
    };
    let quoted = match fault.wrong {
        Wrong::RowTooLong(_) | Wrong::NoMemory | Wrong::NotAView => String::new(heap),
        _ => excerpt(heap, &text.bytes, offset_of(&text.bytes, place))?,
    };
    let spot = Spot::at(heap, text.name.as_str(), place)?;
    Ok(Refusal::Input(spot, Why::NoView(fault, quoted)))
}

// The bytes of a row, or of a view's text.
pub fn read_row(rt: &HostRuntime, name: &str) -> Result<Input, Refusal> {
    read_named(rt, name, Limit::View)
}

// A text that can be worked with beside a row and other texts of so many bytes.
pub fn read_text(rt: &HostRuntime, name: &str, row: usize, texts: usize) -> Result<Input, Refusal> {
    read_named(rt, name, Limit::Text { row, texts })
}

fn read_named(rt: &HostRuntime, name: &str, limit: Limit) -> Result<Input, Refusal> {
    let heap = rt.alloc();
    let read = if name == "-" {
        read_all(heap, rt.stdin(), limit)
    } else {
        read_file(rt, name, limit)
    };
    match read {
        Ok(bytes) => Ok(Input {
            name: String::from_str(heap, name)?,
            bytes,
        }),
        Err(why) => Err(Refusal::Input(Spot::whole(heap, name)?, why)),
    }
}

// A file that says its length is refused at once if that is too much; what is read of it is counted all the same.
fn read_file(rt: &HostRuntime, name: &str, limit: Limit) -> Result<Vec<u8>, Why> {
    let file = fs::open(rt, name)?;
    let len = file.metadata()?.len() as usize;
    limit.check(len)?;
    read_all(rt.alloc(), file, limit)
}

// All that is left to read.
fn read_all<R: Read + Drop>(heap: Global, mut reader: R, limit: Limit) -> Result<Vec<u8>, Why> {
    let mut bytes = Vec::new(heap);
    for _ in 0..u64::MAX {
        bytes.reserve_exact(STEP)?;
        let count = reader.by_ref().take(STEP as u64).read_to_end(&mut bytes)?;
        limit.check(bytes.len())?;
        if count < STEP {
            break;
        }
    }
    bytes.shrink_to_fit();
    Ok(bytes)
}
