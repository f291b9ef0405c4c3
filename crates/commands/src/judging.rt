// judge: says of a view whether it is clear, and of bytes whether they are a row.
use crate::asking::{Asked, read_arguments};
use crate::inputs::{read_row, read_view};
use crate::refusals::{Refusal, Why, called};
use std::alloc::{AllocError, Global};
use views::Judged;

const USAGE: &str = "judge FILE | judge --row FILE | judge --bytes FILE";

const HELP: &str = "judge FILE          say whether the view in FILE is clear
judge --row FILE    the same of the bytes of a row
judge --bytes FILE  print the row of the view in FILE as numbers

- in place of a file is standard input. A file that can't be read, or whose text says no view, is refused on standard error.
";

const VERSION: &str = "judge 0.1.0
";

// What judge prints for its arguments.
pub fn judge(rt: &HostRuntime, args: &[String]) -> Result<Vec<u8>, Refusal> {
    match read_arguments(args)? {
        Asked::Help => Ok(Vec::from_slice(rt.alloc(), HELP.as_bytes())?),
        Asked::Version => Ok(Vec::from_slice(rt.alloc(), VERSION.as_bytes())?),
        Asked::Work(None, [name]) => {
            let row = read_view(rt, name.as_str())?;
            verdict(rt.alloc(), name.as_str(), &row.bytes)
        }
        Asked::Work(Some("--row"), [name]) => match read_row(rt, name.as_str()) {
            Ok(row) => verdict(rt.alloc(), name.as_str(), &row.bytes),
            // No row is as long as that.
            Err(Refusal::Input(_, Why::LongView(_))) => {
                Ok(no_view(rt.alloc(), called(name.as_str()))?)
            }
            Err(refusal) => Err(refusal),
        },
        Asked::Work(Some("--bytes"), [name]) => {
            let row = read_view(rt, name.as_str())?;
            Ok(numbers(rt.alloc(), &row.bytes)?)
        }
        _ => Err(Refusal::Usage(USAGE)),
    }
}

// What is to be said of a row.
fn verdict(heap: Global, name: &str, row: &[u8]) -> Result<Vec<u8>, Refusal> {
    let name = called(name);
    let len = row.len();
    let mut work = vec![in heap; 0u32; views::floor(len)]?;
    let said = match views::judge(row, &mut work) {
        Judged::Plain => format!(in heap; "{name}: a view of {len} bytes: plain\n")?,
        Judged::Unclear => format!(in heap; "{name}: a view of {len} bytes: unclear\n")?,
        Judged::NoView => return Ok(no_view(heap, name)?),
        Judged::Few => return Err(Refusal::Memory),
    };
    Ok(said.into_bytes())
}

// That the bytes of an input, called so, say no view.
fn no_view(heap: Global, name: &str) -> Result<Vec<u8>, AllocError> {
    Ok(format!(in heap; "{name}: no view\n")?.into_bytes())
}

// The bytes of a row as numbers, on one line.
fn numbers(heap: Global, row: &[u8]) -> Result<Vec<u8>, AllocError> {
    let mut text = String::new(heap);
    let mut sep = "";
    for byte in row {
        text.push_str(sep)?;
        text.push_str(format!(in heap; "{byte}")?.as_str())?;
        sep = " ";
    }
    text.push_str("\n")?;
    Ok(text.into_bytes())
}
