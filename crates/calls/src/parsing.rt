// The notation for C and Rust: a text that a person writes, read into the row of a view, or what is wrong with it.
ghost use Rattle.std.specs.Prelude.{◌≤◌, length};
ghost use Rattle.calls.specs.Parses.{ParsedSays, ParseAnswers};

use notation::Fault;
use std::alloc::Global;

// Why no row came of a text: it says no view, or the row is longer than the bytes lent for it.
#[derive(Clone, Copy)]
pub enum Unparsed {
    NoView,
    Full,
}

// Where the text goes wrong, line and column from 1, and how many bytes of the message were written.
#[repr(C)]
pub struct Place {
    pub line: usize,
    pub column: usize,
    pub told: usize,
}

// The row of the view that the text says: 0 done, 1 no view, 2 full. At no view, `place` says where and the message why, cut
// off where the bytes lent for it end.
#[unsafe(no_mangle)]
pub extern "C" fn views_parse(
    heap: Global,
    text: &[u8],
    row: &mut [u8],
    written: &mut usize,
    message: &mut [u8],
    place: &mut Place,
) -> u32
    ensures { ParseAnswers row.old row.new written.old written.new result }
{
    match parse(heap, text, row, message, place) {
        Ok(count) => {
            *written = count;
            0
        }
        Err(Unparsed::NoView) => 1,
        Err(Unparsed::Full) => 2,
    }
}

// The row of the view that the text says, written first in `row`, and how many bytes it has.
fn parse(
    heap: Global,
    text: &[u8],
    row: &mut [u8],
    message: &mut [u8],
    place: &mut Place,
) -> Result<usize, Unparsed>
    ensures { ParsedSays row.old row.new result }
{
    match notation::parse(heap, text) {
        Ok(bytes) => {
            if bytes.len() > row.len() {
                return Err(Unparsed::Full);
            }
            let count = bytes.len();
            row[0..count].copy_from_slice(&bytes);
            Ok(count)
        }
        Err(fault) => {
            place.line = fault.line;
            place.column = fault.column;
            place.told = explain(heap, &fault, message);
            Err(Unparsed::NoView)
        }
    }
}

// Writes what is wrong at the front of the message, as much as it has room for, and returns how many bytes that are.
fn explain(heap: Global, fault: &Fault, message: &mut [u8]) -> usize
    ensures { result ≤ length message.old }
{
    let Ok(text) = format!(in heap; "{fault}") else {
        return 0;
    };
    let bytes = text.as_bytes();
    let count = bytes.len().min(message.len());
    message[0..count].copy_from_slice(&bytes[0..count]);
    count
}
