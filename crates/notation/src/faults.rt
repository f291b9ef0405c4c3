// What is wrong with a text that says no view, and where: the line and the column, both from 1. The column
// counts bytes. A fault of the whole view, as a row that is too long, stands at the beginning of the text.
ghost use Rattle.std.specs.Prelude.{◌≡◌, ◌-◌, ◌^◌, min, take};
ghost use Rattle.notation.specs.Places.{line_of, column_of};

use std::alloc::{AllocError, AllocFailed};
use std::fmt;

#[derive(Clone, Copy, Debug, PartialEq)]
pub enum Wrong {
    NoView,
    NoForm,
    NoClose,
    NoNew,
    NoText,
    NoByte,
    NoEnd,
    UnknownWord,
    UnknownSign,
    Unclosed,
    NewlineInQuotes,
    BadEscape,
    NotOneByte,
    UpsideDown,
    NothingLeft,
    TextTooLong(usize),
    TooDeep,
    RowTooLong(usize),
    NoMemory,
    NotAView,
}

#[derive(Clone, Copy, Debug, PartialEq)]
pub struct Fault {
    pub line: usize,
    pub column: usize,
    pub wrong: Wrong,
}

impl Fault {
    // What is wrong with the byte at `at`, or with the end of the text.
    pub fn new(text: &[u8], at: usize, wrong: Wrong) -> Fault
        ensures line { result.line ≡ min (line_of (take at text.now)) (2 ^ 64 - 1) }
        ensures column { result.column ≡ min (column_of (take at text.now)) (2 ^ 64 - 1) }
        ensures wrong { result.wrong ≡ wrong }
    {
        let before = &text[0..at.min(text.len())];
        let mut line: usize = 1;
        let mut column: usize = 1;
        for byte in before {
            if *byte == b'\n' {
                line = line.saturating_add(1);
                column = 1;
            } else {
                column = column.saturating_add(1);
            }
        }
        Fault {
            line,
            column,
            wrong,
        }
    }

    // What is wrong with the whole view.
    pub fn whole(wrong: Wrong) -> Fault {
        Fault {
            line: 1,
            column: 1,
            wrong,
        }
    }
}

impl From<AllocError> for Fault {
    fn from(_e: AllocError) -> Fault {
        Fault::whole(Wrong::NoMemory)
    }
}

impl<T: Drop> From<AllocFailed<T>> for Fault {
    fn from(_e: AllocFailed<T>) -> Fault {
        Fault::whole(Wrong::NoMemory)
    }
}

impl fmt::Display for Fault {
    fn fmt<W: fmt::Write>(&self, f: &mut fmt::Formatter<W>) -> fmt::Result {
        match self.wrong {
            Wrong::TextTooLong(n) => {
                write!(
                    f,
                    "this text has {n} bytes, and a text of `hide` has at most 255"
                )
            }
            Wrong::RowTooLong(n) => {
                write!(
                    f,
                    "the row of this view would have {n} bytes, and may have at most 1024"
                )
            }
            _ => f.write_str(message(self.wrong)),
        }
    }
}

// The message of a fault that tells no number.
fn message(wrong: Wrong) -> &'static str {
    match wrong {
        Wrong::NoView => "expected a view: copy, hide, swap, each, a text in quotes or (",
        Wrong::NoForm => "expected a form: a byte or a text in quotes, any, not or (",
        Wrong::NoClose => "expected )",
        Wrong::NoNew => "expected new, and a text in quotes: what stands where there was no source",
        Wrong::NoText => "expected a text in quotes",
        Wrong::NoByte => "expected a byte in single quotes",
        Wrong::NoEnd => "expected another view, | or the end of the text",
        Wrong::UnknownWord => "unknown word: names for parts are not part of the notation yet",
        Wrong::UnknownSign => "unknown sign",
        Wrong::Unclosed => "the quote that begins here is not closed",
        Wrong::NewlineInQuotes => "the line ends inside quotes: write \\n for a newline",
        Wrong::BadEscape =>
            "unknown escape: there are \\n \\t \\r \\\\ \\' \\\" and \\x with two hex digits",
        Wrong::NotOneByte => "expected exactly one byte between single quotes",
        Wrong::UpsideDown => "this range is upside down: the first byte is above the second",
        Wrong::NothingLeft => "not leaves no byte here, since the text has them all",
        Wrong::TextTooLong(_) => "this text is too long",
        Wrong::TooDeep => "nested too deep",
        Wrong::RowTooLong(_) => "the row of this view is too long",
        Wrong::NoMemory => "out of memory",
        Wrong::NotAView => "the row that was made says no view: a mistake in this program",
    }
}
