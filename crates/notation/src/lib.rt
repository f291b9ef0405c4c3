// The notation of views: a text that a person writes, read into the row of bytes that the machine reads.
//
//     view   = series { "|" series }              either, nested to the right: a | b | c is 14 a 14 b c
//     series = item { item }                      then, nested to the right:   a b c is 12 a 12 b c
//     item   = "copy" repeat
//            | "hide" repeat [ "as" text ] "new" text     without `as` the look is empty
//            | "swap" item item
//            | "each" item
//            | text                               a literal: copy of that literal
//            | "(" view ")"
//     form   = branch { "|" branch }              or, nested to the right
//     branch = repeat { repeat }                  one after the other, nested to the right
//     repeat = atom { "*" | "+" | "?" }           f* is many f; f+ is f f*; f? is f | ""
//     atom   = byte [ ".." byte ]                 one byte, or one from the first to the second
//            | text                               its bytes, one after the other; "" is the empty form
//            | "any"                              one byte, whichever
//            | "not" text                         one byte that is none of the text's
//            | "(" form ")"
//     byte   = "'" one "'"
//     text   = '"' { one } '"'
//     one    = a byte other than \ and a newline, and than the quote that it stands in, for itself
//            | \n | \t | \r | \\ | \' | \" | \xHH with two hex digits
//
// A comment goes from # to the end of the line. White space is space, tab, CR and LF. The words above are
// the keywords; every other word is refused, so that names for parts can be added later. No text encoding
// is assumed: a byte from 0x80 on in quotes stands for itself.
//
// Not here: what a row means (crate rows) and what a view means (crate lens).
#![tactic(auto)]

ghost use Rattle.lens.specs.Views.{View};
ghost use Rattle.rows.specs.Rows.{Encodes};
ghost use Rattle.std.specs.Prelude.{IfOk};

mod faults;
mod forms;
mod lexer;
mod parser;
mod row;
mod tags;

pub use faults::{Fault, Wrong};
use std::alloc::Global;

// The row of the view that the text says. The reader of rows has the last word: what it does not take for
// a view is not handed out, so that no mistake of the parser can be.
pub fn parse(heap: Global, text: &[u8]) -> Result<Vec<u8>, Fault>
    ensures { IfOk result (λ row. (v : View) × Encodes row.items v) }
{
    let row = parser::read(heap, text)?;
    if rows::is_view(&row) {
        Ok(row)
    } else {
        Err(Fault::whole(Wrong::NotAView))
    }
}
