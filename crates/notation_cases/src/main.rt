// Texts in the notation of views, each with the row that it becomes or with what is wrong with it and where.
#![tactic(auto)]

use notation::parse;
use std::alloc::{AllocError, Global};
use std::io;

// Views, one or more for each line of the grammar.
const VIEWS: [&str; 27] = [
    "copy ('0'..'9')* hide 'a'..'z' new \"x\"",
    "copy 'a'",
    "copy \"\"",
    "copy \"a\"",
    "copy \"abc\"",
    "\"abc\"",
    "copy any",
    "copy not \"\"",
    "copy not \";\\n\"",
    "copy not \"\\x00b\\xff\"",
    "copy 'a'*",
    "copy 'a'+",
    "copy 'a'?",
    "copy \"ab\"*?+",
    "copy ('a' | 'b' | 'c')",
    "copy ('a' 'b' 'c')",
    "copy ('a' 'b' | 'c' ('d' | 'e'))",
    "hide 'a' new \"\"",
    "hide 'a' as \"no\" new \"yes\"",
    "swap copy 'a' copy 'b'",
    "each copy 'a'",
    "each (\"a\" | \"b\" \"c\")",
    "\"a\" \"b\" \"c\"",
    "\"a\" | \"b\" | \"c\"",
    "# a comment at the start\n\tcopy 'a' # and one at the end",
    "copy '\\n'..'\\x7F' copy '\\'' copy '\"' copy \"'\\\"\\\\\\t\\r\"",
    "copy 'a'..'a'copy'b'",
];

const CATALOGUE: &str = "each (
    copy ('0'..'9')* \";\"                    # number
    copy (not \";\\n\")* \";\"                   # title
    copy ('0'..'9')* \";\"                    # year
    hide ((not \";\\n\")* \";\") new \";\"         # lender
    copy (not \";\\n\")* \";\"                   # place
    copy (not \"\\n\")* \"\\n\"                   # remark
)
";

// Texts that say no view.
const REFUSED: [&str; 36] = [
    "",
    " # nothing here",
    "copy",
    "copy copy 'a'",
    "'a'",
    "swap \"a\"",
    "each",
    "\"a\" |",
    "| \"a\"",
    "(\"a\"",
    "()",
    "copy ('a'",
    "copy ('a' |)",
    "copy *",
    "hide 'a'",
    "hide 'a' as new \"x\"",
    "hide 'a' new",
    "hide 'a' new 'x'",
    "hide 'a' \"x\"",
    "copy not 'a'",
    "copy 'a'..",
    "copy 'a'..\"b\"",
    "\"a\")",
    "copy 'a' 'b'",
    "number",
    "copy Any",
    "copy 'a' ; copy 'b'",
    "copy 'a'.'b'",
    "\n\ncopy 'b'..'a'",
    "copy \"a",
    "copy 'a",
    "copy '",
    "copy\n  \"a\n\"",
    "copy ''",
    "copy 'ab'",
    "copy \"a\\q\"",
];

fn show(rt: &HostRuntime, text: &[u8]) -> io::Result<()> {
    match parse(rt.alloc(), text) {
        Ok(row) => println!(rt; "{row:?}"),
        Err(fault) => {
            let line = fault.line;
            let column = fault.column;
            println!(rt; "{line}:{column}: {fault}")
        }
    }
}

fn show_all(rt: &HostRuntime, texts: &[&str]) -> io::Result<()> {
    for text in texts {
        println!(rt; "{text:?}")?;
        show(rt, text.as_bytes())?;
    }
    Ok(())
}

// `before`, then `middle` so many times, then `behind`.
fn repeated(
    heap: Global,
    before: &str,
    middle: &str,
    times: usize,
    behind: &str,
) -> Result<String, AllocError> {
    let mut text = String::from_str(heap, before)?;
    for _ in 0..times {
        text.push_str(middle)?;
    }
    text.push_str(behind)?;
    Ok(text)
}

// Whether a long text is refused, and how; the row of one that is not would fill the page.
fn show_long(rt: &HostRuntime, name: &str, text: String) -> io::Result<()> {
    match parse(rt.alloc(), text.as_bytes()) {
        Ok(row) => {
            let length = row.len();
            println!(rt; "{name}: {length} bytes")
        }
        Err(fault) => {
            let line = fault.line;
            let column = fault.column;
            println!(rt; "{name}: {line}:{column}: {fault}")
        }
    }
}

fn show_limits(rt: &HostRuntime) -> io::Result<()> {
    let heap = rt.alloc();
    show_long(rt, "1024 bytes", repeated(heap, "\"", "x", 256, "\"")?)?;
    show_long(
        rt,
        "1025 bytes",
        repeated(heap, "copy \"", "x", 256, "\"*")?,
    )?;
    show_long(
        rt,
        "doubled 7 times",
        repeated(heap, "copy 'a'", "+", 7, "")?,
    )?;
    show_long(
        rt,
        "doubled 8 times",
        repeated(heap, "copy 'a'", "+", 8, "")?,
    )?;
    show_long(
        rt,
        "doubled 70 times",
        repeated(heap, "copy 'a'", "+", 70, "")?,
    )?;
    show_long(
        rt,
        "look of 255",
        repeated(heap, "hide 'a' as \"", "x", 255, "\" new \"\"")?,
    )?;
    show_long(
        rt,
        "look of 256",
        repeated(heap, "hide 'a' as \"", "x", 256, "\" new \"\"")?,
    )?;
    show_long(rt, "600 letters", repeated(heap, "\"", "x", 600, "\"")?)
}

// A form of the bytes that are none of those from `first` on.
fn not_from(heap: Global, first: u8) -> Result<String, AllocError> {
    let mut text = String::from_str(heap, "copy not \"")?;
    for byte in first..=255 {
        let escape = format!(in heap; "\\x{byte:02x}")?;
        text.push_str(escape.as_str())?;
    }
    text.push_str("\"")?;
    Ok(text)
}

fn show_bytes(rt: &HostRuntime) -> io::Result<()> {
    let heap = rt.alloc();
    show(rt, not_from(heap, 1)?.as_bytes())?;
    show(rt, not_from(heap, 0)?.as_bytes())
}

fn show_depths(rt: &HostRuntime) -> io::Result<()> {
    let heap = rt.alloc();
    show_long(
        rt,
        "each 200 deep",
        repeated(heap, "", "each ", 200, "\"\"")?,
    )?;
    show_long(
        rt,
        "each 201 deep",
        repeated(heap, "", "each ", 201, "\"\"")?,
    )?;
    show_long(rt, "swap 201 deep", repeated(heap, "", "swap ", 201, "")?)?;
    show_long(rt, "( 201 deep", repeated(heap, "", "(", 201, "")?)?;
    show_long(
        rt,
        "form ( 201 deep",
        repeated(heap, "copy ", "(", 201, "")?,
    )?;
    show_long(
        rt,
        "400 branches",
        repeated(heap, "\"\"", "|\n\"\"", 400, "")?,
    )
}

fn main(rt: HostRuntime) -> io::Result<()> {
    show_all(&rt, &VIEWS)?;
    println!(rt; "{CATALOGUE}")?;
    show(&rt, CATALOGUE.as_bytes())?;
    // A byte from 0x80 on stands for itself.
    show(&rt, b"copy '\xe4' \"\xc3\xa4\"")?;
    show_all(&rt, &REFUSED)?;
    show(&rt, b"copy 'a' \xe4")?;
    show_bytes(&rt)?;
    show_limits(&rt)?;
    show_depths(&rt)
}
