// Shows texts and makes sources by worked views, at the edges of the room and of the lent bytes, and prints what came of it;
// then holds calls to what is known of them.
#![tactic(auto)]

mod known;
mod told;

use known::Known;
use std::alloc::{AllocError, Global};
use std::io;
use told::Told;
use views::{Made, Side};

// A view in notation, a text, and the side that the text is of.
struct Case {
    view: &'static str,
    text: &'static str,
    side: Side,
}

const CASES: [Case; 22] = [
    Case {
        view: "copy ('0'..'9')* hide 'a'..'z' new \"x\"",
        text: "12a",
        side: Side::Source,
    },
    Case {
        view: "copy ('0'..'9')* hide 'a'..'z' new \"x\"",
        text: "1",
        side: Side::Look,
    },
    Case {
        view: "copy ('0'..'9')* hide 'a'..'z' new \"x\"",
        text: "12",
        side: Side::Source,
    },
    Case {
        view: "each (copy '0'..'9' hide 'a'..'z' new \"x\")",
        text: "1a2b",
        side: Side::Source,
    },
    Case {
        view: "each (copy '0'..'9' hide 'a'..'z' new \"x\")",
        text: "132",
        side: Side::Look,
    },
    Case {
        view: "each (copy '0'..'9' hide 'a'..'z' new \"x\")",
        text: "",
        side: Side::Source,
    },
    Case {
        view: "swap (copy '0'..'9') (copy 'a'..'z')",
        text: "1a",
        side: Side::Source,
    },
    Case {
        view: "swap (copy '0'..'9') (copy 'a'..'z')",
        text: "b2",
        side: Side::Look,
    },
    Case {
        view: "swap (copy '0'..'9') (copy 'a'..'z')",
        text: "b2",
        side: Side::Source,
    },
    Case {
        view: "each (hide 'a'..'z' as \".\" new \"x\")",
        text: "ab",
        side: Side::Source,
    },
    Case {
        view: "each (hide 'a'..'z' as \".\" new \"x\")",
        text: "...",
        side: Side::Look,
    },
    Case {
        view: "hide 'a' as \"A\" new \"a\" | hide 'b' as \"B\" new \"b\"",
        text: "a",
        side: Side::Source,
    },
    Case {
        view: "hide 'a' as \"A\" new \"a\" | hide 'b' as \"B\" new \"b\"",
        text: "B",
        side: Side::Look,
    },
    Case {
        view: "copy (\"\" | 'b')*",
        text: "b",
        side: Side::Source,
    },
    Case {
        view: "copy (\"\" | 'b')*",
        text: "",
        side: Side::Source,
    },
    Case {
        view: "hide 'a'* as \"longer than it\" new \"\"",
        text: "",
        side: Side::Source,
    },
    Case {
        view: "hide 'a'* as \"longer than it\" new \"\"",
        text: "aa",
        side: Side::Source,
    },
    Case {
        view: "copy 'a'* copy 'a'*",
        text: "aa",
        side: Side::Source,
    },
    Case {
        view: "swap (swap (copy 'a'*) (copy 'b'+)) (swap (copy 'c') (copy 'd'*))",
        text: "aabcdd",
        side: Side::Source,
    },
    Case {
        view: "swap (swap (copy 'a'*) (copy 'b'+)) (swap (copy 'c') (copy 'd'*))",
        text: "ddcbaa",
        side: Side::Look,
    },
    Case {
        view: "each (copy (not \";\\n\")* \";\" hide (not \";\\n\")* new \"\" \";\" copy (not \"\\n\")* \"\\n\")",
        text: "7;Ann;a;b\n8;;\n",
        side: Side::Source,
    },
    Case {
        view: "each (copy (not \";\\n\")* \";\" hide (not \";\\n\")* new \"\" \";\" copy (not \"\\n\")* \"\\n\")",
        text: "7;;a;b\n9;;new\n",
        side: Side::Look,
    },
];

fn main(rt: HostRuntime) -> io::Result<()> {
    for case in CASES.iter() {
        let Ok(row) = notation::parse(rt.alloc(), case.view.as_bytes()) else {
            println!(rt; "no view")?;
            continue;
        };
        let text = case.text.as_bytes();
        let view = case.view;
        let said = case.text;
        let verb = match case.side {
            Side::Source => "shows",
            Side::Look => "makes",
        };
        println!(rt; "{view}")?;
        let room = room(row.len(), text.len());
        let mut work = vec![in rt.alloc(); 7u32; room]?;
        let mut out = [46u8; 24];
        let made = call(case.side, &row, text, &mut out, &mut work);
        let left = rest(rt.alloc(), &out)?;
        let told = Told(made);
        println!(rt; "  {said:?} {verb} {told}: {left:?}")?;
        if let Ok(n) = made {
            edges(&rt, case.side, &row, text, n)?;
        }
    }
    for side in [Side::Source, Side::Look] {
        hold(&rt, known::megabyte(rt.alloc(), side)?)?;
        hold(&rt, known::longest_view(rt.alloc(), side)?)?;
        hold(&rt, known::every_byte(rt.alloc(), side)?)?;
        hold(&rt, known::every_byte_hidden(rt.alloc(), side)?)?;
    }
    let right = known::bytes_apart(rt.alloc())?;
    println!(rt; "bytes that a view of one byte turns, and no other: {right}")
}

// Says whether a call does as is known, and of how many bytes it is.
fn hold(rt: &HostRuntime, known: Known) -> io::Result<()> {
    let name = known.name;
    let Ok(row) = notation::parse(rt.alloc(), known.view.as_bytes()) else {
        return println!(rt; "{name}: no view");
    };
    let said = if known.holds(rt.alloc(), &row)? {
        "as known"
    } else {
        "OTHERWISE"
    };
    let len = row.len();
    let text = known.text.len();
    let result = known.result.len();
    println!(rt; "{name}, by a row of {len} bytes, {text} bytes into {result}: {said}")
}

// The same call with one work word less, and with one lent byte less than the text takes, and with just as many.
fn edges(rt: &HostRuntime, side: Side, row: &[u8], text: &[u8], n: usize) -> io::Result<()> {
    let room = room(row.len(), text.len());
    let mut few = vec![in rt.alloc(); 7u32; room.saturating_sub(1)]?;
    let mut work = vec![in rt.alloc(); 7u32; room]?;
    let mut short = vec![in rt.alloc(); 46u8; n.saturating_sub(1)]?;
    let mut enough = vec![in rt.alloc(); 46u8; n]?;
    let small = Told(call(side, row, text, &mut enough, &mut few));
    let full = Told(call(side, row, text, &mut short, &mut work));
    let done = Told(call(side, row, text, &mut enough, &mut work));
    println!(rt; "  {small}, {full}, {done}")
}

fn call(side: Side, row: &[u8], text: &[u8], out: &mut [u8], work: &mut [u32]) -> Made {
    match side {
        Side::Source => views::show(row, text, out, work),
        Side::Look => views::make(row, text, out, work),
    }
}

// The work words that the call wants, counted here once more, since this is what holds the call's own count to its rule.
fn room(view: usize, text: usize) -> usize {
    let n = view.min(1025);
    let cells = (n + 1).saturating_mul(text.saturating_add(1));
    views::floor(view)
        .saturating_add(64)
        .saturating_add(cells / 8)
}

fn rest(heap: Global, out: &[u8]) -> Result<String, AllocError> {
    let mut text = String::new(heap);
    for byte in out {
        text.push(char::from(*byte))?;
    }
    Ok(text)
}
