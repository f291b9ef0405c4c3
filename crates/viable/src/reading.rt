// A text read by an automaton: whether it is of its form, and if not, the longest viable prefix and what could stand next.
ghost use Rattle.std.specs.Prelude.{◌+◌, ◌*◌, ◌/◌, ◌^◌, ◌<◌, ◌≤◌, length};
ghost use Rattle.pairs.specs.Table.{Bounded};
ghost use Rattle.viable.specs.States.{ReadsText};

use crate::bytes::ByteSet;
use crate::scanner::Scanner;
use pairs::Automaton;

// Where a text breaks: its longest front that some text of the form begins with has `at` bytes. `next` has the bytes that
// could stand next, and `ends` says whether the text could end there.
#[derive(Clone, Copy, Debug)]
pub struct Break {
    pub at: usize,
    pub next: ByteSet,
    pub ends: bool,
}

// Reads the text by the table, from the state 0 on; the state `end` is where a text of the form ends. Says where a text
// breaks that isn't of the form. What the room holds afterwards is free.
pub fn read(table: &[u32], end: usize, text: &[u8], room: &mut [u32]) -> Result<(), Break>
    requires bounded { Bounded («end» + 1) table.now }
    requires few { «end» + 1 < 2 ^ 32 }
    requires enough { 3 * («end» / 32 + 1) ≤ length room.old }
    ensures { ReadsText table.now «end» text.now result }
{
    let scanner = Scanner {
        automaton: Automaton::new(table, end + 1),
    };
    let words = end / 32 + 1;
    let (set, rest) = room.split_at_mut(words);
    let (next, rest) = rest.split_at_mut(words);
    let (done, hints) = rest.split_at_mut(words);
    scanner.begin(set, done, hints);
    let at = scanner.follow(text, set, next, done, hints);
    let ends = bits::get(set, end);
    if at == text.len() && ends {
        return Ok(());
    }
    Err(Break {
        at,
        next: scanner.expected(set, next),
        ends,
    })
}
