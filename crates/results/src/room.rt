// The memory of a program: all that it holds while a call runs is at most 16 MiB. The text of a view is let go before.
ghost use Rattle.std.specs.Prelude.{◌≡◌, ◌+◌, MatchOption};
ghost use Rattle.results.specs.Room.{need as needed, Lends, Lacks};

use views::work_words;

// The bytes of all buffers together.
pub const LIMIT: usize = 16 * 1024 * 1024;

// What is lent to a call: so many work words, and so many bytes for the result.
#[derive(Clone, Copy)]
pub struct Lent {
    pub words: usize,
    pub out: usize,
}

// The bytes that a call on a row and texts of so many bytes needs, beside those of its result.
pub fn need(row: usize, texts: usize) -> u128
    ensures { result ≡ needed row texts }
{
    row as u128 + texts as u128 + 4 * work_words(row, texts)
}

// What can be lent to it: the work words that it wants, and for the result every byte that is left.
pub fn lend(row: usize, texts: usize) -> Option<Lent>
    ensures { MatchOption result (Lacks row texts) (λ lent. Lends row texts lent.words lent.out) }
{
    let need = need(row, texts);
    if need > LIMIT as u128 {
        return None;
    }
    Some(Lent {
        words: work_words(row, texts) as usize,
        out: LIMIT - need as usize,
    })
}
