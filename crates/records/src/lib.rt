// Records of four words in lent words, side by side: the record of a place is the four words from 4 * place on.
// Not here: where the words come from, and what a record stands for; both are the caller's.
#![tactic(auto)]

ghost use Rattle.std.specs.Prelude.{◌≡◌, ◌+◌, ◌*◌, ◌<◌, length};
ghost use Rattle.records.specs.Records.{record_at, PutsRecord};

use bits::word_at;

// The record of a place; its words past the end are 0.
pub fn record_at(words: &[u32], place: usize) -> [u32; 4]
    ensures { result ≡ record_at words.now place }
{
    if place > words.len() / 4 {
        return [0; 4];
    }
    let at = 4 * place;
    [
        word_at(words, at),
        word_at(words, at + 1),
        word_at(words, at + 2),
        word_at(words, at + 3),
    ]
}

// Puts a record at a place.
pub fn put_record(words: &mut [u32], place: usize, fields: [u32; 4])
    requires inside { 4 * place + 3 < length words.old }
    ensures { PutsRecord words.old place fields words.new }
{
    let at = 4 * place;
    words[at..at + 4].copy_from_slice(&fields);
}

#[cfg(test)]
mod tests {
    use super::*;

    #[test]
    fn puts_a_record(rt: HostRuntime) {
        let mut words = [9u32; 9];
        put_record(&mut words, 1, [1, 2, 3, 4]);
        assert_eq!(rt; words, [9, 9, 9, 9, 1, 2, 3, 4, 9]);
        assert_eq!(rt; record_at(&words, 1), [1, 2, 3, 4]);
    }

    // A record half past the end, and whole ones.
    #[test]
    fn reads_past_the_end(rt: HostRuntime) {
        let words = [9u32; 6];
        assert_eq!(rt; record_at(&words, 1), [9, 9, 0, 0]);
        assert_eq!(rt; record_at(&words, 2), [0, 0, 0, 0]);
        assert_eq!(rt; record_at(&words, usize::MAX), [0, 0, 0, 0]);
    }
}
