// A table of bits in lent words, 32 bits a word, the lowest bit of a word first.
// Not here: where the words come from, and what a bit stands for; both are the caller's.
#![tactic(auto)]

ghost use Rattle.std.specs.Prelude.{◌≡◌, ◌+◌, ◌*◌, ◌^◌, ◌<◌, ◌≤◌, true, length, slice_index};
ghost use Rattle.bits.specs.Bits.{bit, Puts, PutsBits, with_field, Clears, LeftWord, FirstFrom};

// Bit `k`; false past the end.
pub fn get(words: &[u32], k: usize) -> bool
    ensures { result ≡ bit words.now k }
{
    (word_at(words, k / 32) >> (k % 32)) % 2 == 1
}

// Word `i`; 0 past the end.
pub fn word_at(words: &[u32], i: usize) -> u32
    ensures { result ≡ slice_index words.now i }
{
    words.get(i).copied().unwrap_or(0)
}

// The first bit from `from` on, below `size`, that is true in `words` and false in `without`. The rest of a word without
// such a bit is passed as a whole, so the loop goes on by words.
pub fn first(words: &[u32], without: &[u32], size: usize, from: usize) -> Option<usize>
    ensures { FirstFrom words.now without.now size from result }
{
    let mut k = from;
    while k < size {
        let rest = left(words, without, k / 32) >> (k % 32);
        if rest > 0 {
            let found = k + rest.trailing_zeros() as usize;
            return if found < size { Some(found) } else { None };
        }
        k = k.saturating_add(32 - k % 32);
    }
    None
}

// The bits of word `i` that are true in `words` and false in `without`.
fn left(words: &[u32], without: &[u32], i: usize) -> u32
    ensures { LeftWord words.now without.now i result }
{
    word_at(words, i) & !word_at(without, i)
}

// Makes bit `k` true.
pub fn set(words: &mut [u32], k: usize)
    requires inside { k < 32 * length words.old }
    ensures { Puts words.old k true words.new }
{
    words[k / 32] |= 1 << (k % 32);
}

// Gives bit `k` a value.
pub fn put(words: &mut [u32], k: usize, value: bool)
    requires inside { k < 32 * length words.old }
    ensures { Puts words.old k value words.new }
{
    if get(words, k) == value {
        return;
    }
    words[k / 32] ^= 1 << (k % 32);
}

// Gives the bits from `at` on the lowest `len` bits of `value`.
pub fn put_bits(words: &mut [u32], at: usize, len: usize, value: u32)
    requires some { 0 < len }
    requires short { len ≤ 32 }
    requires inside { at + len ≤ 32 * length words.old }
    requires fits { value < 2 ^ len }
    ensures { PutsBits words.old at len value words.new }
{
    let low = at % 32;
    if low + len <= 32 {
        put_field(words, at / 32, low, len, value);
        return;
    }
    let here = 32 - low;
    put_field(words, at / 32, low, here, value % (1 << here));
    put_field(words, at / 32 + 1, 0, len - here, value >> here);
}

// The same within one word, from its bit `low` on. That the value fits is asked in three contracts, of one step each.
fn put_field(words: &mut [u32], word: usize, low: usize, len: usize, value: u32)
    requires within { low + len ≤ 32 }
    requires inside { word < length words.old }
    requires fits { value < 2 ^ len }
    ensures { PutsBits words.old (32 * word + low) len value words.new }
{
    words[word] = with_field(words[word], low, len, value);
}

// A word with other bits from `low` on.
fn with_field(word: u32, low: usize, len: usize, value: u32) -> u32
    requires within { low + len ≤ 32 }
    requires fits { value < 2 ^ len }
    ensures { result ≡ with_field word low len value }
{
    let word = word as u64;
    let above = word >> (low + len);
    let kept = word % (1 << low);
    ((((above << len) + value as u64) << low) + kept) as u32
}

// Makes every bit false.
pub fn clear(words: &mut [u32])
    ensures { Clears words.old words.new }
{
    words.fill(0);
}

#[cfg(test)]
mod tests {
    use super::*;

    // The last bit of a word and the first of the next.
    #[test]
    fn words_meet(rt: HostRuntime) {
        let mut words = [0u32, 0];
        set(&mut words, 31);
        put(&mut words, 32, true);
        assert_eq!(rt; words, [0x8000_0000, 1]);
        put(&mut words, 31, false);
        assert_eq!(rt; words, [0, 1]);
        assert!(rt; get(&words, 32) && !get(&words, 31) && !get(&words, 64));
        clear(&mut words);
        assert_eq!(rt; words, [0, 0]);
    }

    // In the same word, behind words that are passed, and none below the size.
    #[test]
    fn first_bits(rt: HostRuntime) {
        let words = [6u32, 0, 0x8000_0001];
        assert_eq!(rt; first(&words, &[], 96, 0), Some(1));
        assert_eq!(rt; first(&words, &[2], 96, 0), Some(2));
        assert_eq!(rt; first(&words, &[2], 96, 3), Some(64));
        assert_eq!(rt; first(&words, &[], 96, 65), Some(95));
        assert_eq!(rt; first(&words, &[], 95, 65), None);
        assert_eq!(rt; first(&words, &[], 1000, 96), None);
    }

    // Nothing is left of a table that another one covers.
    #[test]
    fn covers_bits(rt: HostRuntime) {
        assert_eq!(rt; first(&[2], &[6], 32, 0), None);
        assert_eq!(rt; first(&[3], &[6], 32, 0), Some(0));
    }
}
