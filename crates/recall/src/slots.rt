// Rows of bits kept in slots of whole words.
ghost use Rattle.std.specs.Prelude.{◌≡◌, ◌+◌, ◌*◌, ◌^◌, ◌<◌, ◌≤◌, length};
ghost use Rattle.recall.specs.Slots.{width, Keeps};

// The words of a slot for rows of so many bits.
pub(crate) fn slot_words(size: usize) -> usize
    ensures { result ≡ width size }
{
    size / 32 + 1
}

// Keeps the row of `size` bits that begins at the bit `row` in a slot. The loop counts bits, which are no elements of a slice.
pub(crate) fn keep_row(size: usize, bits: &[u32], row: usize, rows: &mut [u32], slot: usize)
    requires inside { slot * width size + width size ≤ length rows.old }
    requires small { row + size + 2 ^ 32 ≤ 2 ^ 64 }
    requires few { length rows.old < 2 ^ 32 }
    ensures { Keeps size bits.now row rows.old rows.new slot size }
{
    let first = 32 * (slot * slot_words(size));
    for place in 0..size {
        let value = bits::get(bits, row + place);
        bits::put(rows, first + place, value);
    }
}
