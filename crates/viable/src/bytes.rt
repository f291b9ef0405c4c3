// A set of bytes: a bit for each, and its ranges.
ghost use Rattle.std.specs.Prelude.{◌≡◌, ◌≤◌};
ghost use Rattle.viable.specs.Bytes.{has_byte, RunEnd, RangeFrom};

#[derive(Clone, Copy, Debug)]
pub struct ByteSet {
    pub(crate) words: [u32; 8],
}

// The bytes from the first to the second, both among them.
#[derive(Clone, Copy, Debug)]
pub struct ByteRange {
    pub low: u8,
    pub high: u8,
}

impl ByteSet {
    // Whether the byte is in the set.
    pub fn has(&self, byte: u8) -> bool
        ensures { result ≡ has_byte self.now byte }
    {
        bits::get(&self.words, byte as usize)
    }

    // The first range of the set among the bytes from `from` on, as long as it can be; none if no such byte is in the set.
    pub fn range_from(&self, from: usize) -> Option<ByteRange>
        ensures { RangeFrom self.now from result }
    {
        if from > 255 {
            return None;
        }
        let low = self.run_end(from, false);
        if low > 255 {
            return None;
        }
        let behind = self.run_end(low, true);
        Some(ByteRange {
            low: low as u8,
            high: (behind - 1) as u8,
        })
    }

    // Where the bytes from `from` on that are all in the set, or that all aren't, end.
    fn run_end(&self, from: usize, inside: bool) -> usize
        requires { from ≤ 255 }
        ensures { RunEnd self.now from inside result }
    {
        (from..256)
            .find(|&byte| bits::get(&self.words, byte) != inside)
            .unwrap_or(256)
    }
}
