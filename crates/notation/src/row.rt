// The row that a notation becomes, written from its front to its end, with tags put in before parts that
// already stand. It stores a row of at most 1,024 bytes; of a longer one it only keeps the length, so that
// a long text costs no more than its reading. Not here: what the bytes mean (forms).
ghost use Rattle.std.specs.Prelude.{◌≡◌, ◌<◌, ◌≤◌, [], ◌∷◌, ◌++◌, drop, vec_len, MatchResult, OnOk};
ghost use Rattle.std.specs.List.{insert};

use std::alloc::{AllocError, Global};

pub const LONGEST: usize = 1024;

#[derive(Drop)]
pub struct Row {
    // The row, as long as it has its place; past that, nothing of use.
    bytes: Vec<u8>,
    // How long the row is, or usize::MAX if it is longer than that. Not the length of `bytes`: a row past LONGEST is only
    // counted. An enum of the two cases would ask each method below what to do in three, where they now ask once.
    total: usize,
    ghost whole: { total ≤ 1024 → vec_len bytes ≡ total },
}

impl Row {
    ghost use Rattle.notation.specs.Written.{Grown};

    pub fn new(heap: Global) -> Row
        ensures { (result.bytes.items ≡ []) × (result.total ≡ 0) }
    {
        Row {
            bytes: Vec::new(heap),
            total: 0,
        }
    }

    pub fn len(&self) -> usize
        ensures { result ≡ self.now.total }
    {
        self.total
    }

    pub fn push(&mut self, byte: u8) -> Result<(), AllocError>
        ensures { OnOk result (Grown self.old self.new (λ s. s ++ byte ∷ [])) }
    {
        let total = self.total.saturating_add(1);
        if total <= LONGEST {
            self.bytes.push(byte)?;
        }
        self.total = total;
        Ok(())
    }

    // Puts a tag before the part that begins at `at`.
    pub fn tag(&mut self, at: usize, tag: u8) -> Result<(), AllocError>
        requires { at ≤ self.old.total }
        ensures { OnOk result (Grown self.old self.new (λ s. insert s at tag)) }
    {
        let total = self.total.saturating_add(1);
        if total <= LONGEST {
            self.bytes.insert(at, tag)?;
        }
        self.total = total;
        Ok(())
    }

    pub fn extend(&mut self, more: &[u8]) -> Result<(), AllocError>
        ensures { OnOk result (Grown self.old self.new (λ s. s ++ more.now)) }
    {
        let total = self.total.saturating_add(more.len());
        if total <= LONGEST {
            self.bytes.extend_from_slice(more)?;
        }
        self.total = total;
        Ok(())
    }

    // Writes the part that begins at `at` once more, behind itself.
    pub fn repeat(&mut self, at: usize) -> Result<(), AllocError>
        requires { at ≤ self.old.total }
        ensures { OnOk result (Grown self.old self.new (λ s. s ++ drop at s)) }
    {
        let total = self.total.saturating_add(self.total - at);
        if total <= LONGEST {
            self.bytes.extend_from_within(at..self.total)?;
        }
        self.total = total;
        Ok(())
    }

    // The row, or its length if it is too long.
    pub fn whole(self) -> Result<Vec<u8>, usize>
        ensures { MatchResult result (λ v. (v.items ≡ self.bytes.items) × (self.total ≤ 1024)) (λ n. (n ≡ self.total) × (1024 < n)) }
    {
        if self.total <= LONGEST {
            Ok(self.bytes)
        } else {
            Err(self.total)
        }
    }
}
