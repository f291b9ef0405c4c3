// Writes what a walk gives into lent bytes.
ghost use Rattle.std.specs.Prelude.{◌≡◌, refl};
ghost use Rattle.std.proofs.Common.{◌∙◌};
ghost use Rattle.walk.specs.Writes.{Wrote, wrote_none, wrote_both};

use crate::sink::Sink;

// The bytes are lent, and what is behind the text stays: so they are no Vec.
#[derive(Drop)]
pub struct Written<'a> {
    pub bytes: &'a mut [u8],
    // How many of the bytes were written; all of them if there was no room for a part. So nothing is written behind a part
    // that is missing.
    pub len: usize,
}

impl<'a> Sink for Written<'a> {
    ghost took = { λ s t u. (t.bytes.ghost_name ≡ s.bytes.ghost_name) × Wrote s.bytes.now s.len t.bytes.now t.len u };

    ghost none = { λ s. (refl, wrote_none s.bytes.now s.len) };

    ghost both = { λ s t r u w a b. (b.0 ∙ a.0, wrote_both a.1 b.1) };

    fn take(&mut self, part: &[u8]) {
        let len = self.len;
        self.len = write(self.bytes, len, part);
    }
}

// Writes the part behind the first `len` bytes, and returns how many are written then.
fn write(bytes: &mut [u8], len: usize, part: &[u8]) -> usize
    ensures { Wrote bytes.old len bytes.new result part.now }
{
    if len > bytes.len() {
        return bytes.len();
    }
    if part.len() > bytes.len() - len {
        return bytes.len();
    }
    let end = len + part.len();
    bytes[len..end].copy_from_slice(part);
    end
}
