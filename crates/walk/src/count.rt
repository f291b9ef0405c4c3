// Counts what a walk gives.
ghost use Rattle.walk.specs.Counts.{Counted, counted_none, counted_both};

use crate::sink::Sink;

#[derive(Clone, Copy)]
pub struct Count {
    // How many bytes were taken; if they are more than a number can say, the greatest number.
    pub bytes: usize,
}

impl Sink for Count {
    ghost took = { λ s t u. Counted s.bytes t.bytes u };

    ghost none = { λ s. counted_none s.bytes };

    ghost both = { λ s t r u w a b. counted_both a b };

    fn take(&mut self, part: &[u8]) {
        self.bytes = self.bytes.saturating_add(part.len());
    }
}
