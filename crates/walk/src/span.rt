// A part of a text, by where it begins and where it ends. A range of the library is not Copy, and these are handed on and on.
ghost use Rattle.std.specs.Prelude.{◌≡◌, length};

#[derive(Clone, Copy)]
pub struct Span {
    pub at: usize,
    pub end: usize,
}

impl Span {
    ghost use Rattle.walk.specs.Spans.{all_of, before, after};

    // All of a text.
    pub fn all(text: &[u8]) -> Span
        ensures { result ≡ all_of text.now }
    {
        Span {
            at: 0,
            end: text.len(),
        }
    }

    // The part, cut in two.
    pub fn split(self, middle: usize) -> (Span, Span)
        ensures { result ≡ (before self middle, after self middle) }
    {
        let front = Span {
            at: self.at,
            end: middle,
        };
        let back = Span {
            at: middle,
            end: self.end,
        };
        (front, back)
    }
}
