// What the calls on texts answer.

// What came of a text: so many bytes written, or why not.
pub type Made = Result<usize, Refused>;

// Why a call writes nothing.
#[derive(Clone, Copy, Debug, PartialEq, Eq)]
pub enum Refused {
    Muddy,
    NoSuch,
    NoSource,
    NoLook,
    Full,
    Small,
}
