// Why a program refuses: a line for people, which begins with the input that it is about, and with the place in it where
// there is one, so that editors can go there. What the program itself lacks begins with no input.
use crate::misfits::Misfit;
use crate::places::Place;
use notation::Fault;
use std::alloc::{AllocError, Global};
use std::{fmt, io};

#[derive(Drop)]
pub enum Refusal {
    // It was called in another way than this.
    Usage(&'static str),
    // Standard input was asked for more than once.
    Twice,
    Arguments(io::Error),
    Memory,
    Output(io::Error),
    Input(Spot, Why),
}

// An input, and where in it: as a whole, or at a place.
#[derive(Drop)]
pub struct Spot {
    name: String,
    place: Option<Place>,
}

// What is wrong there.
#[derive(Drop)]
pub enum Why {
    Unread(io::Error),
    // The text of a view is longer than it may be.
    LongView(usize),
    // The text says no view; and its line, with a mark, where the fault is of one place.
    NoView(Fault, String),
    NoRow,
    Unclear,
    // The text isn't of the form of a view's side.
    Misfit(Misfit),
    Large(u128),
    Long(usize),
    Memory,
}

impl Spot {
    // All of an input.
    pub fn whole(heap: Global, name: &str) -> Result<Spot, AllocError> {
        Ok(Spot {
            name: String::from_str(heap, called(name))?,
            place: None,
        })
    }

    // One place of an input.
    pub fn at(heap: Global, name: &str, place: Place) -> Result<Spot, AllocError> {
        let whole = Spot::whole(heap, name)?;
        Ok(Spot {
            name: whole.name,
            place: Some(place),
        })
    }
}

// What people call an input by its name: - stands for standard input.
pub fn called(name: &str) -> &str {
    match name {
        "-" => "standard input",
        "" => "the empty name",
        _ => name,
    }
}

impl From<AllocError> for Refusal {
    fn from(_e: AllocError) -> Refusal {
        Refusal::Memory
    }
}

impl From<AllocError> for Why {
    fn from(_e: AllocError) -> Why {
        Why::Memory
    }
}

impl From<io::Error> for Why {
    fn from(e: io::Error) -> Why {
        Why::Unread(e)
    }
}

impl fmt::Display for Refusal {
    fn fmt<W: fmt::Write>(&self, f: &mut fmt::Formatter<W>) -> fmt::Result {
        match self {
            Refusal::Usage(usage) => write!(f, "usage: {usage}"),
            Refusal::Twice => f.write_str("standard input: - can stand for one input only"),
            Refusal::Arguments(error) => write!(
                f,
                "the arguments can't be read, which have to be UTF-8: {error}"
            ),
            Refusal::Memory => f.write_str("there is not enough memory"),
            Refusal::Output(error) => write!(f, "standard output: {error}"),
            Refusal::Input(spot, why) => write!(f, "{spot}: {why}"),
        }
    }
}

impl fmt::Display for Spot {
    fn fmt<W: fmt::Write>(&self, f: &mut fmt::Formatter<W>) -> fmt::Result {
        let name = self.name.as_str();
        match self.place {
            Some(Place { line, column }) => write!(f, "{name}:{line}:{column}"),
            None => f.write_str(name),
        }
    }
}

impl fmt::Display for Why {
    fn fmt<W: fmt::Write>(&self, f: &mut fmt::Formatter<W>) -> fmt::Result {
        match self {
            Why::Unread(error) => write!(f, "{error}"),
            Why::LongView(most) => write!(f, "too long: the text of a view may have {most} bytes"),
            Why::NoView(fault, excerpt) => write!(f, "{fault}{excerpt}"),
            Why::NoRow => f.write_str("the bytes are no row of a view"),
            Why::Unclear => f.write_str(
                "this view is unclear: some text can be cut in two ways, or a new text is not of its form",
            ),
            Why::Misfit(misfit) => write!(f, "{misfit}"),
            Why::Large(need) => {
                let mebibytes = need.div_ceil(1024 * 1024);
                write!(
                    f,
                    "too long: with this text {mebibytes} MiB of memory or more would be needed, and this program uses 16; pirkunna, the host's command, takes longer texts"
                )
            }
            Why::Long(left) => write!(
                f,
                "too long: what comes of this text is longer than {left} bytes, which is what is left of 16 MiB; pirkunna, the host's command, takes longer texts"
            ),
            Why::Memory => f.write_str("there is not enough memory for it"),
        }
    }
}
