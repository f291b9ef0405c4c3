// Why a text isn't of the form of a view's side: where it leaves the form, what could stand there, and its line with a mark
// under the place. Not here: how the place is found (crate views).
use crate::excerpts::excerpt;
use std::alloc::{AllocError, Global};
use std::fmt;
use views::{Break, ByteSet, Side, Unfit};

#[derive(Drop)]
pub struct Misfit {
    // The name of the view, and the side that the text isn't of.
    view: String,
    side: Side,
    broken: Option<Broken>,
}

// Where the text leaves the form: what was read, whether it ends there, and the lines that show the place.
#[derive(Drop)]
struct Broken {
    place: Break,
    short: bool,
    excerpt: String,
}

impl Misfit {
    // Finds where a text, which isn't of this side of the row, leaves the form.
    pub fn find(
        heap: Global,
        view: &str,
        row: &[u8],
        side: Side,
        text: &[u8],
    ) -> Result<Misfit, AllocError> {
        let view = String::from_str(heap, view)?;
        let words = results::lend(row.len(), text.len()).map_or(0, |lent| lent.words);
        let mut work = vec![in heap; 0u32; words]?;
        let broken = match views::viable_prefix(row, side, text, &mut work) {
            Err(Unfit::Breaks(place)) => Some(Broken {
                place,
                short: place.at >= text.len(),
                excerpt: excerpt(heap, text, place.at)?,
            }),
            _ => None,
        };
        Ok(Misfit { view, side, broken })
    }

    // How many bytes of the text fit.
    pub fn at(&self) -> Option<usize> {
        self.broken.as_ref().map(|broken| broken.place.at)
    }
}

impl fmt::Display for Misfit {
    fn fmt<W: fmt::Write>(&self, f: &mut fmt::Formatter<W>) -> fmt::Result {
        let view = self.view.as_str();
        let side = match self.side {
            Side::Source => "sources",
            Side::Look => "looks",
        };
        let Some(broken) = &self.broken else {
            return write!(f, "not of the form that {view} has for {side}");
        };
        if broken.short {
            write!(
                f,
                "ends too early for the form that {view} has for {side}; expected "
            )?;
        } else {
            write!(f, "not of the form that {view} has for {side}; expected ")?;
        }
        write_expected(&broken.place, f)?;
        f.write_str(broken.excerpt.as_str())
    }
}

// What could stand at the place: few bytes by their ranges, many by those that are left out, and the end.
fn write_expected<W: fmt::Write>(place: &Break, f: &mut fmt::Formatter<W>) -> fmt::Result {
    match (0..=255u8).filter(|byte| place.next.has(*byte)).count() {
        0 => return f.write_str("the end"),
        1..=128 => write_ranges(&place.next, true, f)?,
        129..=255 => {
            f.write_str("any byte but ")?;
            write_ranges(&place.next, false, f)?;
        }
        _ => f.write_str("any byte")?,
    }
    if place.ends {
        f.write_str(", or the end")?;
    }
    Ok(())
}

// The ranges of bytes that are in the set, or of those that aren't. The loop counts through all bytes, each of which may end
// a range.
fn write_ranges<W: fmt::Write>(
    set: &ByteSet,
    inside: bool,
    f: &mut fmt::Formatter<W>,
) -> fmt::Result {
    let mut first = true;
    // Where the range begins that ends at `high` or later.
    let mut low: u8 = 0;
    for high in 0..=255u8 {
        if set.has(high) != inside {
            low = high.saturating_add(1);
        } else if high == 255 || set.has(high + 1) != inside {
            if !first {
                f.write_str(" or ")?;
            }
            first = false;
            write_byte(low, f)?;
            if low < high {
                f.write_str("..")?;
                write_byte(high, f)?;
            }
        }
    }
    Ok(())
}

// A byte as the notation of views has it.
fn write_byte<W: fmt::Write>(byte: u8, f: &mut fmt::Formatter<W>) -> fmt::Result {
    match byte {
        b'\n' => f.write_str("'\\n'"),
        b'\t' => f.write_str("'\\t'"),
        b'\r' => f.write_str("'\\r'"),
        b'\'' => f.write_str("'\\''"),
        b'\\' => f.write_str("'\\\\'"),
        b' '..=b'~' => {
            let shown = char::from(byte);
            write!(f, "'{shown}'")
        }
        _ => write!(f, "'\\x{byte:02x}'"),
    }
}
