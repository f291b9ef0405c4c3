// What is said of a text, in a line.
use std::fmt;
use views::{Break, ByteRange, Unfit};

#[derive(Clone, Copy)]
pub struct Said {
    pub fit: Result<(), Unfit>,
}

impl fmt::Display for Said {
    fn fmt<W: fmt::Write>(&self, f: &mut fmt::Formatter<W>) -> fmt::Result {
        match self.fit {
            Ok(()) => f.write_str("fits"),
            Err(Unfit::Breaks(place)) => write_break(&place, f),
            Err(Unfit::NoSuch) => f.write_str("no such view"),
            Err(Unfit::Small) => f.write_str("too few work words"),
        }
    }
}

// Where it breaks, and what could stand there: ranges of bytes, and the end.
fn write_break<W: fmt::Write>(place: &Break, f: &mut fmt::Formatter<W>) -> fmt::Result {
    let at = place.at;
    write!(f, "breaks at {at}, expected:")?;
    let mut from = 0;
    while let Some(range) = place.next.range_from(from) {
        write_range(range, f)?;
        from = range.high as usize + 1;
    }
    if place.ends {
        f.write_str(" end")?;
    }
    Ok(())
}

fn write_range<W: fmt::Write>(range: ByteRange, f: &mut fmt::Formatter<W>) -> fmt::Result {
    f.write_str(" ")?;
    write_byte(range.low, f)?;
    if range.low == range.high {
        return Ok(());
    }
    f.write_str("..")?;
    write_byte(range.high, f)
}

// A byte as the notation of views has it.
fn write_byte<W: fmt::Write>(byte: u8, f: &mut fmt::Formatter<W>) -> fmt::Result {
    match byte {
        b' '..=b'~' => {
            let shown = char::from(byte);
            write!(f, "'{shown}'")
        }
        _ => write!(f, "'\\x{byte:02x}'"),
    }
}
