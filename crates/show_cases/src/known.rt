// Calls of which the result is known beforehand: a text of a megabyte, a view of 1,024 bytes, every byte. What is lent holds
// a pattern, so that a byte which is written and shouldn't be is seen.
use crate::{call, room};
use std::alloc::{AllocError, Global};
use views::{Made, Refused, Side};

// A view in notation, a text, and what it shows or makes.
#[derive(Drop)]
pub struct Known {
    pub name: &'static str,
    pub view: String,
    pub side: Side,
    pub text: Vec<u8>,
    pub result: Vec<u8>,
}

impl Known {
    // Whether the call with the view's row does as is known: with room for the result and more, with exactly enough, with one byte too few, and
    // with one work word too few.
    pub fn holds(&self, heap: Global, row: &[u8]) -> Result<bool, AllocError> {
        let len = self.result.len();
        let words = room(row.len(), self.text.len());
        let done = Ok(len);
        Ok(
            self.answers(heap, row, len.saturating_add(99), words, done)?
                && self.answers(heap, row, len, words, done)?
                && (len == 0
                    || self.answers(heap, row, len.saturating_sub(1), words, Err(Refused::Full))?)
                && self.answers(heap, row, len, words.saturating_sub(1), Err(Refused::Small))?,
        )
    }

    // Whether with so many bytes and words lent this is the answer, and the bytes hold what they should.
    fn answers(
        &self,
        heap: Global,
        row: &[u8],
        bytes: usize,
        words: usize,
        answer: Made,
    ) -> Result<bool, AllocError> {
        let mut out = pattern(heap, bytes)?;
        let mut after = pattern(heap, bytes)?;
        if answer.is_ok() {
            for (place, byte) in after.iter_mut().zip(self.result.iter()) {
                *place = *byte;
            }
        }
        let mut work = vec![in heap; 7u32; words]?;
        let made = call(self.side, row, &self.text, &mut out, &mut work);
        Ok(made == answer && out == after)
    }
}

fn pattern(heap: Global, len: usize) -> Result<Vec<u8>, AllocError> {
    let mut bytes = vec![in heap; 0u8; len]?;
    let mut next: u8 = 0;
    for byte in bytes.iter_mut() {
        *byte = next;
        next = next.wrapping_add(17);
    }
    Ok(bytes)
}

// A megabyte of catalogue shown, or made from its page.
pub fn megabyte(heap: Global, side: Side) -> Result<Known, AllocError> {
    let view =
        "each (copy ('0'..'9')+ \";\" hide (not \";\\n\")* new \"none\" \";\" copy (not \"\\n\")* \"\\n\")";
    let page = lines(heap, "")?;
    let (name, text, result) = match side {
        Side::Source => ("a megabyte shown", lines(heap, "Family Aro")?, page),
        Side::Look => ("a megabyte made", page, lines(heap, "none")?),
    };
    Ok(Known {
        name,
        view: String::from_str(heap, view)?,
        side,
        text,
        result,
    })
}

// Lines of a catalogue with this lender.
fn lines(heap: Global, lender: &str) -> Result<Vec<u8>, AllocError> {
    let mut text = String::new(heap);
    for number in 0..24_000 {
        let line = format!(in heap; "{number};{lender};see {number}; keep dry; {number} in all\n")?;
        text.push_str(line.as_str())?;
    }
    Ok(text.into_bytes())
}

// A view with a row of 1,024 bytes: 254 of one letter are copied, and one of another is hidden.
pub fn longest_view(heap: Global, side: Side) -> Result<Known, AllocError> {
    let mut letters = String::new(heap);
    for _ in 0..254 {
        letters.push('x')?;
    }
    let view = format!(in heap; "\"{letters}\" hide 'a' new \"a\"")?;
    let look = letters.clone()?.into_bytes();
    letters.push('a')?;
    let source = letters.into_bytes();
    let (name, text, result) = match side {
        Side::Source => ("the longest view shows", source, look),
        Side::Look => ("the longest view makes", look, source),
    };
    Ok(Known {
        name,
        view,
        side,
        text,
        result,
    })
}

// Every byte, copied.
pub fn every_byte(heap: Global, side: Side) -> Result<Known, AllocError> {
    Ok(Known {
        name: match side {
            Side::Source => "every byte copied, shown",
            Side::Look => "every byte copied, made",
        },
        view: String::from_str(heap, "copy any*")?,
        side,
        text: all_bytes(heap)?,
        result: all_bytes(heap)?,
    })
}

// Every byte, each hidden behind a mark.
pub fn every_byte_hidden(heap: Global, side: Side) -> Result<Known, AllocError> {
    let marks = vec![in heap; b'.'; 256]?;
    let (name, text, result) = match side {
        Side::Source => ("every byte hidden, shown", all_bytes(heap)?, marks),
        Side::Look => (
            "every byte hidden, made",
            marks,
            vec![in heap; 0xffu8; 256]?,
        ),
    };
    Ok(Known {
        name,
        view: String::from_str(heap, "each (hide any as \".\" new \"\\xff\")")?,
        side,
        text,
        result,
    })
}

fn all_bytes(heap: Global) -> Result<Vec<u8>, AllocError> {
    let mut bytes = Vec::new(heap);
    for byte in 0..=255u8 {
        bytes.push(byte)?;
    }
    Ok(bytes)
}

// How many of the bytes b are turned as they should by the view that hides b alone, shows the byte opposite, and copies no
// other: b is shown as its opposite and made from it, and every other byte is refused.
pub fn bytes_apart(heap: Global) -> Result<usize, AllocError> {
    let mut right: usize = 0;
    for byte in 0..=255u8 {
        let opposite = 255 - byte;
        let row = [11, 1, byte, byte, 1, opposite, 1, byte];
        if turns(heap, &row, Side::Source, byte, opposite)?
            && turns(heap, &row, Side::Look, opposite, byte)?
        {
            right = right.saturating_add(1);
        }
    }
    Ok(right)
}

// Whether of all bytes the view turns `from` into `to`, and no other into anything.
fn turns(heap: Global, row: &[u8], side: Side, from: u8, to: u8) -> Result<bool, AllocError> {
    let missing = match side {
        Side::Source => Refused::NoSource,
        Side::Look => Refused::NoLook,
    };
    let mut work = vec![in heap; 7u32; room(row.len(), 1)]?;
    let mut right = true;
    for byte in 0..=255u8 {
        let mut out = [46u8; 2];
        let made = call(side, row, &[byte], &mut out, &mut work);
        right = right
            && if byte == from {
                made == Ok(1) && out == [to, 46]
            } else {
                made == Err(missing) && out == [46, 46]
            };
    }
    Ok(right)
}
