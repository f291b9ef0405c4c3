// The line of an input around a place, with a mark under it, for messages.
use std::alloc::{AllocError, Global};

// How many bytes of the line are quoted before the place, and from it on.
const BEFORE: usize = 60;

const BEHIND: usize = 20;

// The line around the byte at `at`, and a mark under it; nothing of an empty line.
pub fn excerpt(heap: Global, text: &[u8], at: usize) -> Result<String, AllocError> {
    let before = text.iter().take(at).rev().take(BEFORE);
    let behind = text.iter().skip(at).take(BEHIND);
    let from = at.saturating_sub(before.take_while(|byte| **byte != b'\n').count());
    let to = at.saturating_add(behind.take_while(|byte| **byte != b'\n').count());
    let mut said = String::new(heap);
    if from < to {
        let mut line = String::new(heap);
        let mut indent = String::new(heap);
        for c in legible(heap, text.get(from..at).unwrap_or(b""))?
            .as_str()
            .chars()
        {
            line.push(c)?;
            indent.push(' ')?;
        }
        line.push_str(legible(heap, text.get(at..to).unwrap_or(b""))?.as_str())?;
        said = format!(in heap; "\n    {line}\n    {indent}^")?;
    }
    Ok(said)
}

// Bytes as characters that each take a place: a space for a tab, and a question mark for what can't be shown.
fn legible(heap: Global, bytes: &[u8]) -> Result<String, AllocError> {
    let mut text = String::new(heap);
    match std::str::from_utf8(bytes) {
        Ok(chars) => {
            for c in chars.chars() {
                text.push(shown(c))?;
            }
        }
        Err(_) => {
            for byte in bytes {
                text.push(if *byte < 128 {
                    shown(char::from(*byte))
                } else {
                    '?'
                })?;
            }
        }
    }
    Ok(text)
}

fn shown(c: char) -> char {
    match c {
        '\t' => ' ',
        _ if c.is_control() => '?',
        _ => c,
    }
}
