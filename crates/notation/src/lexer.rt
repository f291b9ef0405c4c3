// Cuts a text into tokens, one at a time. Not here: which tokens may follow which (parser).
ghost use Rattle.std.specs.Prelude.{◌≡◌, ◌<◌, ◌≤◌, length, IfSome, IfOk};
ghost use Rattle.notation.specs.Tokens.{Read, Follows, OneByte};

use crate::faults::{Fault, Wrong};

#[derive(Clone, Copy, Debug, PartialEq)]
pub enum Token {
    Copy,
    Hide,
    As,
    New,
    Swap,
    Each,
    Any,
    Not,
    Byte(u8),
    Text,
    Open,
    Close,
    Bar,
    Star,
    Plus,
    Question,
    Dots,
    End,
}

// A token, and where it begins and ends.
#[derive(Clone, Copy, Debug)]
pub struct Lexeme {
    pub token: Token,
    pub start: usize,
    pub end: usize,
}

// The next token from `at` on; the bytes of a text in quotes go into `quoted`.
pub fn next(text: &[u8], at: usize, quoted: &mut Vec<u8>) -> Result<Lexeme, Fault>
    ensures { IfOk result (λ l. Follows (length text.now) at l) }
{
    let start = space_end(text, at);
    if start >= text.len() {
        return Ok(Lexeme {
            token: Token::End,
            start,
            end: start,
        });
    }
    let cursor = Cursor { text, start };
    match text[start] {
        b'\'' => cursor.byte(),
        b'"' => cursor.quote(quoted),
        b'.' => cursor.dots(),
        first if is_letter(first) => cursor.word(),
        first => cursor.sign(first),
    }
}

// A text, and where in it a token begins.
#[derive(Clone, Copy)]
struct Cursor<'a> {
    text: &'a [u8],
    start: usize,
    ghost inside: { start < length text.now },
}

impl Cursor<'_> {
    fn sign(&self, first: u8) -> Result<Lexeme, Fault>
        ensures { IfOk result (λ l. Read (length self.now.text.now) self.now.start l) }
    {
        let token = match first {
            b'(' => Token::Open,
            b')' => Token::Close,
            b'|' => Token::Bar,
            b'*' => Token::Star,
            b'+' => Token::Plus,
            b'?' => Token::Question,
            _ => return Err(self.fault(Wrong::UnknownSign)),
        };
        Ok(self.lexeme(token, self.start + 1))
    }

    fn dots(&self) -> Result<Lexeme, Fault>
        ensures { IfOk result (λ l. Read (length self.now.text.now) self.now.start l) }
    {
        match self.text.get(self.start + 1) {
            Some(b'.') => Ok(self.lexeme(Token::Dots, self.start + 2)),
            _ => Err(self.fault(Wrong::UnknownSign)),
        }
    }

    fn word(&self) -> Result<Lexeme, Fault>
        ensures { IfOk result (λ l. Read (length self.now.text.now) self.now.start l) }
    {
        let end = word_end(self.text, self.start + 1);
        let token = keyword(&self.text[self.start..end]).ok_or_else(|| self.fault(
            Wrong::UnknownWord,
        ))?;
        Ok(self.lexeme(token, end))
    }

    // A byte in single quotes.
    fn byte(&self) -> Result<Lexeme, Fault>
        ensures { IfOk result (λ l. Read (length self.now.text.now) self.now.start l) }
    {
        let first = self.start + 1;
        if let Some(b'\'') = self.text.get(first) {
            return Err(self.fault(Wrong::NotOneByte));
        }
        let one = self.quoted_byte(first)?;
        match self.text.get(one.end) {
            Some(b'\'') => Ok(self.lexeme(Token::Byte(one.byte), one.end + 1)),
            Some(_) => Err(self.fault(Wrong::NotOneByte)),
            None => Err(self.fault(Wrong::Unclosed)),
        }
    }

    // A text in double quotes.
    fn quote(&self, quoted: &mut Vec<u8>) -> Result<Lexeme, Fault>
        ensures { IfOk result (λ l. Read (length self.now.text.now) self.now.start l) }
    {
        quoted.clear();
        let mut at = self.start + 1;
        while self.text.get(at) != Some(&b'"') {
            let one = self.quoted_byte(at)?;
            quoted.push(one.byte)?;
            at = one.end;
        }
        Ok(self.lexeme(Token::Text, at + 1))
    }

    // The byte at `at`, inside the quotes that open here.
    fn quoted_byte(&self, at: usize) -> Result<One, Fault>
        ensures { IfOk result (λ one. OneByte (length self.now.text.now) at one) }
    {
        match self.text.get(at) {
            None => Err(self.fault(Wrong::Unclosed)),
            Some(b'\n') => Err(Fault::new(self.text, at, Wrong::NewlineInQuotes)),
            Some(b'\\') => {
                let wrong = || Fault::new(self.text, at, Wrong::BadEscape);
                escaped(self.text, at + 1).ok_or_else(wrong)
            }
            Some(byte) => Ok(One {
                byte: *byte,
                end: at + 1,
            }),
        }
    }

    // The token that begins here and ends there.
    fn lexeme(&self, token: Token, end: usize) -> Lexeme
        ensures token { result.token ≡ token }
        ensures begins { result.start ≡ self.now.start }
        ensures ends { result.«end» ≡ «end» }
    {
        Lexeme {
            token,
            start: self.start,
            end,
        }
    }

    // What is wrong with the token that begins here.
    fn fault(&self, wrong: Wrong) -> Fault {
        Fault::new(self.text, self.start, wrong)
    }
}

// A byte that quotes hold, and where its notation ends.
#[derive(Clone, Copy)]
struct One {
    byte: u8,
    end: usize,
}

// The byte that an escape stands for, of which `at` is behind the backslash.
fn escaped(text: &[u8], at: usize) -> Option<One>
    ensures { IfSome result (λ one. OneByte (length text.now) at one) }
{
    let byte = match *text.get(at)? {
        b'n' => b'\n',
        b't' => b'\t',
        b'r' => b'\r',
        b'x' => return hex_byte(text, at + 1),
        b'\\' => b'\\',
        b'\'' => b'\'',
        b'"' => b'"',
        _ => return None,
    };
    Some(One { byte, end: at + 1 })
}

// The byte of the two hex digits at `at`.
fn hex_byte(text: &[u8], at: usize) -> Option<One>
    ensures { IfSome result (λ one. OneByte (length text.now) at one) }
{
    let [high, low] = text.get(at..)?.first_chunk::<2>()?;
    Some(One {
        byte: hex_digit(*high)? * 16 + hex_digit(*low)?,
        end: at + 2,
    })
}

fn hex_digit(byte: u8) -> Option<u8>
    ensures { IfSome result (λ d. d < 16) }
{
    match byte {
        b'0'..=b'9' => Some(byte - b'0'),
        b'a'..=b'f' => Some(byte - b'a' + 10),
        b'A'..=b'F' => Some(byte - b'A' + 10),
        _ => None,
    }
}

// Where the white space and the comments at `at` end.
fn space_end(text: &[u8], at: usize) -> usize
    ensures { at ≤ result }
{
    let rest = text.get(at..).unwrap_or(b"");
    let mut comment = false;
    for (count, byte) in rest.iter().enumerate() {
        match byte {
            b'\n' => comment = false,
            b'#' => comment = true,
            b' ' | b'\t' | b'\r' => {}
            _ if comment => {}
            _ => return at + count,
        }
    }
    at + rest.len()
}

// Where the word ends that goes on at `at`.
fn word_end(text: &[u8], at: usize) -> usize
    requires { at ≤ length text.now }
    ensures from { at ≤ result }
    ensures within { result ≤ length text.now }
{
    text[at..]
        .iter()
        .position(|byte| !is_word_byte(*byte))
        .map_or(text.len(), |count| at + count)
}

fn is_letter(byte: u8) -> bool {
    byte.is_ascii_alphabetic() || byte == b'_'
}

fn is_word_byte(byte: u8) -> bool {
    is_letter(byte) || byte.is_ascii_digit() || byte == b'-'
}

fn keyword(word: &[u8]) -> Option<Token> {
    match word {
        b"copy" => Some(Token::Copy),
        b"hide" => Some(Token::Hide),
        b"as" => Some(Token::As),
        b"new" => Some(Token::New),
        b"swap" => Some(Token::Swap),
        b"each" => Some(Token::Each),
        b"any" => Some(Token::Any),
        b"not" => Some(Token::Not),
        _ => None,
    }
}
