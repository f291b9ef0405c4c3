// Reads a view by recursive descent, and writes its row on the way: a function for each line of the
// grammar (lib). A part is written as it is read; a tag that is only known behind its first part, as that
// of `|`, is put in before it. Brackets, swap and each nest at most MAX_DEPTH deep.
ghost use Rattle.std.specs.Prelude.{◌≡◌, ◌+◌, ◌≤◌, IfOk, OnOk};
ghost use Rattle.notation.specs.Progress.{Goes, Reads, Steps, Signs};

use crate::faults::{Fault, Wrong};
use crate::lexer::{Lexeme, Token};
use crate::row::Row;
use crate::tags::Tag;
use crate::{forms, lexer};
use std::alloc::Global;

const MAX_DEPTH: usize = 200;

#[derive(Drop)]
struct Parser<'a> {
    text: &'a [u8],
    // The token that is next to be read, and if that is a text, its bytes.
    ahead: Lexeme,
    quoted: Vec<u8>,
    row: Row,
}

// The row of the view that the text says.
pub fn read(heap: Global, text: &[u8]) -> Result<Vec<u8>, Fault> {
    let mut quoted = Vec::new(heap);
    let ahead = lexer::next(text, 0, &mut quoted)?;
    let row = Row::new(heap);
    let mut parser = Parser {
        text,
        ahead,
        quoted,
        row,
    };
    parser.view(MAX_DEPTH)?;
    if parser.ahead.token != Token::End {
        return Err(parser.fault(Wrong::NoEnd));
    }
    parser
        .row
        .whole()
        .map_err(|total| Fault::whole(Wrong::RowTooLong(total)))
}

impl Parser<'_> {
    fn advance(&mut self) -> Result<(), Fault>
        ensures { OnOk result (Steps self.old self.new) }
    {
        self.ahead = lexer::next(self.text, self.ahead.end, &mut self.quoted)?;
        Ok(())
    }

    // What is wrong with the token ahead.
    fn fault(&self, wrong: Wrong) -> Fault {
        Fault::new(self.text, self.ahead.start, wrong)
    }

    // Reads the token, or says what is wrong if another is ahead.
    fn expect(&mut self, token: Token, wrong: Wrong) -> Result<(), Fault>
        ensures { OnOk result (Goes self.old self.new) }
    {
        if self.ahead.token != token {
            return Err(self.fault(wrong));
        }
        self.advance()
    }

    // How deep the parts of a part may nest that itself may nest `depth` deep.
    fn deeper(&self, depth: usize) -> Result<usize, Fault>
        ensures { IfOk result (λ d. d + 1 ≡ depth) }
    {
        depth
            .checked_sub(1)
            .ok_or_else(|| self.fault(Wrong::TooDeep))
    }

    #[cycle(views)]
    fn view(&mut self, depth: usize) -> Result<(), Fault>
        ensures { OnOk result (Reads self.old self.new) }
    {
        let mut at = self.row.len();
        self.series(depth)?;
        while self.ahead.token == Token::Bar {
            self.row.tag(at, Tag::Either as u8)?;
            at = self.row.len();
            self.advance()?;
            self.series(depth)?;
        }
        Ok(())
    }

    #[cycle(views)]
    fn series(&mut self, depth: usize) -> Result<(), Fault>
        ensures { OnOk result (Reads self.old self.new) }
    {
        let mut at = self.row.len();
        self.item(depth)?;
        while begins_item(self.ahead.token) {
            self.row.tag(at, Tag::Then as u8)?;
            at = self.row.len();
            self.item(depth)?;
        }
        Ok(())
    }

    #[cycle(views)]
    fn item(&mut self, depth: usize) -> Result<(), Fault>
        ensures { OnOk result (Reads self.old self.new) }
    {
        match self.ahead.token {
            Token::Copy => self.copy(depth),
            Token::Hide => self.hide(depth),
            Token::Swap => self.swap(depth),
            Token::Each => self.each(depth),
            Token::Text => self.literal_item(),
            Token::Open => self.nested_view(depth),
            _ => Err(self.fault(Wrong::NoView)),
        }
    }

    fn copy(&mut self, depth: usize) -> Result<(), Fault>
        ensures { OnOk result (Reads self.old self.new) }
    {
        self.advance()?;
        self.row.push(Tag::Copy as u8)?;
        self.repeat(depth)
    }

    fn hide(&mut self, depth: usize) -> Result<(), Fault>
        ensures { OnOk result (Reads self.old self.new) }
    {
        self.advance()?;
        self.row.push(Tag::Hide as u8)?;
        self.repeat(depth)?;
        if self.ahead.token == Token::As {
            self.advance()?;
            self.short_text()?;
        } else {
            self.row.push(0)?;
        }
        self.expect(Token::New, Wrong::NoNew)?;
        self.short_text()
    }

    #[cycle(views)]
    fn swap(&mut self, depth: usize) -> Result<(), Fault>
        ensures { OnOk result (Reads self.old self.new) }
    {
        let depth = self.deeper(depth)?;
        self.advance()?;
        self.row.push(Tag::Swap as u8)?;
        self.item(depth)?;
        self.item(depth)
    }

    #[cycle(views)]
    fn each(&mut self, depth: usize) -> Result<(), Fault>
        ensures { OnOk result (Reads self.old self.new) }
    {
        let depth = self.deeper(depth)?;
        self.advance()?;
        self.row.push(Tag::Each as u8)?;
        self.item(depth)
    }

    fn literal_item(&mut self) -> Result<(), Fault>
        ensures { OnOk result (Steps self.old self.new) }
    {
        self.row.push(Tag::Copy as u8)?;
        self.literal()
    }

    #[cycle(views)]
    fn nested_view(&mut self, depth: usize) -> Result<(), Fault>
        ensures { OnOk result (Reads self.old self.new) }
    {
        let depth = self.deeper(depth)?;
        self.advance()?;
        self.view(depth)?;
        self.expect(Token::Close, Wrong::NoClose)
    }

    // A text of `hide`, with its length in one byte before it.
    fn short_text(&mut self) -> Result<(), Fault>
        ensures { OnOk result (Goes self.old self.new) }
    {
        if self.ahead.token != Token::Text {
            return Err(self.fault(Wrong::NoText));
        }
        let length = self.quoted.len();
        let byte = u8::try_from(length).map_err(|_| self.fault(Wrong::TextTooLong(length)))?;
        self.row.push(byte)?;
        self.row.extend(&self.quoted)?;
        self.advance()
    }

    // `form` and `branch` go as `view` and `series` do. One function for two of them would be told at each step which of the two
    // it is, and would make one cycle of calls of what are two: a view reads forms, and no form reads a view.
    #[cycle(forms)]
    fn form(&mut self, depth: usize) -> Result<(), Fault>
        ensures { OnOk result (Reads self.old self.new) }
    {
        let mut at = self.row.len();
        self.branch(depth)?;
        while self.ahead.token == Token::Bar {
            self.row.tag(at, Tag::Or as u8)?;
            at = self.row.len();
            self.advance()?;
            self.branch(depth)?;
        }
        Ok(())
    }

    #[cycle(forms)]
    fn branch(&mut self, depth: usize) -> Result<(), Fault>
        ensures { OnOk result (Reads self.old self.new) }
    {
        let mut at = self.row.len();
        self.repeat(depth)?;
        while begins_atom(self.ahead.token) {
            self.row.tag(at, Tag::Seq as u8)?;
            at = self.row.len();
            self.repeat(depth)?;
        }
        Ok(())
    }

    #[cycle(forms)]
    fn repeat(&mut self, depth: usize) -> Result<(), Fault>
        ensures { OnOk result (Reads self.old self.new) }
    {
        let at = self.row.len();
        self.atom(depth)?;
        while self.sign(at)? {}
        Ok(())
    }

    // Reads one of * + ? behind the form that begins at `at`; false if none is ahead, which refuses nothing.
    fn sign(&mut self, at: usize) -> Result<bool, Fault>
        requires { at ≤ self.old.row.total }
        ensures { IfOk result (λ more. Signs self.old self.new more) }
    {
        match self.ahead.token {
            Token::Star => self.row.tag(at, Tag::Many as u8)?,
            Token::Plus => forms::more(&mut self.row, at)?,
            Token::Question => {
                self.row.tag(at, Tag::Or as u8)?;
                self.row.push(Tag::Empty as u8)?;
            }
            _ => return Ok(false),
        }
        self.advance()?;
        Ok(true)
    }

    #[cycle(forms)]
    fn atom(&mut self, depth: usize) -> Result<(), Fault>
        ensures { OnOk result (Reads self.old self.new) }
    {
        match self.ahead.token {
            Token::Byte(low) => self.range(low),
            Token::Text => self.literal(),
            Token::Any => self.any(),
            Token::Not => self.none_of(),
            Token::Open => self.nested_form(depth),
            _ => Err(self.fault(Wrong::NoForm)),
        }
    }

    fn range(&mut self, low: u8) -> Result<(), Fault>
        ensures { OnOk result (Steps self.old self.new) }
    {
        self.advance()?;
        let mut high = low;
        if self.ahead.token == Token::Dots {
            self.advance()?;
            let Token::Byte(byte) = self.ahead.token else {
                return Err(self.fault(Wrong::NoByte));
            };
            if byte < low {
                return Err(self.fault(Wrong::UpsideDown));
            }
            self.advance()?;
            high = byte;
        }
        forms::range(&mut self.row, low, high)?;
        Ok(())
    }

    fn literal(&mut self) -> Result<(), Fault>
        ensures { OnOk result (Steps self.old self.new) }
    {
        forms::literal(&mut self.row, &self.quoted)?;
        self.advance()
    }

    fn any(&mut self) -> Result<(), Fault>
        ensures { OnOk result (Steps self.old self.new) }
    {
        forms::range(&mut self.row, 0, 255)?;
        self.advance()
    }

    fn none_of(&mut self) -> Result<(), Fault>
        ensures { OnOk result (Steps self.old self.new) }
    {
        self.advance()?;
        if self.ahead.token != Token::Text {
            return Err(self.fault(Wrong::NoText));
        }
        if !forms::none_of(&mut self.row, &self.quoted)? {
            return Err(self.fault(Wrong::NothingLeft));
        }
        self.advance()
    }

    #[cycle(forms)]
    fn nested_form(&mut self, depth: usize) -> Result<(), Fault>
        ensures { OnOk result (Reads self.old self.new) }
    {
        let depth = self.deeper(depth)?;
        self.advance()?;
        self.form(depth)?;
        self.expect(Token::Close, Wrong::NoClose)
    }
}

fn begins_item(token: Token) -> bool {
    matches!(
        token,
        Token::Copy | Token::Hide | Token::Swap | Token::Each | Token::Text | Token::Open
    )
}

fn begins_atom(token: Token) -> bool {
    matches!(
        token,
        Token::Byte(_) | Token::Text | Token::Any | Token::Not | Token::Open
    )
}
