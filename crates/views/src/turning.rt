// show and make: a text cut where the view says, and what it turns into on the other side. Nothing is written before it is
// known that all of it fits.
ghost use Rattle.std.specs.Prelude.{◌≡◌, ◌≤◌, length};
ghost use Rattle.views.specs.Room.{room_for};
ghost use Rattle.views.specs.Cut.{ClearRow};
ghost use Rattle.views.specs.Made.{ShownPost, MadePost, TurnedPost, ClearedPost, missing};

use crate::admitting::admit;
use crate::cutting::cut_text;
use crate::made::{Made, Refused};
use clear::Side;
use rows::Row;
use walk::{Turned, deliver};

// The look of a source: written first in `out`, whose other bytes stay. What the work words hold afterwards is free.
pub fn show(view: &[u8], source: &[u8], out: &mut [u8], work: &mut [u32]) -> Made
    ensures { ShownPost view.now source.now out.old out.new (length work.old) result }
{
    turned(view, Side::Source, source, out, work)
}

// The source that is made from a look alone.
pub fn make(view: &[u8], look: &[u8], out: &mut [u8], work: &mut [u32]) -> Made
    ensures { MadePost view.now look.now out.old out.new (length work.old) result }
{
    turned(view, Side::Look, look, out, work)
}

// What a text of one side turns into.
fn turned(view: &[u8], side: Side, text: &[u8], out: &mut [u8], work: &mut [u32]) -> Made
    ensures { TurnedPost side view.now text.now out.old out.new (length work.old) result }
{
    let row = admit(view, text.len(), work)?;
    turn_clear(&row, side, text, out, work)
}

// The same of a view that is clear, where there are enough work words.
fn turn_clear(row: &Row, side: Side, text: &[u8], out: &mut [u8], work: &mut [u32]) -> Made
    requires clear { ClearRow row.now.bytes.now }
    requires enough { room_for (length row.now.bytes.now) (length text.now) ≤ length work.old }
    ensures { ClearedPost side row.now.bytes.now text.now out.old out.new result }
{
    let Some(cut) = cut_text(row, side, text, work) else {
        return Err(no_text(side));
    };
    let Some(len) = deliver(&Turned { row: *row, cut }, out) else {
        return Err(Refused::Full);
    };
    Ok(len)
}

// The refusal of a text that isn't of the form of its side.
fn no_text(side: Side) -> Refused
    ensures { result ≡ missing side }
{
    match side {
        Side::Source => Refused::NoSource,
        Side::Look => Refused::NoLook,
    }
}
