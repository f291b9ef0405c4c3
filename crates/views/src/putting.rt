// put: a changed look put back into the source that it came from. Nothing is written before it is known that all of it
// fits.
ghost use Rattle.std.specs.Prelude.{◌+◌, ◌≤◌, length};
ghost use Rattle.views.specs.Room.{room_for};
ghost use Rattle.views.specs.Cut.{ClearRow};
ghost use Rattle.views.specs.Put.{PutPost, PutClearedPost};

use crate::admitting::admit;
use crate::cutting::cut_text;
use crate::made::{Made, Refused};
use crate::room::cut_words;
use clear::Side;
use put_back::PutBack;
use rows::Row;
use walk::deliver;

// The source with the look put back into it: written first in `out`, whose other bytes stay. What the work words hold
// afterwards is free.
pub fn put(view: &[u8], source: &[u8], look: &[u8], out: &mut [u8], work: &mut [u32]) -> Made
    ensures { PutPost view.now source.now look.now out.old out.new (length work.old) result }
{
    // No two texts in memory are together longer than a number can say.
    let texts = source.len() + look.len();
    let row = admit(view, texts, work)?;
    put_clear(&row, source, look, out, work)
}

// The same of a view that is clear, where there are enough work words: the source and the look are cut, each in words of
// its own. What is left over is shared, to remember steps in.
fn put_clear(row: &Row, source: &[u8], look: &[u8], out: &mut [u8], work: &mut [u32]) -> Made
    requires clear { ClearRow row.now.bytes.now }
    requires enough { room_for (length row.now.bytes.now) (length source.now + length look.now) ≤ length work.old }
    ensures { PutClearedPost row.now.bytes.now source.now look.now out.old out.new result }
{
    let ours = cut_words(row.bytes.len(), source.len());
    let theirs = cut_words(row.bytes.len(), look.len());
    let spare = (work.len() - ours - theirs) / 2;
    let (first, second) = work.split_at_mut(ours + spare);
    let Some(old) = cut_text(row, Side::Source, source, first) else {
        return Err(Refused::NoSource);
    };
    let Some(new) = cut_text(row, Side::Look, look, second) else {
        return Err(Refused::NoLook);
    };
    let given = PutBack {
        row: *row,
        source: old,
        look: new,
    };
    let Some(len) = deliver(&given, out) else {
        return Err(Refused::Full);
    };
    Ok(len)
}
