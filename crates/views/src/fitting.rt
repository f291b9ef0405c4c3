// viable_prefix: whether a text is of the form of a side, and if not, where it breaks and what could stand there.
ghost use Rattle.std.specs.Prelude.{◌≡◌, length};
ghost use Rattle.views.specs.declared.fitting.Unfit.TheVariants.{Breaks};
ghost use Rattle.views.specs.Fits.{FitPost};

use crate::room::has_room;
use clear::{Side, lay};
use rows::Row;
use viable::{Break, read};

// Why a text isn't said to be of a form: its longest front that some text of the form begins with ends here; the bytes say
// no view; or there are too few work words.
#[derive(Clone, Copy, Debug)]
pub enum Unfit {
    Breaks(Break),
    NoSuch,
    Small,
}

impl From<Break> for Unfit {
    ghost from_gives = { λ place r. r ≡ Breaks place };

    fn from(place: Break) -> Unfit {
        Unfit::Breaks(place)
    }
}

// Reads a text by the form of one side. The view need not be clear. What the work words hold afterwards is free.
pub fn viable_prefix(view: &[u8], side: Side, text: &[u8], work: &mut [u32]) -> Result<(), Unfit>
    ensures { FitPost side view.now text.now (length work.old) result }
{
    if !has_room(view.len(), text.len(), work.len()) {
        return Err(Unfit::Small);
    }
    let Some(row) = Row::of_view(view) else {
        return Err(Unfit::NoSuch);
    };
    let (table, room) = work.split_at_mut(4 * view.len());
    lay(&row, side, table, room);
    read(table, view.len(), text, room)?;
    Ok(())
}
