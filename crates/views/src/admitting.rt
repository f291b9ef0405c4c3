// What the calls on texts ask before they cut any: whether there are enough work words, and whether the view is clear.
ghost use Rattle.std.specs.Prelude.{◌≡◌, length, MatchResult};
ghost use Rattle.views.specs.Admits.{Admitted, Rejected};

use crate::made::Refused;
use crate::room::has_room;
use clear::is_clear;
use rows::Row;

// Admits a call on a view and texts of so many bytes, and gives the view's row; or says why it is refused. What the work
// words hold afterwards is free.
pub(crate) fn admit<'v>(view: &'v [u8], texts: usize, work: &mut [u32]) -> Result<Row<'v>, Refused>
    ensures { MatchResult result (λ row. (row.bytes.now ≡ view.now) × Admitted view.now texts (length work.old)) (λ why. Rejected view.now texts (length work.old) why) }
{
    if !has_room(view.len(), texts, work.len()) {
        return Err(Refused::Small);
    }
    let Some(row) = Row::of_view(view) else {
        return Err(Refused::NoSuch);
    };
    if !is_clear(&row, work).yes {
        return Err(Refused::Muddy);
    }
    Ok(row)
}
