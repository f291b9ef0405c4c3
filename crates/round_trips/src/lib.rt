// Two calls in a row, and what comes of them: what is shown and put back changes nothing, and what is put back is what one
// then sees. The laws of a clear view, said of the calls' own answers.
#![tactic(auto)]

ghost use Rattle.std.specs.Prelude.{length};
ghost use Rattle.round_trips.specs.Trips.{Unchanged, Seen};

use views::{Made, put, show};

// Shows the source, and puts the look back as it is. `page` is lent for the look.
pub fn show_then_put(
    view: &[u8],
    source: &[u8],
    page: &mut [u8],
    out: &mut [u8],
    work: &mut [u32],
) -> Made
    ensures { Unchanged view.now source.now (length page.old) out.old out.new (length work.old) result }
{
    let len = show(view, source, page, work)?;
    put(view, source, &page[..len], out, work)
}

// Puts the look back into the source, and shows what comes of it. `fresh` is lent for the new source.
pub fn put_then_show(
    view: &[u8],
    source: &[u8],
    look: &[u8],
    fresh: &mut [u8],
    out: &mut [u8],
    work: &mut [u32],
) -> Made
    ensures { Seen view.now source.now look.now (length fresh.old) out.old out.new (length work.old) result }
{
    let len = put(view, source, look, fresh, work)?;
    show(view, &fresh[..len], out, work)
}
