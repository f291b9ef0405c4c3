// What comes of a call in the memory of a program: the text that is wanted, or why there is none. Not here: files (inputs)
// and messages (refusals).
ghost use Rattle.std.specs.Prelude.{◌≡◌, ◌+◌, Err, length, vec_len, MatchResult};
ghost use Rattle.lens.specs.Forms.{Matches};
ghost use Rattle.lens.specs.Views.{sources, looks, Shows, Makes, Puts};
ghost use Rattle.results.specs.declared.calling.Unmade.TheVariants.{Memory};
ghost use Rattle.results.specs.Room.{Lends};
ghost use Rattle.results.specs.Results.{Wanted, Unwanted, Unlent, Leaves, LeavesNone};

use crate::room;
use std::alloc::{AllocError, Global};
use views::{Made, Refused};

// Why nothing came of a call.
#[derive(Clone, Copy, Debug, PartialEq, Eq)]
pub enum Unmade {
    // The row says no view.
    NoRow,
    // The view isn't clear.
    Unclear,
    // The source isn't of the form of the view's sources.
    NoSource,
    // The look isn't of the form of the view's looks.
    NoLook,
    // So many bytes would be needed, which are more than a program has.
    Large(u128),
    // The result is longer than so many bytes, which are all that is left.
    Long(usize),
    // The system has no memory left.
    Memory,
}

impl From<AllocError> for Unmade {
    ghost from_gives = { λ _ r. r ≡ Memory };

    fn from(_e: AllocError) -> Unmade {
        Unmade::Memory
    }
}

// The bytes and words that are lent to a call.
#[derive(Drop)]
struct Buffers {
    out: Vec<u8>,
    work: Vec<u32>,
}

// Makes them for a row and texts of so many bytes.
fn make_buffers(heap: Global, row: usize, texts: usize) -> Result<Buffers, Unmade>
    ensures { MatchResult result (λ lent. Lends row texts (vec_len lent.work) (vec_len lent.out)) (λ why. Unlent row texts why) }
{
    let lent = room::lend(row, texts).ok_or_else(|| Unmade::Large(room::need(row, texts)))?;
    let work = vec![in heap; 0u32; lent.words]?;
    let out = vec![in heap; 0u8; lent.out]?;
    Ok(Buffers { out, work })
}

// What an answer says of the bytes that were lent.
fn finish(made: Made, mut out: Vec<u8>) -> Result<Vec<u8>, Unmade>
    ensures { MatchResult result (λ text. Leaves made out.items text.items) (λ why. LeavesNone made (vec_len out) why) }
{
    let len = made.map_err(|why| reason(why, out.len()))?;
    out.truncate(len);
    Ok(out)
}

// Why nothing came of a call that was refused, where so many bytes were lent for its result.
fn reason(why: Refused, lent: usize) -> Unmade
    ensures { LeavesNone (Err why) lent result }
{
    match why {
        Refused::Muddy => Unmade::Unclear,
        Refused::NoSuch => Unmade::NoRow,
        Refused::NoSource => Unmade::NoSource,
        Refused::NoLook => Unmade::NoLook,
        Refused::Full => Unmade::Long(lent),
        Refused::Small => Unmade::Memory,
    }
}

// The three calls that follow are three lines each; a closure's contract over what is lent to it would be longer.

// The look of a source.
pub fn shown(heap: Global, row: &[u8], source: &[u8]) -> Result<Vec<u8>, Unmade>
    ensures { MatchResult result (λ look. Wanted row.now (λ v x. Shows v source.now x) look.items) (λ why. Unwanted row.now (length source.now) (λ v x. Shows v source.now x) (λ v. Matches (sources v) source.now) (λ v. Unit {0}) why) }
{
    let mut lent = make_buffers(heap, row.len(), source.len())?;
    let made = views::show(row, source, &mut lent.out, &mut lent.work);
    finish(made, lent.out)
}

// The source that is made from a look.
pub fn made(heap: Global, row: &[u8], look: &[u8]) -> Result<Vec<u8>, Unmade>
    ensures { MatchResult result (λ source. Wanted row.now (λ v x. Makes v look.now x) source.items) (λ why. Unwanted row.now (length look.now) (λ v x. Makes v look.now x) (λ v. Unit {0}) (λ v. Matches (looks v) look.now) why) }
{
    let mut lent = make_buffers(heap, row.len(), look.len())?;
    let made = views::make(row, look, &mut lent.out, &mut lent.work);
    finish(made, lent.out)
}

// The source that a look gives which is put back into another.
pub fn put_back(heap: Global, row: &[u8], source: &[u8], look: &[u8]) -> Result<Vec<u8>, Unmade>
    ensures { MatchResult result (λ changed. Wanted row.now (λ v x. Puts v look.now source.now x) changed.items) (λ why. Unwanted row.now (length source.now + length look.now) (λ v x. Puts v look.now source.now x) (λ v. Matches (sources v) source.now) (λ v. Matches (looks v) look.now) why) }
{
    let mut lent = make_buffers(heap, row.len(), source.len() + look.len())?;
    let made = views::put(row, source, look, &mut lent.out, &mut lent.work);
    finish(made, lent.out)
}
