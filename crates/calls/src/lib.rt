// The calls for C and Rust: each hands on what the call of the same name answers, its answer as a number and what was written
// through `written`. A slice is a pointer and then a length.
#![tactic(auto)]

ghost use Rattle.std.specs.Prelude.{length};
ghost use Rattle.calls.specs.Codes.{JudgeAnswers, ShowAnswers, MakeAnswers, PutAnswers};

mod parsing;
mod telling;

use telling::{judged_code, tell};

// Whether the bytes say a view, and whether it is clear: 0 plain, 1 unclear, 2 no view, 3 few.
#[unsafe(no_mangle)]
pub extern "C" fn views_judge(view: &[u8], work: &mut [u32]) -> u32
    ensures { JudgeAnswers view.now (length work.old) result }
{
    judged_code(views::judge(view, work))
}

// The look of a source: 0 done, 1 muddy, 2 no such, 3 no source, 5 full, 6 small.
#[unsafe(no_mangle)]
pub extern "C" fn views_show(
    view: &[u8],
    source: &[u8],
    out: &mut [u8],
    work: &mut [u32],
    written: &mut usize,
) -> u32
    ensures { ShowAnswers view.now source.now out.old out.new (length work.old) written.old written.new result }
{
    tell(views::show(view, source, out, work), written)
}

// The source that is made from a look alone: 0 done, 1 muddy, 2 no such, 4 no look, 5 full, 6 small.
#[unsafe(no_mangle)]
pub extern "C" fn views_make(
    view: &[u8],
    look: &[u8],
    out: &mut [u8],
    work: &mut [u32],
    written: &mut usize,
) -> u32
    ensures { MakeAnswers view.now look.now out.old out.new (length work.old) written.old written.new result }
{
    tell(views::make(view, look, out, work), written)
}

// The source that a look put back into a source gives: 0 done, 1 muddy, 2 no such, 3 no source, 4 no look, 5 full, 6 small.
#[unsafe(no_mangle)]
pub extern "C" fn views_put(
    view: &[u8],
    source: &[u8],
    look: &[u8],
    out: &mut [u8],
    work: &mut [u32],
    written: &mut usize,
) -> u32
    ensures { PutAnswers view.now source.now look.now out.old out.new (length work.old) written.old written.new result }
{
    tell(views::put(view, source, look, out, work), written)
}
