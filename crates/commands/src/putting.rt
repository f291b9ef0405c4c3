// put: the source that a changed look gives, with the source that it came from or without one.
use crate::answering::refusal;
use crate::asking::{Asked, read_arguments};
use crate::inputs::{read_text, read_view};
use crate::refusals::Refusal;

const USAGE: &str = "put VIEW SOURCE LOOK | put --new VIEW LOOK";

const HELP: &str =
    "put VIEW SOURCE LOOK   put the text in LOOK back into the text in SOURCE, by the view in VIEW, and print the new source
put --new VIEW LOOK    make a source from the text in LOOK alone, and print it

VIEW is a view in notation; `judge VIEW` says whether it is clear. - in place of a file is standard input, at most once.
A refusal goes to standard error, and nothing is printed then. Memory is 16 MiB in all: pirkunna, the host's command, takes longer texts.
";

const VERSION: &str = "put 0.1.0
";

// What put prints for its arguments.
pub fn put(rt: &HostRuntime, args: &[String]) -> Result<Vec<u8>, Refusal> {
    match read_arguments(args)? {
        Asked::Help => Ok(Vec::from_slice(rt.alloc(), HELP.as_bytes())?),
        Asked::Version => Ok(Vec::from_slice(rt.alloc(), VERSION.as_bytes())?),
        Asked::Work(None, [view, source, look]) => {
            changed_source(rt, view.as_str(), source.as_str(), look.as_str())
        }
        Asked::Work(Some("--new"), [view, look]) => new_source(rt, view.as_str(), look.as_str()),
        _ => Err(Refusal::Usage(USAGE)),
    }
}

fn changed_source(
    rt: &HostRuntime,
    view: &str,
    source: &str,
    look: &str,
) -> Result<Vec<u8>, Refusal> {
    let view = read_view(rt, view)?;
    let source = read_text(rt, source, view.bytes.len(), 0)?;
    let look = read_text(rt, look, view.bytes.len(), source.bytes.len())?;
    results::put_back(rt.alloc(), &view.bytes, &source.bytes, &look.bytes).map_err(|unmade| refusal(
        rt.alloc(),
        unmade,
        &view,
        &source,
        &look,
    ))
}

fn new_source(rt: &HostRuntime, view: &str, look: &str) -> Result<Vec<u8>, Refusal> {
    let view = read_view(rt, view)?;
    let look = read_text(rt, look, view.bytes.len(), 0)?;
    results::made(rt.alloc(), &view.bytes, &look.bytes).map_err(|unmade| refusal(
        rt.alloc(),
        unmade,
        &view,
        &look,
        &look,
    ))
}
