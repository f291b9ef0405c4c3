// show: the look of a source.
use crate::answering::refusal;
use crate::asking::{Asked, read_arguments};
use crate::inputs::{read_text, read_view};
use crate::refusals::Refusal;

const USAGE: &str = "show VIEW SOURCE";

const HELP: &str = "show VIEW SOURCE   print how the text in SOURCE looks by the view in VIEW

VIEW is a view in notation; `judge VIEW` says whether it is clear. - in place of a file is standard input, at most once.
A refusal goes to standard error, and nothing is printed then. Memory is 16 MiB in all: pirkunna, the host's command, takes longer texts.
";

const VERSION: &str = "show 0.1.0
";

// What show prints for its arguments.
pub fn show(rt: &HostRuntime, args: &[String]) -> Result<Vec<u8>, Refusal> {
    match read_arguments(args)? {
        Asked::Help => Ok(Vec::from_slice(rt.alloc(), HELP.as_bytes())?),
        Asked::Version => Ok(Vec::from_slice(rt.alloc(), VERSION.as_bytes())?),
        Asked::Work(None, [view, source]) => look(rt, view.as_str(), source.as_str()),
        _ => Err(Refusal::Usage(USAGE)),
    }
}

fn look(rt: &HostRuntime, view: &str, source: &str) -> Result<Vec<u8>, Refusal> {
    let view = read_view(rt, view)?;
    let source = read_text(rt, source, view.bytes.len(), 0)?;
    results::shown(rt.alloc(), &view.bytes, &source.bytes).map_err(|unmade| refusal(
        rt.alloc(),
        unmade,
        &view,
        &source,
        &source,
    ))
}
