// put VIEW SOURCE LOOK: prints the source that a changed look gives. What it does is in the crate commands.
#![tactic(auto)]

use std::process::ExitCode;

fn main(rt: HostRuntime) -> ExitCode {
    let source = commands::arguments(&rt).and_then(|args| commands::put(&rt, &args));
    match commands::deliver(&rt, source) {
        Ok(()) => ExitCode::SUCCESS,
        Err(_) => ExitCode::FAILURE,
    }
}
