// show VIEW SOURCE: prints how a source looks. What it does is in the crate commands.
#![tactic(auto)]

use std::process::ExitCode;

fn main(rt: HostRuntime) -> ExitCode {
    let look = commands::arguments(&rt).and_then(|args| commands::show(&rt, &args));
    match commands::deliver(&rt, look) {
        Ok(()) => ExitCode::SUCCESS,
        Err(_) => ExitCode::FAILURE,
    }
}
