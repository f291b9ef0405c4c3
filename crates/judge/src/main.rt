// judge VIEW: says whether a view is clear. What it does is in the crate commands.
#![tactic(auto)]

use std::process::ExitCode;

fn main(rt: HostRuntime) -> ExitCode {
    let said = commands::arguments(&rt).and_then(|args| commands::judge(&rt, &args));
    match commands::deliver(&rt, said) {
        Ok(()) => ExitCode::SUCCESS,
        Err(_) => ExitCode::FAILURE,
    }
}
