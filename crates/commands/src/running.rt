// How each program begins and ends: its arguments without its own name, and its result on standard output, or a refusal on
// standard error, with which it ends in status 1. Each main calls these two: a function that took the program's own function as
// a parameter got no proof, since what that returns may hold a reference.
use crate::refusals::Refusal;
use std::env;
use std::io::Write;

// The arguments behind the program's name.
pub fn arguments(rt: &HostRuntime) -> Result<Vec<String>, Refusal> {
    let mut args = env::args(rt).map_err(Refusal::Arguments)?;
    let _ = args.next();
    Ok(args.collect(rt.alloc())?)
}

// Prints the result, all at once; or says why there is none.
pub fn deliver(rt: &HostRuntime, res: Result<Vec<u8>, Refusal>) -> Result<(), Refusal> {
    let printed = res.and_then(|bytes| rt.stdout().write_all(&bytes).map_err(Refusal::Output));
    if let Err(refusal) = &printed {
        let _ = eprintln!(rt; "{refusal}");
    }
    printed
}
