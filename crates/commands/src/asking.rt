// What a program is asked for by its arguments: help, its version, or work on the inputs that they name.
use crate::refusals::Refusal;

#[derive(Clone, Copy)]
pub enum Asked<'a> {
    Help,
    Version,
    // An option, if there is one, and the names of inputs.
    Work(Option<&'a str>, &'a [String]),
    // Something else than any program here does.
    Unknown,
}

// An option begins with -- and stands first. A name that begins so is no input's, and - is one at most once.
pub fn read_arguments(args: &[String]) -> Result<Asked<'_>, Refusal> {
    let Some((first, rest)) = args.split_first() else {
        return Ok(Asked::Unknown);
    };
    let option = first.as_str();
    if !option.starts_with("--") {
        return work(None, args);
    }
    match option {
        "--help" if rest.is_empty() => Ok(Asked::Help),
        "--version" if rest.is_empty() => Ok(Asked::Version),
        _ => work(Some(option), rest),
    }
}

fn work<'a>(option: Option<&'a str>, names: &'a [String]) -> Result<Asked<'a>, Refusal> {
    let mut standard = false;
    for name in names {
        if name.as_str().starts_with("--") {
            return Ok(Asked::Unknown);
        }
        if name.as_str() == "-" {
            if standard {
                return Err(Refusal::Twice);
            }
            standard = true;
        }
    }
    Ok(Asked::Work(option, names))
}
