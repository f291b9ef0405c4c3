// Answers as the numbers that cross to C and Rust: C has no enums with data.
ghost use Rattle.std.specs.Prelude.{◌≡◌};
ghost use Rattle.calls.specs.Codes.{judged_number, made_number, written_after};

use views::{Judged, Made, Refused};

pub fn judged_code(answer: Judged) -> u32
    ensures { result ≡ judged_number answer }
{
    match answer {
        Judged::Plain => 0,
        Judged::Unclear => 1,
        Judged::NoView => 2,
        Judged::Few => 3,
    }
}

// The number of the answer; how many bytes were written goes into `written`, which is left as it was where none were.
pub fn tell(answer: Made, written: &mut usize) -> u32
    ensures number { result ≡ made_number answer }
    ensures written { written.new ≡ written_after answer written.old }
{
    match answer {
        Ok(count) => {
            *written = count;
            0
        }
        Err(Refused::Muddy) => 1,
        Err(Refused::NoSuch) => 2,
        Err(Refused::NoSource) => 3,
        Err(Refused::NoLook) => 4,
        Err(Refused::Full) => 5,
        Err(Refused::Small) => 6,
    }
}
