// What a program says where nothing came of a call: which of its inputs is at fault, and where.
use crate::inputs::Input;
use crate::misfits::Misfit;
use crate::places::place_of;
use crate::refusals::{Refusal, Spot, Why, called};
use results::Unmade;
use std::alloc::{AllocError, Global};
use views::Side;

// The refusal of a call on these inputs. Where there is one text, it is the source and the look.
pub fn refusal(
    heap: Global,
    unmade: Unmade,
    view: &Input,
    source: &Input,
    look: &Input,
) -> Refusal {
    let refused = match unmade {
        Unmade::NoRow => refuse_whole(heap, view, Why::NoRow),
        Unmade::Unclear => refuse_whole(heap, view, Why::Unclear),
        Unmade::NoSource => refuse_misfit(heap, view, Side::Source, source),
        Unmade::NoLook => refuse_misfit(heap, view, Side::Look, look),
        Unmade::Large(need) => refuse_whole(heap, look, Why::Large(need)),
        Unmade::Long(left) => refuse_whole(heap, look, Why::Long(left)),
        Unmade::Memory => Err(AllocError),
    };
    refused.unwrap_or_else(Refusal::from)
}

fn refuse_whole(heap: Global, input: &Input, why: Why) -> Result<Refusal, AllocError> {
    Ok(Refusal::Input(Spot::whole(heap, input.name.as_str())?, why))
}

// A text that isn't of the form of this side, at the place where it leaves the form.
fn refuse_misfit(
    heap: Global,
    view: &Input,
    side: Side,
    text: &Input,
) -> Result<Refusal, AllocError> {
    let name = text.name.as_str();
    let misfit = Misfit::find(
        heap,
        called(view.name.as_str()),
        &view.bytes,
        side,
        &text.bytes,
    )?;
    let spot = match misfit.at() {
        Some(at) => Spot::at(heap, name, place_of(&text.bytes, at))?,
        None => Spot::whole(heap, name)?,
    };
    Ok(Refusal::Input(spot, Why::Misfit(misfit)))
}
