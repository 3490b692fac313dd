// The delivery of one stored value to its handler.
ghost use Rattle.std.specs.Prelude.{◌≡◌, ◌<◌, List, [], length, get_or};
ghost use Rattle.std.specs.Option.{unwrap_or};
ghost use Rattle.setting_name.specs.Match.{matched_rest};
ghost use Rattle.handlers.specs.Registry.{registered, nobody};
ghost use Rattle.settings_core.specs.Deliveries.{DeliverEnds, OfferEnds};

use crate::placed::PlacedHandlers;
use crate::report::Report;
use flash_sim::NoMemory;
use handlers::{Registry, SetRefusal, ValueView};
use setting_name::Name;
use std::alloc::Global;

// What became of a stored value.
#[derive(Clone, Copy)]
pub(crate) enum Offered {
    Taken,
    Rejected,
    // No handler's subtree matches its name.
    Passed,
}

// Gives a stored value to the best handler for its name, and reports it.
pub(crate) fn offer<R: Report>(
    alloc: Global,
    registry: &mut Registry,
    report: &mut R,
    name: &Name,
    value: &[u8],
) -> Result<Offered, NoMemory>
    ensures { OfferEnds (registered state registry.old) (registered state registry.new)
        (R.gives report.old) (R.gives report.new) (name.now, value.now) result }
{
    let Some(place) = registry.best(name) else {
        return Ok(Offered::Passed);
    };
    let subtree = subtree_at(registry, place);
    let rest = rest_of(name, &subtree);
    let taken = deliver_at(alloc, registry, place, rest, value)?;
    match report.given(alloc, &subtree, rest, ValueView::of(value), taken) {
        Ok(()) if taken => Ok(Offered::Taken),
        Ok(()) => Ok(Offered::Rejected),
        Err(lack) => Err(lack),
    }
}

pub(crate) fn subtree_at<H: PlacedHandlers>(registry: &H, place: usize) -> Name
    requires { place < length (H.placed registry.now) }
    ensures { result ≡ (get_or (H.placed registry.now) place nobody).subtree }
{
    match registry.subtree(place) {
        Some(subtree) => subtree.copy(),
        None => unreachable!(),
    }
}

pub(crate) fn rest_of<'a>(name: &'a Name, subtree: &Name) -> &'a [u8]
    ensures { result.now ≡ unwrap_or (matched_rest name.now subtree.now) [] }
{
    Name::matches(name, subtree).unwrap_or(&[])
}

// Gives a value to the handler at a place. The answer is whether it took it.
pub(crate) fn deliver_at<H: PlacedHandlers>(
    alloc: Global,
    registry: &mut H,
    place: usize,
    rest: &[u8],
    value: &[u8],
) -> Result<bool, NoMemory>
    requires { place < length (H.placed registry.old) }
    ensures { DeliverEnds (H.placed registry.old) (H.placed registry.new)
        (record { place = place; rest = rest.now; value = value.now }) result }
{
    match registry.set_at(alloc, place, rest, ValueView::of(value)) {
        Ok(()) => Ok(true),
        Err(SetRefusal::Rejected) => Ok(false),
        Err(SetRefusal::NoMemory) => Err(NoMemory),
    }
}
