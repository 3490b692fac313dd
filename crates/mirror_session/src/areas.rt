// The areas of a map, by their places.
ghost use Rattle.std.specs.Prelude.{◌≡◌};
ghost use Rattle.flash_map.specs.Map.{has_label};
ghost use Rattle.mirror_session.specs.Bench.{is_labelled, labelled};

use flash_map::{Area, FlashMap};
use migrator::is_store_at;

fn has_label(area: &Area, label: &[u8]) -> bool
    ensures { result ≡ has_label label.now area.now }
{
    label == area.label.as_str().as_bytes()
}

// Whether the area at this place stores settings, and has the label.
fn is_labelled(map: &FlashMap, label: &[u8], place: usize) -> bool
    ensures { result ≡ is_labelled map.now label.now place }
{
    is_store_at(map, place) && map.at(place).is_some_and(|area| has_label(area, label))
}

// The place of the store area with this label, if there is one.
pub(crate) fn labelled(map: &FlashMap, label: &[u8]) -> Option<usize>
    ensures { result ≡ labelled map.now label.now }
{
    (0..map.len()).find(|place| is_labelled(map, label, *place))
}
