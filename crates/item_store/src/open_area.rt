// An area with its open sector.
ghost use Rattle.std.specs.Prelude.{◌≡◌};
ghost use Rattle.flash_map.specs.declared.area.Geometry.{Geometry as geometry_type};
ghost use Rattle.lookup_cache.specs.Places.{top_of};
ghost use Rattle.item_store.specs.Listed.{known_to};

use crate::sectors::SlotSectors;
use flash_map::Area;

/// An area of a store, its open sector and what is kept of that.
#[derive(Clone, Copy)]
pub struct OpenArea<'a, T> {
    pub(crate) area: &'a Area,
    // the open sector
    pub(crate) current: u32,
    // what is kept of it
    pub(crate) opened: T,
    // for each of the first sectors, a slot of its list, or 0
    pub(crate) tops: &'a [u16],
}

/// How many of the first slots of a sector's list are known to be of it, by the sectors' tops.
pub fn known_slots<T: SlotSectors>(tops: &[u16], place: u32) -> u32
    ensures { (geometry : geometry_type)
        → result ≡ known_to (T.format_of geometry).first (top_of tops.now place) }
{
    let at = place as usize;
    if at >= tops.len() {
        return 0;
    }
    let top = u32::from(tops[at]);
    if top == 0 {
        return 0;
    }
    let first = T::first_slot();
    (top + 1).saturating_sub(first)
}
