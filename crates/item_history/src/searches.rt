// Entries of one id, from the newest back.
ghost use Rattle.std.specs.Prelude.{◌≡◌, ◌∷◌, [], ◌<◌, map, IfSome, slice_get};
ghost use Rattle.std.specs.List.{filter_map};
ghost use Rattle.flash_map.specs.Area.{sectors_of, sector_at};
ghost use Rattle.item_history.specs.Searches.{of_id, EndsIn, IfFound};
ghost use Rattle.item_laws.specs.Area.{open_sector};
ghost use Rattle.item_laws.specs.Forms.{AtRest};
ghost use Rattle.item_store.specs.SectorFormat.{entries, placed_at};
ghost use Rattle.item_store.specs.Listed.{format_on, entries_on, HasSlotOn, IsListedOn};
ghost use Rattle.item_store.specs.Standing.{IsStoreArea};

use flash_map::Area;
use flash_sim::{Flash, Steps};
use item_store::{Placed, SlotSectors};
use std::sync::ledger::Ledger;

// How a search in some entries ends.
enum Search {
    Found(Placed),
    // so many of the id are still to be passed
    Left(u32),
}

// Looks at an entry.
fn pass(placed: Placed, id: u32, left: u32) -> Search
    ensures entry { EndsIn (of_id id (placed ∷ [])) left result }
    ensures same { IfFound result (λ p. p ≡ placed) }
{
    if placed.id != id {
        return Search::Left(left);
    }
    if left == 0 {
        return Search::Found(placed);
    }
    Search::Left(left - 1)
}

// Looks at the entry in a slot, if there is one.
fn pass_slot<T: SlotSectors, F: Flash, L: Ledger>(
    flash: &F,
    area: &Area,
    place: u32,
    slot: u32,
    id: u32,
    left: u32,
    steps: &mut Steps<L>,
) -> Search
    requires area { IsStoreArea T.role (F.device flash.now).banks area.now }
    requires inside { place < area.now.sectors }
    requires slot { HasSlotOn T.format_of (F.device flash.now) area.now place slot }
    ensures entry { let d = F.device flash.now in
        let read = (format_on T.format_of d area.now).in_slot
        (sector_at (sectors_of d area.now) place) in
        EndsIn (of_id id (map (placed_at place) (filter_map read (slot ∷ [])))) left result }
    ensures listed { IfFound result (IsListedOn T.format_of (F.device flash.now) area.now) }
{
    match T::entry_in(flash, area, place, slot, steps) {
        Some(placed) => pass(placed, id, left),
        None => Search::Left(left),
    }
}

// Looks at the entries of a sector, from the newest back.
fn pass_sector<T: SlotSectors, F: Flash, L: Ledger>(
    flash: &F,
    area: &Area,
    place: u32,
    id: u32,
    n: u32,
    steps: &mut Steps<L>,
) -> Search
    requires area { IsStoreArea T.role (F.device flash.now).banks area.now }
    requires inside { place < area.now.sectors }
    ensures entry { let d = F.device flash.now in let b = sector_at (sectors_of d area.now) place in
        EndsIn (of_id id (map (placed_at place) (entries (format_on T.format_of d area.now) b))) n
        result }
    ensures listed { IfFound result (IsListedOn T.format_of (F.device flash.now) area.now) }
{
    let mut count = T::slots(flash, area, place, steps);
    let first = T::first_slot();
    let mut left = n;
    while count > 0 {
        let slot = first + (count - 1);
        match pass_slot::<T, F, L>(flash, area, place, slot, id, left, steps) {
            Search::Found(placed) => return Search::Found(placed),
            Search::Left(more) => left = more,
        }
        count -= 1;
    }
    Search::Left(left)
}

/// The entry of an id with exactly `n` newer ones of it, in an area at rest.
pub fn nth_entry<T: SlotSectors, F: Flash, L: Ledger>(
    flash: &F,
    area: &Area,
    current: u32,
    id: u32,
    n: u32,
    steps: &mut Steps<L>,
) -> Option<Placed>
    requires area { IsStoreArea T.role (F.device flash.now).banks area.now }
    requires current { let d = F.device flash.now in
        current ≡ open_sector (format_on T.format_of d area.now).reading (sectors_of d area.now) }
    requires rested { let d = F.device flash.now in
        AtRest (format_on T.format_of d area.now).reading (sectors_of d area.now) current }
    ensures entry { let d = F.device flash.now in
        result ≡ slice_get (of_id id (entries_on T.format_of d area.now)) n }
    ensures listed { IfSome result (IsListedOn T.format_of (F.device flash.now) area.now) }
{
    let oldest = area.next(current);
    let mut place = current;
    let mut left = n;
    while place != oldest {
        match pass_sector::<T, F, L>(flash, area, place, id, left, steps) {
            Search::Found(placed) => return Some(placed),
            Search::Left(more) => left = more,
        }
        place = area.previous(place);
    }
    match pass_sector::<T, F, L>(flash, area, oldest, id, left, steps) {
        Search::Found(placed) => Some(placed),
        Search::Left(_) => None,
    }
}
