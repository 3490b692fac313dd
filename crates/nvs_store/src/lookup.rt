// Entries of the list of an area.
ghost use Rattle.std.specs.Prelude.{◌≡◌, ◌+◌, ◌-◌, ◌^◌, ◌<◌, ◌≤◌, length, None, IfSome};
ghost use Rattle.std.specs.List.{flat_map, range_with_len};
ghost use Rattle.std.specs.Option.{option_and_then};
ghost use Rattle.flash_map.specs.declared.area.Role.TheVariants.{Nvs};
ghost use Rattle.flash_map.specs.Area.{unit_of, sector_size, sectors_of};
ghost use Rattle.flash_map.specs.Lawful.{IsLawfulFor};
ghost use Rattle.item_laws.specs.Items.{last, value_of};
ghost use Rattle.item_laws.specs.RoundParts.{places_before};
ghost use Rattle.nvs_store.specs.Scans.{counted_within, last_wanted, placed_up_to, IsInArea, IsNextOlder};
ghost use Rattle.nvs_store.specs.On.{bytes_on, counted_on, placed_on, last_placed_on, list_on, scan_on};

use crate::scan::{Found, Scan, is_ignored};
use crate::sector::find_in;
use flash_map::{Area, geometry, sector_view};
use flash_sim::{Flash, Steps};
use std::sync::ledger::Ledger;

// More than a sector has.
const ALL_SLOTS: u32 = 32768;

/// The last wanted entry in the first so many slots of a sector, if that counts.
fn find_at<F: Flash, L: Ledger>(
    flash: &F,
    area: &Area,
    scan: &Scan,
    place: u32,
    wanted: Option<u16>,
    slots: u32,
    steps: &mut Steps<L>,
) -> Option<Found>
    requires lawful { IsLawfulFor (F.device flash.now).banks area.now }
    requires role { area.now.role ≡ Nvs }
    requires scan { scan.now ≡ scan_on (F.device flash.now) area.now }
    requires current { scan.now.current < area.now.sectors }
    requires inside { place < area.now.sectors }
    ensures within { let d = F.device flash.now in
        result
        ≡ last_wanted wanted
        (counted_within (unit_of d area.now) (sectors_of d area.now) scan.now.current place slots) }
    ensures whole { let d = F.device flash.now in
        2 ^ 15 ≤ slots
        → result ≡ last_wanted wanted (counted_on d area.now scan.now.current place) }
{
    if is_ignored(area, scan, place) {
        None
    } else {
        let unit = geometry(flash, area).unit;
        let bytes = sector_view(flash, area, place, steps);
        find_in(bytes, unit, place, wanted, slots)
    }
}

/// The last wanted entry in the sectors from `first` to the one before `end`, as far as these
/// count.
fn find_among<F: Flash, L: Ledger>(
    flash: &F,
    area: &Area,
    scan: &Scan,
    first: u32,
    end: u32,
    wanted: Option<u16>,
    steps: &mut Steps<L>,
) -> Option<Found>
    requires lawful { IsLawfulFor (F.device flash.now).banks area.now }
    requires role { area.now.role ≡ Nvs }
    requires scan { scan.now ≡ scan_on (F.device flash.now) area.now }
    requires current { scan.now.current < area.now.sectors }
    requires order { first ≤ end }
    requires inside { end ≤ area.now.sectors }
    ensures { let d = F.device flash.now in
        result
        ≡ last_wanted wanted
        (flat_map (counted_on d area.now scan.now.current) (range_with_len first (end - first))) }
{
    let mut place = end;
    while place > first {
        let placed = find_at(flash, area, scan, place - 1, wanted, ALL_SLOTS, steps);
        if placed.is_some() {
            return placed;
        }
        place -= 1;
    }
    None
}

/// The last entry of the id in the list. It may be a delete.
pub fn find<F: Flash, L: Ledger>(
    flash: &F,
    area: &Area,
    scan: &Scan,
    id: u16,
    steps: &mut Steps<L>,
) -> Option<Found>
    requires lawful { IsLawfulFor (F.device flash.now).banks area.now }
    requires role { area.now.role ≡ Nvs }
    requires scan { scan.now ≡ scan_on (F.device flash.now) area.now }

    ensures placed { result ≡ last_placed_on (F.device flash.now) area.now id }
    // the bytes that it names decide for the id
    ensures value { let d = F.device flash.now in
        last (list_on d area.now) id
        ≡ option_and_then (λ f. value_of (bytes_on d area.now f)) result }
    ensures in_area { IfSome result
        (IsInArea area.now.sectors (sector_size (F.device flash.now) area.now)) }
{
    let current = scan.current;
    let newest = find_among(flash, area, scan, 0, current + 1, Some(id), steps);
    if newest.is_some() {
        return newest;
    }
    find_among(
        flash,
        area,
        scan,
        current + 1,
        area.sectors,
        Some(id),
        steps,
    )
}

/// The newest entry in the sectors before this one, in the round to the open sector.
fn newest_before<F: Flash, L: Ledger>(
    flash: &F,
    area: &Area,
    scan: &Scan,
    place: u32,
    steps: &mut Steps<L>,
) -> Option<Found>
    requires lawful { IsLawfulFor (F.device flash.now).banks area.now }
    requires role { area.now.role ≡ Nvs }
    requires scan { scan.now ≡ scan_on (F.device flash.now) area.now }
    requires current { scan.now.current < area.now.sectors }
    requires inside { place < area.now.sectors }
    ensures { let d = F.device flash.now in
        result
        ≡ last_wanted None
        (flat_map (counted_on d area.now scan.now.current)
        (places_before (length (sectors_of d area.now)) scan.now.current place)) }
{
    let current = scan.current;
    if current < place {
        return find_among(flash, area, scan, current + 1, place, None, steps);
    }
    let newest = find_among(flash, area, scan, 0, place, None, steps);
    if newest.is_some() {
        return newest;
    }
    find_among(flash, area, scan, current + 1, area.sectors, None, steps)
}

/// The newest entry up to so many slots of this sector, in the round to the open sector.
fn newest_up_to<F: Flash, L: Ledger>(
    flash: &F,
    area: &Area,
    scan: &Scan,
    place: u32,
    slots: u32,
    steps: &mut Steps<L>,
) -> Option<Found>
    requires lawful { IsLawfulFor (F.device flash.now).banks area.now }
    requires role { area.now.role ≡ Nvs }
    requires scan { scan.now ≡ scan_on (F.device flash.now) area.now }
    requires current { scan.now.current < area.now.sectors }
    requires inside { place < area.now.sectors }
    ensures { let d = F.device flash.now in
        result
        ≡ last_wanted None
        (placed_up_to (unit_of d area.now) (sectors_of d area.now) scan.now.current place slots) }
{
    let newest = find_at(flash, area, scan, place, None, slots, steps);
    if newest.is_some() {
        return newest;
    }
    newest_before(flash, area, scan, place, steps)
}

/// The next older entry of the list: the one before the entry in this sector and slot, or the
/// newest one if no place is given. `None` exactly if there is no older entry.
pub fn walk<F: Flash, L: Ledger>(
    flash: &F,
    area: &Area,
    scan: &Scan,
    after: Option<(u32, u32)>,
    steps: &mut Steps<L>,
) -> Option<Found>
    requires lawful { IsLawfulFor (F.device flash.now).banks area.now }
    requires role { area.now.role ≡ Nvs }
    requires scan { scan.now ≡ scan_on (F.device flash.now) area.now }
    requires inside { IfSome after (λ place. place.0 < area.now.sectors) }

    ensures older { IsNextOlder (placed_on (F.device flash.now) area.now) after result }
    ensures in_area { IfSome result
        (IsInArea area.now.sectors (sector_size (F.device flash.now) area.now)) }
{
    match after {
        Some((sector, slot)) => {
            newest_up_to(flash, area, scan, sector, slot.saturating_sub(1), steps)
        }
        None => newest_up_to(flash, area, scan, scan.current, ALL_SLOTS, steps),
    }
}
