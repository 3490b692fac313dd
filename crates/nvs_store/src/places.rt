// The sectors of an area, one after another and round its end.
ghost use Rattle.std.specs.Prelude.{◌≡◌, ◌==◌, ◌+◌, ◌-◌, ◌<◌, ◌≤◌, IfSome, if◌then◌else◌};
ghost use Rattle.std.specs.List.{find, range_with_len};
ghost use Rattle.flash_map.specs.declared.area.Role.TheVariants.{Nvs};
ghost use Rattle.flash_map.specs.Area.{unit_of, sectors_of, sector_bytes};
ghost use Rattle.flash_map.specs.Lawful.{IsLawfulFor};
ghost use Rattle.nvs_store.specs.Sector.{has_gc_done};
ghost use Rattle.nvs_store.specs.Lookup.{named, is_match};
ghost use Rattle.nvs_store.specs.On.{counts_on, is_blank_on, is_closed_on};

use crate::sector;
use flash_map::{Area, geometry, is_erased, sector_view};
use flash_sim::{Flash, Steps};
use std::sync::ledger::Ledger;

/// What a mount looks for from sector to sector. The number is that of the open sector.
#[derive(Clone, Copy)]
pub enum Lookup {
    /// A sector that is not closed.
    NotClosed,
    /// A sector that is not closed, after a closed one.
    Opening,
    /// A sector that is not blank.
    NotBlank,
    /// A sector that holds bytes, is not closed and is not the open one.
    Dirty(u32),
    /// A sector that counts, is not blank and has no erased slot.
    Unfenced(u32),
    /// A sector that counts, is not blank and holds more than it may.
    Full(u32),
}

/// Whether a sector is closed: its slot 0 is not all FF.
pub fn is_closed<F: Flash, L: Ledger>(
    flash: &F,
    area: &Area,
    place: u32,
    steps: &mut Steps<L>,
) -> bool
    requires lawful { IsLawfulFor (F.device flash.now).banks area.now }
    requires role { area.now.role ≡ Nvs }
    requires inside { place < area.now.sectors }
    ensures value { result ≡ is_closed_on (F.device flash.now) area.now place }
    ensures step { steps.new ≡ steps.old + 1 }
{
    let unit = geometry(flash, area).unit;
    sector::is_closed(sector_view(flash, area, place, steps), unit)
}

/// Whether a sector is blank: all its bytes are FF.
pub fn is_blank<F: Flash, L: Ledger>(
    flash: &F,
    area: &Area,
    place: u32,
    steps: &mut Steps<L>,
) -> bool
    requires lawful { IsLawfulFor (F.device flash.now).banks area.now }
    requires inside { place < area.now.sectors }
    ensures { result ≡ is_blank_on (F.device flash.now) area.now place }
{
    is_erased(sector_view(flash, area, place, steps))
}

/// Whether gc-done stands in a sector.
pub fn has_gc_done<F: Flash, L: Ledger>(
    flash: &F,
    area: &Area,
    place: u32,
    steps: &mut Steps<L>,
) -> bool
    requires lawful { IsLawfulFor (F.device flash.now).banks area.now }
    requires role { area.now.role ≡ Nvs }
    requires inside { place < area.now.sectors }
    ensures { let d = F.device flash.now in
        result ≡ has_gc_done (unit_of d area.now) (sector_bytes d area.now place) }
{
    let unit = geometry(flash, area).unit;
    sector::scan_sector(sector_view(flash, area, place, steps), unit, place).gc_done
}

/// Whether a sector counts, with this one open.
pub fn counts<F: Flash, L: Ledger>(
    flash: &F,
    area: &Area,
    current: u32,
    place: u32,
    steps: &mut Steps<L>,
) -> bool
    requires lawful { IsLawfulFor (F.device flash.now).banks area.now }
    requires role { area.now.role ≡ Nvs }
    requires current { current < area.now.sectors }
    ensures { result ≡ counts_on (F.device flash.now) area.now current place }
{
    let after = area.next(current);
    if is_closed(flash, area, after, steps) {
        let ignored = if has_gc_done(flash, area, current, steps) {
            after
        } else {
            current
        };
        place != ignored
    } else {
        true
    }
}

/// Whether a sector matches.
fn is_match<F: Flash, L: Ledger>(
    flash: &F,
    area: &Area,
    lookup: Lookup,
    place: u32,
    steps: &mut Steps<L>,
) -> bool
    requires lawful { IsLawfulFor (F.device flash.now).banks area.now }
    requires role { area.now.role ≡ Nvs }
    requires named { IfSome (named lookup) (λ current. current < area.now.sectors) }
    requires inside { place < area.now.sectors }
    ensures { let d = F.device flash.now in
        result ≡ is_match lookup (unit_of d area.now) (sectors_of d area.now) place }
{
    let unit = geometry(flash, area).unit;
    let bytes = sector_view(flash, area, place, steps);
    match lookup {
        Lookup::NotClosed => !sector::is_closed(bytes, unit),
        Lookup::Opening => {
            !sector::is_closed(bytes, unit) && is_closed(flash, area, area.previous(place), steps)
        }
        Lookup::NotBlank => !is_erased(bytes),
        Lookup::Dirty(current) => {
            !sector::is_closed(bytes, unit) && place != current && !is_erased(bytes)
        }
        Lookup::Unfenced(current) => {
            counts(flash, area, current, place, steps)
                && !is_erased(bytes)
                && !sector::has_fence(bytes, unit)
        }
        Lookup::Full(current) => {
            counts(flash, area, current, place, steps)
                && !is_erased(bytes)
                && sector::is_overfull(bytes, unit)
        }
    }
}

/// The first sector from this one on that matches.
pub fn first<F: Flash, L: Ledger>(
    flash: &F,
    area: &Area,
    lookup: Lookup,
    from: u32,
    steps: &mut Steps<L>,
) -> Option<u32>
    requires lawful { IsLawfulFor (F.device flash.now).banks area.now }
    requires role { area.now.role ≡ Nvs }
    requires named { IfSome (named lookup) (λ current. current < area.now.sectors) }
    ensures value { let d = F.device flash.now in
        result
        ≡ find (is_match lookup (unit_of d area.now) (sectors_of d area.now))
        (range_with_len from (area.now.sectors - from)) }
    ensures within { IfSome result (λ place. place < area.now.sectors) }
{
    for place in from..area.sectors {
        if is_match(flash, area, lookup, place, steps) {
            return Some(place);
        }
    }
    None
}
