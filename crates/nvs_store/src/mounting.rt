// Which sector is open, and how an area is damaged.
ghost use Rattle.std.specs.Prelude.{◌≡◌, ◌<◌, false, IfOk, IfErr, OnOk};
ghost use Rattle.flash_map.specs.declared.area.Role.TheVariants.{Nvs};
ghost use Rattle.flash_map.specs.Area.{unit_of, sectors_of};
ghost use Rattle.flash_map.specs.Lawful.{IsLawfulFor};
ghost use Rattle.item_laws.specs.Area.{openings};
ghost use Rattle.std.specs.List.{slice_get};
ghost use Rattle.nvs_store.specs.Scans.{reading};
ghost use Rattle.nvs_store.specs.On.{IsUndamaged, damage_on, is_closed_on, open_on, redo_on, scan_on};

use crate::places::{Lookup, first, has_gc_done, is_closed};
use crate::scan::{Redo, Scan};
use crate::sector::scan_sector;
use flash_map::{Area, Damaged, Why, geometry, sector_view};
use flash_sim::{Flash, Steps};
use std::sync::ledger::Ledger;

/// The open sector: the first that is not closed after a closed one; if there is none, the first
/// that is not blank, or sector 0.
fn open_sector<F: Flash, L: Ledger>(flash: &F, area: &Area, steps: &mut Steps<L>) -> u32
    requires lawful { IsLawfulFor (F.device flash.now).banks area.now }
    requires role { area.now.role ≡ Nvs }
    ensures value { result ≡ open_on (F.device flash.now) area.now }
    ensures within { result < area.now.sectors }
{
    if let Some(place) = first(flash, area, Lookup::Opening, 0, steps) {
        return place;
    }
    first(flash, area, Lookup::NotBlank, 0, steps).unwrap_or(0)
}

/// The second sector that is not closed after a closed one.
fn second_opening<F: Flash, L: Ledger>(flash: &F, area: &Area, steps: &mut Steps<L>) -> Option<u32>
    requires lawful { IsLawfulFor (F.device flash.now).banks area.now }
    requires role { area.now.role ≡ Nvs }
    ensures { let d = F.device flash.now in
        result ≡ slice_get (openings (reading (unit_of d area.now)) (sectors_of d area.now)) 1 }
{
    let opening = first(flash, area, Lookup::Opening, 0, steps)?;
    first(flash, area, Lookup::Opening, opening + 1, steps)
}

/// The first kind of damage, at the first sector that shows it, with this sector open.
fn damage<F: Flash, L: Ledger>(
    flash: &F,
    area: &Area,
    current: u32,
    steps: &mut Steps<L>,
) -> Option<Damaged>
    requires lawful { IsLawfulFor (F.device flash.now).banks area.now }
    requires role { area.now.role ≡ Nvs }
    requires current { current ≡ open_on (F.device flash.now) area.now }
    requires within { current < area.now.sectors }
    ensures { result ≡ damage_on (F.device flash.now) area.now }
{
    let Some(_) = first(flash, area, Lookup::NotClosed, 0, steps) else {
        return Some(Damaged {
            sector: 0,
            why: Why::AllClosed,
        });
    };
    if let Some(sector) = second_opening(flash, area, steps) {
        return Some(Damaged {
            sector,
            why: Why::TwoOpen,
        });
    }
    if let Some(sector) = first(flash, area, Lookup::Dirty(current), 0, steps) {
        return Some(Damaged {
            sector,
            why: Why::Dirty,
        });
    }
    if let Some(sector) = first(flash, area, Lookup::Unfenced(current), 0, steps) {
        return Some(Damaged {
            sector,
            why: Why::NoFence,
        });
    }
    let sector = first(flash, area, Lookup::Full(current), 0, steps)?;
    Some(Damaged {
        sector,
        why: Why::Overfull,
    })
}

/// What a mount has to do with this sector open.
fn redo<F: Flash, L: Ledger>(flash: &F, area: &Area, current: u32, steps: &mut Steps<L>) -> Redo
    requires lawful { IsLawfulFor (F.device flash.now).banks area.now }
    requires role { area.now.role ≡ Nvs }
    requires within { current < area.now.sectors }
    ensures { result ≡ redo_on (F.device flash.now) area.now current }
{
    if is_closed(flash, area, area.next(current), steps) {
        if has_gc_done(flash, area, current, steps) {
            Redo::EraseNext
        } else {
            Redo::CollectAgain
        }
    } else {
        Redo::Nothing
    }
}

/// Scans the area, or says how it is damaged. It programs nothing. The open sector is not closed.
///
/// # Errors
/// `Damaged` exactly if the area is damaged: the first kind of damage, at the first sector that
/// shows it.
pub fn mount_scan<F: Flash, L: Ledger>(
    flash: &F,
    area: &Area,
    steps: &mut Steps<L>,
) -> Result<Scan, Damaged>
    requires lawful { IsLawfulFor (F.device flash.now).banks area.now }
    requires role { area.now.role ≡ Nvs }

    ensures scan { IfOk result (λ scan. scan ≡ scan_on (F.device flash.now) area.now) }
    ensures undamaged { OnOk result (IsUndamaged (F.device flash.now) area.now) }
    ensures not_closed { let d = F.device flash.now in
        IfOk result (λ scan. is_closed_on d area.now scan.current ≡ false) }
    ensures damaged { IfErr result (λ e. damage_on (F.device flash.now) area.now ≡ Some e) }
{
    let unit = geometry(flash, area).unit;
    let current = open_sector(flash, area, steps);
    if let Some(damaged) = damage(flash, area, current, steps) {
        return Err(damaged);
    }
    let mut scan = scan_sector(sector_view(flash, area, current, steps), unit, current);
    scan.redo = redo(flash, area, current, steps);
    Ok(scan)
}
