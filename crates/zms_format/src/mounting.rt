// Which sector is open, and how an area is damaged.
ghost use Rattle.std.specs.Prelude.{◌≡◌, ◌<◌, Some, None, IfOk, IfErr, OnOk};
ghost use Rattle.flash_map.specs.declared.area.Role.TheVariants.{Zms};
ghost use Rattle.flash_map.specs.Area.{sectors_of};
ghost use Rattle.flash_map.specs.Lawful.{IsLawfulFor};
ghost use Rattle.item_laws.specs.Area.{open_sector};
ghost use Rattle.zms_cycle.specs.Areas.{kind_on};
ghost use Rattle.zms_format.specs.Area.{reading, open_place, damage_of};

use crate::places::{Lookup, first};
use flash_map::{Area, Damaged, Why};
use flash_sim::{Flash, Steps};
use std::sync::ledger::Ledger;

/// The open sector: the first that is not closed after a closed one; if there is none, the first in
/// use, or sector 0.
fn open_place<F: Flash, L: Ledger>(flash: &F, area: &Area, steps: &mut Steps<L>) -> u32
    requires lawful { IsLawfulFor (F.device flash.now).banks area.now }
    requires role { area.now.role ≡ Zms }
    ensures value { let d = F.device flash.now in result ≡ open_place (sectors_of d area.now) }
    ensures within { result < area.now.sectors }
{
    if let Some(place) = first(flash, area, Lookup::Opening, 0, steps) {
        return place;
    }
    first(flash, area, Lookup::InUse, 0, steps).unwrap_or(0)
}

/// The first kind of damage, at the first sector that shows it, with this sector open.
fn damage<F: Flash, L: Ledger>(
    flash: &F,
    area: &Area,
    current: u32,
    steps: &mut Steps<L>,
) -> Option<Damaged>
    requires lawful { IsLawfulFor (F.device flash.now).banks area.now }
    requires role { area.now.role ≡ Zms }
    requires current { let d = F.device flash.now in current ≡ open_place (sectors_of d area.now) }
    requires within { current < area.now.sectors }
    ensures { let d = F.device flash.now in
        result ≡ damage_of (kind_on d area.now) (sectors_of d area.now) }
{
    let Some(_) = first(flash, area, Lookup::NotClosed, 0, steps) else {
        return Some(Damaged {
            sector: 0,
            why: Why::AllClosed,
        });
    };
    if let Some(sector) = first(flash, area, Lookup::SecondOpen(current), 0, steps) {
        return Some(Damaged {
            sector,
            why: Why::TwoOpen,
        });
    }
    if let Some(sector) = first(flash, area, Lookup::NotClosable(current), 0, steps) {
        return Some(Damaged {
            sector,
            why: Why::Dirty,
        });
    }
    let sector = first(flash, area, Lookup::Full(current), 0, steps)?;
    Some(Damaged {
        sector,
        why: Why::Overfull,
    })
}

/// The open sector of the area. It programs nothing.
///
/// # Errors
/// `Damaged` exactly if the area is damaged: the first kind of damage, at the first sector that
/// shows it.
pub fn scan<F: Flash, L: Ledger>(
    flash: &F,
    area: &Area,
    steps: &mut Steps<L>,
) -> Result<u32, Damaged>
    requires lawful { IsLawfulFor (F.device flash.now).banks area.now }
    requires role { area.now.role ≡ Zms }

    ensures current { let d = F.device flash.now in
        IfOk result
        (λ current. current ≡ open_sector (reading (kind_on d area.now)) (sectors_of d area.now)) }
    ensures within { IfOk result (λ current. current < area.now.sectors) }
    ensures undamaged { let d = F.device flash.now in
        OnOk result (damage_of (kind_on d area.now) (sectors_of d area.now) ≡ None) }
    ensures damaged { let d = F.device flash.now in
        IfErr result (λ e. damage_of (kind_on d area.now) (sectors_of d area.now) ≡ Some e) }
{
    let current = open_place(flash, area, steps);
    if let Some(damaged) = damage(flash, area, current, steps) {
        return Err(damaged);
    }
    Ok(current)
}
