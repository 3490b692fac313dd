// Single units of a sector: the guard, and an entry above its guard.
ghost use Rattle.std.specs.Prelude.{◌≡◌, ◌⊎◌, ◌+◌, ◌-◌, ◌*◌, ◌<◌, ◌∷◌, [], false, length, is_err, Some, OnOk, OnErr};
ghost use Rattle.flash_map.specs.Area.{IsLawfulArea, sector_size, sector_bytes, OthersStay};
ghost use Rattle.flash_map.specs.Pieces.{LosesWithin};
ghost use Rattle.flash_map.specs.Spending.{SpendsBetween};
ghost use Rattle.flash_map.specs.Touches.{Touches};
ghost use Rattle.flash_sim.specs.declared.flash.Kind.TheVariants.{Erasing, Rewritable};
ghost use Rattle.zms_cycle.specs.Areas.{IsZmsSector, HasSlot, CanPut, kind_on};
ghost use Rattle.zms_cycle.specs.Changes.{with_slot, guarded, guard_units};
ghost use Rattle.zms_cycle.specs.Entries.{encoded};
ghost use Rattle.zms_cycle.specs.OnArea.{UnitEnds, ReadsGuard};
ghost use Rattle.zms_cycle.specs.Sector.{slot_of, is_valid_under};
ghost use Rattle.zms_cycle.specs.declared.reading.TheConstants.{SLOT};

use crate::reading::{SLOT, is_of_cycle};
use crate::{ZEntry, decode_zentry, encode_zentry, fill_unit};
use flash_map::{Area, area_program, area_view, geometry};
use flash_sim::{Flash, Kind, PowerLost, Steps};
use std::sync::ledger::Ledger;

// Where a slot starts in a sector, in bytes.
pub fn slot_start<F: Flash>(flash: &F, area: &Area, slot: u32) -> u32
    requires lawful { IsLawfulArea (F.device flash.now).banks area.now }
    requires slot { HasSlot (F.device flash.now) area.now slot }
    ensures { result ≡ sector_size (F.device flash.now) area.now - (slot + 1) * 16 }
{
    geometry(flash, area).sector - (slot + 1) * SLOT
}

// Programs one slot. A power loss changes no byte.
pub fn put_unit<F: Flash>(
    flash: &mut F,
    area: &Area,
    sector: u32,
    slot: u32,
    bytes: &[u8],
) -> Result<(), PowerLost>
    requires zms { IsZmsSector (F.device flash.old) area.now sector }
    requires slot { HasSlot (F.device flash.old) area.now slot }
    requires unit { length bytes.now ≡ 16 }
    requires erased { CanPut (F.device flash.old) area.now sector slot }

    ensures touches { Touches (area.now ∷ []) (F.device flash.old) (F.device flash.new)
        (is_err result) }
    ensures others { OthersStay (F.device flash.old) (F.device flash.new) area.now sector }
    ensures ok { OnOk result
        (sector_bytes (F.device flash.new) area.now sector
        ≡ with_slot (sector_bytes (F.device flash.old) area.now sector) slot bytes.now) }
    ensures ends { UnitEnds 1 (F.device flash.old) (F.device flash.new) area.now result }
{
    let start = slot_start(flash, area, slot);
    area_program(flash, area, sector, start, bytes)
}

/// Guards a slot: on a rewritable bank, programs the fill unit there if the slot is valid under the
/// cycle. On an erasing bank it does nothing.
///
/// # Errors
/// `PowerLost`, only on a rewritable bank: no byte changed.
pub fn guard<F: Flash, L: Ledger>(
    flash: &mut F,
    area: &Area,
    sector: u32,
    slot: u32,
    cycle: u8,
    steps: &mut Steps<L>,
) -> Result<(), PowerLost>
    requires zms { IsZmsSector (F.device flash.old) area.now sector }
    requires slot { HasSlot (F.device flash.old) area.now slot }

    ensures touches { Touches (area.now ∷ []) (F.device flash.old) (F.device flash.new)
        (is_err result) }
    ensures others { OthersStay (F.device flash.old) (F.device flash.new) area.now sector }
    ensures ok { let d = F.device flash.old in
        OnOk result
        (sector_bytes (F.device flash.new) area.now sector
        ≡ guarded (kind_on d area.now) cycle slot (sector_bytes d area.now sector)) }
    ensures not_valid { kind_on (F.device flash.old) area.now ≡ Rewritable
        → OnOk result
        (is_valid_under cycle (slot_of (sector_bytes (F.device flash.new) area.now sector) slot)
        ≡ false) }
    ensures idle { kind_on (F.device flash.old) area.now ≡ Erasing
        → F.device flash.new ≡ F.device flash.old }
    ensures ends { let d = F.device flash.old in
        UnitEnds
        (guard_units (kind_on d area.now) (Some cycle) slot (sector_bytes d area.now sector)) d
        (F.device flash.new) area.now result }
    ensures rewritable_lost { OnErr result (kind_on (F.device flash.old) area.now ≡ Rewritable) }
    ensures steps { ReadsGuard (kind_on (F.device flash.old) area.now) steps.old steps.new }
{
    match geometry(flash, area).kind {
        Kind::Erasing => Ok(()),
        Kind::Rewritable => {
            let start = slot_start(flash, area, slot);
            let entry = decode_zentry(area_view(flash, area, sector, start, SLOT, steps));
            if is_of_cycle(&entry, cycle) {
                return put_unit(flash, area, sector, slot, &fill_unit());
            }
            Ok(())
        }
    }
}

// Guards the slot under an entry, then programs the entry. A power loss leaves no entry.
pub fn put_slot<F: Flash, L: Ledger>(
    flash: &mut F,
    area: &Area,
    sector: u32,
    slot: u32,
    entry: &ZEntry,
    steps: &mut Steps<L>,
) -> Result<(), PowerLost>
    requires zms { IsZmsSector (F.device flash.old) area.now sector }
    requires slot { HasSlot (F.device flash.old) area.now (slot + 1) }
    requires erased { CanPut (F.device flash.old) area.now sector slot }

    ensures touches { Touches (area.now ∷ []) (F.device flash.old) (F.device flash.new)
        (is_err result) }
    ensures others { OthersStay (F.device flash.old) (F.device flash.new) area.now sector }
    ensures ok { let d = F.device flash.old in
        OnOk result
        (sector_bytes (F.device flash.new) area.now sector
        ≡ with_slot
        (guarded (kind_on d area.now) entry.now.cycle (slot + 1) (sector_bytes d area.now sector))
        slot (encoded entry.now)) }
    ensures lost { let d = F.device flash.old in
        OnErr result
        ((sector_bytes (F.device flash.new) area.now sector ≡ sector_bytes d area.now sector)
        ⊎ (sector_bytes (F.device flash.new) area.now sector
        ≡ guarded (kind_on d area.now) entry.now.cycle (slot + 1)
        (sector_bytes d area.now sector))) }
    ensures spends { OnOk result (SpendsBetween (F.device flash.old) (F.device flash.new) 1 2) }
    ensures guards { let d = F.device flash.old in
        let units =
        1
        + guard_units (kind_on d area.now) (Some entry.now.cycle) (slot + 1)
        (sector_bytes d area.now sector) in
        OnOk result (SpendsBetween d (F.device flash.new) units units) }
    ensures in_pieces { OnErr result (LosesWithin SLOT (F.device flash.old) (F.device flash.new)) }
    ensures spends_lost { OnErr result
        (SpendsBetween (F.device flash.old) (F.device flash.new) 0 1) }
    ensures steps { ReadsGuard (kind_on (F.device flash.old) area.now) steps.old steps.new }
{
    guard(flash, area, sector, slot + 1, entry.cycle, steps)?;
    put_unit(flash, area, sector, slot, &encode_zentry(entry))
}
