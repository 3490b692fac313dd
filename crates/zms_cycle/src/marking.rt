// Closing and emptying a sector.
ghost use Rattle.std.specs.Prelude.{◌≡◌, ◌+◌, ◌-◌, ◌*◌, ◌/◌, ◌<◌, ◌≤◌, ◌∷◌, [], length, is_err, Some, OnOk, OnErr};
ghost use Rattle.flash_map.specs.Area.{sector_size, sectors_of, sector_bytes, OthersStay};
ghost use Rattle.flash_map.specs.Spending.{SpendsBetween};
ghost use Rattle.flash_map.specs.Touches.{Touches};
ghost use Rattle.flash_sim.specs.declared.flash.Kind.TheVariants.{Erasing, Rewritable};
ghost use Rattle.zms_cycle.specs.Calls.{TakesClose, ClosesSector};
ghost use Rattle.zms_cycle.specs.Areas.{IsZmsSector, HasSlot, kind_on};
ghost use Rattle.zms_cycle.specs.Changes.{with_slot, IsFilled, KeepsList, StopsGuarding, StopsEmptying, Closes, Empties, next_cycle};
ghost use Rattle.zms_cycle.specs.Entries.{fill, empty_entry, close_entry};
ghost use Rattle.zms_cycle.specs.OnArea.{IsUsedOn, IsSoundOn, Makes, Keeps, next_guard, emptying_units, first_guard_units, closing_units};
ghost use Rattle.zms_cycle.specs.States.{IsOpenedOn};
ghost use Rattle.zms_cycle.specs.Sector.{cycle_of, valid_slots, low, data_end, free};

use crate::guarding::{put_unit, slot_start};
use crate::reading::{FIRST, Opened, SLOT, SPECIAL_ID, opened_sector, sector_cycle};
use crate::{ZEntry, encode_zentry, fill_unit, guard};
use flash_map::{Area, area_view, erase_if, geometry, is_erased, sector_view};
use flash_sim::{Flash, Kind, PowerLost, Steps};
use std::sync::ledger::Ledger;

fn empty_entry(cycle: u8) -> ZEntry
    ensures { result ≡ empty_entry cycle }
{
    ZEntry {
        cycle,
        len: 0xFFFF,
        id: SPECIAL_ID,
        tail: [0; 8],
    }
}

fn close_entry(cycle: u8, low: u32) -> ZEntry
    ensures { result ≡ close_entry cycle low }
{
    let [low_0, low_1, low_2, low_3] = low.to_le_bytes();
    ZEntry {
        cycle,
        len: 0,
        id: SPECIAL_ID,
        tail: [low_0, low_1, low_2, low_3, 1, 0, 0, 0],
    }
}

// The cycle that emptying gives a sector.
fn next_cycle(cycle: Option<u8>) -> u8
    ensures { result ≡ next_cycle cycle }
{
    match cycle {
        Some(cycle) => cycle.wrapping_add(1),
        None => 1,
    }
}

// Empties a sector of a rewritable bank: guards slots 1 and 2, then programs the empty entry of the
// next cycle.
fn empty_by_guards<F: Flash, L: Ledger>(
    flash: &mut F,
    area: &Area,
    sector: u32,
    cycle: u8,
    steps: &mut Steps<L>,
) -> Result<(), PowerLost>
    requires zms { IsZmsSector (F.device flash.old) area.now sector }
    requires kind { kind_on (F.device flash.old) area.now ≡ Rewritable }
    requires cycle { cycle
        ≡ next_cycle (cycle_of (sector_bytes (F.device flash.old) area.now sector)) }

    ensures touches { Touches (area.now ∷ []) (F.device flash.old) (F.device flash.new)
        (is_err result) }
    ensures others { OthersStay (F.device flash.old) (F.device flash.new) area.now sector }
    ensures ok { OnOk result
        (Makes Empties (F.device flash.old) (F.device flash.new) area.now sector) }
    ensures lost { OnErr result
        (Makes (λ kind. StopsGuarding) (F.device flash.old) (F.device flash.new) area.now sector) }
    ensures guards { let units = emptying_units (F.device flash.old) area.now sector in
        OnOk result (SpendsBetween (F.device flash.old) (F.device flash.new) units units) }
    ensures spends_lost { let most = emptying_units (F.device flash.old) area.now sector - 1 in
        OnErr result (SpendsBetween (F.device flash.old) (F.device flash.new) 0 most) }
{
    guard(flash, area, sector, 1, cycle, steps)?;
    guard(flash, area, sector, 2, cycle, steps)?;
    put_unit(flash, area, sector, 0, &encode_zentry(&empty_entry(cycle)))
}

// Empties a sector of an erasing bank: erases it if a byte is not FF, then programs the empty entry
// of this cycle.
fn empty_by_erasing<F: Flash, L: Ledger>(
    flash: &mut F,
    area: &Area,
    sector: u32,
    cycle: u8,
    steps: &mut Steps<L>,
) -> Result<(), PowerLost>
    requires zms { IsZmsSector (F.device flash.old) area.now sector }
    requires kind { kind_on (F.device flash.old) area.now ≡ Erasing }
    requires cycle { cycle
        ≡ next_cycle (cycle_of (sector_bytes (F.device flash.old) area.now sector)) }

    ensures touches { Touches (area.now ∷ []) (F.device flash.old) (F.device flash.new)
        (is_err result) }
    ensures others { OthersStay (F.device flash.old) (F.device flash.new) area.now sector }
    ensures ok { OnOk result
        (Makes Empties (F.device flash.old) (F.device flash.new) area.now sector) }
    ensures lost { OnErr result
        (Makes StopsEmptying (F.device flash.old) (F.device flash.new) area.now sector) }
    ensures guards { let units = emptying_units (F.device flash.old) area.now sector in
        OnOk result (SpendsBetween (F.device flash.old) (F.device flash.new) units units) }
    ensures spends_lost { let most = emptying_units (F.device flash.old) area.now sector - 1 in
        OnErr result (SpendsBetween (F.device flash.old) (F.device flash.new) 0 most) }
{
    let is_used = !is_erased(sector_view(flash, area, sector, steps));
    erase_if(flash, area, sector, is_used)?;
    put_unit(flash, area, sector, 0, &encode_zentry(&empty_entry(cycle)))
}

/// Empties a sector by the empty entry of the next cycle. On a rewritable bank, slots 1 and 2 are
/// guarded first, so that they are not valid under that cycle. On an erasing bank, the sector is
/// erased first, unless it is all FF. It spends 1 to 3 units and erases, by the sector's old bytes;
/// fewer if it is cut. On a rewritable bank slot 3 stays, so the old bytes also say what the guard
/// of the first entry will take.
///
/// # Errors
/// `PowerLost`. On a rewritable bank the sector reads as before (its list, its gc-done, and whether
/// it is closed), or it is not closed and its slot 2 is not valid, so its list is empty and it has
/// no gc-done. An overfull sector has no list. The cycle, the slots and the marks stay, and so does
/// each value, unless the guard of slot 1 has to overwrite one. On an erasing bank the sector is as
/// before, or each byte is FF.
pub fn empty_sector<F: Flash, L: Ledger>(
    flash: &mut F,
    area: &Area,
    sector: u32,
    steps: &mut Steps<L>,
) -> Result<(), PowerLost>
    requires { IsZmsSector (F.device flash.old) area.now sector }

    ensures touches { Touches (area.now ∷ []) (F.device flash.old) (F.device flash.new)
        (is_err result) }
    ensures others { OthersStay (F.device flash.old) (F.device flash.new) area.now sector }
    ensures ok { OnOk result
        (Makes Empties (F.device flash.old) (F.device flash.new) area.now sector) }
    ensures next_guard { let units = first_guard_units (F.device flash.old) area.now sector in
        OnOk result (next_guard (F.device flash.new) area.now sector ≡ units) }
    ensures lost { OnErr result
        (Makes StopsEmptying (F.device flash.old) (F.device flash.new) area.now sector) }
    ensures spends { OnOk result (SpendsBetween (F.device flash.old) (F.device flash.new) 1 3) }
    ensures guards { let units = emptying_units (F.device flash.old) area.now sector in
        OnOk result (SpendsBetween (F.device flash.old) (F.device flash.new) units units) }
    ensures spends_lost { let most = emptying_units (F.device flash.old) area.now sector - 1 in
        OnErr result (SpendsBetween (F.device flash.old) (F.device flash.new) 0 most) }
{
    let cycle = next_cycle(sector_cycle(flash, area, sector, steps));
    match geometry(flash, area).kind {
        Kind::Rewritable => empty_by_guards(flash, area, sector, cycle, steps),
        Kind::Erasing => empty_by_erasing(flash, area, sector, cycle, steps),
    }
}

// Programs the fill unit into a slot. A power loss changes no byte.
fn fill_slot<F: Flash, L: Ledger>(
    flash: &mut F,
    area: &Area,
    sector: u32,
    slot: u32,
    steps: &mut Steps<L>,
) -> Result<(), PowerLost>
    requires zms { IsZmsSector (F.device flash.old) area.now sector }
    requires kind { kind_on (F.device flash.old) area.now ≡ Rewritable }
    requires slot { HasSlot (F.device flash.old) area.now slot }

    ensures touches { Touches (area.now ∷ []) (F.device flash.old) (F.device flash.new)
        (is_err result) }
    ensures others { OthersStay (F.device flash.old) (F.device flash.new) area.now sector }
    ensures ok { OnOk result
        (sector_bytes (F.device flash.new) area.now sector
        ≡ with_slot (sector_bytes (F.device flash.old) area.now sector) slot fill) }
    ensures lost { OnErr result
        (sectors_of (F.device flash.new) area.now ≡ sectors_of (F.device flash.old) area.now) }
    ensures spends { OnOk result (SpendsBetween (F.device flash.old) (F.device flash.new) 0 1) }
    ensures spends_lost { OnErr result
        (SpendsBetween (F.device flash.old) (F.device flash.new) 0 0) }
    ensures step { steps.new ≡ steps.old + 1 }
{
    let start = slot_start(flash, area, slot);
    let unit = fill_unit();
    let is_filled = area_view(flash, area, sector, start, SLOT, steps) == unit.as_slice();
    if is_filled {
        return Ok(());
    }
    put_unit(flash, area, sector, slot, &unit)
}

// Programs the fill unit into the slots under `top` down to `bottom`, upward.
fn fill_slots<F: Flash, L: Ledger>(
    flash: &mut F,
    area: &Area,
    sector: u32,
    top: u32,
    bottom: u32,
    steps: &mut Steps<L>,
) -> Result<(), PowerLost>
    requires zms { IsZmsSector (F.device flash.old) area.now sector }
    requires kind { kind_on (F.device flash.old) area.now ≡ Rewritable }
    requires guarded { 16 ≤ low (sector_bytes (F.device flash.old) area.now sector) }
    requires bottom { length (valid_slots (sector_bytes (F.device flash.old) area.now sector)) + 2
        ≤ bottom }
    requires top { 0 < top
        → data_end Rewritable (sector_bytes (F.device flash.old) area.now sector) + top * 16
        ≤ sector_size (F.device flash.old) area.now }

    ensures touches { Touches (area.now ∷ []) (F.device flash.old) (F.device flash.new)
        (is_err result) }
    ensures others { OthersStay (F.device flash.old) (F.device flash.new) area.now sector }
    ensures keeps { Makes (λ kind. KeepsList Rewritable 0) (F.device flash.old) (F.device flash.new)
        area.now sector }
    ensures filled { OnOk result
        (IsFilled (sector_bytes (F.device flash.new) area.now sector) bottom top) }
    ensures spends { SpendsBetween (F.device flash.old) (F.device flash.new) 0 (top - bottom) }
    ensures steps { steps.new ≤ steps.old + (top - bottom) }
{
    let mut slot = top;
    while slot > bottom {
        slot -= 1;
        fill_slot(flash, area, sector, slot, steps)?;
    }
    Ok(())
}

// On a rewritable bank, programs the fill unit into every unit between the values of a sector and
// its slots. On an erasing bank it does nothing.
fn fill_free<F: Flash, L: Ledger>(
    flash: &mut F,
    area: &Area,
    sector: u32,
    opened: &Opened,
    steps: &mut Steps<L>,
) -> Result<(), PowerLost>
    requires zms { IsZmsSector (F.device flash.old) area.now sector }
    requires sound { IsSoundOn (F.device flash.old) area.now sector }
    requires opened { IsOpenedOn (F.device flash.old) area.now sector opened.now }

    ensures touches { Touches (area.now ∷ []) (F.device flash.old) (F.device flash.new)
        (is_err result) }
    ensures others { OthersStay (F.device flash.old) (F.device flash.new) area.now sector }
    ensures keeps { Keeps 0 (F.device flash.old) (F.device flash.new) area.now sector }
    ensures filled { let b = sector_bytes (F.device flash.old) area.now sector in
        kind_on (F.device flash.old) area.now ≡ Rewritable
        → OnOk result
        (IsFilled (sector_bytes (F.device flash.new) area.now sector) (length (valid_slots b) + 2)
        ((length b - data_end Rewritable b) / 16)) }
    ensures idle { kind_on (F.device flash.old) area.now ≡ Erasing
        → F.device flash.new ≡ F.device flash.old }
    ensures spends { SpendsBetween (F.device flash.old) (F.device flash.new) 0
        (closing_units (F.device flash.old) area.now sector - 1) }
    ensures steps { let fill = closing_units (F.device flash.old) area.now sector - 1 in
        steps.new ≤ steps.old + fill }
{
    let geometry = geometry(flash, area);
    match geometry.kind {
        Kind::Erasing => Ok(()),
        Kind::Rewritable => {
            let bottom = opened.slots + FIRST;
            let top = geometry.sector.saturating_sub(opened.data_end) / SLOT;
            fill_slots(flash, area, sector, top, bottom, steps)
        }
    }
}

/// Closes a sector by the close entry, which names the start of the lowest used slot. On a
/// rewritable bank, every unit between its values and its slots is programmed with the fill unit
/// first. `opened` is what it has to know of the sector, so the list is not read: it views no more
/// units than are free, and none on an erasing bank.
///
/// # Errors
/// `PowerLost`: the sector's list and marks are as before. On an erasing bank, no byte changed.
pub fn close_at<F: Flash, L: Ledger>(
    flash: &mut F,
    area: &Area,
    sector: u32,
    opened: &Opened,
    steps: &mut Steps<L>,
) -> Result<(), PowerLost>
    requires opened { IsOpenedOn (F.device flash.old) area.now sector opened.now }
    requires takes { TakesClose (F.device flash.old) area.now sector }

    ensures { let d = F.device flash.old in let e = F.device flash.new in
        ClosesSector d e area.now sector steps.old steps.new result }
{
    let low = geometry(flash, area).sector - (opened.slots + FIRST) * SLOT;
    fill_free(flash, area, sector, opened, steps)?;
    put_unit(
        flash,
        area,
        sector,
        1,
        &encode_zentry(&close_entry(opened.cycle, low)),
    )
}

/// Closes a sector by the close entry, which names the start of the lowest used slot. On a
/// rewritable bank, every unit between its values and its slots is programmed with the fill unit
/// first. It is `close_at` for a caller that knows nothing of the sector, which is viewed once.
///
/// # Errors
/// `PowerLost`: the sector's list and marks are as before. On an erasing bank, no byte changed.
pub fn close<F: Flash, L: Ledger>(
    flash: &mut F,
    area: &Area,
    sector: u32,
    steps: &mut Steps<L>,
) -> Result<(), PowerLost>
    requires used { IsUsedOn (F.device flash.old) area.now sector }
    requires takes { TakesClose (F.device flash.old) area.now sector }

    ensures { let d = F.device flash.old in let e = F.device flash.new in
        ClosesSector d e area.now sector (steps.old + 1) steps.new result }
{
    let opened = opened_sector(flash, area, sector, steps);
    close_at(flash, area, sector, &opened, steps)
}
