// Copying an entry into another sector.
ghost use Rattle.std.specs.Prelude.{◌≡◌, ◌≢◌, ◌+◌, ◌/◌, ◌<◌, ◌≤◌, ◌∷◌, [], length, is_err, Some, OnOk};
ghost use Rattle.flash_sim.specs.Device.{overwritten};
ghost use Rattle.flash_map.specs.Area.{sector_size, sector_bytes, OthersStay};
ghost use Rattle.flash_map.specs.Copies.{source, pieces_of, TakesViews};
ghost use Rattle.flash_map.specs.Touches.{Touches};
ghost use Rattle.flash_map.specs.declared.copies.TheConstants.{COPY_PIECE};
ghost use Rattle.flash_map.specs.Units.{padded, padded_bytes};
ghost use Rattle.zms_cycle.specs.Calls.{TakesCopy, CopiesEntry};
ghost use Rattle.zms_cycle.specs.Areas.{IsZmsSector, HasSlot};
ghost use Rattle.zms_cycle.specs.Changes.{with_value};
ghost use Rattle.zms_cycle.specs.OnArea.{IsUsedOn, HasPlace, BytesEnd, Copies};
ghost use Rattle.zms_cycle.specs.States.{IsOpenedOn};
ghost use Rattle.zms_cycle.specs.Entries.{moved_entry};
ghost use Rattle.zms_cycle.specs.Sector.{slot_of, entry_in, entry_len, value_of, data_len, free};

use crate::appending::{long_tail, short_tail};
use crate::guarding::{put_slot, slot_start};
use crate::reading::{FIRST, Opened, SLOT, TAIL, offset_of, opened_sector};
use crate::{ZEntry, decode_zentry};
use flash_map::{Area, Source, area_view, copy_padded};
use flash_sim::{Flash, PowerLost, Steps};
use std::sync::ledger::Ledger;

// The ordinary entry in a slot.
fn ordinary_entry<F: Flash, L: Ledger>(
    flash: &F,
    area: &Area,
    sector: u32,
    slot: u32,
    steps: &mut Steps<L>,
) -> ZEntry
    requires zms { IsZmsSector (F.device flash.now) area.now sector }
    requires slot { HasSlot (F.device flash.now) area.now slot }
    requires some { 0 < entry_len (sector_bytes (F.device flash.now) area.now sector) slot }
    ensures entry { entry_in (slot_of (sector_bytes (F.device flash.now) area.now sector) slot)
        ≡ Some (record { slot = slot; entry = result }) }
    ensures step { steps.new ≡ steps.old + 1 }
{
    let start = slot_start(flash, area, slot);
    match decode_zentry(area_view(flash, area, sector, start, SLOT, steps)) {
        Some(entry) => entry,
        None => unreachable!(),
    }
}

// The entry of the same value in another sector.
fn moved_entry(cycle: u8, from: &ZEntry, offset: u32) -> ZEntry
    ensures { result ≡ moved_entry cycle from.now offset }
{
    let tail = if from.len <= TAIL {
        short_tail(&from.tail[..from.len as usize])
    } else {
        long_tail(offset)
    };
    ZEntry {
        cycle,
        len: from.len,
        id: from.id,
        tail,
    }
}

// Copies bytes of another sector, padded to whole units.
fn copy_bytes<F: Flash, L: Ledger>(
    flash: &mut F,
    area: &Area,
    sector: u32,
    to: u32,
    from: Source,
    steps: &mut Steps<L>,
) -> Result<(), PowerLost>
    requires zms { IsZmsSector (F.device flash.old) area.now sector }
    requires from_zms { IsZmsSector (F.device flash.old) area.now from.sector }
    requires other { from.sector ≢ sector }
    requires from { from.offset + from.len ≤ sector_size (F.device flash.old) area.now }
    requires place { HasPlace (F.device flash.old) area.now sector to (padded 16 from.len) }

    ensures touches { Touches (area.now ∷ []) (F.device flash.old) (F.device flash.new)
        (is_err result) }
    ensures others { OthersStay (F.device flash.old) (F.device flash.new) area.now sector }
    ensures ok { OnOk result
        (sector_bytes (F.device flash.new) area.now sector
        ≡ overwritten (sector_bytes (F.device flash.old) area.now sector) to
        (padded_bytes 16 (source (F.device flash.old) area.now from))) }
    ensures ends { let d = F.device flash.old in let e = F.device flash.new in
        BytesEnd COPY_PIECE d e area.now sector to (padded 16 from.len) result }
    ensures views { TakesViews (pieces_of from.len) steps.old steps.new result }
{
    copy_padded(flash, area, from, sector, to, steps)
}

// Copies the value of an entry of another sector, unless the entry holds it.
fn copy_value<F: Flash, L: Ledger>(
    flash: &mut F,
    area: &Area,
    sector: u32,
    to: u32,
    from_sector: u32,
    from: &ZEntry,
    steps: &mut Steps<L>,
) -> Result<(), PowerLost>
    requires zms { IsZmsSector (F.device flash.old) area.now sector }
    requires from_zms { IsZmsSector (F.device flash.old) area.now from_sector }
    requires other { from_sector ≢ sector }
    requires len { length
        (value_of (sector_bytes (F.device flash.old) area.now from_sector) from.now)
        ≡ from.now.len }
    requires place { HasPlace (F.device flash.old) area.now sector to (data_len from.now.len) }

    ensures touches { Touches (area.now ∷ []) (F.device flash.old) (F.device flash.new)
        (is_err result) }
    ensures others { OthersStay (F.device flash.old) (F.device flash.new) area.now sector }
    ensures ok { OnOk result
        (sector_bytes (F.device flash.new) area.now sector
        ≡ with_value (sector_bytes (F.device flash.old) area.now sector) to
        (value_of (sector_bytes (F.device flash.old) area.now from_sector) from.now)) }
    ensures ends { let d = F.device flash.old in let e = F.device flash.new in
        BytesEnd COPY_PIECE d e area.now sector to (data_len from.now.len) result }
    ensures views { TakesViews (pieces_of (data_len from.now.len)) steps.old steps.new result }
{
    if from.len <= TAIL {
        return Ok(());
    }
    let source = Source {
        sector: from_sector,
        offset: offset_of(from),
        len: from.len as u32,
    };
    copy_bytes(flash, area, sector, to, source, steps)
}

/// Copies an entry of another sector's list: its value, in calls of at most `COPY_PIECE` bytes, and
/// then the entry. On a rewritable bank the guard under the entry is set before it. `opened` is
/// what it has to know of the sector that it copies to, so the list of that sector is not read: it
/// views the entry, each piece of its value once, and on a rewritable bank the slot of the guard.
///
/// # Errors
/// `PowerLost`: the list and marks of the sector that it copies to are as before. On an erasing
/// bank, no more free space is lost than the value takes.
pub fn copy_entry_at<F: Flash, L: Ledger>(
    flash: &mut F,
    area: &Area,
    sector: u32,
    opened: &Opened,
    from_sector: u32,
    from_slot: u32,
    steps: &mut Steps<L>,
) -> Result<(), PowerLost>
    requires opened { IsOpenedOn (F.device flash.old) area.now sector opened.now }
    requires takes { TakesCopy (F.device flash.old) area.now sector from_sector from_slot }

    ensures { let d = F.device flash.old in let e = F.device flash.new in
        CopiesEntry d e area.now sector from_sector from_slot steps.old steps.new result }
{
    let from = ordinary_entry(flash, area, from_sector, from_slot, steps);
    let entry = moved_entry(opened.cycle, &from, opened.data_end);
    copy_value(
        flash,
        area,
        sector,
        opened.data_end,
        from_sector,
        &from,
        steps,
    )?;
    put_slot(flash, area, sector, opened.slots + FIRST, &entry, steps)
}

/// Copies an entry of another sector's list: its value, in calls of at most `COPY_PIECE` bytes, and
/// then the entry. On a rewritable bank the guard under the entry is set before it. It is
/// `copy_entry_at` for a caller that knows nothing of the sector that it copies to, which is viewed
/// once.
///
/// # Errors
/// `PowerLost`: the list and marks of the sector that it copies to are as before. On an erasing
/// bank, no more free space is lost than the value takes.
pub fn copy_entry<F: Flash, L: Ledger>(
    flash: &mut F,
    area: &Area,
    sector: u32,
    from_sector: u32,
    from_slot: u32,
    steps: &mut Steps<L>,
) -> Result<(), PowerLost>
    requires used { IsUsedOn (F.device flash.old) area.now sector }
    requires takes { TakesCopy (F.device flash.old) area.now sector from_sector from_slot }

    ensures { let d = F.device flash.old in let e = F.device flash.new in
        CopiesEntry d e area.now sector from_sector from_slot (steps.old + 1) steps.new result }
{
    let opened = opened_sector(flash, area, sector, steps);
    copy_entry_at(flash, area, sector, &opened, from_sector, from_slot, steps)
}
