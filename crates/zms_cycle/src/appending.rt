// Entries with their values.
ghost use Rattle.std.specs.Prelude.{◌≡◌, ◌+◌, ◌-◌, ◌/◌, ◌^◌, ◌<◌, ◌≤◌, ◌∷◌, [], ◌++◌, nat_le, length, replicate, is_err, OnOk, if◌then◌else◌};
ghost use Rattle.std.specs.Int.{w32, to_le_bytes};
ghost use Rattle.flash_sim.specs.Device.{overwritten};
ghost use Rattle.flash_map.specs.Area.{sector_bytes, OthersStay};
ghost use Rattle.flash_map.specs.Units.{padded, padded_bytes};
ghost use Rattle.flash_map.specs.Touches.{Touches};
ghost use Rattle.flash_map.specs.declared.pieces.TheConstants.{PIECE};
ghost use Rattle.zms_cycle.specs.Calls.{TakesEntry, PutsEntry, TakesDone, PutsDone};
ghost use Rattle.zms_cycle.specs.Areas.{IsZmsSector};
ghost use Rattle.zms_cycle.specs.Changes.{with_value};
ghost use Rattle.zms_cycle.specs.OnArea.{IsUsedOn, HasPlace, BytesEnd};
ghost use Rattle.zms_cycle.specs.States.{IsOpenedOn};
ghost use Rattle.zms_cycle.specs.Entries.{value_entry, done_entry};
ghost use Rattle.zms_cycle.specs.Sector.{data_len, free};

use crate::ZEntry;
use crate::guarding::put_slot;
use crate::reading::{FIRST, Opened, SPECIAL_ID, TAIL, opened_sector};
use flash_map::{Area, program_padded};
use flash_sim::{Flash, PowerLost, Steps};
use std::sync::ledger::Ledger;

// The tail that holds a value of at most 8 bytes.
pub fn short_tail(bytes: &[u8]) -> [u8; 8]
    requires { length bytes.now ≤ 8 }
    ensures { result ≡ bytes.now ++ replicate (8 - length bytes.now) 0 }
{
    let mut tail = [0; 8];
    tail[..bytes.len()].copy_from_slice(bytes);
    tail
}

// The tail that holds the offset of a value.
pub fn long_tail(offset: u32) -> [u8; 8]
    ensures { result ≡ to_le_bytes w32 offset ++ replicate 4 0 }
{
    let mut tail = [0; 8];
    tail[..4].copy_from_slice(&offset.to_le_bytes());
    tail
}

// The tail of a value's entry.
fn tail_of(bytes: &[u8], offset: u32) -> [u8; 8]
    ensures { result
        ≡ (if nat_le (length bytes.now) 8 then bytes.now
        ++ replicate (8 - length bytes.now) 0 else to_le_bytes w32 offset ++ replicate 4 0) }
{
    if bytes.len() <= TAIL as usize {
        short_tail(bytes)
    } else {
        long_tail(offset)
    }
}

// The entry of a value.
fn value_entry(cycle: u8, id: u32, bytes: &[u8], offset: u32) -> ZEntry
    requires { length bytes.now < 2 ^ 16 }
    ensures { result ≡ value_entry cycle id bytes.now offset }
{
    ZEntry {
        cycle,
        len: bytes.len() as u16,
        id,
        tail: tail_of(bytes, offset),
    }
}

// Programs bytes, padded to whole units.
pub fn put_bytes<F: Flash>(
    flash: &mut F,
    area: &Area,
    sector: u32,
    at: u32,
    bytes: &[u8],
) -> Result<(), PowerLost>
    requires zms { IsZmsSector (F.device flash.old) area.now sector }
    requires place { HasPlace (F.device flash.old) area.now sector at
        (padded 16 (length bytes.now)) }

    ensures touches { Touches (area.now ∷ []) (F.device flash.old) (F.device flash.new)
        (is_err result) }
    ensures others { OthersStay (F.device flash.old) (F.device flash.new) area.now sector }
    ensures ok { OnOk result
        (sector_bytes (F.device flash.new) area.now sector
        ≡ overwritten (sector_bytes (F.device flash.old) area.now sector) at
        (padded_bytes 16 bytes.now)) }
    ensures ends { let d = F.device flash.old in let e = F.device flash.new in
        BytesEnd PIECE d e area.now sector at (padded 16 (length bytes.now)) result }
{
    program_padded(flash, area, sector, at, bytes)
}

// Programs a value, unless its entry holds it.
fn put_value<F: Flash>(
    flash: &mut F,
    area: &Area,
    sector: u32,
    at: u32,
    bytes: &[u8],
) -> Result<(), PowerLost>
    requires zms { IsZmsSector (F.device flash.old) area.now sector }
    requires place { HasPlace (F.device flash.old) area.now sector at
        (data_len (length bytes.now)) }

    ensures touches { Touches (area.now ∷ []) (F.device flash.old) (F.device flash.new)
        (is_err result) }
    ensures others { OthersStay (F.device flash.old) (F.device flash.new) area.now sector }
    ensures ok { OnOk result
        (sector_bytes (F.device flash.new) area.now sector
        ≡ with_value (sector_bytes (F.device flash.old) area.now sector) at bytes.now) }
    ensures ends { let d = F.device flash.old in let e = F.device flash.new in
        BytesEnd PIECE d e area.now sector at (data_len (length bytes.now)) result }
{
    if bytes.len() <= TAIL as usize {
        return Ok(());
    }
    put_bytes(flash, area, sector, at, bytes)
}

/// Programs a value, in calls of at most `PIECE` bytes, and then its entry. On a rewritable bank
/// the guard under the entry is set before it. No bytes are a delete. `opened` is what it has to
/// know of the sector, so the list is not read: it views the slot of the guard, or nothing.
///
/// # Errors
/// `PowerLost`: the sector's list and marks are as before. On an erasing bank, no more free space
/// is lost than the value takes.
pub fn put_entry_at<F: Flash, L: Ledger>(
    flash: &mut F,
    area: &Area,
    sector: u32,
    opened: &Opened,
    id: u32,
    bytes: &[u8],
    steps: &mut Steps<L>,
) -> Result<(), PowerLost>
    requires opened { IsOpenedOn (F.device flash.old) area.now sector opened.now }
    requires takes { TakesEntry (F.device flash.old) area.now sector id (length bytes.now) }

    ensures { let d = F.device flash.old in let e = F.device flash.new in
        PutsEntry d e area.now sector id bytes.now steps.old steps.new result }
{
    let entry = value_entry(opened.cycle, id, bytes, opened.data_end);
    put_value(flash, area, sector, opened.data_end, bytes)?;
    put_slot(flash, area, sector, opened.slots + FIRST, &entry, steps)
}

/// Programs a value, in calls of at most `PIECE` bytes, and then its entry. On a rewritable bank
/// the guard under the entry is set before it. No bytes are a delete. It is `put_entry_at` for a
/// caller that knows nothing of the sector, which is viewed once.
///
/// # Errors
/// `PowerLost`: the sector's list and marks are as before. On an erasing bank, no more free space
/// is lost than the value takes.
pub fn put_entry<F: Flash, L: Ledger>(
    flash: &mut F,
    area: &Area,
    sector: u32,
    id: u32,
    bytes: &[u8],
    steps: &mut Steps<L>,
) -> Result<(), PowerLost>
    requires used { IsUsedOn (F.device flash.old) area.now sector }
    requires takes { TakesEntry (F.device flash.old) area.now sector id (length bytes.now) }

    ensures { let d = F.device flash.old in let e = F.device flash.new in
        PutsEntry d e area.now sector id bytes.now (steps.old + 1) steps.new result }
{
    let opened = opened_sector(flash, area, sector, steps);
    put_entry_at(flash, area, sector, &opened, id, bytes, steps)
}

// The entry of gc-done.
fn done_entry(cycle: u8, data_end: u32) -> ZEntry
    ensures { result ≡ done_entry cycle data_end }
{
    let [end_0, end_1, end_2, end_3] = data_end.to_le_bytes();
    ZEntry {
        cycle,
        len: 0,
        id: SPECIAL_ID,
        tail: [end_0, end_1, end_2, end_3, 2, 0, 0, 0],
    }
}

/// Programs gc-done in the guard slot: a garbage collection has copied all that it keeps into this
/// sector. On a rewritable bank the guard under gc-done is set before it. `opened` is what it has
/// to know of the sector, so the list is not read: it views the slot of the guard, or nothing.
///
/// # Errors
/// `PowerLost`: the sector's list and marks are as before.
pub fn put_done_at<F: Flash, L: Ledger>(
    flash: &mut F,
    area: &Area,
    sector: u32,
    opened: &Opened,
    steps: &mut Steps<L>,
) -> Result<(), PowerLost>
    requires opened { IsOpenedOn (F.device flash.old) area.now sector opened.now }
    requires takes { TakesDone (F.device flash.old) area.now sector }

    ensures { let d = F.device flash.old in let e = F.device flash.new in
        PutsDone d e area.now sector steps.old steps.new result }
{
    let entry = done_entry(opened.cycle, opened.data_end);
    put_slot(flash, area, sector, opened.slots + FIRST, &entry, steps)
}

/// Programs gc-done in the guard slot: a garbage collection has copied all that it keeps into this
/// sector. On a rewritable bank the guard under gc-done is set before it. It is `put_done_at` for a
/// caller that knows nothing of the sector, which is viewed once.
///
/// # Errors
/// `PowerLost`: the sector's list and marks are as before.
pub fn put_done<F: Flash, L: Ledger>(
    flash: &mut F,
    area: &Area,
    sector: u32,
    steps: &mut Steps<L>,
) -> Result<(), PowerLost>
    requires used { IsUsedOn (F.device flash.old) area.now sector }
    requires takes { TakesDone (F.device flash.old) area.now sector }

    ensures { let d = F.device flash.old in let e = F.device flash.new in
        PutsDone d e area.now sector (steps.old + 1) steps.new result }
{
    let opened = opened_sector(flash, area, sector, steps);
    put_done_at(flash, area, sector, &opened, steps)
}
