// The slots of one sector, over its bytes. Slot k starts k + 1 slots before the sector's end.
ghost use Rattle.std.specs.Prelude.{◌≡◌, ◌+◌, ◌-◌, ◌*◌, ◌%◌, ◌^◌, ◌≤◌, ◌<◌, length, not, ◌==◌};
ghost use Rattle.std.specs.Option.{option_map_or};
ghost use Rattle.flash_map.specs.Units.{IsUnit, is_erased, padded};
ghost use Rattle.nvs_store.specs.Geometry.{slot_size};
ghost use Rattle.nvs_store.specs.Entries.{decoded};
ghost use Rattle.nvs_store.specs.Sector.{slot_at, used_slots, counts, counting_entry, is_gc_done, entry_end};

use crate::entry::{Entry, SPECIAL_ID, decode_entry};
use crate::geometry::slot_size;
use crate::scan::SlotEntry;
use flash_map::{is_erased, padded};

/// Where a slot starts in a sector of this length, in bytes.
pub fn slot_start(len: usize, unit: u32, index: u32) -> u32
    requires unit { IsUnit unit }
    requires short { len ≤ 2 ^ 15 }
    requires inside { (index + 1) * slot_size unit ≤ len }
    ensures { result ≡ len - (index + 1) * slot_size unit }
{
    len as u32 - (index + 1) * slot_size(unit)
}

/// The bytes of a slot.
pub fn slot_of(bytes: &[u8], unit: u32, index: u32) -> &[u8]
    requires unit { IsUnit unit }
    requires short { length bytes.now ≤ 2 ^ 15 }
    requires inside { (index + 1) * slot_size unit ≤ length bytes.now }
    ensures bytes { result.now ≡ (slot_at unit bytes.now index).bytes }
    ensures len { 8 ≤ length result.now }
{
    let size = slot_size(unit) as usize;
    let start = slot_start(bytes.len(), unit, index) as usize;
    &bytes[start..start + size]
}

/// Whether a slot is used. Most used slots begin with another byte than FF, which is fast to see.
pub fn is_used(slot: &[u8]) -> bool
    requires { 8 ≤ length slot.now }
    ensures { result ≡ not (is_erased slot.now) }
{
    slot[0] != 0xFF || !is_erased(slot)
}

/// How many slots are used, from slot 1 down to the fence.
pub fn used_count(bytes: &[u8], unit: u32) -> u32
    requires unit { IsUnit unit }
    requires short { length bytes.now ≤ 2 ^ 15 }
    ensures count { result ≡ length (used_slots unit bytes.now) }
    ensures few { result < 2 ^ 15 }
{
    let size = slot_size(unit) as usize;
    let mut used = 0;
    let mut end = bytes.len().saturating_sub(size);
    while end >= size {
        let start = end - size;
        if !is_used(&bytes[start..end]) {
            return used;
        }
        used += 1;
        end = start;
    }
    used
}

/// The entry that a slot holds, if its CRC matches.
fn entry_in(bytes: &[u8], unit: u32, index: u32) -> Option<Entry>
    requires unit { IsUnit unit }
    requires short { length bytes.now ≤ 2 ^ 15 }
    requires inside { (index + 1) * slot_size unit ≤ length bytes.now }
    ensures { result ≡ decoded (slot_at unit bytes.now index).bytes }
{
    decode_entry(slot_of(bytes, unit, index))
}

/// Whether an offset is at the start of a unit. A division by a constant is fast.
fn is_aligned(offset: u32, unit: u32) -> bool
    requires { IsUnit unit }
    ensures { result ≡ (offset % unit == 0) }
{
    if unit == 4 {
        return offset % 4 == 0;
    }
    if unit == 8 {
        return offset % 8 == 0;
    }
    offset % 16 == 0
}

/// Whether the entry is an ordinary one whose data is aligned and ends under its slot.
fn counts(entry: &Entry, unit: u32, start: u32) -> bool
    requires { IsUnit unit }
    ensures { result ≡ counts unit start entry.now }
{
    entry.id != SPECIAL_ID
        && is_aligned(u32::from(entry.offset), unit)
        && u32::from(entry.offset) + u32::from(entry.len) <= start
}

/// The entry in a slot, if it counts.
pub fn counting_entry(bytes: &[u8], unit: u32, index: u32) -> Option<SlotEntry>
    requires unit { IsUnit unit }
    requires short { length bytes.now ≤ 2 ^ 15 }
    requires inside { (index + 1) * slot_size unit ≤ length bytes.now }
    ensures { result ≡ counting_entry unit (slot_at unit bytes.now index) }
{
    match entry_in(bytes, unit, index) {
        Some(entry) if counts(&entry, unit, slot_start(bytes.len(), unit, index)) => Some(
            SlotEntry { slot: index, entry },
        ),
        _ => None,
    }
}

/// Whether a slot holds gc-done.
pub fn is_gc_done(bytes: &[u8], unit: u32, index: u32) -> bool
    requires unit { IsUnit unit }
    requires short { length bytes.now ≤ 2 ^ 15 }
    requires inside { (index + 1) * slot_size unit ≤ length bytes.now }
    ensures { result ≡ is_gc_done (slot_at unit bytes.now index) }
{
    match entry_in(bytes, unit, index) {
        Some(entry) => entry.id == SPECIAL_ID && entry.len == 0,
        None => false,
    }
}

/// Where the data of an entry ends, padded to the unit; 0 if there is no entry.
pub fn end_of(found: &Option<SlotEntry>, unit: u32) -> u32
    requires { IsUnit unit }
    ensures value { result ≡ option_map_or (entry_end unit) found.now 0 }
    ensures small { result < 2 ^ 18 }
{
    match found {
        Some(found) => u32::from(found.entry.offset) + padded(unit, u32::from(found.entry.len)),
        None => 0,
    }
}

/// The length of an entry's data, padded to the unit; 0 if there is no entry.
pub fn len_of(found: &Option<SlotEntry>, unit: u32) -> u32
    requires { IsUnit unit }
    ensures value { result ≡ option_map_or (λ f. padded unit f.entry.len) found.now 0 }
    ensures small { result < 2 ^ 17 }
{
    match found {
        Some(found) => padded(unit, u32::from(found.entry.len)),
        None => 0,
    }
}
