// How one sector reads, over its bytes.
ghost use Rattle.std.specs.Prelude.{◌≡◌, ◌+◌, ◌*◌, ◌^◌, ◌≤◌, ◌<◌, length, nat_lt, false};
ghost use Rattle.std.specs.Option.{option_map, option_map_or};
ghost use Rattle.flash_map.specs.Units.{IsUnit};
ghost use Rattle.nvs_store.specs.Geometry.{slot_size};
ghost use Rattle.nvs_store.specs.Entries.{entry_of};
ghost use Rattle.nvs_store.specs.Sector.{slot_at, counting_entry, entries, entries_within, is_wanted, last_found, entry_cost, has_fence, is_overfull, is_closed};
ghost use Rattle.nvs_store.specs.Searches.{wanted_in};
ghost use Rattle.nvs_store.specs.Scans.{sector_scan, placed_at};

use crate::geometry::{capacity, cost, slot_size};
use crate::scan::{Found, Redo, Scan, SlotEntry};
use crate::slots::{counting_entry, end_of, is_gc_done, len_of, slot_of, slot_start, used_count};
use flash_map::{is_erased, padded, trimmed_len};

/// Reads how far a sector is filled.
pub fn scan_sector(bytes: &[u8], unit: u32, place: u32) -> Scan
    requires unit { IsUnit unit }
    requires long { 16 ≤ length bytes.now }
    requires short { length bytes.now ≤ 2 ^ 15 }
    ensures { result ≡ sector_scan unit place bytes.now }
{
    let size = slot_size(unit);
    let used = used_count(bytes, unit);
    let low = slot_start(bytes.len(), unit, used);
    let mut ends = 0;
    let mut lens = 0;
    let mut gc_done = false;
    for index in 1..used + 1 {
        let found = counting_entry(bytes, unit, index);
        ends = end_of(&found, unit).max(ends);
        lens += len_of(&found, unit);
        gc_done |= is_gc_done(bytes, unit, index);
    }
    let written = padded(
        unit,
        trimmed_len(&bytes[..low.saturating_sub(size) as usize]) as u32,
    );
    Scan {
        current: place,
        low,
        data_end: written.max(ends.max(lens)),
        gc_done,
        redo: Redo::Nothing,
    }
}

/// What an entry's data and the entry take up, if there is one that has data.
fn data_cost(found: &Option<SlotEntry>, unit: u32) -> u64
    requires { IsUnit unit }
    ensures value { result ≡ option_map_or (entry_cost unit) found.now 0 }
    ensures small { result < 2 ^ 17 }
{
    match found {
        Some(found) if found.entry.len > 0 => cost(unit, u32::from(found.entry.len)),
        _ => 0,
    }
}

/// Whether an entry's data ends above this place.
fn ends_above(found: &Option<SlotEntry>, place: u32) -> bool
    ensures { result
        ≡ option_map_or (λ f. nat_lt place (f.entry.offset + f.entry.len)) found.now false }
{
    match found {
        Some(found) => { place < u32::from(found.entry.offset) + u32::from(found.entry.len) }
        None => false,
    }
}

/// Whether there is an erased slot under the used ones.
pub fn has_fence(bytes: &[u8], unit: u32) -> bool
    requires unit { IsUnit unit }
    requires short { length bytes.now ≤ 2 ^ 15 }
    ensures { result ≡ has_fence unit bytes.now }
{
    used_count(bytes, unit) + 1 < bytes.len() as u32 / slot_size(unit)
}

/// Whether the sector holds more than it may: the data of an entry ends above the start of the
/// fence, or the entries with data cost more than a sector has for them.
pub fn is_overfull(bytes: &[u8], unit: u32) -> bool
    requires unit { IsUnit unit }
    requires long { 16 ≤ length bytes.now }
    requires short { length bytes.now ≤ 2 ^ 15 }
    ensures { result ≡ is_overfull unit bytes.now }
{
    let used = used_count(bytes, unit);
    let fence = slot_start(bytes.len(), unit, used).saturating_sub(slot_size(unit));
    let mut costs = 0;
    let mut passes = false;
    for index in 1..used + 1 {
        let found = counting_entry(bytes, unit, index);
        passes |= ends_above(&found, fence);
        costs += data_cost(&found, unit);
    }
    passes || u64::from(capacity(unit, bytes.len() as u32)) < costs
}

/// Whether slot 0 holds anything.
pub fn is_closed(bytes: &[u8], unit: u32) -> bool
    requires unit { IsUnit unit }
    requires long { 16 ≤ length bytes.now }
    requires short { length bytes.now ≤ 2 ^ 15 }
    ensures { result ≡ is_closed unit bytes.now }
{
    !is_erased(slot_of(bytes, unit, 0))
}

/// Whether the id field of a slot is the wanted one; with none given, each is. The CRC is not
/// checked.
fn names(wanted: Option<u16>, slot: &[u8]) -> bool
    requires { 8 ≤ length slot.now }
    ensures { result ≡ is_wanted wanted (entry_of slot.now) }
{
    match wanted {
        Some(id) => u16::from_le_bytes([slot[0], slot[1]]) == id,
        None => true,
    }
}

/// The entry in a slot, if it counts and is wanted. Most slots have other ids, so the id is read
/// before the CRC.
fn wanted_entry(bytes: &[u8], unit: u32, index: u32, wanted: Option<u16>) -> Option<SlotEntry>
    requires unit { IsUnit unit }
    requires short { length bytes.now ≤ 2 ^ 15 }
    requires inside { (index + 1) * slot_size unit ≤ length bytes.now }
    ensures { result ≡ wanted_in wanted (counting_entry unit (slot_at unit bytes.now index)) }
{
    if names(wanted, slot_of(bytes, unit, index)) {
        counting_entry(bytes, unit, index)
    } else {
        None
    }
}

/// The last entry of the wanted id in the first so many slots, or the last one of all if no id is
/// given. It may be a delete. `place` is the number of the sector.
pub fn find_in(
    bytes: &[u8],
    unit: u32,
    place: u32,
    wanted: Option<u16>,
    slots: u32,
) -> Option<Found>
    requires unit { IsUnit unit }
    requires long { 16 ≤ length bytes.now }
    requires short { length bytes.now ≤ 2 ^ 15 }
    ensures { result
        ≡ option_map (placed_at place) (last_found wanted (entries_within unit bytes.now slots)) }
{
    let mut index = used_count(bytes, unit).min(slots);
    while index > 0 {
        if let Some(found) = wanted_entry(bytes, unit, index, wanted) {
            return Some(found.at(place));
        }
        index -= 1;
    }
    None
}
