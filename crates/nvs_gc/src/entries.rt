// The entries of one sector, over its bytes.
ghost use Rattle.std.specs.Prelude.{◌≡◌, ◌+◌, ◌*◌, ◌^◌, ◌<◌, ◌≤◌, ℕ, IfSome, List, ◌++◌, length, map, slice_range, true};
ghost use Rattle.std.specs.Option.{option_map, option_to_list};
ghost use Rattle.flash_map.specs.Units.{IsUnit};
ghost use Rattle.item_laws.specs.Live.{last_in};
ghost use Rattle.nvs_store.specs.Entries.{entry_of as fields_of};
ghost use Rattle.nvs_store.specs.Geometry.{slot_size};
ghost use Rattle.nvs_format.specs.Formats.{placed_of, format_in};
ghost use Rattle.item_store.specs.SectorFormat.{placed_at, slots};
ghost use Rattle.item_store.specs.declared.entry.Placed.{Placed as PlacedEntry};
ghost use Rattle.item_store.specs.Lasts.{AreOthers};

use item_store::{Notes, Placed};
use nvs_store::{Found, counting_entry, find_in, slot_size, used_count};

// More than a sector has.
const ALL_SLOTS: u32 = 0x8000;

/// The entry at its place, as `item_store` sees it.
pub fn placed(own: Found) -> Placed
    ensures value { result ≡ placed_of own }
    ensures small { result.id < 2 ^ 16 }
    ensures short { result.len < 2 ^ 16 }
{
    Placed {
        sector: own.sector,
        slot: own.slot,
        id: own.entry.id as u32,
        len: own.entry.len as u32,
    }
}

/// The last entry of an id in a sector with these bytes. An id of more than two bytes has none.
pub fn last_of(bytes: &[u8], unit: u32, place: u32, id: u32) -> Option<Placed>
    requires unit { IsUnit unit }
    requires long { 16 ≤ length bytes.now }
    requires short { length bytes.now ≤ 2 ^ 15 }
    ensures { let s = slots (format_in unit) in
        result ≡ option_map (placed_at place) (last_in s place id (s.entries bytes.now)) }
{
    if id > 0xFFFF {
        return None;
    }
    match find_in(bytes, unit, place, Some(id as u16), ALL_SLOTS) {
        Some(last) => Some(placed(last)),
        None => None,
    }
}

/// The bytes of the entry in a slot; none if there is no entry.
pub fn bytes_in(bytes: &[u8], unit: u32, slot: u32) -> &[u8]
    requires unit { IsUnit unit }
    requires short { length bytes.now ≤ 2 ^ 15 }
    requires inside { (slot + 1) * slot_size unit ≤ length bytes.now }
    ensures { result.now ≡ (format_in unit).bytes bytes.now slot }
{
    match counting_entry(bytes, unit, slot) {
        Some(found) => {
            let start = found.entry.offset as usize;
            &bytes[start..start + found.entry.len as usize]
        }
        None => &[],
    }
}

// The id field of a slot that starts at this place. The CRC is not checked.
fn id_at(bytes: &[u8], start: usize) -> u32
    requires { start + 8 ≤ length bytes.now }
    ensures value { result ≡ (fields_of (slice_range bytes.now start (start + 8))).id }
    ensures small { result < 2 ^ 16 }
{
    u16::from_le_bytes([bytes[start], bytes[start + 1]]) as u32
}

/// The id of a slot of a sector with these bytes.
pub fn named_id(bytes: &[u8], unit: u32, slot: u32) -> u32
    requires unit { IsUnit unit }
    requires short { length bytes.now ≤ 2 ^ 15 }
    requires inside { (slot + 1) * slot_size unit ≤ length bytes.now }
    ensures named { IfSome ((format_in unit).in_slot bytes.now slot) (λ e. e.id ≡ result) }
    ensures small { result < 2 ^ 16 }
{
    let size = slot_size(unit);
    id_at(bytes, bytes.len() - ((slot + 1) * size) as usize)
}

/// How many of the first so many slots of a sector with these bytes have to be read for the ids
/// from `least` to `most`. It reads the id fields, from the last slot up.
pub fn reach_in(bytes: &[u8], unit: u32, slots: u32, least: u32, most: u32) -> u32
    requires unit { IsUnit unit }
    requires short { length bytes.now ≤ 2 ^ 15 }
    requires inside { (slots + 1) * slot_size unit ≤ length bytes.now }
    ensures few { result ≤ slots }
    ensures others { AreOthers (format_in unit) bytes.now result slots least most }
{
    let size = slot_size(unit);
    let mut start = bytes.len() - ((slots + 1) * size) as usize;
    let mut left = slots;
    while left > 0 {
        let id = id_at(bytes, start);
        if least <= id && id <= most {
            return left;
        }
        start += size as usize;
        left -= 1;
    }
    0
}

// The length of data that a slot names that starts at this place. The CRC is not checked.
fn len_at(bytes: &[u8], start: usize) -> u32
    requires { start + 8 ≤ length bytes.now }
    ensures { result ≡ (fields_of (slice_range bytes.now start (start + 8))).len }
{
    u16::from_le_bytes([bytes[start + 4], bytes[start + 5]]) as u32
}

// Whether the entry in a slot changes no note, if there is one. The CRC is not checked.
fn is_moot<N: Notes>(bytes: &[u8], unit: u32, slot: u32, notes: &N) -> bool
    requires unit { IsUnit unit }
    requires short { length bytes.now ≤ 2 ^ 15 }
    requires inside { (slot + 1) * slot_size unit ≤ length bytes.now }
    ensures { (place : ℕ) (start : N) (before : List PlacedEntry) → result ≡ true
        → N.noted start 0xFFFF notes.now before
        → N.noted start 0xFFFF notes.now
        (before
        ++ option_to_list
        (option_map (placed_at place) ((format_in unit).in_slot bytes.now slot))) }
{
    let size = slot_size(unit);
    let start = bytes.len() - ((slot + 1) * size) as usize;
    notes.is_moot(id_at(bytes, start), len_at(bytes, start))
}

// Notes the entry in a slot, if there is one. The CRC of one that changes no note is not checked.
fn note_slot<N: Notes>(bytes: &[u8], unit: u32, place: u32, slot: u32, notes: &mut N)
    requires unit { IsUnit unit }
    requires short { length bytes.now ≤ 2 ^ 15 }
    requires inside { (slot + 1) * slot_size unit ≤ length bytes.now }
    ensures { (start : N) (before : List PlacedEntry) → N.noted start 0xFFFF notes.old before
        → N.noted start 0xFFFF notes.new
        (before
        ++ option_to_list
        (option_map (placed_at place) ((format_in unit).in_slot bytes.now slot))) }
{
    if is_moot(bytes, unit, slot, notes) {
        return;
    }
    match counting_entry(bytes, unit, slot) {
        Some(found) => notes.note(&placed(found.at(place))),
        None => {}
    }
}

/// Notes the entries of a sector with these bytes, in the order of its list.
pub fn note_entries<N: Notes>(bytes: &[u8], unit: u32, place: u32, notes: &mut N)
    requires unit { IsUnit unit }
    requires long { 16 ≤ length bytes.now }
    requires short { length bytes.now ≤ 2 ^ 15 }
    ensures { let s = slots (format_in unit) in
        (start : N) (before : List PlacedEntry) → N.noted start 0xFFFF notes.old before
        → N.noted start 0xFFFF notes.new
        (before ++ map (placed_at place) (s.entries bytes.now)) }
{
    for slot in 1..1 + used_count(bytes, unit) {
        note_slot(bytes, unit, place, slot, notes);
    }
}
