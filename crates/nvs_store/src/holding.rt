// Look-ups in one sector that compare ids and bytes before CRCs.
ghost use Rattle.std.specs.Prelude.{◌≡◌, ◌+◌, ◌*◌, ◌^◌, ◌<◌, ◌≤◌, ◌&&◌, true, false, length, slice_range, nat_le, ◌==◌};
ghost use Rattle.flash_map.specs.Units.{IsUnit};
ghost use Rattle.nvs_store.specs.Entries.{entry_of};
ghost use Rattle.nvs_store.specs.Geometry.{slot_size};
ghost use Rattle.nvs_store.specs.Sector.{used_slots};
ghost use Rattle.nvs_store.specs.Holding.{FindsHolder, HasNamed};

use crate::geometry::slot_size;
use crate::scan::SlotEntry;
use crate::slots::{counting_entry, is_used};

// The id field of a slot.
fn named_id(slot: &[u8]) -> u32
    requires { 8 ≤ length slot.now }
    ensures { result ≡ (entry_of slot.now).id }
{
    u32::from(u16::from_le_bytes([slot[0], slot[1]]))
}

// Whether a slot names an id from `least` to `most` and data of this length.
fn is_candidate(slot: &[u8], least: u32, most: u32, len: usize) -> bool
    requires { 8 ≤ length slot.now }
    ensures { let e = entry_of slot.now in
        result ≡ (nat_le least e.id && nat_le e.id most && (e.len == len)) }
{
    let id = named_id(slot);
    least <= id && id <= most && usize::from(u16::from_le_bytes([slot[4], slot[5]])) == len
}

// Whether runs of one length have the same bytes. Names differ at their ends, so the last bytes
// are compared first.
fn are_same(one: &[u8], other: &[u8]) -> bool
    requires { length one.now ≡ length other.now }
    ensures same { result ≡ true → one.now ≡ other.now }
    ensures differ { result ≡ false → ¬ (one.now ≡ other.now) }
{
    let len = one.len();
    if len > 0 && one[len - 1] != other[len - 1] {
        return false;
    }
    one == other
}

// Whether the data that a slot names are these bytes of the length that it names.
fn names_bytes(bytes: &[u8], slot: &[u8], wanted: &[u8]) -> bool
    requires slot { 8 ≤ length slot.now }
    requires short { length bytes.now ≤ 2 ^ 15 }
    requires len { (entry_of slot.now).len ≡ length wanted.now }
    ensures same { let e = entry_of slot.now in
        result ≡ true → slice_range bytes.now e.offset (e.offset + e.len) ≡ wanted.now }
    ensures differ { let e = entry_of slot.now in
        result ≡ false → e.offset + e.len ≤ length bytes.now
        → ¬ (slice_range bytes.now e.offset (e.offset + e.len) ≡ wanted.now) }
{
    let start = usize::from(u16::from_le_bytes([slot[2], slot[3]]));
    let end = start + wanted.len();
    end <= bytes.len() && are_same(&bytes[start..end], wanted)
}

// Whether a slot names an id from `least` to `most` and these bytes. The CRC is not checked.
fn gives(bytes: &[u8], slot: &[u8], least: u32, most: u32, wanted: &[u8]) -> bool
    requires slot { 8 ≤ length slot.now }
    requires short { length bytes.now ≤ 2 ^ 15 }
    ensures candidate { let e = entry_of slot.now in
        result ≡ true
        → (nat_le least e.id && nat_le e.id most && (e.len == length wanted.now)) ≡ true }
    ensures same { let e = entry_of slot.now in
        result ≡ true → slice_range bytes.now e.offset (e.offset + e.len) ≡ wanted.now }
    ensures differ { let e = entry_of slot.now in
        result ≡ false
        → (nat_le least e.id && nat_le e.id most && (e.len == length wanted.now)) ≡ true
        → e.offset + e.len ≤ length bytes.now
        → ¬ (slice_range bytes.now e.offset (e.offset + e.len) ≡ wanted.now) }
{
    is_candidate(slot, least, most, wanted.len()) && names_bytes(bytes, slot, wanted)
}

/// The first entry that counts behind the first so many slots and gives an id from `least` to
/// `most` these bytes; `None` if there is none. `bytes` are those of the sector. Most slots have
/// other ids or other bytes, so the CRC is checked last.
pub fn find_holder(
    bytes: &[u8],
    unit: u32,
    skipped: u32,
    least: u32,
    most: u32,
    wanted: &[u8],
) -> Option<SlotEntry>
    requires unit { IsUnit unit }
    requires short { length bytes.now ≤ 2 ^ 15 }
    requires listed { skipped ≤ length (used_slots unit bytes.now) }
    ensures { FindsHolder unit bytes.now least most wanted.now skipped result }
{
    let size = slot_size(unit) as usize;
    let mut index = skipped + 1;
    let mut end = bytes.len().saturating_sub(index as usize * size);
    while end >= size {
        let start = end - size;
        let slot = &bytes[start..end];
        if !is_used(slot) {
            return None;
        }
        if gives(bytes, slot, least, most, wanted) {
            if let Some(found) = counting_entry(bytes, unit, index) {
                return Some(found);
            }
        }
        index += 1;
        end = start;
    }
    None
}

// Whether a used slot behind the first so many names the id. It reads down to the fence.
fn is_named(bytes: &[u8], unit: u32, skipped: u32, id: u32) -> bool
    requires unit { IsUnit unit }
    requires short { length bytes.now ≤ 2 ^ 15 }
    requires few { skipped < length bytes.now }
    ensures { HasNamed unit bytes.now id skipped result }
{
    let size = slot_size(unit) as usize;
    let mut index = skipped + 1;
    let mut end = bytes.len().saturating_sub(index as usize * size);
    while end >= size {
        let start = end - size;
        let slot = &bytes[start..end];
        if !is_used(slot) {
            return false;
        }
        if named_id(slot) == id {
            return true;
        }
        index += 1;
        end = start;
    }
    false
}

/// Whether a used slot behind the first so many has one id, and whether one has the other. It reads
/// down to the fence, and checks no CRC. `bytes` are those of the sector.
pub fn are_named(bytes: &[u8], unit: u32, skipped: u32, lower: u32, upper: u32) -> (bool, bool)
    requires unit { IsUnit unit }
    requires short { length bytes.now ≤ 2 ^ 15 }
    ensures lower { HasNamed unit bytes.now lower skipped result.0 }
    ensures upper { HasNamed unit bytes.now upper skipped result.1 }
{
    if skipped as usize >= bytes.len() {
        return (false, false);
    }
    let one = is_named(bytes, unit, skipped, lower);
    if lower == upper {
        return (one, one);
    }
    (one, is_named(bytes, unit, skipped, upper))
}
