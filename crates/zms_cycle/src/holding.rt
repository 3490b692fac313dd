// Searches that look at what slots say before their CRCs.
ghost use Rattle.std.specs.Prelude.{◌≡◌, ℕ, ◌+◌, ◌*◌, ◌^◌, ◌<◌, ◌≤◌, ◌↔◌, IsTrue, true, false, length, nat_lt};
ghost use Rattle.zms_cycle.specs.Entries.{entry_of, offset_of};
ghost use Rattle.zms_cycle.specs.Holding.{FindsAlike, FindsBytes, NoneNamed, NoneNames};
ghost use Rattle.zms_cycle.specs.Searches.{names};
ghost use Rattle.zms_cycle.specs.Sector.{slot_of, cycle_of, valid_slots, value_of, is_sound};

use crate::reading::{
    FIRST, SLOT, SPECIAL_ID, SlotEntry, TAIL, cycle_of, listed_entry, valid_within,
};
use crate::searching::{names, number_of, slot_below};

// Whether the bytes are the same. Names differ at their end more often than at their start, so the
// last byte is compared first.
fn is_same(one: &[u8], other: &[u8]) -> bool
    requires { length one.now ≡ length other.now }
    ensures { IsTrue result ↔ (one.now ≡ other.now) }
{
    if one.is_empty() {
        return true;
    }
    let last = one.len() - 1;
    one[last] == other[last] && one == other
}

// How long a value is by the fields of a slot.
fn len_in(fields: &[u8]) -> u16
    requires { length fields.now ≡ 16 }
    ensures { result ≡ (entry_of fields.now).len }
{
    u16::from_le_bytes([fields[2], fields[3]])
}

// Where the fields of a slot say that a longer value starts.
fn offset_in(fields: &[u8]) -> u32
    requires { length fields.now ≡ 16 }
    ensures { result ≡ offset_of (entry_of fields.now) }
{
    u32::from_le_bytes([fields[8], fields[9], fields[10], fields[11]])
}

// The id by the fields of a slot.
fn id_in(fields: &[u8]) -> u32
    requires { length fields.now ≡ 16 }
    ensures { result ≡ (entry_of fields.now).id }
{
    u32::from_le_bytes([fields[4], fields[5], fields[6], fields[7]])
}

// Whether the fields of a slot give these bytes. The CRC is not checked.
fn gives(sector: &[u8], fields: &[u8], bytes: &[u8]) -> bool
    requires { length fields.now ≡ 16 }
    ensures len { IsTrue result → (entry_of fields.now).len ≡ length bytes.now }
    ensures value { IsTrue result → value_of sector.now (entry_of fields.now) ≡ bytes.now }
    ensures each { (entry_of fields.now).len ≡ length bytes.now
        → value_of sector.now (entry_of fields.now) ≡ bytes.now → IsTrue result }
{
    let len = len_in(fields);
    let count = usize::from(len);
    if count != bytes.len() {
        return false;
    }
    if len <= TAIL {
        return is_same(&fields[8..8 + count], bytes);
    }
    let offset = offset_in(fields) as usize;
    if count > sector.len().saturating_sub(offset) {
        return false;
    }
    is_same(&sector[offset..offset + count], bytes)
}

// The first slot from one on that gives an id of the range these bytes, above the first slot that
// names another cycle. Of the CRCs only that of slot 0 is checked.
fn first_alike(sector: &[u8], from: u32, least: u32, most: u32, bytes: &[u8]) -> Option<u32>
    requires long { 48 ≤ length sector.now }
    requires short { length sector.now ≤ 2 ^ 15 }
    requires from { 2 ≤ from }
    requires listed { from ≤ length (valid_slots sector.now) + 2 }
    ensures { FindsAlike sector.now least most bytes.now from result }
{
    let Some(cycle) = cycle_of(sector) else {
        return None;
    };
    let mut end = sector.len() - from as usize * SLOT as usize;
    while end >= SLOT as usize {
        let fields = slot_below(sector, end);
        if fields[1] != cycle {
            return None;
        }
        if names(fields, least, most) && gives(sector, fields, bytes) {
            return Some(number_of(sector, end));
        }
        end -= SLOT as usize;
    }
    None
}

// Whether a slot is one of the sector's list. The first `known` slots of the list are not checked.
fn is_listed(sector: &[u8], known: u32, slot: u32) -> bool
    requires long { 48 ≤ length sector.now }
    requires short { length sector.now ≤ 2 ^ 15 }
    requires known { known ≤ length (valid_slots sector.now) }
    requires from { 2 ≤ slot }
    requires inside { (slot + 1) * 16 ≤ length sector.now }
    ensures { result ≡ nat_lt slot (length (valid_slots sector.now) + 2) }
{
    let before = slot - FIRST;
    if before < known {
        return true;
    }
    match cycle_of(sector) {
        Some(cycle) => valid_within(sector, cycle, known, slot - 1) == slot - 1,
        None => false,
    }
}

/// The first entry behind the first so many slots of a sector's list that gives an id from `least`
/// to `most` these bytes; `None` if there is none. It compares ids and bytes before CRCs, and
/// checks only the CRCs of the slots up to the entry, without the first so many and the first
/// `known`.
pub fn find_bytes(
    sector: &[u8],
    skipped: u32,
    known: u32,
    least: u32,
    most: u32,
    bytes: &[u8],
) -> Option<SlotEntry>
    requires long { 48 ≤ length sector.now }
    requires short { length sector.now ≤ 2 ^ 15 }
    requires listed { skipped ≤ length (valid_slots sector.now) }
    requires known { known ≤ length (valid_slots sector.now) }
    requires sound { is_sound sector.now ≡ true }
    ensures { FindsBytes sector.now least most bytes.now skipped result }
{
    let unchecked = skipped.max(known);
    match first_alike(
        sector,
        FIRST + skipped,
        least,
        most.min(SPECIAL_ID - 1),
        bytes,
    ) {
        Some(slot) if is_listed(sector, unchecked, slot) => listed_entry(sector, slot),
        _ => None,
    }
}

// Whether a slot from one on names the id. If not, no slot of the list does. It reads up to the
// first slot of another cycle, and checks no CRC.
fn is_named(sector: &[u8], cycle: u8, from: u32, id: u32) -> bool
    requires long { 48 ≤ length sector.now }
    requires short { length sector.now ≤ 2 ^ 15 }
    requires cycle { cycle_of sector.now ≡ Some cycle }
    requires from { 2 ≤ from }
    requires inside { from * 16 ≤ length sector.now }
    ensures { result ≡ false → NoneNamed sector.now from (length (valid_slots sector.now) + 2) id }
{
    let mut end = sector.len() - (from * SLOT) as usize;
    while end >= SLOT as usize {
        let fields = slot_below(sector, end);
        if fields[1] != cycle {
            return false;
        }
        if id_in(fields) == id {
            return true;
        }
        end -= SLOT as usize;
    }
    false
}

/// Which of two ids the slots behind the first so many of a sector's list may have: one that is
/// ruled out stands in none. Of the CRCs it checks only that of slot 0.
pub fn may_have(sector: &[u8], skipped: u32, lower: u32, upper: u32) -> (bool, bool)
    requires long { 48 ≤ length sector.now }
    requires short { length sector.now ≤ 2 ^ 15 }
    ensures lower { result.0 ≡ false → NoneNames sector.now skipped lower }
    ensures upper { result.1 ≡ false → NoneNames sector.now skipped upper }
{
    let Some(cycle) = cycle_of(sector) else {
        return (false, false);
    };
    let from = FIRST
        .saturating_add(skipped)
        .min(sector.len() as u32 / SLOT);
    let one = is_named(sector, cycle, from, lower);
    if lower == upper {
        return (one, one);
    }
    (one, is_named(sector, cycle, from, upper))
}
