// What a look-up reads of a sector: how long its list is, whether it is closed, and how far it has
// to be read for the ids of a range.
ghost use Rattle.std.specs.Prelude.{◌≡◌, ℕ, ◌+◌, ◌*◌, ◌^◌, ◌<◌, ◌≤◌, ◌&&◌, nat_le, false, length, Some};
ghost use Rattle.item_laws.specs.Slots.{used_slots};
ghost use Rattle.zms_cycle.specs.Entries.{entry_of};
ghost use Rattle.zms_cycle.specs.Holding.{EndsSlot, number_below};
ghost use Rattle.zms_cycle.specs.Searches.{names};
ghost use Rattle.zms_cycle.specs.Sector.{slot_of, is_valid, valid_slots, is_closed};

use crate::reading::{FIRST, SLOT, cycle_of, is_closed, slot_of, valid_count, valid_within};

/// Whether a sector is closed.
pub fn has_close(sector: &[u8]) -> bool
    requires { 32 ≤ length sector.now }
    ensures { result ≡ is_closed sector.now }
{
    match cycle_of(sector) {
        Some(cycle) => is_closed(sector, cycle),
        None => false,
    }
}

/// How many slots the list of a sector has.
pub fn listed_slots(sector: &[u8]) -> u32
    requires long { 48 ≤ length sector.now }
    requires short { length sector.now ≤ 2 ^ 15 }
    ensures { result ≡ length (valid_slots sector.now) }
{
    match cycle_of(sector) {
        Some(cycle) => valid_count(sector, cycle),
        None => 0,
    }
}

// Whether the id field of a slot is from `least` to `most`. The CRC is not checked.
pub(crate) fn names(slot: &[u8], least: u32, most: u32) -> bool
    requires { length slot.now ≡ 16 }
    ensures { result ≡ (nat_le least (entry_of slot.now).id && nat_le (entry_of slot.now).id most) }
{
    let id = u32::from_le_bytes([slot[4], slot[5], slot[6], slot[7]]);
    least <= id && id <= most
}

// The number of the slot that ends so many bytes above the start of a sector.
pub(crate) fn number_of(sector: &[u8], end: usize) -> u32
    requires inside { EndsSlot sector.now end }
    requires short { length sector.now ≤ 2 ^ 15 }
    ensures { result ≡ number_below sector.now end }
{
    (sector.len() - end) as u32 / SLOT
}

// The fields of that slot. A search goes from slot to slot by where they end, which takes fewer
// instructions than by their numbers.
pub(crate) fn slot_below(sector: &[u8], end: usize) -> &[u8]
    requires inside { EndsSlot sector.now end }
    requires room { 16 ≤ end }
    ensures bytes { result.now ≡ (slot_of sector.now (number_below sector.now end)).bytes }
    ensures len { length result.now ≡ 16 }
{
    &sector[end - SLOT as usize..end]
}

// How many slots from slot 2 on have to be read for the ids from `least` to `most`: up to the last
// one that names one of them, above the first that names another cycle. No CRC is checked.
fn reach_of(sector: &[u8], cycle: u8, least: u32, most: u32) -> u32
    requires long { 48 ≤ length sector.now }
    requires short { length sector.now ≤ 2 ^ 15 }
    ensures fits { (result + 2) * 16 ≤ length sector.now }
    ensures others { (k : ℕ) → result + 2 ≤ k
        → k < length (used_slots (is_valid (Some cycle)) 2 16 sector.now) + 2
        → names least most (slot_of sector.now k) ≡ false }
{
    let mut reach = 0;
    let mut end = sector.len() - (FIRST * SLOT) as usize;
    while end >= SLOT as usize {
        let fields = slot_below(sector, end);
        if fields[1] != cycle {
            return reach;
        }
        if names(fields, least, most) {
            reach = number_of(sector, end) - 1;
        }
        end -= SLOT as usize;
    }
    reach
}

/// How many slots of a sector's list have to be read for the ids from `least` to `most`: those
/// behind them name other ids. The first `known` slots of the list are not checked.
pub fn reach_in(sector: &[u8], known: u32, least: u32, most: u32) -> u32
    requires long { 48 ≤ length sector.now }
    requires short { length sector.now ≤ 2 ^ 15 }
    requires known { known ≤ length (valid_slots sector.now) }
    ensures within { result ≤ length (valid_slots sector.now) }
    ensures others { (k : ℕ) → result + 2 ≤ k → k < length (valid_slots sector.now) + 2
        → names least most (slot_of sector.now k) ≡ false }
{
    match cycle_of(sector) {
        Some(cycle) => {
            let reach = reach_of(sector, cycle, least, most);
            valid_within(sector, cycle, known.min(reach), reach)
        }
        None => 0,
    }
}

/// How many of the first so many slots from slot 2 on have to be read for the ids from `least` to
/// `most`: those behind them name other ids. It reads from the last one back, and checks no CRC.
pub fn reach_within(sector: &[u8], slots: u32, least: u32, most: u32) -> u32
    requires short { length sector.now ≤ 2 ^ 15 }
    requires inside { (slots + 2) * 16 ≤ length sector.now }
    ensures few { result ≤ slots }
    ensures others { (k : ℕ) → result + 2 ≤ k → k < slots + 2
        → names least most (slot_of sector.now k) ≡ false }
{
    let mut reach = slots;
    while reach > 0 {
        if names(slot_of(sector, reach + 1), least, most) {
            return reach;
        }
        reach -= 1;
    }
    reach
}
