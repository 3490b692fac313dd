// How a sector reads.
ghost use Rattle.std.specs.Prelude.{◌≡◌, ◌+◌, ◌*◌, ◌^◌, ◌<◌, ◌≤◌, ◌&&◌, ◌==◌, ◌-◌, min, max, length, false, Some, None, IsSome, if◌then◌else◌};
ghost use Rattle.std.specs.List.{list_all};
ghost use Rattle.std.specs.Option.{option_and_then, option_map_or};
ghost use Rattle.flash_map.specs.Area.{sector_bytes};
ghost use Rattle.item_laws.specs.Slots.{used_slots};
ghost use Rattle.zms_cycle.specs.Areas.{IsZmsSector, kind_on};
ghost use Rattle.zms_cycle.specs.Entries.{entry_of, decoded, offset_of, is_special, mark_of, is_empty, is_close, is_done};
ghost use Rattle.zms_cycle.specs.Sector.{slot_of, is_valid_under, is_valid, cycle_of, valid_slots, holds_close, is_closed, entry_in, value_end, data_len, cost, capacity, written, data_end, is_fresh, can_close};
ghost use Rattle.zms_cycle.specs.States.{state_of, IsOpenedOn};

use crate::{ZEntry, decode_zentry, zentry_fields};
use crc8_entry::checks;
use flash_map::{Area, area_view, geometry, is_erased, padded, trimmed_len};
use flash_sim::{Flash, Kind, Steps};
use std::sync::ledger::Ledger;

/// The bytes of a slot, which is one unit.
pub const SLOT: u32 = 16;

/// The bytes of an entry's tail. A value of at most so many bytes stands in its entry.
pub const TAIL: u16 = 8;

/// Where the tail begins in an entry, in bytes.
pub const TAIL_AT: u32 = 8;

// The id of entries that hold no value.
pub(crate) const SPECIAL_ID: u32 = 0xFFFF_FFFF;

/// The first slot of entries.
pub const FIRST: u32 = 2;

// The slots that values and their entries leave: for empty, close, gc-done, one delete and the
// guard.
const KEPT_SLOTS: u32 = 5;

/// How a sector reads.
#[derive(Clone, Copy, PartialEq, Eq)]
pub enum SectorState {
    /// Slot 0 holds no empty entry.
    Blank,
    /// Slot 0 holds an empty entry.
    Used {
        /// The cycle of the empty entry.
        cycle: u8,
        /// Whether the close entry stands in slot 1.
        closed: bool,
        /// How many slots from slot 2 on are valid.
        slots: u32,
        /// Where the next value goes, in bytes; the last number of 32 bits stands for all above it.
        data_end: u32,
        /// Whether gc-done stands in the sector.
        gc_done: bool,
    },
}

/// An ordinary entry, and its slot.
#[derive(Clone, Copy, PartialEq, Eq)]
pub struct SlotEntry {
    /// The number of the slot.
    pub slot: u32,
    /// What the slot holds.
    pub entry: ZEntry,
}

// The last four bytes of a special entry's tail.
fn mark_of(entry: &ZEntry) -> u32
    ensures { result ≡ mark_of entry.now }
{
    u32::from_le_bytes([entry.tail[4], entry.tail[5], entry.tail[6], entry.tail[7]])
}

fn is_zero(bytes: &[u8]) -> bool
    ensures { result ≡ list_all (λ byte. byte == 0) bytes.now }
{
    bytes.iter().all(|byte| *byte == 0)
}

// Whether the fields of a slot are those of an empty entry. The CRC is not checked.
#[tactic(auto, unfolding(crate::specs::Entries::is_empty))]
fn is_empty(fields: &[u8]) -> bool
    requires { length fields.now ≡ 16 }
    ensures { result ≡ is_empty (entry_of fields.now) }
{
    u32::from_le_bytes([fields[4], fields[5], fields[6], fields[7]]) == SPECIAL_ID
        && u16::from_le_bytes([fields[2], fields[3]]) == 0xFFFF
        && is_zero(&fields[8..16])
}

// Whether they are those of a close entry.
#[tactic(auto, unfolding(crate::specs::Entries::is_close))]
fn is_close(fields: &[u8]) -> bool
    requires { length fields.now ≡ 16 }
    ensures { result ≡ is_close (entry_of fields.now) }
{
    u32::from_le_bytes([fields[4], fields[5], fields[6], fields[7]]) == SPECIAL_ID
        && u16::from_le_bytes([fields[2], fields[3]]) == 0
        && u32::from_le_bytes([fields[12], fields[13], fields[14], fields[15]]) == 1
}

#[tactic(auto, unfolding(crate::specs::Entries::is_done))]
fn is_done(entry: &ZEntry) -> bool
    ensures { result ≡ is_done entry.now }
{
    entry.id == SPECIAL_ID && entry.len == 0 && mark_of(entry) == 2
}

/// The bytes of a slot.
pub fn slot_of(sector: &[u8], slot: u32) -> &[u8]
    requires { (slot + 1) * 16 ≤ length sector.now }
    ensures bytes { result.now ≡ (slot_of sector.now slot).bytes }
    ensures len { length result.now ≡ 16 }
{
    let start = sector.len() - (slot as usize + 1) * SLOT as usize;
    &sector[start..start + SLOT as usize]
}

// The entry in a slot, if it checks.
fn entry_at(sector: &[u8], slot: u32) -> Option<ZEntry>
    requires { (slot + 1) * 16 ≤ length sector.now }
    ensures { result ≡ decoded (slot_of sector.now slot).bytes }
{
    decode_zentry(slot_of(sector, slot))
}

// Whether the entry was put in this cycle.
pub(crate) fn is_of_cycle(entry: &Option<ZEntry>, cycle: u8) -> bool
    ensures { result ≡ option_map_or (λ e. e.cycle == cycle) entry.now false }
{
    match entry {
        Some(entry) => entry.cycle == cycle,
        None => false,
    }
}

/// The cycle of the empty entry in slot 0; `None` if there is none.
pub fn cycle_of(sector: &[u8]) -> Option<u8>
    requires { 16 ≤ length sector.now }
    ensures { result ≡ cycle_of sector.now }
{
    let fields = slot_of(sector, 0);
    if !is_empty(fields) {
        return None;
    }
    if !checks(&fields[1..], fields[0]) {
        return None;
    }
    Some(fields[1])
}

// Whether a slot has an entry of this cycle. The cycle is compared before the CRC.
fn is_valid(sector: &[u8], slot: u32, cycle: u8) -> bool
    requires { (slot + 1) * 16 ≤ length sector.now }
    ensures { result ≡ is_valid_under cycle (slot_of sector.now slot) }
{
    let fields = slot_of(sector, slot);
    if fields[1] != cycle {
        return false;
    }
    checks(&fields[1..], fields[0])
}

// Whether slot 1 closes a sector of this cycle.
pub(crate) fn is_closed(sector: &[u8], cycle: u8) -> bool
    requires { 32 ≤ length sector.now }
    ensures { result
        ≡ (is_valid_under cycle (slot_of sector.now 1) && holds_close (slot_of sector.now 1)) }
{
    if !is_close(slot_of(sector, 1)) {
        return false;
    }
    is_valid(sector, 1, cycle)
}

/// How many of the first so many slots from slot 2 on are valid under the cycle, before the first
/// that is not. The first `known` are valid and not checked again.
pub fn valid_within(sector: &[u8], cycle: u8, known: u32, limit: u32) -> u32
    requires short { length sector.now ≤ 2 ^ 15 }
    requires inside { (limit + 2) * 16 ≤ length sector.now }
    requires known { known ≤ length (used_slots (is_valid (Some cycle)) 2 16 sector.now) }
    requires fewer { known ≤ limit }
    ensures { result ≡ min limit (length (used_slots (is_valid (Some cycle)) 2 16 sector.now)) }
{
    for valid in known..limit {
        if !is_valid(sector, FIRST + valid, cycle) {
            return valid;
        }
    }
    limit
}

// How many slots from slot 2 on are valid under the cycle.
pub(crate) fn valid_count(sector: &[u8], cycle: u8) -> u32
    requires long { 48 ≤ length sector.now }
    requires short { length sector.now ≤ 2 ^ 15 }
    ensures count { result ≡ length (used_slots (is_valid (Some cycle)) 2 16 sector.now) }
    ensures fits { (result + 2) * 16 ≤ length sector.now }
{
    valid_within(sector, cycle, 0, sector.len() as u32 / SLOT - FIRST)
}

// The entry of a slot, unless it is a special one.
fn ordinary(entry: Option<ZEntry>, slot: u32) -> Option<SlotEntry>
    ensures { result
        ≡ option_and_then
        (λ e. if is_special e then None else Some (record { slot = slot; entry = e })) entry }
{
    match entry {
        Some(entry) if entry.id != SPECIAL_ID => Some(SlotEntry { slot, entry }),
        _ => None,
    }
}

/// The entry in a slot, if its CRC matches and it is not a special one.
pub fn entry_in(sector: &[u8], slot: u32) -> Option<SlotEntry>
    requires { (slot + 1) * 16 ≤ length sector.now }
    ensures { result ≡ entry_in (slot_of sector.now slot) }
{
    ordinary(entry_at(sector, slot), slot)
}

// The entry in a slot of a sector's list. A slot of the list has a CRC that matches, so it is not
// checked again.
fn listed_at(sector: &[u8], slot: u32) -> ZEntry
    requires from { 2 ≤ slot }
    requires listed { slot < length (valid_slots sector.now) + 2 }
    ensures { decoded (slot_of sector.now slot).bytes ≡ Some result }
{
    zentry_fields(slot_of(sector, slot))
}

/// The entry in a slot of a sector's list, unless it is a special one.
pub fn listed_entry(sector: &[u8], slot: u32) -> Option<SlotEntry>
    requires from { 2 ≤ slot }
    requires listed { slot < length (valid_slots sector.now) + 2 }
    ensures { result ≡ entry_in (slot_of sector.now slot) }
{
    ordinary(Some(listed_at(sector, slot)), slot)
}

fn holds_done(entry: &Option<ZEntry>) -> bool
    ensures { result ≡ option_map_or is_done entry.now false }
{
    match entry {
        Some(entry) => is_done(entry),
        None => false,
    }
}

/// Where a value of more than 8 bytes starts, in bytes from the start of the sector.
pub fn offset_of(entry: &ZEntry) -> u32
    ensures { result ≡ offset_of entry.now }
{
    u32::from_le_bytes([entry.tail[0], entry.tail[1], entry.tail[2], entry.tail[3]])
}

/// The bytes that a value of this length takes up besides its entry.
#[tactic(auto, unfolding(crate::specs::Sector::data_len))]
pub fn data_len(len: u16) -> u32
    ensures value { result ≡ data_len len }
    ensures small { result < 2 ^ 17 }
{
    if len <= TAIL {
        0
    } else {
        padded(SLOT, u32::from(len))
    }
}

/// The bytes that a value of this length and its entry take up.
pub fn cost(len: u16) -> u32
    ensures value { result ≡ cost len }
    ensures small { result < 2 ^ 18 }
{
    SLOT + data_len(len)
}

/// The bytes that a sector of this size, in bytes, has for values and their entries.
pub fn capacity(size: u32) -> u32
    ensures { result ≡ capacity size }
{
    size.saturating_sub(KEPT_SLOTS * SLOT)
}

// The end of the value that an entry names.
#[tactic(auto, unfolding(crate::specs::Sector::value_end))]
fn value_end(found: &SlotEntry) -> u64
    ensures value { result ≡ value_end found.now }
    ensures small { result < 2 ^ 33 }
{
    let len = found.entry.len;
    if len <= TAIL {
        0
    } else {
        u64::from(offset_of(&found.entry)) + u64::from(padded(SLOT, u32::from(len)))
    }
}

// The same of an entry, if there is one.
fn end_of(found: &Option<SlotEntry>) -> u64
    ensures value { result ≡ option_map_or value_end found.now 0 }
    ensures small { result < 2 ^ 33 }
{
    match found {
        Some(found) => value_end(found),
        None => 0,
    }
}

fn len_of(found: &Option<SlotEntry>) -> u64
    ensures value { result ≡ option_map_or (λ f. data_len f.entry.len) found.now 0 }
    ensures small { result < 2 ^ 17 }
{
    match found {
        Some(found) => u64::from(data_len(found.entry.len)),
        None => 0,
    }
}

// The end of what is written under the slots of a used sector with so many of them, by the kind of
// its bank.
fn written(sector: &[u8], slots: u32, kind: Kind) -> u32
    requires long { 48 ≤ length sector.now }
    requires short { length sector.now ≤ 2 ^ 15 }
    requires used { IsSome (cycle_of sector.now) }
    requires slots { slots ≡ length (valid_slots sector.now) }
    ensures value { result ≡ written kind sector.now }
    ensures small { result ≤ 2 ^ 15 }
{
    match kind {
        Kind::Rewritable => 0,
        Kind::Erasing => {
            let low = sector.len() - (slots + FIRST) as usize * SLOT as usize;
            padded(SLOT, trimmed_len(&sector[..low]) as u32)
        }
    }
}

// How far a sector of this cycle is filled, on a bank of this kind.
fn used_state(sector: &[u8], cycle: u8, kind: Kind) -> SectorState
    requires long { 48 ≤ length sector.now }
    requires short { length sector.now ≤ 2 ^ 15 }
    requires cycle { cycle_of sector.now ≡ Some cycle }
    ensures { result ≡ state_of kind sector.now }
{
    let slots = valid_count(sector, cycle);
    let written = written(sector, slots, kind);
    let mut ends = 0;
    let mut lens = 0;
    let mut gc_done = false;
    for slot in FIRST..FIRST + slots {
        let entry = Some(listed_at(sector, slot));
        let found = ordinary(entry, slot);
        ends = end_of(&found).max(ends);
        lens += len_of(&found);
        gc_done |= holds_done(&entry);
    }
    SectorState::Used {
        cycle,
        closed: is_closed(sector, cycle),
        slots,
        data_end: ends
            .max(lens)
            .max(u64::from(written))
            .min(u64::from(u32::MAX)) as u32,
        gc_done,
    }
}

/// How the bytes of a sector read, on a bank of this kind.
pub fn read_sector(sector: &[u8], kind: Kind) -> SectorState
    requires long { 48 ≤ length sector.now }
    requires short { length sector.now ≤ 2 ^ 15 }
    ensures { result ≡ state_of kind sector.now }
{
    match cycle_of(sector) {
        Some(cycle) => used_state(sector, cycle, kind),
        None => SectorState::Blank,
    }
}

/// How a sector of the area reads. It counts one step.
pub fn state<F: Flash, L: Ledger>(
    flash: &F,
    area: &Area,
    sector: u32,
    steps: &mut Steps<L>,
) -> SectorState
    requires { IsZmsSector (F.device flash.now) area.now sector }
    ensures state { let d = F.device flash.now in
        result ≡ state_of (kind_on d area.now) (sector_bytes d area.now sector) }
    ensures step { steps.new ≡ steps.old + 1 }
{
    let geometry = geometry(flash, area);
    let bytes = area_view(flash, area, sector, 0, geometry.sector, steps);
    read_sector(bytes, geometry.kind)
}

/// Whether a sector holds its empty entry, and FF everywhere else.
#[tactic(auto, unfolding(crate::specs::Sector::is_fresh))]
pub fn is_fresh(sector: &[u8]) -> bool
    requires { 16 ≤ length sector.now }
    ensures { result ≡ is_fresh sector.now }
{
    match cycle_of(sector) {
        Some(_) => is_erased(&sector[..sector.len() - SLOT as usize]),
        None => false,
    }
}

/// Whether the close entry can be programmed, on a bank of this kind.
#[tactic(auto, unfolding(crate::specs::Sector::can_close))]
pub fn can_close(sector: &[u8], kind: Kind) -> bool
    requires { 32 ≤ length sector.now }
    ensures { result ≡ can_close kind sector.now }
{
    match kind {
        Kind::Rewritable => true,
        Kind::Erasing => is_erased(slot_of(sector, 1)),
    }
}

// The cycle of a sector; `None` if it is blank.
pub(crate) fn sector_cycle<F: Flash, L: Ledger>(
    flash: &F,
    area: &Area,
    sector: u32,
    steps: &mut Steps<L>,
) -> Option<u8>
    requires { IsZmsSector (F.device flash.now) area.now sector }
    ensures { result ≡ cycle_of (sector_bytes (F.device flash.now) area.now sector) }
{
    let size = geometry(flash, area).sector;
    cycle_of(area_view(flash, area, sector, 0, size, steps))
}

/// What a step has to know of a used sector.
#[derive(Clone, Copy)]
pub struct Opened {
    /// The cycle of its empty entry.
    pub cycle: u8,
    /// How many of its slots from slot 2 on are valid.
    pub slots: u32,
    /// Where the next value goes, in bytes; the last number of 32 bits stands for all above it.
    pub data_end: u32,
}

// That of a sector, read from it.
pub(crate) fn opened_sector<F: Flash, L: Ledger>(
    flash: &F,
    area: &Area,
    sector: u32,
    steps: &mut Steps<L>,
) -> Opened
    requires zms { IsZmsSector (F.device flash.now) area.now sector }
    requires used { IsSome (cycle_of (sector_bytes (F.device flash.now) area.now sector)) }
    ensures opened { IsOpenedOn (F.device flash.now) area.now sector result }
    ensures step { steps.new ≡ steps.old + 1 }
{
    match state(flash, area, sector, steps) {
        SectorState::Used {
            cycle,
            slots,
            data_end,
            ..
        } => Opened {
            cycle,
            slots,
            data_end,
        },
        SectorState::Blank => unreachable!(),
    }
}
