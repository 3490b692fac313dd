// The entries of one sector, over its bytes.
ghost use Rattle.std.specs.Prelude.{◌≡◌, ◌+◌, ◌*◌, ◌^◌, ◌<◌, ◌≤◌, ℕ, IfSome, List, ◌++◌, length, map, true, Some};
ghost use Rattle.std.specs.Option.{option_map, option_to_list};
ghost use Rattle.flash_map.specs.declared.area.Geometry.{Geometry as geometry_type};
ghost use Rattle.zms_cycle.specs.Entries.{entry_of as fields_of, offset_of};
ghost use Rattle.zms_cycle.specs.Sector.{slot_of, cycle_of, entry_in, valid_slots, value_of};
ghost use Rattle.zms_format.specs.Formats.{entry_of, format_of};
ghost use Rattle.item_store.specs.SectorFormat.{placed_at, slots};
ghost use Rattle.item_store.specs.declared.entry.Placed.{Placed as PlacedEntry};

use item_store::{Notes, Placed};
use zms_cycle::{
    FIRST, SLOT, SlotEntry, TAIL, TAIL_AT, cycle_of, listed_entry, offset_of, slot_of, valid_within,
};

// The entry in this sector, as `item_store` sees it.
pub(crate) fn placed(found: SlotEntry, sector: u32) -> Placed
    ensures placed { result ≡ placed_at sector (entry_of found) }
    ensures wide { result.id < 2 ^ 32 }
{
    Placed {
        sector,
        slot: found.slot,
        id: found.entry.id,
        len: u32::from(found.entry.len),
    }
}

// The bytes that an entry of a sector gives its id: they stand in its tail, or where it says.
pub(crate) fn value_in<'a>(bytes: &'a [u8], found: &SlotEntry) -> &'a [u8]
    requires short { length bytes.now ≤ 2 ^ 15 }
    requires inside { (found.now.slot + 1) * 16 ≤ length bytes.now }
    requires there { entry_in (slot_of bytes.now found.now.slot) ≡ Some found.now }
    requires ends { 8 < found.now.entry.len
        → offset_of found.now.entry + found.now.entry.len ≤ length bytes.now }
    ensures { result.now ≡ value_of bytes.now found.now.entry }
{
    let len = usize::from(found.entry.len);
    if found.entry.len > TAIL {
        let offset = offset_of(&found.entry) as usize;
        return &bytes[offset..offset + len];
    }
    let start = bytes.len() - (found.slot + 1) as usize * SLOT as usize + TAIL_AT as usize;
    &bytes[start..start + len]
}

// The id field of a slot. The CRC is not checked.
fn id_of(slot: &[u8]) -> u32
    requires { length slot.now ≡ 16 }
    ensures { result ≡ (fields_of slot.now).id }
{
    u32::from_le_bytes([slot[4], slot[5], slot[6], slot[7]])
}

// The same of a slot of a sector with these bytes.
pub(crate) fn named_id(bytes: &[u8], slot: u32) -> u32
    requires short { length bytes.now ≤ 2 ^ 15 }
    requires inside { (slot + 1) * 16 ≤ length bytes.now }
    ensures { IfSome (option_map entry_of (entry_in (slot_of bytes.now slot)))
        (λ e. e.id ≡ result) }
{
    let start = bytes.len() - (slot + 1) as usize * SLOT as usize;
    id_of(&bytes[start..start + SLOT as usize])
}

// How long a value is by the fields of a slot. The CRC is not checked.
fn len_of(slot: &[u8]) -> u32
    requires { length slot.now ≡ 16 }
    ensures { result ≡ (fields_of slot.now).len }
{
    u32::from(u16::from_le_bytes([slot[2], slot[3]]))
}

// Whether the entry in a slot changes no note, if there is one. The CRC is not checked.
fn is_moot<N: Notes>(bytes: &[u8], slot: u32, notes: &N) -> bool
    requires short { length bytes.now ≤ 2 ^ 15 }
    requires inside { (slot + 1) * 16 ≤ length bytes.now }
    ensures { (geometry : geometry_type) (place : ℕ) (start : N) (before : List PlacedEntry)
        → let k = format_of geometry in result ≡ true → N.noted start k.ids notes.now before
        → N.noted start k.ids notes.now
        (before
        ++ option_to_list (option_map (placed_at place) (k.in_slot bytes.now slot))) }
{
    let start = bytes.len() - (slot + 1) as usize * SLOT as usize;
    let fields = &bytes[start..start + SLOT as usize];
    notes.is_moot(id_of(fields), len_of(fields))
}

// Notes the entry in a slot of a sector's list, if there is one.
fn note_listed<N: Notes>(bytes: &[u8], place: u32, slot: u32, notes: &mut N)
    requires from { 2 ≤ slot }
    requires listed { slot < length (valid_slots bytes.now) + 2 }
    ensures { (geometry : geometry_type) (start : N) (before : List PlacedEntry)
        → let k = format_of geometry in N.noted start k.ids notes.old before
        → N.noted start k.ids notes.new
        (before
        ++ option_to_list (option_map (placed_at place) (k.in_slot bytes.now slot))) }
{
    match listed_entry(bytes, slot) {
        Some(found) => notes.note(&placed(found, place)),
        None => {}
    }
}

// How many slots of the list of a sector of this cycle are known once the slots up to this one were
// checked, as far as these are of the list. The first `known` slots are not checked.
fn known_to(bytes: &[u8], cycle: u8, known: u32, slot: u32) -> u32
    requires short { length bytes.now ≤ 2 ^ 15 }
    requires cycle { cycle_of bytes.now ≡ Some cycle }
    requires known { known ≤ length (valid_slots bytes.now) }
    requires from { 2 ≤ slot }
    requires inside { (slot + 1) * 16 ≤ length bytes.now }
    ensures known { result ≤ length (valid_slots bytes.now) }
    ensures listed { slot < length (valid_slots bytes.now) + 2 → slot ≤ result + 1 }
{
    let before = slot - FIRST;
    if before < known {
        return known;
    }
    valid_within(bytes, cycle, known, slot - 1)
}

// Notes the entry in a slot, if the slot is one of the list of a sector of this cycle. The CRCs of
// the slots up to one that changes a note are checked, without the first `known`. It returns how
// many slots of the list are known then.
fn note_slot<N: Notes>(
    bytes: &[u8],
    cycle: u8,
    known: u32,
    place: u32,
    slot: u32,
    notes: &mut N,
) -> u32
    requires short { length bytes.now ≤ 2 ^ 15 }
    requires cycle { cycle_of bytes.now ≡ Some cycle }
    requires known { known ≤ length (valid_slots bytes.now) }
    requires from { 2 ≤ slot }
    requires inside { (slot + 1) * 16 ≤ length bytes.now }
    ensures known { result ≤ length (valid_slots bytes.now) }
    ensures noted { (geometry : geometry_type) (start : N) (before : List PlacedEntry)
        → slot < length (valid_slots bytes.now) + 2
        → let k = format_of geometry in N.noted start k.ids notes.old before
        → N.noted start k.ids notes.new
        (before
        ++ option_to_list (option_map (placed_at place) (k.in_slot bytes.now slot))) }
    ensures passed { length (valid_slots bytes.now) + 2 ≤ slot → notes.new ≡ notes.old }
{
    if is_moot(bytes, slot, notes) {
        return known;
    }
    let valid = known_to(bytes, cycle, known, slot);
    if valid < slot - 1 {
        return valid;
    }
    note_listed(bytes, place, slot, notes);
    valid
}

// Notes the entries of a sector with these bytes, in the order of its list. It reads up to the
// first slot of another cycle, and checks no CRC behind the last slot that changes a note, and none
// of the first `known` slots of the list.
pub(crate) fn note_entries<N: Notes>(bytes: &[u8], place: u32, known: u32, notes: &mut N)
    requires long { 48 ≤ length bytes.now }
    requires short { length bytes.now ≤ 2 ^ 15 }
    requires known { known ≤ length (valid_slots bytes.now) }
    ensures { (geometry : geometry_type) (start : N) (before : List PlacedEntry)
        → let k = format_of geometry in N.noted start k.ids notes.old before
        → N.noted start k.ids notes.new
        (before ++ map (placed_at place) ((slots k).entries bytes.now)) }
{
    let Some(cycle) = cycle_of(bytes) else {
        return;
    };
    let mut checked = known;
    for slot in FIRST..bytes.len() as u32 / SLOT {
        let fields = slot_of(bytes, slot);
        if fields[1] != cycle {
            return;
        }
        checked = note_slot(bytes, cycle, checked, place, slot, notes);
    }
}
