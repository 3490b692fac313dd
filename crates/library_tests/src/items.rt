// Items in a store of either format: values that no script has, a collection by itself, and what
// only the library reads. What each call spends and leaves is another reading of the same rules.
ghost use Rattle.std.specs.Prelude.{◌≡◌, ◌+◌, ◌<◌, ◌≤◌, ◌∷◌, [], length, IfSome};
ghost use Rattle.flash_map.specs.declared.area.Geometry.{Geometry};
ghost use Rattle.flash_map.specs.declared.area.Role.TheVariants.{Nvs as nvs_role};
ghost use Rattle.nvs_format.specs.Formats.{format_of};
ghost use Rattle.nvs_gc.specs.Standing.{kept};
ghost use Rattle.item_store.specs.Listed.{format_on};
ghost use Rattle.item_store.specs.Standing.{IsStoreArea};
ghost use Rattle.item_store.specs.Stands.{StandsOn};

use crate::counted::{CountedSim, Views};
use crate::{holds, zms};
use arrayvec::ArrayString;
use flash_map::{Area, Role, WriteFault, sector_view};
use flash_sim::{Bank, Bench, Kind, Steps};
use item_store::{IdRange, LastSlots, SlotSectors, Store};
use nvs_gc::NvsOpen;
use std::alloc::Global;
use std::marker::Brand;
use std::process::Abort;
use std::sync::ledger::{Blank, Ledger};

// An id, the byte and the length of its value (a delete if there is none), the units that are
// spent, and need and live if there is no space; or 0 and 1 if the value is too long.
pub(crate) type Call = (u32, u8, usize, u64, u64, u64);

static FULL: [Call; 6] = [
    (1, 0x22, 256, 66, 0, 0),
    (2, 0x22, 256, 71, 264, 264),
    (1, 0, 0, 2, 0, 0),
    (2, 0x22, 256, 71, 0, 0),
    (1, 0, 0, 0, 0, 0),
    (3, 0, 600, 0, 0, 1),
];

static ROUNDS: [Call; 6] = [
    (1, 0x11, 100, 27, 0, 0),
    (1, 0x22, 100, 27, 0, 0),
    (1, 0x33, 100, 27, 0, 0),
    (1, 0x44, 100, 27, 0, 0),
    (1, 0x55, 100, 59, 0, 0),
    (1, 0x55, 100, 0, 0, 0),
];

// ---- calls

pub(crate) fn change<T: SlotSectors, B: Bench, L: Ledger, R: Abort>(
    rt: &R,
    bench: &mut B,
    store: &mut Store<T>,
    id: u32,
    value: &[u8],
    steps: &mut Steps<L>,
) -> (u64, u64)
    requires stands { StandsOn T.role T.format_of T.kept (B.device bench.old) store.old }
    requires ordinary { id < (format_on T.format_of (B.device bench.old) store.old.area).ids }
    ensures stands { StandsOn T.role T.format_of T.kept (B.device bench.new) store.new }
    ensures banks { (B.device bench.new).banks ≡ (B.device bench.old).banks }
{
    if value.is_empty() {
        store.delete(bench, id, steps).expect(rt, "power");
        return (0, 0);
    }
    match store.write(bench, id, value, steps) {
        Ok(()) => (0, 0),
        Err(WriteFault::NoSpace { need, live }) => (need, live),
        Err(WriteFault::TooLong) => (0, 1),
        Err(WriteFault::PowerLost) => rt.panic("power was lost"),
    }
}

pub(crate) fn puts<T: SlotSectors, B: Bench, L: Ledger, R: Abort>(
    rt: &R,
    bench: &mut B,
    store: &mut Store<T>,
    rows: &[Call],
    steps: &mut Steps<L>,
)
    requires stands { StandsOn T.role T.format_of T.kept (B.device bench.old) store.old }
    requires wide { (geometry : Geometry) → 0xFFFF ≤ (T.format_of geometry).ids }
    ensures stands { StandsOn T.role T.format_of T.kept (B.device bench.new) store.new }
    ensures banks { (B.device bench.new).banks ≡ (B.device bench.old).banks }
{
    for (id, byte, len, units, need, live) in rows {
        let id = (*id).min(0xFFFE);
        let start = bench.spent();
        let value = &[*byte; 600][..(*len).min(600)];
        let ended = change(rt, bench, store, id, value, steps);
        let spent = bench.spent().wrapping_sub(start);
        holds(rt, "put", (ended == (*need, *live)) & (spent == *units));
    }
}

// A close and a collection with power for so many units spends so many, and ends or does not.
pub(crate) fn closes<T: SlotSectors, B: Bench, L: Ledger, R: Abort>(
    rt: &R,
    bench: &mut B,
    mut store: Store<T>,
    row: (u64, u64, bool),
    steps: &mut Steps<L>,
)
    requires stands { StandsOn T.role T.format_of T.kept (B.device bench.old) store }
    ensures banks { (B.device bench.new).banks ≡ (B.device bench.old).banks }
{
    let (plan, units, ends) = row;
    let start = bench.spent();
    bench.arm(plan);
    let ended = store.close_and_collect(bench, steps).is_ok();
    let spent = bench.spent().wrapping_sub(start);
    bench.restore();
    let is_up = (ended == ends) & (store.is_up() == ends);
    holds(rt, "close", is_up & (spent == units));
}

// A mount that spends so many units.
pub(crate) fn mounted<T: SlotSectors, B: Bench, L: Ledger, R: Abort>(
    rt: &R,
    alloc: Global,
    bench: &mut B,
    area: Area,
    units: u64,
    steps: &mut Steps<L>,
) -> Store<T>
    requires { IsStoreArea T.role (B.device bench.old).banks area }
    ensures stands { StandsOn T.role T.format_of T.kept (B.device bench.new) result }
    ensures banks { (B.device bench.new).banks ≡ (B.device bench.old).banks }
{
    let start = bench.spent();
    let store = Store::<T>::mount(alloc, bench, area, steps).expect(rt, "no store");
    holds(rt, "mount", bench.spent().wrapping_sub(start) == units);
    store
}

// ---- reading

// An item, with at most so many views; no bytes stand for none.
pub(crate) fn gets<T: SlotSectors, B: Views, L: Ledger, R: Abort>(
    rt: &R,
    bench: &B,
    store: &Store<T>,
    id: u32,
    value: &[u8],
    most: u64,
    steps: &mut Steps<L>,
)
    requires { StandsOn T.role T.format_of T.kept (B.device bench.now) store.now }
{
    let start = bench.views();
    let found = store.get(bench, id, steps).unwrap_or(b"");
    let views = bench.views().wrapping_sub(start);
    holds(rt, "get", (found == value) & (views <= most));
}

// What all items cost, and their ids in order.
pub(crate) fn shows<T: SlotSectors, B: Bench, L: Ledger, R: Abort>(
    rt: &R,
    bench: &B,
    store: &Store<T>,
    cost: u64,
    ids: &[u32],
    steps: &mut Steps<L>,
)
    requires { StandsOn T.role T.format_of T.kept (B.device bench.now) store.now }
{
    let mut last = LastSlots::new();
    store.fill_last_slots(bench, &mut last, steps);
    let mut after = None;
    for id in ids {
        let reported = store.next_by(bench, &last, after, steps);
        after = store.next_id(bench, after, steps);
        holds(rt, "an id", (reported == after) & (after == Some(*id)));
    }
    let end = store.next_by(bench, &last, after, steps).is_none();
    let none = store.next_id(bench, after, steps).is_none();
    holds(
        rt,
        "cost",
        end & none & (store.live_cost(bench, steps) == cost),
    );
}

// The entries from the newest to the oldest, by sector, slot, id and length.
pub(crate) fn walks<T: SlotSectors, B: Bench, L: Ledger, R: Abort>(
    rt: &R,
    bench: &B,
    store: &Store<T>,
    rows: &[(u32, u32, u32, u32)],
    steps: &mut Steps<L>,
)
    requires { StandsOn T.role T.format_of T.kept (B.device bench.now) store.now }
{
    let sectors = store.area().sectors;
    let mut after = None;
    for row in rows {
        let placed = store.walk(bench, after, steps).expect(rt, "an entry");
        assert!(rt; placed.sector < sectors);
        let found = (placed.sector, placed.slot, placed.id, placed.len);
        holds(rt, "an entry", found == *row);
        after = Some((placed.sector, placed.slot));
    }
    holds(rt, "last", store.walk(bench, after, steps).is_none());
}

// An item of an id up to 9 has these bytes, and the item so far above it has these; no item has the
// bytes that are gone. The least bytes above those are the next.
pub(crate) fn asks<T: SlotSectors, B: Bench, L: Ledger, R: Abort>(
    rt: &R,
    bench: &B,
    store: &Store<T>,
    holder: (u32, &[u8], u32, Option<&[u8]>),
    gone: &[u8],
    next: &[u8],
    steps: &mut Steps<L>,
)
    requires stands { StandsOn T.role T.format_of T.kept (B.device bench.now) store.now }
    requires step { 0 < holder.2 }
    requires small { holder.2 < 5 }
{
    let (id, bytes, step, above) = holder;
    let ids = IdRange { least: 0, most: 9 };
    let none = store.holder_of(bench, &ids, step, gone, steps).is_none();
    let found = store
        .holder_of(bench, &ids, step, bytes, steps)
        .expect(rt, "a holder");
    holds(
        rt,
        "holder",
        none & (found.id == id) & (found.above == above),
    );
    let least = store.next_of(bench, 0, 9, Some(gone), steps);
    holds(rt, "next", least == Some(next));
}

// ---- NVS

const BANK: Bank = Bank {
    kind: Kind::Erasing,
    unit: 4,
    sector: 512,
    count: 2,
};

// The end of the second sector after the rounds: the last value's entry, gc-done, and the copy of
// the value before it.
const ROUNDS_END: [u8; 32] = *b"\x01\0\x64\0\x64\0\xFF\x25\xFF\xFF\x64\0\0\0\xFF\x7F\
    \x01\0\0\0\x64\0\xFF\x06\xFF\xFF\xFF\xFF\xFF\xFF\xFF\xFF";

// The area of both sectors.
fn both<B: Bench>(_bench: &B) -> Area
    requires { (B.device _bench.now).banks ≡ BANK ∷ [] }
    ensures { IsStoreArea nvs_role (B.device _bench.now).banks result }
{
    Area::new(ArrayString::new(), Role::Nvs, 0, 0, 2, 1)
}

fn blank<B: Bench, R: Abort>(rt: &R, alloc: Global, bench: &mut B)
    ensures { (B.device bench.new).banks ≡ BANK ∷ [] }
{
    let banks = vec![in alloc; BANK].expect(rt, "memory");
    let bank = vec![in alloc; 255u8; 1024].expect(rt, "memory");
    let bytes = vec![in alloc; bank].expect(rt, "memory");
    bench.load(alloc, banks, bytes).expect(rt, "memory");
}

// A store after these calls on erased sectors.
fn after<B: Bench, L: Ledger, R: Abort>(
    rt: &R,
    alloc: Global,
    bench: &mut B,
    rows: &[Call],
    steps: &mut Steps<L>,
) -> Store<NvsOpen>
    ensures stands { StandsOn nvs_role format_of kept (B.device bench.new) result }
    ensures banks { (B.device bench.new).banks ≡ BANK ∷ [] }
{
    blank(rt, alloc, bench);
    let area = both(bench);
    let mut store = mounted(rt, alloc, bench, area, 0, steps);
    puts(rt, bench, &mut store, rows, steps);
    store
}

fn nvs<B: Views, L: Ledger, R: Abort>(rt: &R, alloc: Global, bench: &mut B, steps: &mut Steps<L>) {
    let store = after(rt, alloc, bench, &FULL, steps);
    closes(rt, bench, store, (100, 71, true), steps);
    let area = both(bench);
    let store = mounted::<NvsOpen, B, L, R>(rt, alloc, bench, area, 0, steps);
    closes(rt, bench, store, (2, 2, false), steps);
    let area = both(bench);
    let store = mounted::<NvsOpen, B, L, R>(rt, alloc, bench, area, 69, steps);
    shows(rt, bench, &store, 264, &[2], steps);
    let store = after(rt, alloc, bench, &ROUNDS, steps);
    shows(rt, bench, &store, 108, &[1], steps);
    let (value, gone) = (&[0x55; 100], &[0x44; 100]);
    asks(rt, bench, &store, (1, value, 1, None), gone, value, steps);
    walks(rt, bench, &store, &[(1, 3, 1, 100), (1, 1, 1, 100)], steps);
    gets(rt, bench, &store, 1, value, 2, steps);
    let ends = sector_view(bench, store.area(), 1, steps).ends_with(&ROUNDS_END);
    holds(rt, "rounds", ends);
    let store = after(rt, alloc, bench, &ROUNDS[..1], steps);
    closes(rt, bench, store, (1, 1, false), steps);
}

// A look-up takes no view if the cache slot is empty, and at most two if its latest entry has the
// id; ids 1 and 65 share a cache slot.
fn few_views<B: Views, L: Ledger, R: Abort>(
    rt: &R,
    alloc: Global,
    bench: &mut B,
    steps: &mut Steps<L>,
) {
    let mut store = after(rt, alloc, bench, &ROUNDS[..1], steps);
    gets(rt, bench, &store, 2, b"", 0, steps);
    gets(rt, bench, &store, 1, &[0x11; 100], 2, steps);
    puts(rt, bench, &mut store, &[(65, 0x22, 100, 27, 0, 0)], steps);
    gets(rt, bench, &store, 65, &[0x22; 100], 2, steps);
    gets(rt, bench, &store, 1, &[0x11; 100], 100, steps);
    let calls = [(1, 0x11, 100, 27, 0, 0), (1, 0, 0, 2, 0, 0)];
    let store = after(rt, alloc, bench, &calls, steps);
    closes(rt, bench, store, (100, 5, true), steps);
    let area = both(bench);
    let store = mounted::<NvsOpen, B, L, R>(rt, alloc, bench, area, 0, steps);
    gets(rt, bench, &store, 1, b"", 0, steps);
}

// ---- the tests

fn exercise<B: Views, L: Ledger, R: Abort>(rt: &R, alloc: Global, bench: &mut B, blank: Blank)
    requires name { blank.name ≡ L.name }
    requires parts { blank.parts ≡ L.parts }
    requires some { 0 < L.parts }
{
    let mut steps = Steps::<L>::new(blank);
    nvs(rt, alloc, bench, &mut steps);
    few_views(rt, alloc, bench, &mut steps);
    zms::exercise(rt, alloc, bench, &mut steps);
}

#[test]
fn items(rt: HostRuntime) {
    let alloc = rt.alloc();
    let mut sim = CountedSim::new(alloc);
    exercise::<CountedSim, Brand, HostRuntime>(&rt, alloc, &mut sim, Blank::new(1));
}
