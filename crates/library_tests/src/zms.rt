// Items in a store of ZMS, on banks of either kind.
ghost use Rattle.std.specs.Prelude.{◌≡◌, ◌≤◌, ◌∷◌, [], length};
ghost use Rattle.flash_map.specs.declared.area.Role.TheVariants.{Zms as zms_role};
ghost use Rattle.zms_format.specs.Formats.{format_of};
ghost use Rattle.zms_store.specs.Standing.{kept};
ghost use Rattle.item_store.specs.Standing.{IsStoreArea};
ghost use Rattle.item_store.specs.Stands.{StandsOn};

use crate::holds;
use crate::items::{Call, asks, change, closes, mounted, puts, shows, walks};
use arrayvec::ArrayString;
use flash_map::{Area, Role, sector_view};
use flash_sim::{Bank, Bench, Kind, Steps};
use item_store::Store;
use std::alloc::Global;
use std::process::Abort;
use std::sync::ledger::Ledger;
use zms_store::ZmsOpen;

// On a blank bank: values, deletes, and rounds that make room.
static BLANK: [Call; 17] = [
    (1, 7, 1, 2, 0, 0),
    (1, 7, 1, 0, 0, 0),
    (1, 0, 0, 1, 0, 0),
    (1, 0, 0, 0, 0, 0),
    (5, 9, 9, 2, 0, 0),
    (2, 0, 417, 0, 0, 1),
    (8, 0x45, 195, 14, 0, 0),
    (2, 0x3B, 147, 25, 0, 0),
    (3, 0x1B, 187, 13, 0, 0),
    (8, 0, 0, 1, 0, 0),
    (4, 0xAE, 95, 18, 0, 0),
    (3, 0xFA, 167, 12, 0, 0),
    (8, 6, 24, 3, 0, 0),
    (2, 0xFD, 187, 32, 0, 0),
    (3, 0, 0, 1, 0, 0),
    (6, 1, 416, 44, 432, 400),
    (7, 3, 8, 1, 0, 0),
];

// The same on an erasing bank, where a close fills nothing.
static ERASED: [Call; 17] = [
    (1, 7, 1, 2, 0, 0),
    (1, 7, 1, 0, 0, 0),
    (1, 0, 0, 1, 0, 0),
    (1, 0, 0, 0, 0, 0),
    (5, 9, 9, 2, 0, 0),
    (2, 0, 417, 0, 0, 1),
    (8, 0x45, 195, 14, 0, 0),
    (2, 0x3B, 147, 13, 0, 0),
    (3, 0x1B, 187, 13, 0, 0),
    (8, 0, 0, 1, 0, 0),
    (4, 0xAE, 95, 14, 0, 0),
    (3, 0xFA, 167, 12, 0, 0),
    (8, 6, 24, 3, 0, 0),
    (2, 0xFD, 187, 28, 0, 0),
    (3, 0, 0, 1, 0, 0),
    (6, 1, 416, 33, 432, 400),
    (7, 3, 8, 1, 0, 0),
];

// Entries from the newest to the oldest, by sector, slot, id and length: after the values on a
// blank area, and after the collection that was cut.
static ROUNDS: [(u32, u32, u32, u32); 5] = [
    (2, 4, 7, 8),
    (2, 2, 2, 187),
    (1, 4, 8, 24),
    (1, 3, 4, 95),
    (1, 2, 5, 9),
];

static AFTER_CUT: [(u32, u32, u32, u32); 4] = [
    (2, 2, 9, 9),
    (1, 4, 8, 0),
    (1, 3, 3, 1),
    (1, 2, 7, 1),
];

// A unit, and where it stands in the bank, in bytes.
type Put = (usize, [u8; 16]);

// The empty entry and the close entry of cycle 1.
const EMPTY: [u8; 16] = *b"\x61\x01\xFF\xFF\xFF\xFF\xFF\xFF\0\0\0\0\0\0\0\0";

const CLOSE: [u8; 16] = *b"\xAC\x01\0\0\xFF\xFF\xFF\xFF\xB0\x01\0\0\x01\0\0\0";

// Ids 7, 9 and 8 in a closed sector, the second with the value 1 to 9; 7, 3 and a delete of 8 in
// the next; and a collection into the third that was cut, with an entry that is ignored.
static CUT: [Put; 13] = [
    (496, EMPTY),
    (480, CLOSE),
    (464, *b"\x32\x01\x02\0\x07\0\0\0\x11\x12\0\0\0\0\0\0"),
    (448, *b"\x46\x01\x09\0\x09\0\0\0\0\0\0\0\0\0\0\0"),
    (432, *b"\x6C\x01\x01\0\x08\0\0\0\x31\0\0\0\0\0\0\0"),
    (0, *b"\x01\x02\x03\x04\x05\x06\x07\x08\x09\0\0\0\0\0\0\0"),
    (1008, EMPTY),
    (992, CLOSE),
    (976, *b"\x29\x01\x01\0\x07\0\0\0\x21\0\0\0\0\0\0\0"),
    (960, *b"\xE8\x01\x01\0\x03\0\0\0\x41\0\0\0\0\0\0\0"),
    (944, *b"\xC3\x01\0\0\x08\0\0\0\0\0\0\0\0\0\0\0"),
    (1520, EMPTY),
    (1488, *b"\xDF\x01\x01\0\x03\0\0\0\x51\0\0\0\0\0\0\0"),
];

// An entry under a slot 2 that is not valid, which makes no sector open; and one under the guard
// slot of the open sector.
static STALE: [Put; 5] = [
    (496, EMPTY),
    (448, *b"\x70\x01\x01\0\x07\0\0\0\x11\0\0\0\0\0\0\0"),
    (1008, EMPTY),
    (976, *b"\x37\x01\x01\0\x08\0\0\0\x12\0\0\0\0\0\0\0"),
    (944, *b"\x70\x01\x01\0\x07\0\0\0\x11\0\0\0\0\0\0\0"),
];

// The end of a sector after the value of ONE and a close: a unit under its entries, the entry, the
// close entry and the empty entry.
const ONE_END: [u8; 64] =
    *b"\x6F\0\0\0\0\0\0\0\0\0\0\0\0\0\0\0\x69\x01\x09\0\x07\0\0\0\0\0\0\0\0\0\0\0\
    \x1E\x01\0\0\xFF\xFF\xFF\xFF\xD0\x01\0\0\x01\0\0\0\x61\x01\xFF\xFF\xFF\xFF\xFF\xFF\0\0\0\0\0\0\0\0";

// The end of a sector of two values that was closed, and of the one into which a value was
// collected, with gc-done.
const CLOSED_END: [u8; 64] =
    *b"\x9D\x01\x02\0\x08\0\0\0\x05\x06\0\0\0\0\0\0\x69\x01\x09\0\x07\0\0\0\0\0\0\0\0\0\0\0\
    \x29\x01\0\0\xFF\xFF\xFF\xFF\xC0\x01\0\0\x01\0\0\0\x61\x01\xFF\xFF\xFF\xFF\xFF\xFF\0\0\0\0\0\0\0\0";

const COPIED_END: [u8; 64] =
    *b"\x98\x01\0\0\xFF\xFF\xFF\xFF\x10\0\0\0\x02\0\0\0\x69\x01\x09\0\x07\0\0\0\0\0\0\0\0\0\0\0\
    \xFF\xFF\xFF\xFF\xFF\xFF\xFF\xFF\xFF\xFF\xFF\xFF\xFF\xFF\xFF\xFF\x61\x01\xFF\xFF\xFF\xFF\xFF\xFF\0\0\0\0\0\0\0\0";

const NINE: [u8; 9] = [1, 2, 3, 4, 5, 6, 7, 8, 9];

fn put_units<R: Abort>(rt: &R, image: &mut [u8], puts: &[Put])
    ensures { length image.new ≡ length image.old }
{
    for (at, unit) in puts {
        let end = at.saturating_add(16);
        image
            .get_mut(*at..end)
            .expect(rt, "a unit")
            .copy_from_slice(unit);
    }
}

// Three sectors that are erased but for these units.
fn load<B: Bench, R: Abort>(rt: &R, alloc: Global, bench: &mut B, kind: Kind, puts: &[Put])
    ensures { (B.device bench.new).banks ≡
        (record { kind = kind; unit = 16; sector = 512; count = 3 }) ∷ [] }
{
    let mut image = vec![in alloc; 255u8; 1536].expect(rt, "memory");
    put_units(rt, &mut image, puts);
    let bank = Bank {
        kind,
        unit: 16,
        sector: 512,
        count: 3,
    };
    let banks = vec![in alloc; bank].expect(rt, "memory");
    let bytes = vec![in alloc; image].expect(rt, "memory");
    bench.load(alloc, banks, bytes).expect(rt, "memory");
}

// The area of the first sectors of such a bank.
fn first<B: Bench>(_bench: &B, _kind: Kind, sectors: u32) -> Area
    requires bank { (B.device _bench.now).banks ≡
        (record { kind = _kind; unit = 16; sector = 512; count = 3 }) ∷ [] }
    requires least { 2 ≤ sectors }
    requires most { sectors ≤ 3 }
    ensures { IsStoreArea zms_role (B.device _bench.now).banks result }
{
    Area::new(ArrayString::new(), Role::Zms, 0, 0, sectors, 1)
}

// A store over the first sectors of a bank with these units.
fn over<B: Bench, L: Ledger, R: Abort>(
    rt: &R,
    alloc: Global,
    bench: &mut B,
    bank: (Kind, u32, &[Put]),
    units: u64,
    steps: &mut Steps<L>,
) -> Store<ZmsOpen>
    requires least { 2 ≤ bank.1 }
    requires most { bank.1 ≤ 3 }
    ensures stands { StandsOn zms_role format_of kept (B.device bench.new) result }
    ensures banks { (B.device bench.new).banks ≡
        (record { kind = bank.entry.0; unit = 16; sector = 512; count = 3 }) ∷ [] }
{
    let (kind, sectors, puts) = bank;
    load(rt, alloc, bench, kind, puts);
    let area = first(bench, kind, sectors);
    mounted(rt, alloc, bench, area, units, steps)
}

// Values that are too long or have no room, and the list of entries then.
fn rounds<B: Bench, L: Ledger, R: Abort>(
    rt: &R,
    alloc: Global,
    bench: &mut B,
    steps: &mut Steps<L>,
) {
    let mut store = over(rt, alloc, bench, (Kind::Erasing, 3, &[]), 0, steps);
    puts(rt, bench, &mut store, &ERASED, steps);
    let mut store = over(rt, alloc, bench, (Kind::Rewritable, 3, &[]), 0, steps);
    puts(rt, bench, &mut store, &BLANK, steps);
    shows(rt, bench, &store, 416, &[2, 4, 5, 7, 8], steps);
    walks(rt, bench, &store, &ROUNDS, steps);
}

// A collection that was cut, on a bank of either kind: what the mount spends, and what it leaves.
fn reads<B: Bench, L: Ledger, R: Abort>(
    rt: &R,
    alloc: Global,
    bench: &mut B,
    kind: Kind,
    units: u64,
    steps: &mut Steps<L>,
) {
    let store = over(rt, alloc, bench, (kind, 3, &CUT), units, steps);
    shows(rt, bench, &store, 64, &[3, 7, 9], steps);
    walks(rt, bench, &store, &AFTER_CUT, steps);
    asks(rt, bench, &store, (3, b"A", 1, None), b"1", b"A", steps);
    asks(
        rt,
        bench,
        &store,
        (3, b"A", 4, Some(b"!")),
        b"\x11\x12",
        b"!",
        steps,
    );
    asks(rt, bench, &store, (7, b"!", 1, None), b"!!", b"A", steps);
}

// A close by itself, whole and cut, and one after the next mount.
fn closes_alone<B: Bench, L: Ledger, R: Abort>(
    rt: &R,
    alloc: Global,
    bench: &mut B,
    steps: &mut Steps<L>,
) {
    let kind = Kind::Rewritable;
    let store = over(rt, alloc, bench, (kind, 3, &[]), 0, steps);
    closes(rt, bench, store, (0, 0, true), steps);
    let store = over(rt, alloc, bench, (kind, 3, &STALE), 0, steps);
    closes(rt, bench, store, (99, 30, true), steps);
    let store = over(rt, alloc, bench, (kind, 3, &STALE), 0, steps);
    closes(rt, bench, store, (3, 3, false), steps);
    let mut store = over(rt, alloc, bench, (kind, 3, &[]), 0, steps);
    puts(rt, bench, &mut store, &[(7, 5, 9, 3, 0, 0)], steps);
    closes(rt, bench, store, (3, 3, false), steps);
    let area = first(bench, kind, 3);
    let store = mounted::<ZmsOpen, B, L, R>(rt, alloc, bench, area, 0, steps);
    closes(rt, bench, store, (99, 26, true), steps);
    let area = first(bench, kind, 3);
    let store = mounted::<ZmsOpen, B, L, R>(rt, alloc, bench, area, 0, steps);
    shows(rt, bench, &store, 32, &[7], steps);
    let sector = sector_view(bench, store.area(), 0, steps);
    let starts = sector.starts_with(&[5, 5, 5, 5, 5, 5, 5, 5, 5, 0xFF]);
    holds(rt, "one", starts & sector.ends_with(&ONE_END));
}

// One value in two sectors, which the close copies; and two values in three sectors, which it does not.
fn collects<B: Bench, L: Ledger, R: Abort>(
    rt: &R,
    alloc: Global,
    bench: &mut B,
    steps: &mut Steps<L>,
) {
    let kind = Kind::Rewritable;
    let mut store = over(rt, alloc, bench, (kind, 2, &[]), 0, steps);
    change(rt, bench, &mut store, 7, &NINE, steps);
    closes(rt, bench, store, (99, 34, true), steps);
    let area = first(bench, kind, 2);
    let copied = sector_view(bench, &area, 1, steps);
    holds(
        rt,
        "copied",
        copied.starts_with(&NINE) & copied.ends_with(&COPIED_END),
    );
    let mut store = over(rt, alloc, bench, (kind, 3, &[]), 0, steps);
    change(rt, bench, &mut store, 7, &NINE, steps);
    change(rt, bench, &mut store, 8, &[5, 6], steps);
    closes(rt, bench, store, (99, 28, true), steps);
    let area = first(bench, kind, 3);
    holds(
        rt,
        "closed",
        sector_view(bench, &area, 0, steps).ends_with(&CLOSED_END),
    );
}

pub(crate) fn exercise<B: Bench, L: Ledger, R: Abort>(
    rt: &R,
    alloc: Global,
    bench: &mut B,
    steps: &mut Steps<L>,
) {
    rounds(rt, alloc, bench, steps);
    reads(rt, alloc, bench, Kind::Rewritable, 5, steps);
    reads(rt, alloc, bench, Kind::Erasing, 7, steps);
    closes_alone(rt, alloc, bench, steps);
    collects(rt, alloc, bench, steps);
}
