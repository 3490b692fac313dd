// Rings on one bed: a bank of three small sectors, and one of two large ones. Places, units and
// CRCs are those of an independent reading of the same bytes.
ghost use Rattle.std.specs.Prelude.{◌≡◌, ◌<◌, ◌≤◌, ◌∷◌, [], true, OnOk, length, vec_len};
ghost use Rattle.fcb_ring.specs.Changing.{is_scratch_left};
ghost use Rattle.fcb_ring.specs.Standing.{IsRingArea, StandsOn};

use crate::holds;
use arrayvec::ArrayString;
use crc8_entry::{START, crc8};
use event_ring::{EventLog, LogFault};
use fcb_ring::*;
use flash_map::{Area, Role};
use flash_sim::{Bank, Bench, Flash, FlatSim, Kind, NoMemory, PowerLost, Steps};
use std::alloc::Global;
use std::marker::Brand;
use std::process::Abort;
use std::sync::ledger::{Blank, Ledger};

const SMALL: Bank = Bank {
    kind: Kind::Erasing,
    unit: 4,
    sector: 512,
    count: 3,
};

const LARGE: Bank = Bank {
    kind: Kind::Erasing,
    unit: 4,
    sector: 4096,
    count: 2,
};

// Three small sectors that begin with these bytes and are otherwise erased.
fn image<R: Abort>(rt: &R, alloc: Global, starts: [&[u8]; 3]) -> Vec<u8>
    ensures { vec_len result ≡ 1536 }
{
    let [first, second, third] = starts;
    assert!(rt; first.len() <= 512 && second.len() <= 512 && third.len() <= 512);
    let mut bytes = vec![in alloc; 255u8; 1536].expect(rt, "memory");
    bytes[..first.len()].copy_from_slice(first);
    bytes[512..512 + second.len()].copy_from_slice(second);
    bytes[1024..1024 + third.len()].copy_from_slice(third);
    bytes
}

fn load_bytes<B: Bench>(
    alloc: Global,
    bench: &mut B,
    small: Vec<u8>,
    large: Vec<u8>,
) -> Result<(), NoMemory>
    requires small { vec_len small ≡ 1536 }
    requires large { vec_len large ≡ 8192 }
    ensures { OnOk result ((B.device bench.new).banks ≡ SMALL ∷ LARGE ∷ []) }
{
    let banks = vec![in alloc; SMALL, LARGE]?;
    let all = vec![in alloc; small, large]?;
    bench.load(alloc, banks, all)
}

// The area of the small sectors.
fn small<B: Bench, R: Abort>(rt: &R, alloc: Global, bench: &mut B, starts: [&[u8]; 3]) -> Area
    ensures banks { (B.device bench.new).banks ≡ SMALL ∷ LARGE ∷ [] }
    ensures area { IsRingArea (SMALL ∷ LARGE ∷ []) result }
{
    let bytes = image(rt, alloc, starts);
    let large = vec![in alloc; 255u8; 8192].expect(rt, "memory");
    load_bytes(alloc, bench, bytes, large).expect(rt, "memory");
    Area::new(ArrayString::new(), Role::Fcb, 0, 0, 3, 1)
}

// How many records the ring gives, and a CRC over their sectors, lengths and bodies.
fn summary<F: Flash, L: Ledger>(ring: &Ring, flash: &F, steps: &mut Steps<L>) -> (u32, u8)
    requires { StandsOn (F.device flash.now) ring.now }
{
    let mut after: Option<RecordAt> = None;
    let mut crc = START;
    for count in 0..16 {
        let Some(record) = ring.next(flash, after, steps) else {
            return (count, crc);
        };
        let place = [(record.sector % 256) as u8, (record.len % 256) as u8];
        let body = ring.body(flash, &record, steps);
        crc = crc8(crc8(crc, place.as_slice()), body);
        after = Some(record);
    }
    (16, crc)
}

// A sector of id FFFF with three records, one of id 0000 with none, and a torn header.
static OLDER: [u8; 48] = *b"\xEE\xEE\xFF\xC0\x01\xFF\xFF\xFF\x03\xFF\xFF\xFF\x61\x3D\x01\xFF\
    \x52\xFF\xFF\xFF\x02\xFF\xFF\xFF\x61\x3D\xFF\xFF\xAE\xFF\xFF\xFF\
    \x08\xFF\xFF\xFF\x61\x3D\x00\xA4\x01\x02\x03\x04\xC2\xFF\xFF\xFF";

const NEWER: &[u8] = b"\xEE\xEE\xFF\xC0\x01\xFF\x00\x00";

fn reads_records<B: Bench, L: Ledger, R: Abort>(
    rt: &R,
    alloc: Global,
    bench: &mut B,
    steps: &mut Steps<L>,
) {
    let start = bench.spent();
    let area = small(rt, alloc, bench, [&OLDER, NEWER, b"\xEE\xEE\xFF\xC0"]);
    let mut ring = Ring::inspect(bench, area, 0, steps).expect(rt, "damaged");
    holds(rt, "inspected", ring.is_up() & !ring.is_finished());
    ring.finish(bench, steps).expect(rt, "power");
    let spent = bench.spent().wrapping_sub(start);
    let is_finished = ring.is_finished() & !ring.is_collecting();
    holds(
        rt,
        "finished",
        is_finished & (spent == 1) & (ring.oldest() == Some(0)),
    );
    holds(rt, "three", summary(&ring, bench, steps) == (3, 41));
    let third = ring
        .next_with(bench, None, &[0x61, 0x3D, 0x00], steps)
        .expect(rt, "third");
    let place = (third.sector, third.offset, third.body, third.len);
    holds(rt, "third", place == (0, 32, 36, 8));
}

// What is done with the length of a body and the byte that fills it: an append, one into the
// reserve, a new sector, or a collection; whether it is done, too long, or the ring is full; and the
// units that were spent after it.
static STEPS: [(char, usize, u8, char, u64); 13] = [
    ('n', 0, 0, 'd', 2),
    ('a', 102, 1, 'd', 30),
    ('a', 102, 2, 'd', 58),
    ('a', 102, 3, 'd', 86),
    ('a', 0, 9, 'l', 86),
    ('a', 450, 9, 'l', 86),
    ('a', 102, 4, 'd', 116),
    ('a', 255, 5, 'd', 182),
    ('a', 102, 6, 'f', 182),
    ('r', 102, 6, 'd', 210),
    ('n', 0, 0, 'f', 210),
    ('c', 0, 0, 'd', 241),
    ('a', 102, 7, 'd', 269),
];

fn append<F: Flash, R: Abort>(
    rt: &R,
    ring: &mut Ring,
    flash: &mut F,
    body: &[u8],
    into_reserve: bool,
) -> char
    requires stands { StandsOn (F.device flash.old) ring.old }
    requires ready { ring.old.stage ≡ Stage.Ready }
    requires short { length body.now ≤ 2050 }
    ensures stands { StandsOn (F.device flash.new) ring.new }
    ensures ready { ring.new.stage ≡ Stage.Ready }
{
    match ring.append(flash, body, into_reserve) {
        Ok(()) => 'd',
        Err(AppendFault::Full) => 'f',
        Err(AppendFault::TooLong) => 'l',
        Err(AppendFault::PowerLost) => rt.panic("power was lost"),
    }
}

fn rotate<F: Flash, R: Abort>(rt: &R, ring: &mut Ring, flash: &mut F) -> char
    requires stands { StandsOn (F.device flash.old) ring.old }
    requires ready { ring.old.stage ≡ Stage.Ready }
    ensures stands { StandsOn (F.device flash.new) ring.new }
    ensures ready { ring.new.stage ≡ Stage.Ready }
{
    match ring.rotate(flash) {
        Ok(()) => 'd',
        Err(AppendFault::Full) => 'f',
        Err(AppendFault::TooLong | AppendFault::PowerLost) => rt.panic("power was lost"),
    }
}

// Copies the first record, if it is in the oldest sector and short.
fn copy_first<F: Flash, L: Ledger>(
    ring: &mut Ring,
    flash: &mut F,
    steps: &mut Steps<L>,
) -> Result<(), PowerLost>
    requires stands { StandsOn (F.device flash.old) ring.old }
    requires collecting { ring.old.stage ≡ Stage.Collecting }
    requires early { ring.old.end ≤ 16 }
    ensures stands { OnOk result (StandsOn (F.device flash.new) ring.new) }
    ensures collecting { OnOk result (ring.new.stage ≡ Stage.Collecting) }
{
    let oldest = ring.oldest();
    match ring.next(flash, None, steps) {
        Some(record) if Some(record.sector) == oldest && record.len <= 300 => {
            ring.copy(flash, &record, steps)
        }
        _ => Ok(()),
    }
}

fn collect<F: Flash, L: Ledger>(
    ring: &mut Ring,
    flash: &mut F,
    steps: &mut Steps<L>,
) -> Result<(), PowerLost>
    requires stands { StandsOn (F.device flash.old) ring.old }
    requires ready { ring.old.stage ≡ Stage.Ready }
    requires left { is_scratch_left ring.old ≡ true }
    ensures stands { OnOk result (StandsOn (F.device flash.new) ring.new) }
    ensures ready { OnOk result (ring.new.stage ≡ Stage.Ready) }
{
    ring.begin_collect(flash)?;
    copy_first(ring, flash, steps)?;
    ring.end_collect(flash)?;
    Ok(())
}

fn take<F: Flash, L: Ledger, R: Abort>(
    rt: &R,
    ring: &mut Ring,
    flash: &mut F,
    step: (char, usize, u8),
    steps: &mut Steps<L>,
) -> char
    requires stands { StandsOn (F.device flash.old) ring.old }
    requires ready { ring.old.stage ≡ Stage.Ready }
    ensures stands { StandsOn (F.device flash.new) ring.new }
    ensures ready { ring.new.stage ≡ Stage.Ready }
{
    let (what, len, fill) = step;
    if what == 'n' {
        return rotate(rt, ring, flash);
    }
    if what == 'c' {
        assert!(rt; ring.is_scratch_left());
        collect(ring, flash, steps).expect(rt, "power");
        return 'd';
    }
    append(rt, ring, flash, &[fill; 512][..len.min(512)], what == 'r')
}

// Steps on a blank bed, in which ordinary records leave 76 bytes.
fn goes_through_steps<B: Bench, L: Ledger, R: Abort>(
    rt: &R,
    alloc: Global,
    bench: &mut B,
    steps: &mut Steps<L>,
) {
    let start = bench.spent();
    let area = small(rt, alloc, bench, [b"", b"", b""]);
    let mut ring = Ring::mount(bench, area, 76, steps).expect(rt, "no ring");
    let none = ring.oldest().is_none() & !ring.is_scratch_left();
    holds(rt, "blank", none);
    for (what, len, fill, end, units) in STEPS.iter() {
        let ended = take(rt, &mut ring, bench, (*what, *len, *fill), steps);
        let spent = bench.spent().wrapping_sub(start);
        holds(rt, "step", (ended == *end) & (spent == *units));
    }
    holds(rt, "five", summary(&ring, bench, steps) == (5, 211));
}

// A log refuses this body, and spends nothing.
fn refuses<B: Bench, L: Ledger, R: Abort>(
    rt: &R,
    alloc: Global,
    bench: &mut B,
    body: &[u8],
    steps: &mut Steps<L>,
) {
    let area = small(rt, alloc, bench, [b"", b"", b""]);
    let mut log = EventLog::mount(bench, area, steps).expect(rt, "no log");
    let start = bench.spent();
    let refused = log.append(bench, body, steps) == Err(LogFault::TooLong);
    let spent = bench.spent().wrapping_sub(start);
    holds(rt, "refused", refused & log.is_up() & (spent == 0));
}

fn exercise<B: Bench, L: Ledger, R: Abort>(rt: &R, alloc: Global, bench: &mut B, blank: Blank)
    requires name { blank.name ≡ L.name }
    requires parts { blank.parts ≡ L.parts }
    requires some { 0 < L.parts }
{
    let mut steps = Steps::<L>::new(blank);
    reads_records(rt, alloc, bench, &mut steps);
    goes_through_steps(rt, alloc, bench, &mut steps);
    refuses(rt, alloc, bench, b"", &mut steps);
    refuses(rt, alloc, bench, &[1; 257], &mut steps);
}

#[test]
fn rings(rt: HostRuntime) {
    let alloc = rt.alloc();
    let mut sim = FlatSim::new(alloc);
    exercise::<FlatSim, Brand, HostRuntime>(&rt, alloc, &mut sim, Blank::new(1));
}
