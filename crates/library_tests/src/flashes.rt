// Two simulated flashes side by side, areas on them, and the cache of look-ups.
ghost use Rattle.std.specs.Prelude.{◌≡◌, ◌<◌, ◌∷◌, [], replicate, All};
ghost use Rattle.flash_sim.specs.Device.{loaded};
ghost use Rattle.flash_map.specs.Map.{HasVersion};

use crate::holds;
use arrayvec::ArrayString;
use flash_map::*;
use flash_sim::{At, Bank, Bench, FlatSim, Kind, SparseSim, Steps};
use lookup_cache::Cache;
use std::alloc::Global;
use std::marker::Brand;
use std::process::Abort;
use std::sync::ledger::{Blank, Ledger};

const BED: Bank = Bank {
    kind: Kind::Erasing,
    unit: 4,
    sector: 16,
    count: 4,
};

const SHAPE: Geometry = Geometry {
    unit: 4,
    sector: 16,
    sectors: 2,
    kind: Kind::Erasing,
};

// Four sectors full of a byte.
fn load<B: Bench, R: Abort>(rt: &R, alloc: Global, bench: &mut B, fill: u8)
    ensures { B.device bench.new ≡ loaded (B.device bench.old) (BED ∷ []) (replicate 64 fill ∷ []) }
{
    let banks = vec![in alloc; BED].expect(rt, "memory");
    let bank = vec![in alloc; fill; 64].expect(rt, "memory");
    let bytes = vec![in alloc; bank].expect(rt, "memory");
    bench.load(alloc, banks, bytes).expect(rt, "memory");
}

// A program that is cut, power back, what stands there, and an erase: the sector is FF, and the
// others are as they were loaded.
fn loses<B: Bench, L: Ledger, R: Abort>(
    rt: &R,
    alloc: Global,
    bench: &mut B,
    steps: &mut Steps<L>,
) {
    load(rt, alloc, bench, 255);
    bench.arm(1);
    let at = At { bank: 0, offset: 4 };
    let cut = bench.program(at, &[1, 2, 3, 4, 5, 6, 7, 8]).is_err();
    holds(rt, "cut", cut & !bench.is_on());
    bench.restore();
    let left = bench.view(at, 8, steps) == [1, 2, 3, 4, 255, 255, 255, 255].as_slice();
    let counts = (bench.spent(), bench.losses(), bench.loads());
    holds(rt, "left", left & (counts == (1, 1, 1)));
    load(rt, alloc, bench, 7);
    bench.erase(0, 0).expect(rt, "power");
    let all = bench.snapshot(alloc).expect(rt, "memory");
    let bank = all.first().expect(rt, "a bank").as_slice();
    let others = bank.ends_with(&[7; 48]) & (bench.spent() == 2);
    holds(rt, "erased", others & bank.starts_with(&[255; 16]));
}

// Programs two units of the second sector, copies five bytes of them after the first unit of the
// first sector, and erases the second.
#[tactic(auto, unfolding(flash_map::specs::Units::padded))]
fn copies<B: Bench, L: Ledger, R: Abort>(
    rt: &R,
    alloc: Global,
    bench: &mut B,
    steps: &mut Steps<L>,
) {
    load(rt, alloc, bench, 255);
    let area = Area::new(ArrayString::new(), Role::Fcb, 0, 2, 2, 1);
    let start = bench.spent();
    program_all(bench, &area, 1, 0, &[1, 2, 3, 4, 5, 6, 7, 8]).expect(rt, "power");
    let from = Source {
        sector: 1,
        offset: 0,
        len: 5,
    };
    copy_padded(bench, &area, from, 0, 4, steps).expect(rt, "power");
    let sector = sector_view(bench, &area, 0, steps);
    let copied = sector.starts_with(&[255, 255, 255, 255, 1, 2, 3, 4, 5, 255, 255, 255]);
    holds(rt, "copied", copied & sector.ends_with(&[255; 7]));
    area_erase(bench, &area, 1).expect(rt, "power");
    let erased = is_erased(area_view(bench, &area, 1, 6, 4, steps));
    let spent = bench.spent().wrapping_sub(start) == 5;
    holds(
        rt,
        "erased",
        erased & spent & (geometry(bench, &area) == SHAPE),
    );
}

fn exercise<B: Bench, L: Ledger, R: Abort>(rt: &R, alloc: Global, bench: &mut B, blank: Blank)
    requires name { blank.name ≡ L.name }
    requires parts { blank.parts ≡ L.parts }
    requires some { 0 < L.parts }
{
    let mut steps = Steps::<L>::new(blank);
    loses(rt, alloc, bench, &mut steps);
    copies(rt, alloc, bench, &mut steps);
}

#[test]
fn flashes(rt: HostRuntime) {
    let alloc = rt.alloc();
    let mut flat = FlatSim::new(alloc);
    exercise::<FlatSim, Brand, HostRuntime>(&rt, alloc, &mut flat, Blank::new(1));
    let mut sparse = SparseSim::new(alloc);
    exercise::<SparseSim, Brand, HostRuntime>(&rt, alloc, &mut sparse, Blank::new(1));
}

const BANK: Bank = Bank {
    kind: Kind::Erasing,
    unit: 4,
    sector: 512,
    count: 6,
};

// The label, the bank, the first sector and the count of sectors of an area, and why it is not
// added.
static ADDED: [(&str, usize, u32, u32, Option<AddFault>); 8] = [
    ("n", 0, 0, 2, None),
    ("f", 0, 2, 2, None),
    ("n", 0, 4, 2, Some(AddFault::Exists)),
    ("x", 1, 0, 2, Some(AddFault::OutOfBank)),
    ("x", 0, 4, 1, Some(AddFault::OutOfBank)),
    ("x", 0, 4, 3, Some(AddFault::OutOfBank)),
    ("x", 0, 3, 2, Some(AddFault::Overlaps)),
    ("s", 0, 4, 2, None),
];

// Adds an area of version 1 to a map of such areas.
fn add(map: &mut FlashMap, area: Area) -> Result<(), AddFault>
    requires version { HasVersion 1 area }
    requires others { All (HasVersion 1) map.old }
    ensures { All (HasVersion 1) map.new }
{
    map.add(&[BANK], area)
}

#[test]
fn areas(rt: HostRuntime) {
    let mut map = FlashMap::new(rt.alloc());
    for (label, bank, first, sectors, fault) in ADDED.iter() {
        let name = ArrayString::from(label).ok().expect(&rt, label);
        let area = Area::new(name, Role::Nvs, *bank, *first, *sectors, 1);
        holds(&rt, label, add(&mut map, area).err() == *fault);
    }
    let places = (map.index_of("s"), map.index_of("x"), map.len());
    let second = map.at(1).expect(&rt, "f");
    let is_second = (second.first == 2) & (second.value_limit() == 256);
    holds(&rt, "map", is_second & (places == (Some(2), None, 3)));
    let area = Area::new(ArrayString::new(), Role::Fcb, 0, 2, 2, 1);
    let places = (
        area.next(0),
        area.next(1),
        area.previous(0),
        area.previous(1),
    );
    holds(
        &rt,
        "places",
        (places == (1, 0, 1, 0)) & (padded(4, 409) == 412),
    );
}

#[test]
fn caches(rt: HostRuntime) {
    let mut cache = Cache::with_slots(rt.alloc(), 4).expect(&rt, "memory");
    cache.note(7, 2, 9);
    cache.note(5, 1, 3);
    cache.note(6, 2, 4);
    // 3 and 7 share a cache slot
    let starts = (cache.start_of(3), cache.start_of(5), cache.start_of(4));
    holds(&rt, "noted", starts == (Some((2, 9)), Some((1, 3)), None));
    cache.note(3, 1, 6);
    cache.forget_sector(1);
    let starts = (cache.start_of(7), cache.start_of(5), cache.start_of(6));
    holds(&rt, "forgotten", starts == (None, None, Some((2, 4))));
    // the last sector with a greatest slot is 63
    cache.note(5, 63, 3);
    cache.note(8, 64, 5);
    let tops = cache.tops();
    let noted = (tops[2] == 9) & (tops[63] == 3) & (tops[0] == 0);
    holds(&rt, "greatest", noted & (tops.len() == 64));
    cache.forget_sector(2);
    holds(
        &rt,
        "greatest left",
        (cache.tops()[2] == 0) & (cache.tops()[63] == 3),
    );
}
