// Settings over each store: a format, room in bytes, look-ups with no view, and orphans.
ghost use Rattle.std.specs.Prelude.{◌≡◌, ◌<◌, ◌≤◌, ◌∷◌, [], length, IfOk, OnOk, vec_len, false, ℕ};
ghost use Rattle.flash_map.specs.Area.{geometry_of};
ghost use Rattle.flash_map.specs.Lawful.{IsLawfulFor, HasKind, HasUnit};
ghost use Rattle.flash_map.specs.Units.{IsUnit};
ghost use Rattle.backend_api.specs.Ends.{set_lost};
ghost use Rattle.any_backend.specs.ByRole.{any_serves, serves_as};
ghost use Rattle.any_backend.specs.Standing.{IsReady};
ghost use Rattle.named_items.specs.Looking.{HasIds};

use crate::counted::{CountedSim, Views};
use crate::holds;
use crate::loads::delivers;
use crate::tables::name_of;
use any_backend::*;
use arrayvec::ArrayString;
use backend_api::{Backend, SetFault};
use backend_nvs::NvsIdLayout;
use flash_map::{Area, Role};
use flash_sim::{Bank, Bench, Kind, NoMemory, Steps};
use named_items::{IdLayout, ItemStore, value_of};
use nvs_gc::Nvs;
use setting_name::Name;
use settings_core::Settings;
use std::alloc::Global;
use std::marker::Brand;
use std::process::Abort;
use std::sync::ledger::{Blank, Ledger};

// A role, the kind and the unit of its bank.
fn load<B: Bench>(alloc: Global, bench: &mut B, kind: Kind, unit: u32) -> Result<(), NoMemory>
    requires unit { IsUnit unit }
    ensures { OnOk result
        ((B.device bench.new).banks
        ≡ (record { kind = kind; unit = unit; sector = 512; count = 2 }) ∷ []) }
{
    let bank = Bank {
        kind,
        unit,
        sector: 512,
        count: 2,
    };
    let banks = vec![in alloc; bank]?;
    let bytes = vec![in alloc; vec![in alloc; 255u8; 1024]?]?;
    bench.load(alloc, banks, bytes)?;
    Ok(())
}

// A blank area for a store of this role.
fn bed<B: Bench>(
    alloc: Global,
    bench: &mut B,
    role: Role,
    kind: Kind,
    unit: u32,
) -> Result<Area, NoMemory>
    requires kind { HasKind role kind }
    requires unit { HasUnit role unit }
    requires serves { serves_as role }
    ensures lawful { IfOk result (λ area. IsLawfulFor (B.device bench.new).banks area) }
    ensures serves { IfOk result (λ area. any_serves area (geometry_of (B.device bench.new) area)) }
    ensures role { IfOk result (λ area. area.role ≡ role) }
{
    load(alloc, bench, kind, unit)?;
    Ok(Area::new(ArrayString::new(), role, 0, 0, 2, 1))
}

fn mounted<B: Bench, L: Ledger, R: Abort>(
    rt: &R,
    alloc: Global,
    bench: &mut B,
    area: &Area,
    steps: &mut Steps<L>,
) -> AnyBackend
    requires lawful { IsLawfulFor (B.device bench.old).banks area.now }
    requires serves { any_serves area.now (geometry_of (B.device bench.old) area.now) }
    ensures ready { IsReady (B.device bench.new) result }
    ensures banks { (B.device bench.new).banks ≡ (B.device bench.old).banks }
{
    match AnyBackend::mount(alloc, bench, *area, steps) {
        Ok(backend) => backend,
        Err(_) => rt.panic("no mount"),
    }
}

fn put<B: Bench, L: Ledger>(
    backend: &mut AnyBackend,
    bench: &mut B,
    name: &Name,
    value: &[u8],
    steps: &mut Steps<L>,
) -> Result<(), SetFault>
    requires ready { IsReady (B.device bench.old) backend.old }
    requires some { 0 < length value.now }
    requires short { length value.now ≤ 256 }
    ensures ready { set_lost result ≡ false → IsReady (B.device bench.new) backend.new }
    ensures banks { (B.device bench.new).banks ≡ (B.device bench.old).banks }
{
    backend.set(bench, name, value, steps)
}

fn stores<B: Bench, L: Ledger, R: Abort>(
    rt: &R,
    backend: &mut AnyBackend,
    bench: &mut B,
    name: &Name,
    value: &[u8],
    steps: &mut Steps<L>,
)
    requires ready { IsReady (B.device bench.old) backend.old }
    requires some { 0 < length value.now }
    requires short { length value.now ≤ 256 }
    ensures ready { IsReady (B.device bench.new) backend.new }
    ensures banks { (B.device bench.new).banks ≡ (B.device bench.old).banks }
{
    match put(backend, bench, name, value, steps) {
        Ok(()) => {}
        Err(_) => rt.panic("not stored"),
    }
}

// The name of one value and of another one with no room behind it, the lengths of both, and what the
// second needs and what lives.
type NoRoom = (&'static str, &'static str, usize, usize, u64, u64);

// Nothing has a value on a blank area, and a look-up takes at most so many views. Then the one value
// is all that is there, and a format leaves nothing.
fn over<B: Views, L: Ledger, R: Abort>(
    rt: &R,
    alloc: Global,
    bench: &mut B,
    bank: (Role, Kind, u32),
    row: NoRoom,
    views: u64,
    steps: &mut Steps<L>,
)
    requires kind { HasKind bank.0 bank.1 }
    requires unit { HasUnit bank.0 bank.2 }
    requires serves { serves_as bank.0 }
{
    let (role, kind, unit) = bank;
    let area = bed(alloc, bench, role, kind, unit).expect(rt, "memory");
    let backend = mounted(rt, alloc, bench, &area, steps);
    refuses(rt, bench, backend, row, views, steps);
    let backend = mounted(rt, alloc, bench, &area, steps);
    let name = name_of(rt, row.0);
    let all = backend.settings(alloc, bench, steps).expect(rt, "memory");
    let one = (all.len() == 1) & (all.get(&name).copied() == Some(&[17; 256][..row.2.min(256)]));
    let next = backend.next_name(bench, None, steps) == Some(name.copy());
    let last = backend.next_name(bench, Some(&name), steps).is_none();
    holds(rt, row.0, one & next & last);
    drop((all, backend));
    AnyBackend::format(bench, &area, steps).expect(rt, "power");
    let backend = mounted(rt, alloc, bench, &area, steps);
    holds(
        rt,
        "format",
        backend.next_name(bench, None, steps).is_none(),
    );
}

fn refuses<B: Views, L: Ledger, R: Abort>(
    rt: &R,
    bench: &mut B,
    mut backend: AnyBackend,
    row: NoRoom,
    views: u64,
    steps: &mut Steps<L>,
)
    requires { IsReady (B.device bench.old) backend }
    ensures { (B.device bench.new).banks ≡ (B.device bench.old).banks }
{
    let (first, second, len, more, need, live) = row;
    let (first, second) = (name_of(rt, first), name_of(rt, second));
    let start = bench.views();
    let absent = backend.get(bench, &first, steps).is_none();
    let few = bench.views().wrapping_sub(start) <= views;
    assert!(rt; 0 < len && len <= 256 && 0 < more && more <= 256);
    stores(rt, &mut backend, bench, &first, &[17; 256][..len], steps);
    let refused = put(&mut backend, bench, &second, &[34; 256][..more], steps);
    let no_space = refused == Err(SetFault::NoSpace { need, live });
    holds(rt, row.0, absent & few & no_space);
}

// The setting `a`, and one that was never set, which is absent with no view.
fn is_absent<B: Views, L: Ledger, R: Abort>(
    rt: &R,
    alloc: Global,
    bench: &mut B,
    steps: &mut Steps<L>,
) {
    let area = bed(alloc, bench, Role::Zms, Kind::Rewritable, 16).expect(rt, "memory");
    let mut backend = mounted(rt, alloc, bench, &area, steps);
    stores(rt, &mut backend, bench, &name_of(rt, "a"), &[0x11], steps);
    let start = bench.views();
    let absent = backend.get(bench, &name_of(rt, "c"), steps).is_none();
    holds(rt, "absent", absent & (bench.views() == start));
}

// A count of 2, the setting `a`, a name with no value, and a pair beyond the count.
static ORPHANS: [(u32, &[u8]); 6] = [
    (0x8000, &[2, 0]),
    (0x8001, b"a"),
    (0xC001, &[1]),
    (0x8002, b"b"),
    (0x8003, b"c"),
    (0xC003, &[7]),
];

// Puts these items, whether they are settings or not.
fn put_items<S: ItemStore, B: Bench, L: Ledger, R: Abort>(
    rt: &R,
    alloc: Global,
    bench: &mut B,
    area: &Area,
    items: &[(u32, &[u8])],
    steps: &mut Steps<L>,
)
    requires low { (id : ℕ) → id < 0xFFFF → S.is_id id }
    requires lawful { IsLawfulFor (B.device bench.old).banks area.now }
    requires serves { S.serves area.now (geometry_of (B.device bench.old) area.now) }
    ensures banks { (B.device bench.new).banks ≡ (B.device bench.old).banks }
{
    let mut store = S::mount(alloc, bench, *area, steps).expect(rt, "no mount");
    for (id, bytes) in items {
        if bytes.is_empty() {
            rt.panic("no bytes of a row");
        }
        let id = (*id).min(0xFFFE);
        if store.get(bench, id, steps).is_some() {
            rt.panic("an id stands twice in a row");
        }
        store
            .write_changed(bench, id, bytes, steps)
            .expect(rt, "an item is refused");
    }
}

// On an area with these items each of these names has its value, with no orphan removed before.
fn describes<N: IdLayout, S: ItemStore, B: Bench, L: Ledger, R: Abort>(
    rt: &R,
    alloc: Global,
    bench: &mut B,
    area: &Area,
    reported: &[(&str, &[u8])],
    steps: &mut Steps<L>,
)
    requires ids { HasIds N.top S.is_id }
    requires lawful { IsLawfulFor (B.device bench.old).banks area.now }
    requires serves { S.serves area.now (geometry_of (B.device bench.old) area.now) }
{
    let store = S::mount(alloc, bench, *area, steps).expect(rt, "no mount");
    for (name, value) in reported {
        let found = value_of::<N, S, B, L>(&store, bench, &name_of(rt, name), steps);
        holds(rt, name, found.unwrap_or(b"") == *value);
    }
}

fn among_orphans<B: Bench, L: Ledger, R: Abort>(
    rt: &R,
    alloc: Global,
    bench: &mut B,
    steps: &mut Steps<L>,
) {
    let area = bed(alloc, bench, Role::Nvs, Kind::Erasing, 4).expect(rt, "memory");
    put_items::<Nvs, B, L, R>(rt, alloc, bench, &area, &ORPHANS, steps);
    let reported = [("a", b"\x01".as_slice()), ("b", b""), ("c", b"")];
    describes::<NvsIdLayout, Nvs, B, L, R>(rt, alloc, bench, &area, &reported, steps);
}

const LONG: (&str, &str) = (
    "nnnnnnnnnnnnnnnnnnnnnnnnnnnnnnnnnnnnnnnnnnnnnnnnnnnnnnnnnnnnnnnn",
    "mmmmmmmmmmmmmmmmmmmmmmmmmmmmmmmmmmmmmmmmmmmmmmmmmmmmmmmmmmmmmmmm",
);

fn exercise<B: Views, L: Ledger, R: Abort>(rt: &R, alloc: Global, bench: &mut B, blank: Blank)
    requires name { blank.name ≡ L.name }
    requires parts { blank.parts ≡ L.parts }
    requires some { 0 < L.parts }
{
    let mut steps = Steps::<L>::new(blank);
    let steps = &mut steps;
    let nvs = (Role::Nvs, Kind::Erasing, 4);
    let row = ("a", "b", 256, 256, 276, 288);
    over(rt, alloc, bench, nvs, row, 0, steps);
    let row = ("a", "b", 256, 180, 200, 288);
    over(rt, alloc, bench, nvs, row, 0, steps);
    let zms = (Role::Zms, Kind::Erasing, 16);
    let row = ("a", "b", 256, 256, 288, 288);
    over(rt, alloc, bench, zms, row, 0, steps);
    let (n, m) = LONG;
    let fcb = (Role::Fcb, Kind::Erasing, 4);
    over(rt, alloc, bench, fcb, (n, m, 256, 256, 332, 332), 9, steps);
    let fcb = (Role::Fcb, Kind::Erasing, 8);
    over(rt, alloc, bench, fcb, (n, m, 256, 256, 344, 344), 9, steps);
    let fcb = (Role::Fcb, Kind::Erasing, 16);
    over(rt, alloc, bench, fcb, (n, m, 256, 256, 368, 368), 9, steps);
    is_absent(rt, alloc, bench, steps);
    among_orphans(rt, alloc, bench, steps);
    let area = bed(alloc, bench, Role::Fcb, Kind::Erasing, 4).expect(rt, "memory");
    let settings = Settings::<AnyBackend>::mount(alloc, bench, area, steps).expect(rt, "no mount");
    delivers(rt, alloc, settings, bench, steps);
}

#[test]
fn settings(rt: HostRuntime) {
    let alloc = rt.alloc();
    let mut sim = CountedSim::new(alloc);
    exercise::<CountedSim, Brand, HostRuntime>(&rt, alloc, &mut sim, Blank::new(1));
}
