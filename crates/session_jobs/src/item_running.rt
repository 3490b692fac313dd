// The run of a job on items.
ghost use Rattle.std.specs.Prelude.{◌≡◌, ℕ, ◌<◌, ◌∷◌, true, All, List, None, OnOk};
ghost use Rattle.zs_host.specs.Outside.{Outside};
ghost use Rattle.flash_map.specs.Area.{geometry_of, value_limit};
ghost use Rattle.image_file.specs.Format.{plain};
ghost use Rattle.image_file.specs.Lawful.{IsImage};
ghost use Rattle.image_jobs.specs.Reading.{HasImage};
ghost use Rattle.item_session.specs.Line.{ids_end};
ghost use Rattle.item_session.specs.declared.line.Line.TheVariants.{Mount};
ghost use Rattle.item_session.specs.Device.{IsServed, IsServedOn, RestsOn, TakesValues};
ghost use Rattle.item_session.specs.Owing.{OwesOn, boot_units};
ghost use Rattle.item_session.specs.Running.{RunEnds};
ghost use Rattle.item_session.specs.Standing.{damage_on};
ghost use Rattle.item_store.specs.Standing.{IsStoreArea};
ghost use Rattle.session_jobs.specs.ItemInputs.{HasLines, IsItemArea, ids_of};
ghost use Rattle.session_jobs.specs.ItemJobs.{IsStop, ItemJobEnds, ServesItems, role_format};

use crate::item_opening::{ItemImage, ids_of, open_items, read_item_lines};
use crate::report::outcome_of;
use flash_map::{Area, Role};
use flash_sim::{Bench, Steps};
use image_file::Image;
use image_jobs::{Outcome, Refusal, Stop};
use item_session::{Answers, Line, SessionFault, run_lines};
use item_store::SlotSectors;
use nvs_gc::NvsOpen;
use std::alloc::Global;
use std::marker::Brand;
use std::sync::ledger::{Blank, Ledger};
use zms_store::ZmsOpen;
use zs_host::Host;

// Why the lines stopped.
fn stop_of<'a>(area: &Area, fault: SessionFault) -> Stop<'a>
    ensures { IsStop area.now fault result }
{
    match fault {
        SessionFault::Damaged(damage) => Stop::Refused(Refusal::BadArea {
            label: area.label,
            damage,
        }),
        SessionFault::NoMemory => Stop::NoMemory,
    }
}

// Carries out the lines on sectors of one format, and counts the steps.
fn run<T: SlotSectors, B: Bench, L: Ledger>(
    alloc: Global,
    area: &Area,
    lines: &[Line],
    bench: &mut B,
    blank: Blank,
) -> Result<Answers, SessionFault>
    requires area { IsStoreArea T.role (B.device bench.old).banks area.now }
    requires values { TakesValues T.format_of (B.device bench.old) area.now }
    requires lines { All (IsServedOn T.format_of (B.device bench.old) area.now) lines.now }
    requires name { blank.name ≡ L.name }
    requires parts { blank.parts ≡ L.parts }
    requires some { 0 < L.parts }
    ensures ends { RunEnds T.format_of area.now (Mount ∷ lines.now)
        (B.device bench.old) (B.device bench.new) result }
    ensures undamaged { damage_on T.format_of (B.device bench.old) area.now ≡ None
        → damage_on T.format_of (B.device bench.new) area.now ≡ None }
    ensures left { let d = B.device bench.old in let area = area.now in
        damage_on T.format_of d area ≡ None
        → OwesOn T.format_of (B.device bench.new) area
        (boot_units T.format_of (geometry_of d area)) }
    ensures rests { OnOk result ((B.device bench.new).is_on ≡ true
        → RestsOn T.format_of (B.device bench.new) area.now) }
{
    let mut steps = Steps::<L>::new(blank);
    run_lines::<T, B, L>(alloc, lines, bench, area, &mut steps)
}

// Carries out the lines on sectors of the format that the area's role has.
fn run_by_role<B: Bench>(
    alloc: Global,
    area: &Area,
    lines: &[Line],
    bench: &mut B,
) -> Result<Answers, SessionFault>
    requires serves { ServesItems (B.device bench.old) area.now }
    requires lines { let ids = ids_end (ids_of area.now.role) in
        All (IsServed ids (value_limit area.now)) lines.now }
    ensures ends { RunEnds (role_format area.now.role) area.now (Mount ∷ lines.now)
        (B.device bench.old) (B.device bench.new) result }
    ensures undamaged { damage_on (role_format area.now.role) (B.device bench.old) area.now ≡ None
        → damage_on (role_format area.now.role) (B.device bench.new) area.now ≡ None }
    ensures left { let d = B.device bench.old in let format_of = role_format area.now.role in
        damage_on format_of d area.now ≡ None
        → OwesOn format_of (B.device bench.new) area.now
        (boot_units format_of (geometry_of d area.now)) }
    ensures rests { OnOk result ((B.device bench.new).is_on ≡ true
        → RestsOn (role_format area.now.role) (B.device bench.new) area.now) }
{
    match area.role {
        Role::Nvs => run::<NvsOpen, B, Brand>(alloc, area, lines, bench, Blank::new(1)),
        Role::Zms => run::<ZmsOpen, B, Brand>(alloc, area, lines, bench, Blank::new(1)),
        Role::Fcb => unreachable!(),
        Role::Sel => unreachable!(),
    }
}

// Carries out the lines on the items of the image.
fn run_on_image<'a, B: Bench>(
    alloc: Global,
    out: &'a str,
    opened: ItemImage,
    lines: &[Line],
    bench: &mut B,
) -> Result<Outcome<'a>, Stop<'a>>
    requires image { IsImage (plain opened.image) }
    requires area { IsItemArea opened.image.map opened.area }
    requires lines { let ids = ids_end (ids_of opened.area.role) in
        All (IsServed ids (value_limit opened.area)) lines.now }
    ensures { (outside : Outside) (name script : List ℕ)
        → HasImage outside name (plain opened.image)
        → HasLines (ids_of opened.area.role) (value_limit opened.area) outside script lines.now
        → ItemJobEnds name script out.now outside outside
        (B.device bench.old) (B.device bench.new) result }
{
    let ItemImage { image, area } = opened;
    let Image { banks, map, bytes } = image;
    bench.load(alloc, banks, bytes)?;
    let ran = run_by_role(alloc, &area, lines, bench);
    let answers = match ran {
        Ok(answers) => answers,
        Err(fault) => return Err(stop_of(&area, fault)),
    };
    match outcome_of(alloc, answers.as_slice(), out, &map, bench) {
        Ok(outcome) => Ok(outcome),
        Err(_) => Err(Stop::NoMemory),
    }
}

/// Carries out the script in the file `script` on the numbered items of the image in the file
/// `image`. It reads both, loads the bench, and carries out the opening mount and the lines. It
/// returns the texts of all answers, and the file of the image that is left, to be written into
/// `out`. It prints and writes nothing itself.
///
/// # Errors
/// `Refused`, in this order: there is no image; it does not consist of exactly one area, of NVS or
/// ZMS; there are no lines; the opening mount finds damage. `HostFailed`: nothing was carried out.
/// `NoMemory`: nothing was carried out, or some or all of the lines were.
#[inline(never)]
pub fn run_item_job<'a, H: Host, B: Bench>(
    alloc: Global,
    image: &'a str,
    script: &'a str,
    out: &'a str,
    host: &mut H,
    bench: &mut B,
) -> Result<Outcome<'a>, Stop<'a>>
    ensures { ItemJobEnds image.now script.now out.now (H.outside host.old) (H.outside host.new)
        (B.device bench.old) (B.device bench.new) result }
{
    let opened = match open_items(alloc, image, host) {
        Ok(opened) => opened,
        Err(stop) => return Err(stop),
    };
    let limit = opened.area.value_limit() as usize;
    let ids = ids_of(opened.area.role);
    let lines = match read_item_lines(alloc, script, ids, limit, host) {
        Ok(lines) => lines,
        Err(stop) => return Err(stop),
    };
    run_on_image(alloc, out, opened, lines.as_slice(), bench)
}
