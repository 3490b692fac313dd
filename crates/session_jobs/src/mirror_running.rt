// The run of a job on a mirror.
ghost use Rattle.std.specs.Prelude.{◌≡◌, ℕ, ◌<◌, ◌≤◌, ◌∷◌, false, All, IfOk, List};
ghost use Rattle.zs_host.specs.Outside.{Outside};
ghost use Rattle.any_backend.specs.ByRole.{any_boot, any_owes, any_serves};
ghost use Rattle.image_file.specs.Format.{plain};
ghost use Rattle.image_file.specs.Lawful.{IsImage};
ghost use Rattle.image_jobs.specs.Reading.{HasImage};
ghost use Rattle.session.specs.OnMap.{limit_of};
ghost use Rattle.session.specs.Owing.{greatest_boot};
ghost use Rattle.session.specs.Texts.{AreLabelled};
ghost use Rattle.mirror.specs.Trusted.{IsMirrorMap};
ghost use Rattle.mirror_session.specs.declared.line.Line.TheVariants.{Mount};
ghost use Rattle.mirror_session.specs.Answer.{CanReport};
ghost use Rattle.mirror_session.specs.Bench.{moment};
ghost use Rattle.mirror_session.specs.LineDone.{IsServed};
ghost use Rattle.mirror_session.specs.Owing.{BootsWithin, OwesAt};
ghost use Rattle.mirror_session.specs.Running.{RunEnds};
ghost use Rattle.session_jobs.specs.MirrorInputs.{AreMirrored, HasLines};
ghost use Rattle.session_jobs.specs.MirrorJobs.{IsStop, MirrorJobEnds, any_meanings};

use crate::mirror_opening::{open_mirror, read_mirror_lines};
use crate::report::outcome_of;
use flash_map::FlashMap;
use flash_sim::{Bench, Steps};
use image_file::Image;
use image_jobs::{Outcome, Refusal, Stop, label_at, longest_value};
use mirror::MirrorStore;
use mirror_session::{Answers, Line, SessionFault, run_lines};
use std::alloc::Global;
use std::marker::Brand;
use std::sync::ledger::{Blank, Ledger};
use zs_host::Host;

// Why the lines stopped.
fn stop_of<'a>(areas: &FlashMap, fault: SessionFault) -> Stop<'a>
    ensures { IsStop areas.now fault result }
{
    match fault {
        SessionFault::Damaged { area, damage } => {
            let label = label_at(areas, area);
            Stop::Refused(Refusal::BadArea { label, damage })
        }
        SessionFault::Unfit { area } => {
            let label = label_at(areas, area);
            Stop::Refused(Refusal::Unfit { label })
        }
        SessionFault::NoMemory => Stop::NoMemory,
    }
}

// Carries out the lines, and counts the steps.
fn run<B: Bench, L: Ledger>(
    alloc: Global,
    areas: &FlashMap,
    lines: &[Line],
    bench: &mut B,
    blank: Blank,
) -> Result<Answers, SessionFault>
    requires map { IsMirrorMap any_serves areas.now (B.device bench.old) }
    requires lines { All (IsServed (limit_of areas.now)) lines.now }
    requires name { blank.name ≡ L.name }
    requires parts { blank.parts ≡ L.parts }
    requires some { 0 < L.parts }
    ensures ends { let old = moment (B.device bench.old) false in
        RunEnds any_meanings areas.now (Mount ∷ lines.now) old (B.device bench.new) result }
    ensures texts { AreLabelled areas.now → IfOk result (λ answers. All CanReport answers) }
    ensures boots { let d = B.device bench.old in let e = B.device bench.new in
        let areas = areas.now in (due most : ℕ) → 1 ≤ due
        → greatest_boot any_boot d.banks areas ≤ most
        → OwesAt any_owes areas (moment d false) due most
        → OwesAt any_owes areas (moment e false) due most
        × IfOk result
        (λ answers. BootsWithin any_owes any_meanings areas due most (Mount ∷ lines.now) answers
        (moment d false) e) }
{
    let mut steps = Steps::<L>::new(blank);
    run_lines::<MirrorStore, B, L>(alloc, lines, bench, areas, &mut steps)
}

// Carries out the lines on the mirror of the image.
fn run_on_image<'a, B: Bench>(
    alloc: Global,
    out: &'a str,
    image: Image,
    lines: &[Line],
    bench: &mut B,
) -> Result<Outcome<'a>, Stop<'a>>
    requires image { IsImage (plain image) }
    requires mirrored { AreMirrored image.map }
    requires lines { All (IsServed (limit_of image.map)) lines.now }
    ensures { (outside : Outside) (name script : List ℕ) → HasImage outside name (plain image)
        → HasLines (limit_of image.map) outside script lines.now
        → MirrorJobEnds name script out.now outside outside (B.device bench.old)
        (B.device bench.new) result }
{
    let Image { banks, map, bytes } = image;
    bench.load(alloc, banks, bytes)?;
    let ran = run::<B, Brand>(alloc, &map, lines, bench, Blank::new(1));
    let answers = match ran {
        Ok(answers) => answers,
        Err(fault) => return Err(stop_of(&map, fault)),
    };
    match outcome_of(alloc, answers.as_slice(), out, &map, bench) {
        Ok(outcome) => Ok(outcome),
        Err(_) => Err(Stop::NoMemory),
    }
}

/// Carries out the script in the file `script` on the mirror of the image in the file `image`: its
/// two store areas, which hold one map of settings. It reads both files, loads the bench, and
/// carries out the opening mount and the lines. It returns the texts of all answers, and the file
/// of the image that is left, to be written into `out`. It prints and writes nothing itself.
///
/// # Errors
/// `Refused`, in this order: there is no image; it does not consist of exactly two store areas,
/// each of NVS or ZMS, and their selector; there are no lines; a mount finds damage, or settings
/// that do not fit one of the two areas. `HostFailed`: nothing was carried out. `NoMemory`: nothing
/// was carried out, or some or all of the lines were.
#[inline(never)]
pub fn run_mirror_job<'a, H: Host, B: Bench>(
    alloc: Global,
    image: &'a str,
    script: &'a str,
    out: &'a str,
    host: &mut H,
    bench: &mut B,
) -> Result<Outcome<'a>, Stop<'a>>
    ensures { MirrorJobEnds image.now script.now out.now (H.outside host.old) (H.outside host.new)
        (B.device bench.old) (B.device bench.new) result }
{
    let opened = match open_mirror(alloc, image, host) {
        Ok(opened) => opened,
        Err(stop) => return Err(stop),
    };
    let limit = longest_value(&opened.map);
    let lines = match read_mirror_lines(alloc, script, limit as usize, host) {
        Ok(lines) => lines,
        Err(stop) => return Err(stop),
    };
    run_on_image(alloc, out, opened, lines.as_slice(), bench)
}
