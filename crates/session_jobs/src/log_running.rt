// The run of a job on a log.
ghost use Rattle.std.specs.Prelude.{◌≡◌, ℕ, ◌<◌, ◌∷◌, true, All, List, None, OnOk};
ghost use Rattle.zs_host.specs.Outside.{Outside};
ghost use Rattle.flash_map.specs.Area.{value_limit};
ghost use Rattle.fcb_ring.specs.Standing.{IsRingArea, erases_on, ring_damage};
ghost use Rattle.image_file.specs.Format.{plain};
ghost use Rattle.image_file.specs.Lawful.{IsImage};
ghost use Rattle.image_jobs.specs.Reading.{HasImage};
ghost use Rattle.log_session.specs.declared.line.Line.TheVariants.{Mount};
ghost use Rattle.log_session.specs.LineDone.{IsServed};
ghost use Rattle.log_session.specs.Running.{RunEnds};
ghost use Rattle.session_jobs.specs.LogInputs.{HasLines, IsLogArea};
ghost use Rattle.session_jobs.specs.LogJobs.{IsStop, LogJobEnds};

use crate::log_opening::{LogImage, open_log, read_log_lines};
use crate::report::outcome_of;
use flash_map::Area;
use flash_sim::{Bench, Steps};
use image_file::Image;
use image_jobs::{Outcome, Refusal, Stop};
use log_session::{Answers, Line, SessionFault, run_lines};
use std::alloc::Global;
use std::marker::Brand;
use std::sync::ledger::{Blank, Ledger};
use zs_host::Host;

// Why the lines stopped.
fn stop_of<'a>(area: &Area, fault: SessionFault) -> Stop<'a>
    ensures { IsStop area.now fault result }
{
    match fault {
        SessionFault::Damaged(damage) => Stop::Refused(Refusal::BadArea {
            label: area.label,
            damage,
        }),
        SessionFault::NoMemory => Stop::NoMemory,
    }
}

// Carries out the lines, and counts the steps.
fn run<B: Bench, L: Ledger>(
    alloc: Global,
    area: &Area,
    lines: &[Line],
    bench: &mut B,
    blank: Blank,
) -> Result<Answers, SessionFault>
    requires area { IsRingArea (B.device bench.old).banks area.now }
    requires lines { All (IsServed (value_limit area.now)) lines.now }
    requires name { blank.name ≡ L.name }
    requires parts { blank.parts ≡ L.parts }
    requires some { 0 < L.parts }
    ensures ends { RunEnds area.now (Mount ∷ lines.now) (B.device bench.old) (B.device bench.new)
        result }
    ensures undamaged { ring_damage (B.device bench.old) area.now ≡ None
        → ring_damage (B.device bench.new) area.now ≡ None }
    ensures rests { OnOk result ((B.device bench.new).is_on ≡ true
        → erases_on (B.device bench.new) area.now ≡ 0) }
{
    let mut steps = Steps::<L>::new(blank);
    run_lines(alloc, lines, bench, area, &mut steps)
}

// Carries out the lines on the log of the image.
fn run_on_image<'a, B: Bench>(
    alloc: Global,
    out: &'a str,
    opened: LogImage,
    lines: &[Line],
    bench: &mut B,
) -> Result<Outcome<'a>, Stop<'a>>
    requires image { IsImage (plain opened.image) }
    requires area { IsLogArea opened.image.map opened.area }
    requires lines { All (IsServed (value_limit opened.area)) lines.now }
    ensures { (outside : Outside) (name script : List ℕ)
        → HasImage outside name (plain opened.image)
        → HasLines (value_limit opened.area) outside script lines.now
        → LogJobEnds name script out.now outside outside (B.device bench.old) (B.device bench.new)
        result }
{
    let LogImage { image, area } = opened;
    let Image { banks, map, bytes } = image;
    bench.load(alloc, banks, bytes)?;
    let ran = run::<B, Brand>(alloc, &area, lines, bench, Blank::new(1));
    let answers = match ran {
        Ok(answers) => answers,
        Err(fault) => return Err(stop_of(&area, fault)),
    };
    match outcome_of(alloc, answers.as_slice(), out, &map, bench) {
        Ok(outcome) => Ok(outcome),
        Err(_) => Err(Stop::NoMemory),
    }
}

/// Carries out the script in the file `script` on the log of the image in the file `image`. It
/// reads both, loads the bench, and carries out the opening mount and the lines. It returns the
/// texts of all answers, and the file of the image that is left, to be written into `out`. It
/// prints and writes nothing itself.
///
/// # Errors
/// `Refused`, in this order: there is no image; it does not consist of exactly one area, of FCB;
/// there are no lines; the opening mount finds damage. `HostFailed`: nothing was carried out.
/// `NoMemory`: nothing was carried out, or some or all of the lines were.
#[inline(never)]
pub fn run_log_job<'a, H: Host, B: Bench>(
    alloc: Global,
    image: &'a str,
    script: &'a str,
    out: &'a str,
    host: &mut H,
    bench: &mut B,
) -> Result<Outcome<'a>, Stop<'a>>
    ensures { LogJobEnds image.now script.now out.now (H.outside host.old) (H.outside host.new)
        (B.device bench.old) (B.device bench.new) result }
{
    let opened = match open_log(alloc, image, host) {
        Ok(opened) => opened,
        Err(stop) => return Err(stop),
    };
    let limit = opened.area.value_limit() as usize;
    let lines = match read_log_lines(alloc, script, limit, host) {
        Ok(lines) => lines,
        Err(stop) => return Err(stop),
    };
    run_on_image(alloc, out, opened, lines.as_slice(), bench)
}
