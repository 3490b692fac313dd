// The run of a job.
ghost use Rattle.std.specs.Prelude.{◌≡◌, List, [], All};
ghost use Rattle.flash_sim.specs.Device.{Device};
ghost use Rattle.flash_map.specs.declared.area.Area.{Area as area};
ghost use Rattle.zs_host.specs.Outside.{Outside};
ghost use Rattle.handlers.specs.Registry.{registered};
ghost use Rattle.image_file.specs.Format.{image_on, plain};
ghost use Rattle.image_file.specs.Lawful.{IsImage};
ghost use Rattle.session.specs.OnMap.{IsFresh, IsServed, IsServedMap, kinds, limit_of};
ghost use Rattle.image_jobs.specs.Inputs.{BeginsWith, GivesLines};
ghost use Rattle.image_jobs.specs.Jobs.{JobEnds};
ghost use Rattle.image_jobs.specs.Stages.{stage, stores};

use crate::carrying::{run, stop_of};
use crate::inputs::{open_start, read_source};
use crate::jobs::Job;
use crate::loading::{file_left, longest_value};
use crate::outcome::Outcome;
use crate::report::report_text;
use crate::stops::Stop;
use backend_api::Backend;
use flash_sim::Bench;
use handlers::{Handler, Registry};
use image_file::Image;
use script_lines::Line;
use std::alloc::Global;
use std::marker::Brand;
use std::sync::ledger::Blank;
use zs_host::Host;

// Carries out the lines on the image.
fn run_on_image<'a, K: Backend, B: Bench>(
    alloc: Global,
    job: &Job<'a>,
    image: Image,
    lines: &[Line],
    bench: &mut B,
    pool: Vec<Box<dyn Handler>>,
    registry: &mut Registry,
) -> Result<Outcome<'a>, Stop<'a>>
    requires serves { (areas : List area) (d : Device) → IsImage (image_on areas d)
        → IsServedMap K.serves areas d }
    requires image { IsImage (plain image) }
    requires lines { All (IsServed (limit_of image.map)) lines.now }
    requires pool { All (IsFresh state) pool.items }
    requires registry { registered state registry.old ≡ [] }
    ensures { (outside : Outside) → BeginsWith job.now.start outside (plain image)
        → GivesLines job.now.source (limit_of image.map) outside lines.now
        → let k = stores K.contents K.room K.chance K.tears K.damage K.rests K.owes K.boot_units in
        JobEnds k (kinds state pool.items) job.now outside outside
        (stage (B.device bench.old) (registered state registry.old))
        (stage (B.device bench.new) (registered state registry.new)) result }
{
    let Image { banks, map, bytes } = image;
    bench.load(alloc, banks, bytes)?;
    let ran = run::<K, B, Brand>(alloc, &map, lines, bench, pool, registry, Blank::new(1));
    let answers = match ran {
        Ok(answers) => answers,
        Err(fault) => return Err(stop_of(&map, fault)),
    };
    let text = match report_text::<K, B>(
        alloc,
        job.report,
        lines,
        answers.as_slice(),
        &map,
        bench,
    ) {
        Ok(text) => text,
        Err(stop) => return Err(stop),
    };
    let file = match file_left(alloc, &job.output, &map, bench) {
        Ok(file) => file,
        Err(_) => return Err(Stop::NoMemory),
    };
    Ok(Outcome { text, file })
}

/// Runs a job: it reads the image and the lines, loads the bench, carries out the opening mount and
/// the lines, and returns what is to be printed and written. It prints and writes nothing itself.
///
/// # Errors
/// `Refused`, in this order: there is no image; there are no lines; a mount finds damage; the
/// settings that are left are counted, and their image shows damage.
/// `HostFailed`: nothing was carried out. `NoMemory`: nothing was carried out, or some or all of
/// the lines were.
#[inline(never)]
pub fn run_job<'a, K: Backend, H: Host, B: Bench>(
    alloc: Global,
    job: &Job<'a>,
    host: &mut H,
    bench: &mut B,
    pool: Vec<Box<dyn Handler>>,
    registry: &mut Registry,
) -> Result<Outcome<'a>, Stop<'a>>
    requires serves { (areas : List area) (d : Device) → IsImage (image_on areas d)
        → IsServedMap K.serves areas d }
    requires pool { All (IsFresh state) pool.items }
    requires registry { registered state registry.old ≡ [] }
    ensures { let k =
        stores K.contents K.room K.chance K.tears K.damage K.rests K.owes K.boot_units in
        JobEnds k (kinds state pool.items) job.now (H.outside host.old) (H.outside host.new)
        (stage (B.device bench.old) (registered state registry.old))
        (stage (B.device bench.new) (registered state registry.new)) result }
{
    let image = match open_start(alloc, &job.start, host) {
        Ok(image) => image,
        Err(stop) => return Err(stop),
    };
    let limit = longest_value(&image.map);
    let lines = match read_source(alloc, &job.source, limit, host) {
        Ok(lines) => lines,
        Err(stop) => return Err(stop),
    };
    run_on_image::<K, B>(alloc, job, image, lines.as_slice(), bench, pool, registry)
}
