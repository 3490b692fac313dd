// The image and the lines of a job.
ghost use Rattle.std.specs.Prelude.{◌≡◌, ◌≤◌, ◌∷◌, [], All, IfOk};
ghost use Rattle.flash_map.specs.declared.area.TheConstants.{VALUE_LIMIT};
ghost use Rattle.image_file.specs.Format.{plain};
ghost use Rattle.image_file.specs.Lawful.{IsImage};
ghost use Rattle.image_file.specs.Spec.{IsSpec};
ghost use Rattle.session.specs.OnMap.{IsServed};
ghost use Rattle.image_jobs.specs.Inputs.{BeginsWith, LacksSource, LacksSpec, LacksStart, GivesLines, blank_spec};
ghost use Rattle.image_jobs.specs.Reading.{MakesOr, ReadsOr};
ghost use Rattle.script_lines.specs.declared.line.Line.TheVariants as line;

use crate::jobs::{Source, Start};
use crate::reading::{read_image_file, read_lines};
use crate::stops::{Refusal, Stop};
use command_words::StoreKind;
use flash_sim::NoMemory;
use image_file::{Image, SpecFault, read_spec};
use script_lines::{Line, gen_script};
use std::alloc::Global;
use zs_host::Host;

fn blank_spec(store: StoreKind) -> &'static str
    ensures { result.now ≡ blank_spec store }
{
    match store {
        StoreKind::Nvs => "bank=erasing/4/4096/4,area=nvs/main/0/0/4",
        StoreKind::Zms => "bank=rewritable/16/4096/4,area=zms/main/0/0/4",
        StoreKind::Fcb => "bank=erasing/4/4096/4,area=fcb/main/0/0/4",
    }
}

/// Makes the blank image that a word describes.
///
/// # Errors
/// `Refused` if the word is not lawful; `NoMemory`.
pub fn blank_image<'a>(alloc: Global, spec: &str) -> Result<Image, Stop<'a>>
    ensures { MakesOr (λ image. IsSpec spec.now (plain image)) (LacksSpec spec.now) result }
{
    match read_spec(alloc, spec) {
        Ok(image) => Ok(image),
        Err(SpecFault::BadSpec { .. }) => Err(Stop::Refused(Refusal::BadSpec)),
        Err(SpecFault::NoMemory) => Err(Stop::NoMemory),
    }
}

/// Reads or makes the image that a job begins with. Nothing is printed or written.
///
/// # Errors
/// `Refused` if the file is missing or is no image; `HostFailed`; `NoMemory`.
pub fn open_start<'a, H: Host>(
    alloc: Global,
    start: &Start<'a>,
    host: &mut H,
) -> Result<Image, Stop<'a>>
    ensures image { let h = H.outside host.old in
        ReadsOr (λ image. BeginsWith start.now h (plain image)) (LacksStart start.now h) h
        (H.outside host.new) result }
    ensures lawful { IfOk result (λ image. IsImage (plain image)) }
{
    match *start {
        Start::File { name } => read_image_file(alloc, name, host),
        Start::Blank { store } => blank_image(alloc, blank_spec(store)),
    }
}

/// The line `names` alone.
///
/// # Errors
/// `NoMemory`.
pub fn asks_names(alloc: Global) -> Result<Vec<Line>, NoMemory>
    ensures { IfOk result (λ lines. lines.items ≡ line.Names ∷ []) }
{
    let mut lines = Vec::new(alloc);
    lines.push(Line::Names)?;
    Ok(lines)
}

fn migrates(alloc: Global) -> Result<Vec<Line>, NoMemory>
    ensures { IfOk result (λ lines. lines.items ≡ line.Mount ∷ line.Migrate ∷ []) }
{
    let mut lines = Vec::new(alloc);
    lines.push(Line::Mount)?;
    lines.push(Line::Migrate)?;
    Ok(lines)
}

/// Reads or makes the lines of a job. No value has more than `limit` bytes. Nothing is
/// printed or written.
///
/// # Errors
/// `Refused` if the file is missing or is no script; `HostFailed`; `NoMemory`.
pub fn read_source<'a, H: Host>(
    alloc: Global,
    source: &Source<'a>,
    limit: u32,
    host: &mut H,
) -> Result<Vec<Line>, Stop<'a>>
    ensures lines { let h = H.outside host.old in
        ReadsOr (λ lines. GivesLines source.now limit h lines.items)
        (LacksSource source.now limit h) h (H.outside host.new) result }
    ensures served { VALUE_LIMIT ≤ limit → IfOk result (λ lines. All (IsServed limit) lines.items) }
{
    match *source {
        Source::Script { name } => read_lines(alloc, name, limit, host),
        Source::Names => Ok(asks_names(alloc)?),
        Source::Migration => Ok(migrates(alloc)?),
        Source::Generated { n } => Ok(gen_script(alloc, n)?),
    }
}
