// The readers of an image of a log and of a script on it.
ghost use Rattle.std.specs.Prelude.{◌≡◌, ◌⊎◌, All, IfOk, MatchOption};
ghost use Rattle.image_file.specs.Format.{plain};
ghost use Rattle.image_file.specs.Lawful.{IsImage};
ghost use Rattle.image_jobs.specs.Reading.{HasImage, LacksImage, MakesOr, ReadsOr};
ghost use Rattle.log_session.specs.LineDone.{IsServed};
ghost use Rattle.session_jobs.specs.LogInputs.{FindsNoLog, HasLines, HasNoLogArea, IsLogArea, LacksLines, LacksLog};

use flash_map::{Area, FlashMap, Role};
use image_file::Image;
use image_jobs::{Refusal, Stop, read_image_file, read_script_text};
use log_session::{Line, ScriptFault, read_script};
use std::alloc::Global;
use zs_host::Host;

/// An image, and the area of its log.
#[derive(Drop)]
pub(crate) struct LogImage {
    pub(crate) image: Image,
    pub(crate) area: Area,
}

// The area of a log: the only one of the image, if it is of FCB.
fn log_area(areas: &FlashMap) -> Option<Area>
    ensures { MatchOption result (HasNoLogArea areas.now) (IsLogArea areas.now) }
{
    if areas.len() != 1 {
        return None;
    }
    let area = areas.at(0)?;
    if area.role == Role::Fcb {
        Some(*area)
    } else {
        None
    }
}

// Refuses an image that does not consist of exactly one area, of FCB.
fn with_log<'a>(image: Image) -> Result<LogImage, Stop<'a>>
    ensures { MakesOr (λ opened. (opened.image ≡ image) × IsLogArea image.map opened.area)
        (FindsNoLog (plain image)) result }
{
    match log_area(&image.map) {
        Some(area) => Ok(LogImage { image, area }),
        None => Err(Stop::Refused(Refusal::NoLog)),
    }
}

// Reads the image in a file, with the area of its log. Nothing is printed or written.
pub(crate) fn open_log<'a, H: Host>(
    alloc: Global,
    name: &'a str,
    host: &mut H,
) -> Result<LogImage, Stop<'a>>
    ensures image { let h = H.outside host.old in
        ReadsOr
        (λ opened. HasImage h name.now (plain opened.image)
        × IsLogArea opened.image.map opened.area)
        (λ refusal. LacksImage h name.now refusal ⊎ LacksLog h name.now refusal) h
        (H.outside host.new) result }
    ensures lawful { IfOk result (λ opened. IsImage (plain opened.image)) }
{
    match read_image_file(alloc, name, host) {
        Ok(image) => with_log(image),
        Err(stop) => Err(stop),
    }
}

// Reads the lines of a script. No body has more than `limit` bytes. Nothing is printed or written.
pub(crate) fn read_log_lines<'a, H: Host>(
    alloc: Global,
    name: &'a str,
    limit: usize,
    host: &mut H,
) -> Result<Vec<Line>, Stop<'a>>
    ensures lines { let h = H.outside host.old in
        ReadsOr (λ lines. HasLines limit h name.now lines.items) (LacksLines limit h name.now) h
        (H.outside host.new) result }
    ensures served { IfOk result (λ lines. All (IsServed limit) lines.items) }
{
    let text = match read_script_text(alloc, name, host) {
        Ok(text) => text,
        Err(stop) => return Err(stop),
    };
    match read_script(alloc, text.as_slice(), limit) {
        Ok(lines) => Ok(lines),
        Err(ScriptFault::BadLine { line, why }) => {
            Err(Stop::Refused(Refusal::BadScript { line, why }))
        }
        Err(ScriptFault::NoMemory) => Err(Stop::NoMemory),
    }
}
