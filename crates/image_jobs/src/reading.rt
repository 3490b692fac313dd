// The readers of images and scripts from files.
ghost use Rattle.std.specs.Prelude.{◌≡◌};
ghost use Rattle.image_file.specs.Format.{plain};
ghost use Rattle.image_jobs.specs.declared.stops.Refusal.TheVariants.{BadFile, BadScript};
ghost use Rattle.image_jobs.specs.declared.stops.Stop.TheVariants.{Refused};
ghost use Rattle.image_jobs.specs.Reading.{ReadsOr, HasImage, HasShortFile, LacksImage, HasScript, LacksScript, LacksText, most_script};

use crate::stops::{Refusal, Stop};
use image_file::{Image, ImageFault, ImageWhy, read_image};
use script_lines::{Line, LineWhy, ScriptFault, read_script};
use std::alloc::Global;
use zs_host::{Host, HostFault};

/// The most bytes of an image file.
pub const MOST_IMAGE: usize = 8388608;

/// The most bytes of a script.
pub const MOST_SCRIPT: usize = 1048576;

fn bad_file<'a>(at: u64, why: ImageWhy) -> Stop<'a>
    ensures { result ≡ Refused (BadFile at why) }
{
    Stop::Refused(Refusal::BadFile { at, why })
}

fn bad_script<'a>(line: u64, why: LineWhy) -> Stop<'a>
    ensures { result ≡ Refused (BadScript line why) }
{
    Stop::Refused(Refusal::BadScript { line, why })
}

/// Reads the image in a file. Nothing is printed or written.
///
/// # Errors
/// `Refused` if there is no such file, or it is no image file, or it is longer than `MOST_IMAGE`;
/// `HostFailed`; `NoMemory`.
pub fn read_image_file<'a, H: Host>(
    alloc: Global,
    name: &'a str,
    host: &mut H,
) -> Result<Image, Stop<'a>>
    ensures { let h = H.outside host.old in
        ReadsOr (λ image. HasImage h name.now (plain image)) (LacksImage h name.now) h
        (H.outside host.new) result }
{
    let bytes = match host.read_whole(alloc, name, MOST_IMAGE) {
        Ok(bytes) => bytes,
        Err(HostFault::Missing) => return Err(Stop::Refused(Refusal::NoFile { word: name })),
        Err(HostFault::TooLong) => return Err(bad_file(MOST_IMAGE as u64, ImageWhy::Long)),
        Err(HostFault::Failed) => return Err(Stop::HostFailed),
        Err(HostFault::NoMemory) => return Err(Stop::NoMemory),
    };
    match read_image(alloc, bytes.as_slice()) {
        Ok(image) => Ok(image),
        Err(ImageFault::Bad { at, why }) => Err(bad_file(at, why)),
        Err(ImageFault::NoMemory) => Err(Stop::NoMemory),
    }
}

/// Reads the text of a script, of at most `MOST_SCRIPT` bytes. Nothing is printed or written.
///
/// # Errors
/// `Refused` if there is no such file, or it is longer than `MOST_SCRIPT`; `HostFailed`;
/// `NoMemory`.
pub fn read_script_text<'a, H: Host>(
    alloc: Global,
    name: &'a str,
    host: &mut H,
) -> Result<Vec<u8>, Stop<'a>>
    ensures { let h = H.outside host.old in
        ReadsOr (λ text. HasShortFile h name.now most_script text.items) (LacksText h name.now) h
        (H.outside host.new) result }
{
    match host.read_whole(alloc, name, MOST_SCRIPT) {
        Ok(text) => Ok(text),
        Err(HostFault::Missing) => Err(Stop::Refused(Refusal::NoFile { word: name })),
        Err(HostFault::TooLong) => Err(bad_script(0, LineWhy::Long)),
        Err(HostFault::Failed) => Err(Stop::HostFailed),
        Err(HostFault::NoMemory) => Err(Stop::NoMemory),
    }
}

/// Reads the lines of a script in a file. No value has more than `limit` bytes. Nothing is
/// printed or written.
///
/// # Errors
/// `Refused` if there is no such file, or it is no script; `HostFailed`; `NoMemory`.
pub fn read_lines<'a, H: Host>(
    alloc: Global,
    name: &'a str,
    limit: u32,
    host: &mut H,
) -> Result<Vec<Line>, Stop<'a>>
    ensures { let h = H.outside host.old in
        ReadsOr (λ lines. HasScript limit h name.now lines.items) (LacksScript limit h name.now) h
        (H.outside host.new) result }
{
    let text = match read_script_text(alloc, name, host) {
        Ok(text) => text,
        Err(stop) => return Err(stop),
    };
    match read_script(alloc, text.as_slice(), limit) {
        Ok(lines) => Ok(lines),
        Err(ScriptFault::BadLine { line, why }) => Err(bad_script(line, why)),
        Err(ScriptFault::NoMemory) => Err(Stop::NoMemory),
    }
}
