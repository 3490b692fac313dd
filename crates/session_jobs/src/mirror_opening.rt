// The readers of an image of a mirror and of a script on it.
ghost use Rattle.std.specs.Prelude.{◌≡◌, ◌⊎◌, ◌↔◌, IsTrue, All, IfOk, count_by};
ghost use Rattle.image_file.specs.Format.{plain};
ghost use Rattle.image_file.specs.Lawful.{IsImage, is_selector};
ghost use Rattle.image_jobs.specs.Reading.{HasImage, LacksImage, MakesOr, ReadsOr};
ghost use Rattle.mirror_session.specs.LineDone.{IsServed};
ghost use Rattle.session_jobs.specs.MirrorInputs.{AreMirrored, FindsNoMirror, HasLines, LacksLines, LacksMirror, is_stored, may_mirror};

use flash_map::{Area, FlashMap, Role};
use image_file::Image;
use image_jobs::{Refusal, Stop, read_image_file, read_script_text};
use mirror_session::{Line, ScriptFault, read_script};
use std::alloc::Global;
use zs_host::Host;

// Whether an area of this role can hold the settings of a mirror.
fn may_mirror(role: Role) -> bool
    ensures { result ≡ may_mirror role }
{
    match role {
        Role::Nvs => true,
        Role::Zms => true,
        Role::Fcb => false,
        Role::Sel => false,
    }
}

// Whether an area can hold the settings of a mirror.
fn is_stored(area: &Area) -> bool
    ensures { result ≡ is_stored area.now }
{
    may_mirror(area.role)
}

fn is_selector(area: &Area) -> bool
    ensures { result ≡ is_selector area.now }
{
    area.role == Role::Sel
}

// How many areas can hold the settings of a mirror.
fn count_stored(areas: &FlashMap) -> usize
    ensures { result ≡ count_by is_stored areas.now }
{
    areas.iter().filter(|area| is_stored(area)).count()
}

// How many areas are selectors.
fn count_selectors(areas: &FlashMap) -> usize
    ensures { result ≡ count_by is_selector areas.now }
{
    areas.iter().filter(|area| is_selector(area)).count()
}

// Whether the map has exactly three areas: two of NVS or ZMS, and a selector.
fn are_mirrored(areas: &FlashMap) -> bool
    ensures { IsTrue result ↔ AreMirrored areas.now }
{
    areas.len() == 3 && count_stored(areas) == 2 && count_selectors(areas) == 1
}

// Refuses an image without a mirror.
fn with_mirror<'a>(image: Image) -> Result<Image, Stop<'a>>
    ensures { MakesOr (λ opened. (opened ≡ image) × AreMirrored image.map)
        (FindsNoMirror (plain image)) result }
{
    if !are_mirrored(&image.map) {
        return Err(Stop::Refused(Refusal::NoMirror));
    }
    Ok(image)
}

// Reads the image in a file, which must have a mirror. Nothing is printed or written.
pub(crate) fn open_mirror<'a, H: Host>(
    alloc: Global,
    name: &'a str,
    host: &mut H,
) -> Result<Image, Stop<'a>>
    ensures image { let h = H.outside host.old in
        ReadsOr (λ image. HasImage h name.now (plain image) × AreMirrored image.map)
        (λ refusal. LacksImage h name.now refusal ⊎ LacksMirror h name.now refusal)
        h (H.outside host.new) result }
    ensures lawful { IfOk result (λ image. IsImage (plain image)) }
{
    match read_image_file(alloc, name, host) {
        Ok(image) => with_mirror(image),
        Err(stop) => Err(stop),
    }
}

// Reads the lines of a script. No value has more than `limit` bytes. Nothing is printed or written.
pub(crate) fn read_mirror_lines<'a, H: Host>(
    alloc: Global,
    name: &'a str,
    limit: usize,
    host: &mut H,
) -> Result<Vec<Line>, Stop<'a>>
    ensures lines { let h = H.outside host.old in
        ReadsOr (λ lines. HasLines limit h name.now lines.items) (LacksLines limit h name.now) h
        (H.outside host.new) result }
    ensures served { IfOk result (λ lines. All (IsServed limit) lines.items) }
{
    let text = match read_script_text(alloc, name, host) {
        Ok(text) => text,
        Err(stop) => return Err(stop),
    };
    match read_script(alloc, text.as_slice(), limit) {
        Ok(lines) => Ok(lines),
        Err(ScriptFault::BadLine { line, why }) => {
            Err(Stop::Refused(Refusal::BadScript { line, why }))
        }
        Err(ScriptFault::NoMemory) => Err(Stop::NoMemory),
    }
}
