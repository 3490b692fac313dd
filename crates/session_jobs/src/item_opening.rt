// The readers of an image of items and of a script on it.
ghost use Rattle.std.specs.Prelude.{◌≡◌, ◌⊎◌, All, IfOk, MatchOption};
ghost use Rattle.image_file.specs.Format.{plain};
ghost use Rattle.image_file.specs.Lawful.{IsImage};
ghost use Rattle.image_jobs.specs.Reading.{HasImage, LacksImage, MakesOr, ReadsOr};
ghost use Rattle.item_session.specs.Line.{ids_end};
ghost use Rattle.item_session.specs.Device.{IsServed};
ghost use Rattle.session_jobs.specs.ItemInputs.{FindsNoItems, HasLines, HasNoItemArea, IsItemArea, LacksItems, LacksLines, has_items, ids_of};

use flash_map::{Area, FlashMap, Role};
use image_file::Image;
use image_jobs::{Refusal, Stop, read_image_file, read_script_text};
use item_session::{Ids, Line, ScriptFault, read_script};
use std::alloc::Global;
use zs_host::Host;

/// An image, and the area of its items.
#[derive(Drop)]
pub(crate) struct ItemImage {
    pub(crate) image: Image,
    pub(crate) area: Area,
}

// Whether an area of this role has items.
fn has_items(role: Role) -> bool
    ensures { result ≡ has_items role }
{
    match role {
        Role::Nvs => true,
        Role::Zms => true,
        Role::Fcb => false,
        Role::Sel => false,
    }
}

/// Which ids items have in an area of this role.
pub(crate) fn ids_of(role: Role) -> Ids
    ensures { result ≡ ids_of role }
{
    match role {
        Role::Nvs => Ids::Short,
        Role::Zms => Ids::Long,
        Role::Fcb => Ids::Long,
        Role::Sel => Ids::Long,
    }
}

// The area of items: the only one of the image, if it is of NVS or ZMS.
fn item_area(areas: &FlashMap) -> Option<Area>
    ensures { MatchOption result (HasNoItemArea areas.now) (IsItemArea areas.now) }
{
    if areas.len() != 1 {
        return None;
    }
    let area = areas.at(0)?;
    if has_items(area.role) {
        Some(*area)
    } else {
        None
    }
}

// Refuses an image that does not consist of exactly one area, of NVS or ZMS.
fn with_items<'a>(image: Image) -> Result<ItemImage, Stop<'a>>
    ensures { MakesOr (λ opened. (opened.image ≡ image) × IsItemArea image.map opened.area)
        (FindsNoItems (plain image)) result }
{
    let area = match item_area(&image.map) {
        Some(area) => area,
        None => return Err(Stop::Refused(Refusal::NoItems)),
    };
    Ok(ItemImage { image, area })
}

// Reads the image in a file, with the area of its items. Nothing is printed or written.
pub(crate) fn open_items<'a, H: Host>(
    alloc: Global,
    name: &'a str,
    host: &mut H,
) -> Result<ItemImage, Stop<'a>>
    ensures image { let h = H.outside host.old in
        ReadsOr
        (λ opened. HasImage h name.now (plain opened.image)
        × IsItemArea opened.image.map opened.area)
        (λ refusal. LacksImage h name.now refusal ⊎ LacksItems h name.now refusal)
        h (H.outside host.new) result }
    ensures lawful { IfOk result (λ opened. IsImage (plain opened.image)) }
{
    match read_image_file(alloc, name, host) {
        Ok(image) => with_items(image),
        Err(stop) => Err(stop),
    }
}

// Reads the lines of a script with these ids. No value has more than `limit` bytes. Nothing is
// printed or written.
pub(crate) fn read_item_lines<'a, H: Host>(
    alloc: Global,
    name: &'a str,
    ids: Ids,
    limit: usize,
    host: &mut H,
) -> Result<Vec<Line>, Stop<'a>>
    ensures lines { let h = H.outside host.old in
        ReadsOr (λ lines. HasLines ids limit h name.now lines.items)
        (LacksLines ids limit h name.now) h (H.outside host.new) result }
    ensures served { IfOk result (λ lines. All (IsServed (ids_end ids) limit) lines.items) }
{
    let text = match read_script_text(alloc, name, host) {
        Ok(text) => text,
        Err(stop) => return Err(stop),
    };
    match read_script(alloc, text.as_slice(), ids, limit) {
        Ok(lines) => Ok(lines),
        Err(ScriptFault::BadLine { line, why }) => {
            Err(Stop::Refused(Refusal::BadScript { line, why }))
        }
        Err(ScriptFault::NoMemory) => Err(Stop::NoMemory),
    }
}
