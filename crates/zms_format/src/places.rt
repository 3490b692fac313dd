// The sectors of an area, one after another and round its end.
ghost use Rattle.std.specs.Prelude.{◌≡◌, ◌==◌, ◌+◌, ◌-◌, ◌<◌, ◌≤◌, ◌^◌, length, IfSome, if◌then◌else◌};
ghost use Rattle.std.specs.List.{find, range_with_len};
ghost use Rattle.flash_map.specs.declared.area.Role.TheVariants.{Zms};
ghost use Rattle.flash_map.specs.Area.{sector_size, sectors_of, sector_at};
ghost use Rattle.flash_map.specs.Lawful.{IsLawfulFor};
ghost use Rattle.item_laws.specs.Area.{counts_at, follows_closed};
ghost use Rattle.zms_cycle.specs.Areas.{kind_on};
ghost use Rattle.zms_format.specs.Area.{plain, marks_of, is_second_open, is_dirty_at, is_overfull_at};
ghost use Rattle.zms_format.specs.Lookup.{is_match, NamesWithin};

use crate::sector::{self, Marks};
use flash_map::{Area, geometry, sector_view};
use flash_sim::{Flash, Steps};
use std::sync::ledger::Ledger;

/// What a mount looks for from sector to sector. The number is that of the open sector.
#[derive(Clone, Copy)]
pub enum Lookup {
    /// A sector that is not closed.
    NotClosed,
    /// A sector that is not closed, after a closed one.
    Opening,
    /// A sector that is closed, or whose slot 2 is valid.
    InUse,
    /// A sector that is not closed and not the open one, and follows a closed one or has a valid
    /// slot 2.
    SecondOpen(u32),
    /// A sector that counts, is not closed and not blank, and cannot take the close entry.
    NotClosable(u32),
    /// A sector that counts, is in use and holds more than it may.
    Full(u32),
}

// The marks of a sector. It counts one step.
fn marks_at<F: Flash, L: Ledger>(flash: &F, area: &Area, place: u32, steps: &mut Steps<L>) -> Marks
    requires lawful { IsLawfulFor (F.device flash.now).banks area.now }
    requires role { area.now.role ≡ Zms }
    requires inside { place < area.now.sectors }
    ensures { let d = F.device flash.now in
        result ≡ marks_of (kind_on d area.now) (sector_at (sectors_of d area.now) place) }
{
    let kind = geometry(flash, area).kind;
    sector::read_marks(sector_view(flash, area, place, steps), kind)
}

/// Whether a sector counts, with this one open.
pub fn counts<F: Flash, L: Ledger>(
    flash: &F,
    area: &Area,
    current: u32,
    place: u32,
    steps: &mut Steps<L>,
) -> bool
    requires lawful { IsLawfulFor (F.device flash.now).banks area.now }
    requires role { area.now.role ≡ Zms }
    requires current { current < area.now.sectors }
    ensures { let d = F.device flash.now in
        result ≡ counts_at plain (sectors_of d area.now) current place }
{
    let after = area.next(current);
    if marks_at(flash, area, after, steps).closed {
        let ignored = if marks_at(flash, area, current, steps).gc_done {
            after
        } else {
            current
        };
        place != ignored
    } else {
        true
    }
}

/// Whether a sector counts, is in use and holds more than it may, with this one open.
fn is_full<F: Flash, L: Ledger>(
    flash: &F,
    area: &Area,
    current: u32,
    place: u32,
    steps: &mut Steps<L>,
) -> bool
    requires lawful { IsLawfulFor (F.device flash.now).banks area.now }
    requires role { area.now.role ≡ Zms }
    requires current { current < area.now.sectors }
    requires inside { place < area.now.sectors }
    ensures { let d = F.device flash.now in
        result ≡ is_overfull_at (sectors_of d area.now) current place }
{
    let kind = geometry(flash, area).kind;
    let bytes = sector_view(flash, area, place, steps);
    let marks = sector::read_marks(bytes, kind);
    if !marks.in_use() {
        return false;
    }
    if !counts(flash, area, current, place, steps) {
        return false;
    }
    if !sector::has_guard(bytes, marks.slots) {
        return true;
    }
    sector::holds_too_much(bytes, marks.slots)
}

/// Whether a sector counts, is not closed and not blank, and cannot take the close entry, with this
/// one open.
fn is_dirty<F: Flash, L: Ledger>(
    flash: &F,
    area: &Area,
    current: u32,
    place: u32,
    steps: &mut Steps<L>,
) -> bool
    requires lawful { IsLawfulFor (F.device flash.now).banks area.now }
    requires role { area.now.role ≡ Zms }
    requires current { current < area.now.sectors }
    requires inside { place < area.now.sectors }
    ensures { let d = F.device flash.now in
        result ≡ is_dirty_at (kind_on d area.now) (sectors_of d area.now) current place }
{
    if !counts(flash, area, current, place, steps) {
        return false;
    }
    let kind = geometry(flash, area).kind;
    let bytes = sector_view(flash, area, place, steps);
    let marks = sector::read_marks(bytes, kind);
    !sector::may_close(bytes, &marks, kind)
}

/// Whether a sector is not closed and follows a closed one.
fn is_opening<F: Flash, L: Ledger>(flash: &F, area: &Area, place: u32, steps: &mut Steps<L>) -> bool
    requires lawful { IsLawfulFor (F.device flash.now).banks area.now }
    requires role { area.now.role ≡ Zms }
    requires inside { place < area.now.sectors }
    ensures { let d = F.device flash.now in
        result ≡ follows_closed plain (sectors_of d area.now) place }
{
    if marks_at(flash, area, place, steps).closed {
        return false;
    }
    marks_at(flash, area, area.previous(place), steps).closed
}

/// Whether a sector is not closed and not this one, and follows a closed one or has a valid slot 2.
fn is_second<F: Flash, L: Ledger>(
    flash: &F,
    area: &Area,
    current: u32,
    place: u32,
    steps: &mut Steps<L>,
) -> bool
    requires lawful { IsLawfulFor (F.device flash.now).banks area.now }
    requires role { area.now.role ≡ Zms }
    requires inside { place < area.now.sectors }
    ensures { let d = F.device flash.now in
        result ≡ is_second_open (sectors_of d area.now) current place }
{
    let marks = marks_at(flash, area, place, steps);
    if marks.closed {
        return false;
    }
    if place == current {
        return false;
    }
    if marks.begun {
        return true;
    }
    marks_at(flash, area, area.previous(place), steps).closed
}

/// Whether a sector matches.
fn is_match<F: Flash, L: Ledger>(
    flash: &F,
    area: &Area,
    lookup: Lookup,
    place: u32,
    steps: &mut Steps<L>,
) -> bool
    requires lawful { IsLawfulFor (F.device flash.now).banks area.now }
    requires role { area.now.role ≡ Zms }
    requires current { NamesWithin lookup area.now.sectors }
    requires inside { place < area.now.sectors }
    ensures { let d = F.device flash.now in
        result ≡ is_match lookup (kind_on d area.now) (sectors_of d area.now) place }
{
    let marks = marks_at(flash, area, place, steps);
    match lookup {
        Lookup::NotClosed => !marks.closed,
        Lookup::Opening => is_opening(flash, area, place, steps),
        Lookup::InUse => marks.in_use(),
        Lookup::SecondOpen(current) => is_second(flash, area, current, place, steps),
        Lookup::NotClosable(current) => is_dirty(flash, area, current, place, steps),
        Lookup::Full(current) => is_full(flash, area, current, place, steps),
    }
}

/// The first sector from this one on that matches.
pub fn first<F: Flash, L: Ledger>(
    flash: &F,
    area: &Area,
    lookup: Lookup,
    from: u32,
    steps: &mut Steps<L>,
) -> Option<u32>
    requires lawful { IsLawfulFor (F.device flash.now).banks area.now }
    requires role { area.now.role ≡ Zms }
    requires current { NamesWithin lookup area.now.sectors }
    ensures value { let d = F.device flash.now in
        result
        ≡ find (is_match lookup (kind_on d area.now) (sectors_of d area.now))
        (range_with_len from (area.now.sectors - from)) }
    ensures within { IfSome result (λ place. place < area.now.sectors) }
{
    for place in from..area.sectors {
        if is_match(flash, area, lookup, place, steps) {
            return Some(place);
        }
    }
    None
}
