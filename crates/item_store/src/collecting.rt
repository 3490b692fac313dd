// Closing a sector, garbage collection, and what a mount has to redo.
ghost use Rattle.std.specs.Prelude.{◌≡◌, ◌+◌, ◌*◌, ◌<◌, ◌≤◌, ◌∷◌, [], true, false, None, is_err, IfOk, OnOk, OnErr, ◌⊎◌};
ghost use Rattle.flash_map.specs.Area.{geometry_of, sectors_of, sector_at, ChangesOnly};
ghost use Rattle.flash_map.specs.Touches.{Touches};
ghost use Rattle.item_laws.specs.Area.{next, is_blank_at, is_closed_at};
ghost use Rattle.item_laws.specs.Forms.{AtRest, Collecting, to_copy};
ghost use Rattle.item_laws.specs.Live.{live_in, cost_of};
ghost use Rattle.item_store.specs.OnSector.{sector_on, IsCollecting, IsKeptAfter, IsKeptOn, IsOpenOn, IsOpenSector};
ghost use Rattle.item_store.specs.Ends.{CopyEnds, IsVictimSlot, OpenEnds, RedoEnds, RoundEndsOn};
ghost use Rattle.item_store.specs.Stands.{StandsAt};
ghost use Rattle.item_store.specs.SectorFormat.{is_clean_at, slots};
ghost use Rattle.item_store.specs.Listed.{format_on};
ghost use Rattle.item_store.specs.Seen.{holds_live};
ghost use Rattle.item_store.specs.Collecting.{HasBegun, HasCopied, StopsCopying, CollectsAt, KeepsOrCollects, MarksFirst, RoundMarksFirst, redo_of};
ghost use Rattle.item_store.specs.Spending.{copies, collect_units, ready_units, again_units};
ghost use Rattle.item_store.specs.Standing.{IsStoreArea, KeepsItems, SpendsBy, SpendsIn, SpendsUpTo};
ghost use Rattle.item_store.specs.Steps.{Keeps, StopsClearing};
ghost use Rattle.item_store.specs.Written.{IsWritten};

use crate::entry::{Placed, Redo};
use crate::live::{LiveEntries, live_entries, live_in};
use crate::open_area::OpenArea;
use crate::sectors::SlotSectors;
use flash_map::{Area, geometry};
use flash_sim::{Flash, PowerLost, Steps};
use std::sync::ledger::Ledger;

// Copies the entry in a slot of the victim, if it is live.
fn copy_slot<T: SlotSectors, F: Flash, L: Ledger>(
    flash: &mut F,
    area: &Area,
    opened: &mut T,
    current: u32,
    victim: u32,
    slot: u32,
    live: bool,
    steps: &mut Steps<L>,
) -> Result<(), PowerLost>
    requires here { IsOpenSector T.role T.format_of T.kept (F.device flash.old) area.now current
        opened.old }
    requires collects { IsCollecting T.format_of (F.device flash.old) area.now current }
    requires victim { IsVictimSlot T.format_of (F.device flash.old) area.now current victim slot }
    requires room { let d = F.device flash.old in let k = format_on T.format_of d area.now in
        cost_of (slots k) (live_in (slots k) (sectors_of d area.now) victim slot) + 3 * k.slot
        ≤ k.free (sector_on d area.now current) }
    requires live { let d = F.device flash.old in
        live ≡ holds_live (format_on T.format_of d area.now) (sectors_of d area.now) victim slot }
    ensures touches { let d = F.device flash.old in let e = F.device flash.new in
        Touches (area.now ∷ []) d e (is_err result) }
    ensures ends { let d = F.device flash.old in let e = F.device flash.new in
        let entry =
        live_in (slots (format_on T.format_of d area.now)) (sectors_of d area.now) victim slot in
        CopyEnds T.format_of T.kept d e area.now current entry opened.new result }
{
    match live_in::<T, F, L>(flash, area, victim, slot, live, steps) {
        Some(placed) => opened.copy(flash, area, current, &placed, steps),
        None => Ok(()),
    }
}

// Copies the live entries of the victim to the open sector.
#[inline(never)]
fn copy_live<T: SlotSectors, F: Flash, L: Ledger>(
    flash: &mut F,
    area: &Area,
    opened: &mut T,
    current: u32,
    victim: u32,
    steps: &mut Steps<L>,
) -> Result<(), PowerLost>
    requires area { IsStoreArea T.role (F.device flash.old).banks area.now }
    requires kept { IsKeptOn T.kept (F.device flash.old) area.now current opened.old }
    requires collecting { let d = F.device flash.old in
        Collecting (format_on T.format_of d area.now).reading (sectors_of d area.now) current }
    requires begun { let d = F.device flash.old in
        HasCopied (format_on T.format_of d area.now) (sectors_of d area.now) (sectors_of d area.now)
        current [] }
    requires victim { victim ≡ next (sectors_of (F.device flash.old) area.now) current }
    ensures touches { let d = F.device flash.old in let e = F.device flash.new in
        Touches (area.now ∷ []) d e (is_err result) }
    ensures copies { let d = F.device flash.old in let e = F.device flash.new in
        let k = format_on T.format_of d area.now in
        OnOk result
        (HasCopied k (sectors_of d area.now) (sectors_of e area.now) current
        (to_copy k.reading (sectors_of d area.now) current)) }
    ensures kept { let d = F.device flash.old in let e = F.device flash.new in
        OnOk result (IsKeptAfter T.kept d e area.now current opened.new) }
    ensures lost { let d = F.device flash.old in let e = F.device flash.new in
        OnErr result
        (StopsCopying (format_on T.format_of d area.now) (sectors_of d area.now)
        (sectors_of e area.now)
        current) }
    ensures spends { let d = F.device flash.old in let e = F.device flash.new in
        let k = format_on T.format_of d area.now in
        OnOk result (SpendsIn d e (copies k (to_copy k.reading (sectors_of d area.now) current))) }
    ensures spends_lost { let d = F.device flash.old in let e = F.device flash.new in
        let k = format_on T.format_of d area.now in
        OnErr result
        (SpendsUpTo d e (copies k (to_copy k.reading (sectors_of d area.now) current))) }
{
    let mut live = LiveEntries::new();
    let on = OpenArea {
        area,
        current,
        opened: *opened,
        tops: &[],
    };
    live_entries(flash, &on, victim, &mut live, steps);
    let slots = T::slots(flash, area, victim, steps);
    let first = T::first_slot();
    for slot in first..first + slots {
        let is = live.has(slot - first);
        copy_slot(flash, area, opened, current, victim, slot, is, steps)?;
    }
    Ok(())
}

// A whole garbage collection into an open sector that has no entry and is ready for one.
fn collect<T: SlotSectors, F: Flash, L: Ledger>(
    flash: &mut F,
    area: &Area,
    opened: &mut T,
    current: u32,
    steps: &mut Steps<L>,
) -> Result<(), PowerLost>
    requires area { IsStoreArea T.role (F.device flash.old).banks area.now }
    requires kept { IsKeptOn T.kept (F.device flash.old) area.now current opened.old }
    requires collecting { let d = F.device flash.old in
        Collecting (format_on T.format_of d area.now).reading (sectors_of d area.now) current }
    requires begun { let d = F.device flash.old in
        HasCopied (format_on T.format_of d area.now) (sectors_of d area.now) (sectors_of d area.now)
        current [] }
    ensures touches { let d = F.device flash.old in let e = F.device flash.new in
        Touches (area.now ∷ []) d e (is_err result) }
    ensures collects { let d = F.device flash.old in let e = F.device flash.new in
        OnOk result
        (CollectsAt (format_on T.format_of d area.now) (sectors_of d area.now)
        (sectors_of e area.now)
        current) }
    ensures items { let d = F.device flash.old in let e = F.device flash.new in
        KeepsItems (format_on T.format_of d area.now) (sectors_of d area.now)
        (sectors_of e area.now) }
    ensures list_lost { let d = F.device flash.old in let e = F.device flash.new in
        OnErr result
        (KeepsOrCollects (format_on T.format_of d area.now) (sectors_of d area.now)
        (sectors_of e area.now)
        current) }
    ensures written { let d = F.device flash.old in let e = F.device flash.new in
        IsWritten (format_on T.format_of d area.now) (sectors_of e area.now) }
    ensures kept { let d = F.device flash.old in let e = F.device flash.new in
        OnOk result (IsKeptAfter T.kept d e area.now current opened.new) }
    ensures spends { let d = F.device flash.old in let e = F.device flash.new in
        SpendsBy d e
        (collect_units (format_on T.format_of d area.now) (sectors_of d area.now) current)
        result }
    ensures marks { let d = F.device flash.old in let e = F.device flash.new in
        let k = format_on T.format_of d area.now in
        MarksFirst k (sectors_of d area.now) (sectors_of e area.now) current }
{
    let victim = area.next(current);
    copy_live(flash, area, opened, current, victim, steps)?;
    opened.mark_done(flash, area, current, steps)?;
    T::clear(flash, area, victim, steps)
}

// Makes a sector that is not closed clean and ready for entries.
fn prepare<T: SlotSectors, F: Flash, L: Ledger>(
    flash: &mut F,
    area: &Area,
    opened: &mut T,
    current: u32,
    steps: &mut Steps<L>,
) -> Result<(), PowerLost>
    requires area { IsStoreArea T.role (F.device flash.old).banks area.now }
    requires kept { IsKeptOn T.kept (F.device flash.old) area.now current opened.old }
    requires inside { current < area.now.sectors }
    requires not_closed { let d = F.device flash.old in let k = format_on T.format_of d area.now in
        is_closed_at k.reading (sectors_of d area.now) current ≡ false }
    ensures touches { let d = F.device flash.old in let e = F.device flash.new in
        Touches (area.now ∷ []) d e (is_err result) }
    ensures begun { let d = F.device flash.old in let e = F.device flash.new in
        let k = format_on T.format_of d area.now in let new = sectors_of e area.now in
        OnOk result (HasBegun k (sectors_of d area.now) new current) }
    ensures kept { let d = F.device flash.old in
        let new = sectors_of (F.device flash.new) area.now in
        OnOk result (opened.new ≡ T.kept (geometry_of d area.now) (sector_at new current)) }
    ensures only { let new = sectors_of (F.device flash.new) area.now in
        ChangesOnly (sectors_of (F.device flash.old) area.now) new current }
    ensures lost { let d = F.device flash.old in let k = format_on T.format_of d area.now in
        let b = sector_at (sectors_of d area.now) current in
        let e = sector_at (sectors_of (F.device flash.new) area.now) current in
        OnErr result (Keeps k b e ⊎ StopsClearing k b e) }
    ensures spends { let d = F.device flash.old in let e = F.device flash.new in
        let k = format_on T.format_of d area.now in
        let range = ready_units k (sectors_of d area.now) current in
        OnOk result (SpendsIn d e range) }
    ensures spends_lost { let d = F.device flash.old in let e = F.device flash.new in
        let k = format_on T.format_of d area.now in
        let range = ready_units k (sectors_of d area.now) current in
        OnErr result (SpendsUpTo d e range) }
{
    if T::is_clean(flash, area, current, steps) {
        return opened.begin(flash, area, current, steps);
    }
    T::clear(flash, area, current, steps)?;
    *opened = T::keep(flash, area, current, steps);
    Ok(())
}

// A whole garbage collection into an open sector that may hold a part of it.
fn collect_again<T: SlotSectors, F: Flash, L: Ledger>(
    flash: &mut F,
    area: &Area,
    opened: &mut T,
    current: u32,
    steps: &mut Steps<L>,
) -> Result<(), PowerLost>
    requires area { IsStoreArea T.role (F.device flash.old).banks area.now }
    requires kept { IsKeptOn T.kept (F.device flash.old) area.now current opened.old }
    requires collecting { let d = F.device flash.old in
        Collecting (format_on T.format_of d area.now).reading (sectors_of d area.now) current }
    ensures touches { let d = F.device flash.old in let e = F.device flash.new in
        Touches (area.now ∷ []) d e (is_err result) }
    ensures collects { let d = F.device flash.old in let e = F.device flash.new in
        OnOk result
        (CollectsAt (format_on T.format_of d area.now) (sectors_of d area.now)
        (sectors_of e area.now)
        current) }
    ensures items { let d = F.device flash.old in let e = F.device flash.new in
        KeepsItems (format_on T.format_of d area.now) (sectors_of d area.now)
        (sectors_of e area.now) }
    ensures list_lost { let d = F.device flash.old in let e = F.device flash.new in
        OnErr result
        (KeepsOrCollects (format_on T.format_of d area.now) (sectors_of d area.now)
        (sectors_of e area.now)
        current) }
    ensures written { let d = F.device flash.old in let e = F.device flash.new in
        IsWritten (format_on T.format_of d area.now) (sectors_of e area.now) }
    ensures kept { let d = F.device flash.old in let e = F.device flash.new in
        OnOk result (IsKeptAfter T.kept d e area.now current opened.new) }
    ensures spends { let d = F.device flash.old in let e = F.device flash.new in
        OnOk result
        (SpendsIn d e (again_units (format_on T.format_of d area.now) (sectors_of d area.now)
        current)) }
    ensures spends_lost { let d = F.device flash.old in let e = F.device flash.new in
        OnErr result
        (SpendsUpTo d e (again_units (format_on T.format_of d area.now) (sectors_of d area.now)
        current)) }
    ensures marks { let d = F.device flash.old in let e = F.device flash.new in
        let k = format_on T.format_of d area.now in
        MarksFirst k (sectors_of d area.now) (sectors_of e area.now) current }
{
    prepare(flash, area, opened, current, steps)?;
    collect(flash, area, opened, current, steps)
}

// What a mount has to do, with this sector open.
fn what_to_redo<T: SlotSectors, F: Flash, L: Ledger>(
    flash: &F,
    area: &Area,
    opened: &T,
    current: u32,
    steps: &mut Steps<L>,
) -> Redo
    requires area { IsStoreArea T.role (F.device flash.now).banks area.now }
    requires kept { IsKeptOn T.kept (F.device flash.now) area.now current opened.now }
    requires within { current < area.now.sectors }
    ensures { let d = F.device flash.now in
        result ≡ redo_of (format_on T.format_of d area.now) (sectors_of d area.now) current }
{
    if T::is_closed(flash, area, area.next(current), steps) {
        if opened.has_gc_done() {
            Redo::ClearNext
        } else {
            Redo::CollectAgain
        }
    } else {
        Redo::Nothing
    }
}

// Does what a mount has to do, with this sector open.
pub fn redo<T: SlotSectors, F: Flash, L: Ledger>(
    flash: &mut F,
    area: &Area,
    opened: &mut T,
    current: u32,
    steps: &mut Steps<L>,
) -> Result<(), PowerLost>
    requires area { IsStoreArea T.role (F.device flash.old).banks area.now }
    requires undamaged { let d = F.device flash.old in
        (format_on T.format_of d area.now).damage (sectors_of d area.now) ≡ None }
    requires current { IsOpenOn T.format_of (F.device flash.old) area.now current }
    requires kept { IsKeptOn T.kept (F.device flash.old) area.now current opened.old }
    ensures touches { let d = F.device flash.old in let e = F.device flash.new in
        Touches (area.now ∷ []) d e (is_err result) }
    ensures items { let d = F.device flash.old in let e = F.device flash.new in
        KeepsItems (format_on T.format_of d area.now) (sectors_of d area.now)
        (sectors_of e area.now) }
    ensures written { let d = F.device flash.old in let e = F.device flash.new in
        (F.device flash.new ≡ d)
        ⊎ IsWritten (format_on T.format_of d area.now) (sectors_of e area.now) }
    ensures same { let d = F.device flash.old in
        AtRest (format_on T.format_of d area.now).reading (sectors_of d area.now) current
        → F.device flash.new ≡ d }
    ensures ends { let d = F.device flash.old in let e = F.device flash.new in
        RedoEnds T.format_of T.kept d e area.now current opened.new result }
    ensures marks { let d = F.device flash.old in let e = F.device flash.new in
        let k = format_on T.format_of d area.now in
        MarksFirst k (sectors_of d area.now) (sectors_of e area.now) current }
{
    match what_to_redo(flash, area, opened, current, steps) {
        Redo::Nothing => Ok(()),
        Redo::ClearNext => T::clear(flash, area, area.next(current), steps),
        Redo::CollectAgain => collect_again(flash, area, opened, current, steps),
    }
}

// What a round does with the next sector, which has no entry, once it is the open one. If the
// sector after it is closed, it collects that one. Otherwise it makes the open sector ready for
// entries, if sectors are made ready as they open.
fn open_next<T: SlotSectors, F: Flash, L: Ledger>(
    flash: &mut F,
    area: &Area,
    opened: &mut T,
    current: u32,
    steps: &mut Steps<L>,
) -> Result<(), PowerLost>
    requires area { IsStoreArea T.role (F.device flash.old).banks area.now }
    requires kept { IsKeptOn T.kept (F.device flash.old) area.now current opened.old }
    requires form { let d = F.device flash.old in let k = format_on T.format_of d area.now in
        let old = sectors_of d area.now in
        AtRest k.reading old current ⊎ Collecting k.reading old current }
    requires blank { let d = F.device flash.old in let k = format_on T.format_of d area.now in
        is_blank_at k.reading (sectors_of d area.now) current ≡ true }
    ensures touches { let d = F.device flash.old in let e = F.device flash.new in
        Touches (area.now ∷ []) d e (is_err result) }
    ensures items { let d = F.device flash.old in let e = F.device flash.new in
        let k = format_on T.format_of d area.now in
        KeepsItems k (sectors_of d area.now) (sectors_of e area.now) }
    ensures written { let d = F.device flash.old in let e = F.device flash.new in
        let k = format_on T.format_of d area.now in let new = sectors_of e area.now in
        IsWritten k (sectors_of d area.now) → IsWritten k new }
    ensures ends { let d = F.device flash.old in let e = F.device flash.new in
        OpenEnds T.format_of T.kept d e area.now current opened.new result }
    ensures marks { let d = F.device flash.old in let e = F.device flash.new in
        let k = format_on T.format_of d area.now in
        MarksFirst k (sectors_of d area.now) (sectors_of e area.now) current }
{
    if T::is_closed(flash, area, area.next(current), steps) {
        return collect_again(flash, area, opened, current, steps);
    }
    if T::opens_ready(&geometry(flash, area)) {
        return prepare(flash, area, opened, current, steps);
    }
    Ok(())
}

// Closes the open sector, which is not clean, and opens the next one. If the sector after that is
// closed, it is collected. Returns the sector that is open then.
pub fn round<T: SlotSectors, F: Flash, L: Ledger>(
    flash: &mut F,
    area: &Area,
    opened: &mut T,
    current: u32,
    steps: &mut Steps<L>,
) -> Result<u32, PowerLost>
    requires stands { StandsAt T.role T.format_of T.kept (F.device flash.old) area.now current
        opened.old }
    requires used { let d = F.device flash.old in
        is_clean_at (format_on T.format_of d area.now) (sectors_of d area.now) current ≡ false }
    ensures touches { let d = F.device flash.old in let e = F.device flash.new in
        Touches (area.now ∷ []) d e (is_err result) }
    ensures opened { let d = F.device flash.old in
        IfOk result (λ place. place ≡ next (sectors_of d area.now) current) }
    ensures items { let d = F.device flash.old in let e = F.device flash.new in
        KeepsItems (format_on T.format_of d area.now) (sectors_of d area.now)
        (sectors_of e area.now) }
    ensures written { let d = F.device flash.old in let e = F.device flash.new in
        let k = format_on T.format_of d area.now in let new = sectors_of e area.now in
        IsWritten k (sectors_of d area.now) → IsWritten k new }
    ensures changed { let d = F.device flash.old in let e = F.device flash.new in
        let k = format_on T.format_of d area.now in let new = sectors_of e area.now in
        (new ≡ sectors_of d area.now) ⊎ IsWritten k new }
    ensures ends { let d = F.device flash.old in let e = F.device flash.new in
        RoundEndsOn T.format_of T.kept d e area.now current opened.new result }
    ensures marks { let d = F.device flash.old in let e = F.device flash.new in
        let k = format_on T.format_of d area.now in
        RoundMarksFirst k (sectors_of d area.now) (sectors_of e area.now) current }
{
    opened.close(flash, area, current, steps)?;
    let place = area.next(current);
    *opened = T::keep(flash, area, place, steps);
    open_next(flash, area, opened, place, steps)?;
    Ok(place)
}
