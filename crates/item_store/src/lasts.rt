// The last entries of the ids in a range, from the newest entry back. No table is made of them.
ghost use Rattle.std.specs.Prelude.{◌≡◌, ◌⊎◌, ◌+◌, ◌-◌, ◌^◌, ◌<◌, ◌≤◌, ◌||◌, ◌&&◌, ◌==◌, ℕ, true, not, Some, None, IfSome};
ghost use Rattle.flash_map.specs.Area.{sectors_of, sector_at};
ghost use Rattle.item_laws.specs.Area.{counts_at, next, previous};
ghost use Rattle.item_store.specs.OnSector.{sector_on, IsOpenOn, IsKeptAt, IsOpenAt, NextIsNotClosedOn};
ghost use Rattle.item_store.specs.declared.entry.Placed.{Placed as PlacedEntry};
ghost use Rattle.item_store.specs.Lasts.{in_range, slots_left, AreOthers, IsAt, SameRange, GivesNext, WasGiven, IsLastIn, ReadsSlot, ReadsSlots, WalksOn};
ghost use Rattle.item_store.specs.Listed.{format_on, IsPlacedOn};
ghost use Rattle.item_store.specs.Seen.{has_bit};
ghost use Rattle.item_store.specs.Standing.{IsStoreArea};

use crate::bits::{has_bit, set_bit};
use crate::entry::{IdRange, Placed};
use crate::open_area::{OpenArea, known_slots};
use crate::sectors::SlotSectors;
use flash_map::Area;
use flash_sim::{Flash, Steps};
use std::sync::ledger::Ledger;

/// The most ids of a range whose last entries are walked over.
pub const MOST_IDS: u32 = 0x1_0020;

// A bit for each of them.
const BYTES: usize = 0x2004;

/// A walk over the last entries of the ids in a range, from the newest back. Each id is given once.
#[derive(Drop)]
pub struct Lasts {
    pub(crate) least: u32,
    pub(crate) most: u32,
    // the sector that is being read, and how many of its first slots are left
    pub(crate) place: u32,
    pub(crate) left: u32,
    // the ids of the entries behind these slots, as far as they are in the range
    pub(crate) seen: [u8; BYTES],
}

// How many of the first slots of a sector have to be read, in a store at rest. This takes at most
// one step.
fn reach_at<T: SlotSectors, F: Flash, L: Ledger>(
    flash: &F,
    on: &OpenArea<'_, T>,
    place: u32,
    least: u32,
    most: u32,
    steps: &mut Steps<L>,
) -> u32
    requires on { IsKeptAt T.role T.format_of T.kept (F.device flash.now) on.now }
    requires rested { let d = F.device flash.now in
        NextIsNotClosedOn T.format_of d on.now.area.now on.now.current }
    requires inside { place < on.now.area.now.sectors }
    ensures few { let d = F.device flash.now in let area = on.now.area.now in
        result ≤ (format_on T.format_of d area).count (sector_on d area place) }
    ensures small { result ≤ 2 ^ 15 }
    ensures counts { let d = F.device flash.now in let area = on.now.area.now in
        counts_at (format_on T.format_of d area).reading (sectors_of d area) on.now.current place
        ≡ true }
    ensures others { let d = F.device flash.now in let area = on.now.area.now in
        let k = format_on T.format_of d area in
        let b = sector_at (sectors_of d area) place in
        AreOthers k b result (k.count b) least most }
    ensures step { steps.new ≤ steps.old + 1 }
{
    let known = known_slots::<T>(on.tops, place);
    let ids = IdRange { least, most };
    T::reach(flash, on.area, place, known, &ids, steps)
}

impl Lasts {
    /// A walk that stands before the newest entry. This takes at most one step.
    pub fn start<T: SlotSectors, F: Flash, L: Ledger>(
        flash: &F,
        on: &OpenArea<'_, T>,
        least: u32,
        most: u32,
        steps: &mut Steps<L>,
    ) -> Lasts
        requires on { IsOpenAt T.role T.format_of T.kept (F.device flash.now) on.now }
        requires rested { let d = F.device flash.now in
            NextIsNotClosedOn T.format_of d on.now.area.now on.now.current }
        requires range { most < least + MOST_IDS }
        ensures at { let d = F.device flash.now in let area = on.now.area.now in
            IsAt (format_on T.format_of d area) (sectors_of d area) on.now.current result }
        ensures none { let d = F.device flash.now in let area = on.now.area.now in
            (p : PlacedEntry)
            → ¬ WasGiven (format_on T.format_of d area) (sectors_of d area) on.now.current
            result p }
        ensures least { result.least ≡ least }
        ensures most { result.most ≡ most }
        ensures newest { result.place ≡ on.now.current }
        ensures step { steps.new ≤ steps.old + 1 }
    {
        Lasts {
            least,
            most,
            place: on.current,
            left: reach_at(flash, on, on.current, least, most, steps),
            seen: [0; BYTES],
        }
    }

    // Whether an id is in the range and was not noted before. It is noted then.
    fn is_new(&mut self, id: u32) -> bool
        requires { self.old.most < self.old.least + MOST_IDS }
        ensures new { result
            ≡ (in_range self.old.least self.old.most id
            && not (has_bit self.old.seen (id - self.old.least))) }
        ensures noted { (other : ℕ) → in_range self.old.least self.old.most other ≡ true
            → has_bit self.new.seen (other - self.old.least)
            ≡ (has_bit self.old.seen (other - self.old.least) || (id == other)) }
        ensures range { SameRange self.old self.new }
        ensures place { self.new.place ≡ self.old.place }
        ensures left { self.new.left ≡ self.old.left }
    {
        if id < self.least || self.most < id {
            return false;
        }
        let bit = id - self.least;
        if has_bit(&self.seen, bit) {
            return false;
        }
        set_bit(&mut self.seen, bit);
        true
    }

    // Reads the last of the slots that are left, and how many are left then, in at most one step.
    // Its entry is the next one if its id is in the range and was not noted before.
    fn look_at_slot<T: SlotSectors, F: Flash, L: Ledger>(
        &mut self,
        flash: &F,
        area: &Area,
        current: u32,
        steps: &mut Steps<L>,
    ) -> Option<Placed>
        requires area { IsStoreArea T.role (F.device flash.now).banks area.now }
        requires current { IsOpenOn T.format_of (F.device flash.now) area.now current }
        requires at { let d = F.device flash.now in
            IsAt (format_on T.format_of d area.now) (sectors_of d area.now) current self.old }
        requires some_left { 0 < self.old.left }
        ensures at { let d = F.device flash.now in
            IsAt (format_on T.format_of d area.now) (sectors_of d area.now) current self.new }
        ensures range { SameRange self.old self.new }
        ensures place { self.new.place ≡ self.old.place }
        ensures reads { ReadsSlot self.old self.new steps.old steps.new }
        ensures next { let d = F.device flash.now in let k = format_on T.format_of d area.now in
            let sectors = sectors_of d area.now in IfSome result (IsLastIn k sectors self.old) }
        ensures covered { let d = F.device flash.now in let k = format_on T.format_of d area.now in
            let sectors = sectors_of d area.now in
            (p : PlacedEntry) → WasGiven k sectors current self.new p
            → (Some p ≡ result) ⊎ WasGiven k sectors current self.old p }
    {
        let ids = IdRange {
            least: self.least,
            most: self.most,
        };
        let look = T::look_back(flash, area, self.place, self.left - 1, &ids, steps);
        self.left = look.reach;
        match look.entry {
            Some(placed) => {
                if self.is_new(placed.id) {
                    return Some(placed);
                }
                None
            }
            None => None,
        }
    }

    // The next one of the sector that is being read. This takes at most one step for each slot that
    // it reads.
    fn next_here<T: SlotSectors, F: Flash, L: Ledger>(
        &mut self,
        flash: &F,
        area: &Area,
        current: u32,
        steps: &mut Steps<L>,
    ) -> Option<Placed>
        requires area { IsStoreArea T.role (F.device flash.now).banks area.now }
        requires current { IsOpenOn T.format_of (F.device flash.now) area.now current }
        requires at { let d = F.device flash.now in
            IsAt (format_on T.format_of d area.now) (sectors_of d area.now) current self.old }
        ensures at { let d = F.device flash.now in
            IsAt (format_on T.format_of d area.now) (sectors_of d area.now) current self.new }
        ensures range { SameRange self.old self.new }
        ensures place { self.new.place ≡ self.old.place }
        ensures ends { result ≡ None → self.new.left ≡ 0 }
        ensures reads { ReadsSlots self.old self.new steps.old steps.new result }
        ensures next { let d = F.device flash.now in let k = format_on T.format_of d area.now in
            let sectors = sectors_of d area.now in IfSome result (IsLastIn k sectors self.old) }
        ensures covered { let d = F.device flash.now in let k = format_on T.format_of d area.now in
            let sectors = sectors_of d area.now in
            (p : PlacedEntry) → WasGiven k sectors current self.new p
            → (Some p ≡ result) ⊎ WasGiven k sectors current self.old p }
    {
        while self.left > 0 {
            let found = self.look_at_slot::<T, F, L>(flash, area, current, steps);
            if found.is_some() {
                return found;
            }
        }
        None
    }

    // Goes to the end of the sector before the one that was read. This takes at most one step.
    fn step_back<T: SlotSectors, F: Flash, L: Ledger>(
        &mut self,
        flash: &F,
        on: &OpenArea<'_, T>,
        steps: &mut Steps<L>,
    )
        requires on { IsOpenAt T.role T.format_of T.kept (F.device flash.now) on.now }
        requires at { let d = F.device flash.now in let area = on.now.area.now in
            IsAt (format_on T.format_of d area) (sectors_of d area) on.now.current self.old }
        requires rested { let d = F.device flash.now in
            NextIsNotClosedOn T.format_of d on.now.area.now on.now.current }
        requires none_left { self.old.left ≡ 0 }
        requires further { self.old.place
            ≡ next (sectors_of (F.device flash.now) on.now.area.now) on.now.current → ⊥ }
        ensures at { let d = F.device flash.now in let area = on.now.area.now in
            IsAt (format_on T.format_of d area) (sectors_of d area) on.now.current self.new }
        ensures range { SameRange self.old self.new }
        ensures place { self.new.place
            ≡ previous (sectors_of (F.device flash.now) on.now.area.now) self.old.place }
        ensures covered { let d = F.device flash.now in let area = on.now.area.now in
            let k = format_on T.format_of d area in
            let sectors = sectors_of d area in
            (p : PlacedEntry) → WasGiven k sectors on.now.current self.new p
            → WasGiven k sectors on.now.current self.old p }
        ensures step { steps.new ≤ steps.old + 1 }
    {
        self.place = on.area.previous(self.place);
        self.left = reach_at(flash, on, self.place, self.least, self.most, steps);
    }

    /// The last entry of the next id that the walk did not give yet; `None` at its end. It takes at
    /// most one step for each sector that it comes to, and two for each slot that it reads.
    pub fn next<T: SlotSectors, F: Flash, L: Ledger>(
        &mut self,
        flash: &F,
        on: &OpenArea<'_, T>,
        steps: &mut Steps<L>,
    ) -> Option<Placed>
        requires on { IsOpenAt T.role T.format_of T.kept (F.device flash.now) on.now }
        requires rested { let d = F.device flash.now in
            NextIsNotClosedOn T.format_of d on.now.area.now on.now.current }
        requires at { let d = F.device flash.now in let area = on.now.area.now in
            IsAt (format_on T.format_of d area) (sectors_of d area) on.now.current self.old }
        ensures at { let d = F.device flash.now in let area = on.now.area.now in
            IsAt (format_on T.format_of d area) (sectors_of d area) on.now.current self.new }
        ensures range { SameRange self.old self.new }
        ensures placed { IfSome result
            (IsPlacedOn T.format_of (F.device flash.now) on.now.area.now on.now.current) }
        ensures next { let d = F.device flash.now in let area = on.now.area.now in
            GivesNext (format_on T.format_of d area) (sectors_of d area) on.now.current self.old
            self.new
            result }
        ensures fewer { IfSome result
            (λ _. slots_left on.now.area.now.sectors on.now.current self.new
            < slots_left on.now.area.now.sectors on.now.current self.old) }
        ensures views { let d = F.device flash.now in let area = on.now.area.now in
            WalksOn (format_on T.format_of d area) (sectors_of d area) on.now.current self.old
            self.new steps.old steps.new result }
    {
        let oldest = on.area.next(on.current);
        let mut found = self.next_here::<T, F, L>(flash, on.area, on.current, steps);
        while found.is_none() && self.place != oldest {
            self.step_back(flash, on, steps);
            found = self.next_here::<T, F, L>(flash, on.area, on.current, steps);
        }
        found
    }
}
