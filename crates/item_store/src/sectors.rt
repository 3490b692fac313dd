// The trait of a sector format.
ghost use Rattle.std.specs.Prelude.{◌≡◌, ℕ, ◌+◌, ◌*◌, ◌^◌, ◌<◌, ◌≤◌, ◌∷◌, [], ◌++◌, false, List, length, map, Some, None, is_err, Option, option_map, IfOk, IfErr, IfSome, IsTrue, OnOk, OnErr};
ghost use Rattle.flash_map.specs.declared.area.Geometry.{Geometry as geometry_type};
ghost use Rattle.flash_map.specs.declared.area.Role.{Role as role_type};
ghost use Rattle.flash_map.specs.Area.{sectors_of, sector_at};
ghost use Rattle.flash_map.specs.Touches.{Touches};
ghost use Rattle.flash_map.specs.Units.{IsUnit};
ghost use Rattle.item_laws.specs.Area.{is_closed_at};
ghost use Rattle.item_laws.specs.Live.{last_in, bytes_of};
ghost use Rattle.item_store.specs.SectorFormat.{SectorFormat, IsSectorFormat, placed_at, slots, fits};
ghost use Rattle.item_store.specs.declared.entry.Placed.{Placed as PlacedEntry};
ghost use Rattle.item_store.specs.Holding.{FindsBytes, RulesOut};
ghost use Rattle.item_store.specs.Lasts.{AreOthers, LooksBack};
ghost use Rattle.item_store.specs.Listed.{HasSlotOn, HasSlotsOn, IsListedOn, IsWithinOn, format_on};
ghost use Rattle.item_store.specs.OnSector.{BeginEnds, CloseEnds, IsMarked, StopsMarking, IsOpenSector, IsCollecting, IsSource, PutEnds, sector_on, free_on, bytes_on, copy_units_on, clear_units_on, IsKeptOn, IsKeptAfter, IsSoundOn, IsOpenOn, IsNotClosedOn, NextIsNotClosedOn, FitsOn, HasCopyRoomOn, ChangesOnlyOn, KeepsMarksOn, AddsOn, ClearsOn, StopsClearingOn};
ghost use Rattle.item_store.specs.Standing.{IsStoreArea, SpendsIn, SpendsUpTo};

use crate::entry::{IdPair, IdRange, ListStart, LookBack, MayHave, Placed};
use crate::notes::Notes;
use flash_map::{Area, Damaged, Geometry};
use flash_sim::{Flash, PowerLost, Steps};
use std::sync::ledger::Ledger;

/// A sector format: what a store keeps of its open sector, and the calls on sectors. An item's
/// bytes and their entry go into one sector.
pub trait SlotSectors: Copy {
    /// The role of the areas that it serves.
    ghost role: { role_type };

    /// How sectors read and what steps in them spend, in an area of this geometry.
    ghost format_of: { geometry_type → SectorFormat };

    /// What is kept of a sector with these bytes.
    ghost kept: { geometry_type → List ℕ → Self };

    /// The number of the first slot that may hold an entry.
    fn first_slot() -> u32
        ensures value { (geometry : geometry_type) → result ≡ (format_of geometry).first }
        ensures small { result < 2 ^ 8 };

    /// Whether the ids of items have 16 bits.
    fn has_short_ids() -> bool
        ensures short { (geometry : geometry_type) → IsTrue result
            → (format_of geometry).ids ≤ 2 ^ 16 }
        ensures wide { (geometry : geometry_type) → (format_of geometry).ids ≤ 2 ^ 16
            → IsTrue result };

    /// What bytes of this length and their entry take up, in bytes.
    fn cost(geometry: &Geometry, len: u32) -> u64
        requires unit { IsUnit geometry.now.unit }
        requires short { len < 2 ^ 16 }
        ensures value { result ≡ (format_of geometry.now).cost len }
        ensures small { result < 2 ^ 18 };

    /// What a sector has for values and their entries, in bytes.
    fn capacity(geometry: &Geometry) -> u32
        requires unit { IsUnit geometry.now.unit }
        ensures { result ≡ (format_of geometry.now).cap geometry.now.sector };

    /// The size of a slot, in bytes.
    fn slot_size(geometry: &Geometry) -> u32
        requires unit { IsUnit geometry.now.unit }
        ensures value { result ≡ (format_of geometry.now).slot }
        ensures small { result < 2 ^ 8 };

    /// Whether a sector is made clean and ready as soon as it is the open one.
    fn opens_ready(geometry: &Geometry) -> bool
        ensures { result ≡ (format_of geometry.now).opens_ready };

    // ---- reading

    /// Whether a sector has no entry and all its space is free.
    fn is_clean<F: Flash, L: Ledger>(
        flash: &F,
        area: &Area,
        place: u32,
        steps: &mut Steps<L>,
    ) -> bool
        requires area { IsStoreArea role (F.device flash.now).banks area.now }
        requires inside { place < area.now.sectors }
        ensures { let d = F.device flash.now in
            result ≡ (format_on format_of d area.now).is_clean (sector_on d area.now place) };

    /// Whether a sector is closed. This takes at most one step.
    fn is_closed<F: Flash, L: Ledger>(
        flash: &F,
        area: &Area,
        place: u32,
        steps: &mut Steps<L>,
    ) -> bool
        requires area { IsStoreArea role (F.device flash.now).banks area.now }
        requires inside { place < area.now.sectors }
        ensures value { let d = F.device flash.now in let k = format_on format_of d area.now in
            result ≡ is_closed_at k.reading (sectors_of d area.now) place }
        ensures step { steps.new ≤ steps.old + 1 };

    /// What is kept of a sector, read from it.
    fn keep<F: Flash, L: Ledger>(flash: &F, area: &Area, place: u32, steps: &mut Steps<L>) -> Self
        requires area { IsStoreArea role (F.device flash.now).banks area.now }
        requires inside { place < area.now.sectors }
        ensures { IsKeptOn kept (F.device flash.now) area.now place result };

    /// Whether gc-done stands in the sector.
    fn has_gc_done(&self) -> bool
        ensures { (geometry : geometry_type) (b : List ℕ) → self.now ≡ kept geometry b
            → result ≡ (format_of geometry).reading.has_gc_done b };

    /// The free bytes of the sector: those between its values, torn ones included, and its slots.
    fn free<F: Flash, L: Ledger>(
        &self,
        flash: &F,
        area: &Area,
        place: u32,
        steps: &mut Steps<L>,
    ) -> u32
        requires area { IsStoreArea role (F.device flash.now).banks area.now }
        requires inside { place < area.now.sectors }
        requires kept { IsKeptOn kept (F.device flash.now) area.now place self.now }
        ensures { let d = F.device flash.now in
            result ≡ (format_on format_of d area.now).free (sector_on d area.now place) };

    /// How many slots the list of the sector has, as `slots` gives it: by what is kept of the sector.
    fn own_slots<F: Flash, L: Ledger>(
        &self,
        flash: &F,
        area: &Area,
        place: u32,
        steps: &mut Steps<L>,
    ) -> u32
        requires area { IsStoreArea role (F.device flash.now).banks area.now }
        requires inside { place < area.now.sectors }
        requires kept { IsKeptOn kept (F.device flash.now) area.now place self.now }
        ensures value { let d = F.device flash.now in
            result ≡ (format_on format_of d area.now).count (sector_on d area.now place) }
        ensures few { result ≤ 2 ^ 15 };

    /// How many slots the list of a sector has.
    fn slots<F: Flash, L: Ledger>(flash: &F, area: &Area, place: u32, steps: &mut Steps<L>) -> u32
        requires area { IsStoreArea role (F.device flash.now).banks area.now }
        requires inside { place < area.now.sectors }
        ensures value { let d = F.device flash.now in
            result ≡ (format_on format_of d area.now).count (sector_on d area.now place) }
        ensures few { result ≤ 2 ^ 15 };

    /// The entry in a slot of a sector's list. This takes at most one step.
    fn entry_in<F: Flash, L: Ledger>(
        flash: &F,
        area: &Area,
        place: u32,
        slot: u32,
        steps: &mut Steps<L>,
    ) -> Option<Placed>
        requires area { IsStoreArea role (F.device flash.now).banks area.now }
        requires inside { place < area.now.sectors }
        requires listed { HasSlotOn format_of (F.device flash.now) area.now place slot }
        ensures entry { let d = F.device flash.now in let k = format_on format_of d area.now in
            result ≡ option_map (placed_at place) (k.in_slot (sector_on d area.now place) slot) }
        ensures small { let d = F.device flash.now in
            IfSome result (λ p. p.id < (format_on format_of d area.now).ids) }
        ensures short { IfSome result (λ p. p.len < 2 ^ 16) }
        ensures step { steps.new ≤ steps.old + 1 };

    /// The id in a slot of a sector's list: that of its entry, if any. This takes at most one step.
    fn id_in<F: Flash, L: Ledger>(
        flash: &F,
        area: &Area,
        place: u32,
        slot: u32,
        steps: &mut Steps<L>,
    ) -> u32
        requires area { IsStoreArea role (F.device flash.now).banks area.now }
        requires inside { place < area.now.sectors }
        requires listed { HasSlotOn format_of (F.device flash.now) area.now place slot }
        ensures id { let d = F.device flash.now in let k = format_on format_of d area.now in
            IfSome (k.in_slot (sector_on d area.now place) slot) (λ e. e.id ≡ result) }
        ensures small { let d = F.device flash.now in
            (format_on format_of d area.now).ids ≤ 2 ^ 16 → result < 2 ^ 16 }
        ensures step { steps.new ≤ steps.old + 1 };

    /// The bytes of an entry of a sector's list. This takes at most one step.
    fn value<'a, F: Flash, L: Ledger>(
        flash: &'a F,
        area: &Area,
        placed: &Placed,
        steps: &mut Steps<L>,
    ) -> &'a [u8]
        requires area { IsStoreArea role (F.device flash.now).banks area.now }
        requires listed { IsListedOn format_of (F.device flash.now) area.now placed.now }
        requires within { IsWithinOn format_of (F.device flash.now) area.now placed.now.sector }
        ensures bytes { let d = F.device flash.now in result.now
            ≡ bytes_of (slots (format_on format_of d area.now)) (sectors_of d area.now) placed.now }
        ensures step { steps.new ≤ steps.old + 1 };

    /// The last entry of an id in a sector. The first `known` slots of its list need no check. This
    /// takes at most one step.
    fn find_in<F: Flash, L: Ledger>(
        flash: &F,
        area: &Area,
        place: u32,
        known: u32,
        id: u32,
        steps: &mut Steps<L>,
    ) -> Option<Placed>
        requires area { IsStoreArea role (F.device flash.now).banks area.now }
        requires inside { place < area.now.sectors }
        requires known { HasSlotsOn format_of (F.device flash.now) area.now place known }
        ensures last { let d = F.device flash.now in let k = format_on format_of d area.now in
            result ≡ option_map (placed_at place)
            (last_in (slots k) place id ((slots k).entries (sector_on d area.now place))) }
        ensures step { steps.new ≤ steps.old + 1 };

    /// How many slots of a sector's list have to be read for the ids of a range: the slots behind
    /// them have no entry of these ids. The first `known` slots of the list need no check. This
    /// takes at most one step.
    fn reach<F: Flash, L: Ledger>(
        flash: &F,
        area: &Area,
        place: u32,
        known: u32,
        ids: &IdRange,
        steps: &mut Steps<L>,
    ) -> u32
        requires area { IsStoreArea role (F.device flash.now).banks area.now }
        requires inside { place < area.now.sectors }
        requires known { HasSlotsOn format_of (F.device flash.now) area.now place known }
        ensures few { HasSlotsOn format_of (F.device flash.now) area.now place result }
        ensures small { result ≤ 2 ^ 15 }
        ensures others { let d = F.device flash.now in let k = format_on format_of d area.now in
            let b = sector_at (sectors_of d area.now) place in
            AreOthers k b result (k.count b) ids.now.least ids.now.most }
        ensures step { steps.new ≤ steps.old + 1 };

    /// The same for the first so many slots of the list. This takes at most one step.
    fn reach_of<F: Flash, L: Ledger>(
        flash: &F,
        area: &Area,
        place: u32,
        slots: u32,
        least: u32,
        most: u32,
        steps: &mut Steps<L>,
    ) -> u32
        requires area { IsStoreArea role (F.device flash.now).banks area.now }
        requires inside { place < area.now.sectors }
        requires listed { HasSlotsOn format_of (F.device flash.now) area.now place slots }
        ensures few { result ≤ slots }
        ensures others { let d = F.device flash.now in
            AreOthers (format_on format_of d area.now) (sector_on d area.now place) result
            slots least most }
        ensures step { steps.new ≤ steps.old + 1 };

    /// The entry in the slot behind the first `before` ones of a sector's list, and how many of
    /// these have to be read for the ids of a range. This takes at most one step.
    fn look_back<F: Flash, L: Ledger>(
        flash: &F,
        area: &Area,
        place: u32,
        before: u32,
        ids: &IdRange,
        steps: &mut Steps<L>,
    ) -> LookBack
        requires area { IsStoreArea role (F.device flash.now).banks area.now }
        requires inside { place < area.now.sectors }
        requires listed { HasSlotsOn format_of (F.device flash.now) area.now place (before + 1) }
        ensures look { let d = F.device flash.now in let k = format_on format_of d area.now in
            LooksBack k (sector_on d area.now place) place before ids.now result }
        ensures step { steps.new ≤ steps.old + 1 };

    /// The first entry behind the slots of a sector's list that are passed over that gives an id of
    /// the range these bytes; `None` if there is none. It compares ids and bytes before CRCs. This
    /// takes at most one step.
    fn find_bytes<F: Flash, L: Ledger>(
        flash: &F,
        area: &Area,
        place: u32,
        start: &ListStart,
        ids: &IdRange,
        bytes: &[u8],
        steps: &mut Steps<L>,
    ) -> Option<Placed>
        requires area { IsStoreArea role (F.device flash.now).banks area.now }
        requires inside { place < area.now.sectors }
        requires listed { HasSlotsOn format_of (F.device flash.now) area.now place
            start.now.skipped }
        requires known { HasSlotsOn format_of (F.device flash.now) area.now place start.now.known }
        requires within { IsWithinOn format_of (F.device flash.now) area.now place }
        ensures found { let d = F.device flash.now in
            FindsBytes (format_on format_of d area.now) (sector_on d area.now place) place ids.now
            bytes.now start.now.skipped result }
        ensures small { IfSome result (λ p. p.slot < 2 ^ 16) }
        ensures step { steps.new ≤ steps.old + 1 };

    /// Which of two ids the slots behind the first so many may have. It checks no CRC of theirs.
    /// This takes at most one step.
    fn may_have<F: Flash, L: Ledger>(
        flash: &F,
        area: &Area,
        place: u32,
        skipped: u32,
        ids: &IdPair,
        steps: &mut Steps<L>,
    ) -> MayHave
        requires area { IsStoreArea role (F.device flash.now).banks area.now }
        requires inside { place < area.now.sectors }
        ensures rules { let d = F.device flash.now in let k = format_on format_of d area.now in
            let b = sector_on d area.now place in RulesOut k b skipped ids.now result }
        ensures step { steps.new ≤ steps.old + 1 };

    /// Notes the entries of a sector, in order. The first `known` slots of its list need no check.
    /// This takes at most one step.
    fn note_sector<N: Notes, F: Flash, L: Ledger>(
        flash: &F,
        area: &Area,
        place: u32,
        known: u32,
        notes: &mut N,
        steps: &mut Steps<L>,
    )
        requires area { IsStoreArea role (F.device flash.now).banks area.now }
        requires inside { place < area.now.sectors }
        requires known { HasSlotsOn format_of (F.device flash.now) area.now place known }
        ensures notes { let d = F.device flash.now in let k = format_on format_of d area.now in
            (start : N) (before : List PlacedEntry) → N.noted start k.ids notes.old before
            → N.noted start k.ids notes.new
            (before ++ map (placed_at place) ((slots k).entries (sector_on d area.now place))) }
        ensures step { steps.new ≤ steps.old + 1 };

    // ---- steps in sectors

    /// Makes the sector ready for entries. One that is ready stays as it is.
    ///
    /// # Errors
    /// `PowerLost`: its list and its marks are as before, and no free space is lost.
    fn begin<F: Flash, L: Ledger>(
        &mut self,
        flash: &mut F,
        area: &Area,
        place: u32,
        steps: &mut Steps<L>,
    ) -> Result<(), PowerLost>
        requires area { IsStoreArea role (F.device flash.old).banks area.now }
        requires inside { place < area.now.sectors }
        requires kept { IsKeptOn kept (F.device flash.old) area.now place self.old }
        requires sound { IsSoundOn format_of (F.device flash.old) area.now place }
        requires opened { IsNotClosedOn format_of (F.device flash.old) area.now place }
        ensures touches { Touches (area.now ∷ []) (F.device flash.old) (F.device flash.new)
            (is_err result) }
        ensures ends { let d = F.device flash.old in let e = F.device flash.new in
            BeginEnds format_of kept d e area.now place self.new result };

    /// Programs an item's bytes and their entry. No bytes are a delete.
    ///
    /// # Errors
    /// `PowerLost`: the sector's list is as before or has the pair too, and no more free space is
    /// lost than the pair costs.
    fn put<F: Flash, L: Ledger>(
        &mut self,
        flash: &mut F,
        area: &Area,
        place: u32,
        id: u32,
        bytes: &[u8],
        steps: &mut Steps<L>,
    ) -> Result<(), PowerLost>
        requires here { IsOpenSector role format_of kept (F.device flash.old) area.now place
            self.old }
        requires rested { NextIsNotClosedOn format_of (F.device flash.old) area.now place }
        requires ordinary { id < (format_on format_of (F.device flash.old) area.now).ids }
        requires fits { FitsOn format_of (F.device flash.old) area.now place (length bytes.now) }
        ensures touches { Touches (area.now ∷ []) (F.device flash.old) (F.device flash.new)
            (is_err result) }
        ensures ends { let d = F.device flash.old in let e = F.device flash.new in
            PutEnds format_of kept d e area.now place id bytes.now self.new result };

    /// Copies an entry with bytes from another sector.
    ///
    /// # Errors
    /// `PowerLost`: the sector's marks are as before.
    fn copy<F: Flash, L: Ledger>(
        &mut self,
        flash: &mut F,
        area: &Area,
        place: u32,
        from: &Placed,
        steps: &mut Steps<L>,
    ) -> Result<(), PowerLost>
        requires here { IsOpenSector role format_of kept (F.device flash.old) area.now place
            self.old }
        requires collects { IsCollecting format_of (F.device flash.old) area.now place }
        requires source { IsSource format_of (F.device flash.old) area.now place from.now }
        requires room { HasCopyRoomOn format_of (F.device flash.old) area.now place from.now.len }
        ensures touches { Touches (area.now ∷ []) (F.device flash.old) (F.device flash.new)
            (is_err result) }
        ensures only { ChangesOnlyOn (F.device flash.old) (F.device flash.new) area.now place }
        ensures adds { let d = F.device flash.old in let e = F.device flash.new in OnOk result
            (AddsOn format_of d e area.now place from.now.id
            (bytes_on format_of d area.now from.now)) }
        ensures kept { OnOk result
            (IsKeptAfter kept (F.device flash.old) (F.device flash.new) area.now place self.new) }
        ensures lost { OnErr result
            (KeepsMarksOn format_of (F.device flash.old) (F.device flash.new) area.now place) }
        ensures spends { let d = F.device flash.old in let e = F.device flash.new in
            OnOk result (SpendsIn d e (copy_units_on format_of d area.now place from.now.len)) }
        ensures spends_lost { let d = F.device flash.old in let e = F.device flash.new in
            OnErr result (SpendsUpTo d e (copy_units_on format_of d area.now place from.now.len)) };

    /// Programs gc-done: the sector has all copies.
    ///
    /// # Errors
    /// `PowerLost`: the sector's marks are as before.
    fn mark_done<F: Flash, L: Ledger>(
        &mut self,
        flash: &mut F,
        area: &Area,
        place: u32,
        steps: &mut Steps<L>,
    ) -> Result<(), PowerLost>
        requires here { IsOpenSector role format_of kept (F.device flash.old) area.now place
            self.old }
        requires collects { IsCollecting format_of (F.device flash.old) area.now place }
        requires room { let d = F.device flash.old in
            2 * (format_on format_of d area.now).slot ≤ free_on format_of d area.now place }
        ensures touches { Touches (area.now ∷ []) (F.device flash.old) (F.device flash.new)
            (is_err result) }
        ensures only { ChangesOnlyOn (F.device flash.old) (F.device flash.new) area.now place }
        ensures ok { let d = F.device flash.old in let e = F.device flash.new in
            OnOk result (IsMarked format_of kept d e area.now place self.new) }
        ensures err { let d = F.device flash.old in let e = F.device flash.new in
            OnErr result (StopsMarking format_of d e area.now place) };

    /// Closes the open sector, which is not clean.
    ///
    /// # Errors
    /// `PowerLost`: the sector's list is as before, or the sector is closed. A sector with no entry
    /// is as before in all its bytes, or closed.
    fn close<F: Flash, L: Ledger>(
        &self,
        flash: &mut F,
        area: &Area,
        place: u32,
        steps: &mut Steps<L>,
    ) -> Result<(), PowerLost>
        requires area { IsStoreArea role (F.device flash.old).banks area.now }
        requires inside { place < area.now.sectors }
        requires kept { IsKeptOn kept (F.device flash.old) area.now place self.now }
        requires opened { IsOpenOn format_of (F.device flash.old) area.now place }
        requires rested { NextIsNotClosedOn format_of (F.device flash.old) area.now place }
        requires sound { IsSoundOn format_of (F.device flash.old) area.now place }
        requires not_closed { IsNotClosedOn format_of (F.device flash.old) area.now place }
        requires used { let d = F.device flash.old in
            (format_on format_of d area.now).is_clean (sector_on d area.now place) ≡ false }
        ensures touches { Touches (area.now ∷ []) (F.device flash.old) (F.device flash.new)
            (is_err result) }
        ensures ends { let d = F.device flash.old in let e = F.device flash.new in
            CloseEnds format_of d e area.now place result };

    /// Empties a sector.
    ///
    /// # Errors
    /// `PowerLost`: its marks are as before, or it is clean. If sectors are made ready as they
    /// open, it is as before in all its bytes, or clean.
    fn clear<F: Flash, L: Ledger>(
        flash: &mut F,
        area: &Area,
        place: u32,
        steps: &mut Steps<L>,
    ) -> Result<(), PowerLost>
        requires area { IsStoreArea role (F.device flash.old).banks area.now }
        requires inside { place < area.now.sectors }
        ensures touches { Touches (area.now ∷ []) (F.device flash.old) (F.device flash.new)
            (is_err result) }
        ensures only { ChangesOnlyOn (F.device flash.old) (F.device flash.new) area.now place }
        ensures clears { let d = F.device flash.old in let e = F.device flash.new in
            OnOk result (ClearsOn format_of d e area.now place) }
        ensures lost { let d = F.device flash.old in let e = F.device flash.new in
            OnErr result (StopsClearingOn format_of d e area.now place) }
        ensures spends { let d = F.device flash.old in let e = F.device flash.new in
            OnOk result (SpendsIn d e (clear_units_on format_of d area.now place)) }
        ensures spends_lost { let d = F.device flash.old in let e = F.device flash.new in
            OnErr result (SpendsUpTo d e (clear_units_on format_of d area.now place)) };

    /// Reads the area: which sector is open, or how the area is damaged.
    fn scan<F: Flash, L: Ledger>(
        flash: &F,
        area: &Area,
        steps: &mut Steps<L>,
    ) -> Result<u32, Damaged>
        requires area { IsStoreArea role (F.device flash.now).banks area.now }
        ensures opened { IfOk result
            (λ place. IsOpenOn format_of (F.device flash.now) area.now place) }
        ensures within { IfOk result (λ place. place < area.now.sectors) }
        ensures undamaged { let d = F.device flash.now in
            OnOk result ((format_on format_of d area.now).damage (sectors_of d area.now) ≡ None) }
        ensures damaged { let d = F.device flash.now in IfErr result
            (λ e. (format_on format_of d area.now).damage (sectors_of d area.now) ≡ Some e) };

    /// The format of each geometry obeys the laws of a sector format.
    ghost lawful: { (geometry : geometry_type) → IsUnit geometry.unit → IsSectorFormat (format_of geometry) };
}
