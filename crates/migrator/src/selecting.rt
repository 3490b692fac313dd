// The selector: a ring of records. The last record that names a store area says which
// one is active.
ghost use Rattle.std.specs.Prelude.{◌≡◌, ◌+◌, ◌<◌, ◌≤◌, ◌∷◌, [], List, true, false, is_err, None, Some, OnOk, OnErr};
ghost use Rattle.std.specs.Option.{option_map, option_or, ForSome};
ghost use Rattle.flash_map.specs.declared.area.Area.{Area as area_type};
ghost use Rattle.flash_map.specs.Area.{sectors_of};
ghost use Rattle.flash_map.specs.Faults.{mount_lost};
ghost use Rattle.flash_map.specs.Spending.{Spends, SpendsAtMost};
ghost use Rattle.flash_map.specs.Touches.{Touches};
ghost use Rattle.fcb_ring.specs.Changing.{append_lost, header_units, is_scratch_left, newest_place, record_units, sector_list, StopsErasing};
ghost use Rattle.fcb_ring.specs.Scratch.{ChangesScratch, HasEmptyScratch};
ghost use Rattle.fcb_ring.specs.Standing.{IsRingArea, StandsOn as RingStandsOn, KeepsEntries, IsListed, entries_on, is_up, erases_on, mounted_on, ring_damage};
ghost use Rattle.migrator.specs.Areas.{is_store_at};
ghost use Rattle.migrator.specs.Active.{named, last_choice, last_record, active_in};
ghost use Rattle.migrator.specs.Choosing.{choice_of, IsOpen, SelectorMounts, PutEnds, ChooseEnds, Copied, Collected, CollectsAndAdds, Chooses, choice_units, copy_units};

use crate::areas::{first_store, is_store_at};
use fcb_ring::{AppendFault, RecordAt, Ring, Stage};
use flash_map::{Area, FlashMap, MountFault};
use flash_sim::{Flash, PowerLost, Steps};
use std::sync::ledger::Ledger;

/// A mounted selector. It records which store area is active.
#[derive(Drop)]
pub struct Selector {
    pub(crate) ring: Ring,
}

// The store area that a record with this body names.
#[tactic(auto, unfolding(crate::specs::Active::named))]
fn named(map: &FlashMap, body: &[u8]) -> Option<u8>
    ensures { result ≡ named map.now body.now }
{
    if body.len() == 2 && body[1] == 0xFF - body[0] && is_store_at(map, body[0] as usize) {
        Some(body[0])
    } else {
        None
    }
}

// A record, if it names a store area; else the one before.
fn newer(entry: RecordAt, index: Option<u8>, last: Option<(RecordAt, u8)>) -> Option<(RecordAt, u8)>
    ensures { result ≡ option_or (option_map (λ i. (entry, i)) index) last }
{
    match index {
        Some(index) => Some((entry, index)),
        None => last,
    }
}

// The last record that names a store area, and that area.
fn last_choice<F: Flash, L: Ledger>(
    ring: &Ring,
    flash: &F,
    map: &FlashMap,
    steps: &mut Steps<L>,
) -> Option<(RecordAt, u8)>
    requires { RingStandsOn (F.device flash.now) ring.now }
    ensures { result ≡ last_choice map.now (entries_on (F.device flash.now) ring.now.area) }
{
    let mut last = None;
    let mut at = ring.next(flash, None, steps);
    while let Some(record) = at {
        let index = named(map, ring.body(flash, &record, steps));
        last = newer(record, index, last);
        at = ring.next(flash, Some(record), steps);
    }
    last
}

// The last record that names a store area.
fn last_record<F: Flash, L: Ledger>(
    ring: &Ring,
    flash: &F,
    map: &FlashMap,
    steps: &mut Steps<L>,
) -> Option<RecordAt>
    requires { RingStandsOn (F.device flash.now) ring.now }
    ensures { result ≡ last_record map.now (entries_on (F.device flash.now) ring.now.area) }
{
    match last_choice(ring, flash, map, steps) {
        Some((record, _)) => Some(record),
        None => None,
    }
}

// Copies the last record that names a store area, if it stands in the oldest sector.
fn copy_last<F: Flash, L: Ledger>(
    ring: &mut Ring,
    flash: &mut F,
    last: Option<RecordAt>,
    steps: &mut Steps<L>,
) -> Result<(), PowerLost>
    requires scratch { HasEmptyScratch (F.device flash.old) ring.old }
    requires listed { ForSome last (IsListed (F.device flash.old) ring.old.area) }
    requires short { ForSome last (λ r. r.len ≡ 2) }

    ensures touches { Touches (ring.old.area ∷ []) (F.device flash.old) (F.device flash.new)
        (is_err result) }
    ensures only { ChangesScratch (F.device flash.old) (F.device flash.new) ring.old ring.new }

    ensures stands { OnOk result (RingStandsOn (F.device flash.new) ring.new) }
    ensures collecting { OnOk result (ring.new.stage ≡ Stage.Collecting) }
    ensures copied { OnOk result
        (Copied (F.device flash.old) (F.device flash.new) ring.old ring.new last) }
    ensures units { let d = F.device flash.old in let e = F.device flash.new in
        OnOk result
        (Spends d e
        (copy_units d ring.old.area (sector_list e ring.old.area (newest_place ring.old)))) }

    ensures down { OnErr result (is_up ring.new.stage ≡ false) }
    ensures at_most { let d = F.device flash.old in
        SpendsAtMost d (F.device flash.new) (record_units d ring.old.area 2) }
{
    let oldest = ring.oldest();
    match last {
        Some(record) if Some(record.sector) == oldest => ring.copy(flash, &record, steps),
        _ => Ok(()),
    }
}

// Collects the oldest sector. The active area stays, even if power is lost.
#[tactic(auto, using(flash_map::proofs::Touches::then))]
fn collect<F: Flash, L: Ledger>(
    ring: &mut Ring,
    flash: &mut F,
    map: &FlashMap,
    steps: &mut Steps<L>,
) -> Result<(), PowerLost>
    requires mounted { IsOpen (F.device flash.old) ring.old }
    requires left { is_scratch_left ring.old ≡ true }

    ensures touches { Touches (ring.old.area ∷ []) (F.device flash.old) (F.device flash.new)
        (is_err result) }
    ensures area { ring.new.area ≡ ring.old.area }
    ensures collected { OnOk result
        (Collected map.now (F.device flash.old) (F.device flash.new) ring.old ring.new) }

    ensures active { let d = F.device flash.old in
        OnErr result
        (active_in map.now (F.device flash.new) ring.old.area ≡ active_in map.now d ring.old.area) }
    ensures undamaged { OnErr result (ring_damage (F.device flash.new) ring.old.area ≡ None) }
    ensures down { OnErr result (is_up ring.new.stage ≡ false) }
    ensures at_most { let d = F.device flash.old in
        SpendsAtMost d (F.device flash.new)
        (header_units d ring.old.area + record_units d ring.old.area 2 + 1) }
    ensures left { erases_on (F.device flash.new) ring.old.area ≤ 1 }
{
    let last = last_record(ring, flash, map, steps);
    ring.begin_collect(flash)?;
    copy_last(ring, flash, last, steps)?;
    ring.end_collect(flash)?;
    Ok(())
}

// The body of the record that names an area.
fn choice_of(index: u8) -> [u8; 2]
    ensures { result ≡ choice_of index }
{
    [index, 0xFF - index]
}

// Puts the record that names an area, if it fits.
fn put_choice<F: Flash>(ring: &mut Ring, flash: &mut F, index: u8) -> Result<(), AppendFault>
    requires mounted { IsOpen (F.device flash.old) ring.old }

    ensures touches { Touches (ring.old.area ∷ []) (F.device flash.old) (F.device flash.new)
        (append_lost result) }
    ensures area { ring.new.area ≡ ring.old.area }
    ensures ends { (areas : List area_type) → is_store_at areas index ≡ true
        → PutEnds areas (F.device flash.old) (F.device flash.new) ring.old ring.new index result }
    ensures at_most { let d = F.device flash.old in
        SpendsAtMost d (F.device flash.new)
        (header_units d ring.old.area + record_units d ring.old.area 2) }
    ensures left { erases_on (F.device flash.new) ring.old.area ≤ 1 }
{
    let body = choice_of(index);
    ring.append(flash, &body, false)
}

// Collects the oldest sector, and puts the record that names an area, which then fits.
#[tactic(auto, using(flash_map::proofs::Touches::then))]
fn collect_and_put<F: Flash, L: Ledger>(
    ring: &mut Ring,
    flash: &mut F,
    map: &FlashMap,
    index: u8,
    steps: &mut Steps<L>,
) -> Result<(), PowerLost>
    requires mounted { IsOpen (F.device flash.old) ring.old }
    requires left { is_scratch_left ring.old ≡ true }
    requires store { is_store_at map.now index ≡ true }

    ensures touches { Touches (ring.old.area ∷ []) (F.device flash.old) (F.device flash.new)
        (is_err result) }
    ensures area { ring.new.area ≡ ring.old.area }
    ensures ends { ChooseEnds map.now (F.device flash.old) (F.device flash.new) ring.old ring.new
        index result }
    ensures chosen { OnOk result
        (CollectsAndAdds map.now (F.device flash.old) (F.device flash.new) ring.old index) }
    ensures at_most { let d = F.device flash.old in
        SpendsAtMost d (F.device flash.new) (choice_units d ring.old.area) }
    ensures left { erases_on (F.device flash.new) ring.old.area ≤ 1 }
{
    collect(ring, flash, map, steps)?;
    match put_choice(ring, flash, index) {
        Ok(()) => Ok(()),
        Err(AppendFault::PowerLost) => Err(PowerLost),
        Err(AppendFault::TooLong) => unreachable!(),
        Err(AppendFault::Full) => unreachable!(),
    }
}

impl Selector {
    /// Mounts the selector on its area. The records and the active area stay, even if power is
    /// lost. It erases the sectors that are due (`erases_on`), and takes no memory. No more are due
    /// afterwards.
    ///
    /// # Errors
    /// `Damaged` exactly if the area shows damage; nothing was programmed then. `PowerLost`: the
    /// active area is as before. Never `NoMemory`.
    pub fn mount<F: Flash, L: Ledger>(
        flash: &mut F,
        area: Area,
        steps: &mut Steps<L>,
    ) -> Result<Selector, MountFault>
        requires { IsRingArea (F.device flash.old).banks area }
        ensures touches { Touches (area ∷ []) (F.device flash.old) (F.device flash.new)
            (mount_lost result) }
        ensures ends { SelectorMounts (F.device flash.old) (F.device flash.new) area result }
        ensures sound { ring_damage (F.device flash.old) area ≡ None
            → ring_damage (F.device flash.new) area ≡ None }
        ensures active { let d = F.device flash.old in
            ring_damage d area ≡ None → (areas : List area_type)
            → active_in areas (F.device flash.new) area ≡ active_in areas d area }
        ensures idle { erases_on (F.device flash.old) area ≡ 0
            → F.device flash.new ≡ F.device flash.old }
        ensures erased { OnOk result
            (sectors_of (F.device flash.new) area ≡ mounted_on (F.device flash.old) area) }
        ensures part { mount_lost result ≡ true
            → StopsErasing (F.device flash.old) (F.device flash.new) area }
        ensures list { let d = F.device flash.old in
            ring_damage d area ≡ None → KeepsEntries d (F.device flash.new) area }
        ensures units { let d = F.device flash.old in
            OnOk result (Spends d (F.device flash.new) (erases_on d area)) }
        ensures bound { let d = F.device flash.old in
            mount_lost result ≡ true → SpendsAtMost d (F.device flash.new) (erases_on d area) }
        ensures left { erases_on (F.device flash.new) area ≤ erases_on (F.device flash.old) area }
    {
        match Ring::mount(flash, area, 0, steps) {
            Ok(ring) => Ok(Selector { ring }),
            Err(fault) => Err(fault),
        }
    }

    /// Whether the selector is up. A call that answers `PowerLost` takes it down.
    pub fn is_up(&self) -> bool
        ensures { result ≡ is_up self.now.ring.stage }
    {
        self.ring.is_up()
    }

    /// The index of the active store area: the last record that names a store area says it. If none
    /// does, it is the first store area of the map.
    pub fn active<F: Flash, L: Ledger>(
        &self,
        flash: &F,
        map: &FlashMap,
        steps: &mut Steps<L>,
    ) -> usize
        requires { IsOpen (F.device flash.now) self.now.ring }
        ensures { result ≡ active_in map.now (F.device flash.now) self.now.ring.area }
    {
        match last_choice(&self.ring, flash, map, steps) {
            Some((_, index)) => index as usize,
            None => first_store(map),
        }
    }

    /// Makes a store area the active one, by one record more that names it, even if it is active
    /// already. If that record does not fit, and no sector but the scratch one is free, the
    /// oldest sector is collected first; the last record that names a store area is kept.
    /// Whatever the result, it spends at most as many units and erases as `choice_units` gives
    /// for the area's geometry, and the next mount of the selector erases at most one sector.
    ///
    /// # Errors
    /// `PowerLost`: the active area is as before, or the one that was chosen, and the
    /// selector is down.
    pub fn choose<F: Flash, L: Ledger>(
        &mut self,
        flash: &mut F,
        map: &FlashMap,
        index: u8,
        steps: &mut Steps<L>,
    ) -> Result<(), PowerLost>
        requires mounted { IsOpen (F.device flash.old) self.old.ring }
        requires store { is_store_at map.now index ≡ true }

        ensures touches { Touches (self.old.ring.area ∷ []) (F.device flash.old)
            (F.device flash.new) (is_err result) }
        ensures area { self.new.ring.area ≡ self.old.ring.area }
        ensures ends { ChooseEnds map.now (F.device flash.old) (F.device flash.new) self.old.ring
            self.new.ring index result }
        ensures chosen { OnOk result
            (Chooses map.now (F.device flash.old) (F.device flash.new) self.old.ring index) }
        ensures at_most { let d = F.device flash.old in
            SpendsAtMost d (F.device flash.new) (choice_units d self.old.ring.area) }
        ensures left { erases_on (F.device flash.new) self.old.ring.area ≤ 1 }
    {
        match put_choice(&mut self.ring, flash, index) {
            Ok(()) => Ok(()),
            Err(AppendFault::PowerLost) => Err(PowerLost),
            Err(AppendFault::TooLong) => unreachable!(),
            Err(AppendFault::Full) => collect_and_put(&mut self.ring, flash, map, index, steps),
        }
    }
}
