// The ring over one area.
ghost use Rattle.std.specs.Prelude.{◌≡◌, ◌-◌, ◌<◌, ◌≤◌, ◌∷◌, [], Some, None, is_err, length, min, IfOk, OnOk, OnErr, MatchResult, false, true};
ghost use Rattle.flash_map.specs.Touches.{Touches};
ghost use Rattle.fcb_ring.specs.SectorStates.{state_of};
ghost use Rattle.fcb_ring.specs.Rings.{state_at, turned, oldest_place, first_damage};
ghost use Rattle.fcb_ring.specs.Ends.{Finished, StopsFinishing};
ghost use Rattle.fcb_ring.specs.Standing.{IsRingArea, StandsOn, states_on, state_on, KeepsEntries, is_up, is_finished, is_collecting, is_uncounted, erases_on, ring_damage};

use crate::erasing::erase_torn;
use crate::sector::{SectorState, state_of};
use crate::sequence::{first_damage, oldest_place, turned, used_from};
use arrayvec::ArrayVec;
use flash_map::{Area, Damaged, erase_if, geometry, sector_view};
use flash_sim::{Flash, PowerLost, Steps};
use std::sync::ledger::Ledger;

/// How far a ring is with its mount or with a garbage collection.
#[derive(Clone, Copy)]
pub enum Stage {
    /// The area was read; the erases of the mount are to come. If no sector is free,
    /// `newest_waits`: the newest is ignored, and waits to be erased.
    Inspected { newest_waits: bool },
    /// A sector is free, and the ring takes records.
    Ready,
    /// No sector is free: the newest takes copies, and the oldest is to be erased.
    Collecting,
    /// A call has returned `PowerLost`.
    Down,
}

/// A ring of records over the sectors of one area.
#[derive(Drop)]
pub struct Ring {
    pub(crate) area: Area,
    // the room in bytes that ordinary records leave in each sector
    pub(crate) reserve: u32,
    // the oldest of the used sectors, and how many are used; an ignored one is not among them
    pub(crate) oldest: u32,
    pub(crate) used: u32,
    // the id of the newest of these, and where the next record goes in it, in bytes
    pub(crate) id: u16,
    pub(crate) end: u32,
    pub(crate) stage: Stage,
}

// The state of one sector.
fn look<F: Flash, L: Ledger>(
    flash: &F,
    area: &Area,
    sector: u32,
    steps: &mut Steps<L>,
) -> SectorState
    requires area { IsRingArea (F.device flash.now).banks area.now }
    requires has_sector { sector < area.now.sectors }
    ensures { result ≡ state_on (F.device flash.now) area.now sector }
{
    let unit = geometry(flash, area).unit;
    state_of(sector_view(flash, area, sector, steps), unit)
}

// The state of each sector.
pub(crate) fn read_states<F: Flash, L: Ledger>(
    flash: &F,
    area: &Area,
    steps: &mut Steps<L>,
) -> ArrayVec<SectorState, 64>
    requires { IsRingArea (F.device flash.now).banks area.now }
    ensures { result.items ≡ states_on (F.device flash.now) area.now }
{
    let mut states = ArrayVec::new();
    for sector in 0..area.sectors {
        states.push(look(flash, area, sector, steps));
    }
    states
}

// The state of the newest of so many sectors, the oldest of which is given.
fn newest_state(states: &[SectorState], oldest: usize, used: usize) -> SectorState
    requires oldest { oldest < length states.now }
    requires used { used ≤ length states.now }
    requires few { length states.now ≤ 64 }
    ensures { 0 < used
        → result ≡ state_at states.now (turned (length states.now) oldest (used - 1)) }
{
    if used == 0 {
        SectorState::default()
    } else {
        states[turned(states.len(), oldest, used - 1)]
    }
}

impl Ring {
    /// Reads the area, and programs nothing. The ring gives the records that count; it takes no
    /// others before `finish`. `reserve` is the room, in bytes, that ordinary records leave in each
    /// sector.
    ///
    /// # Errors
    /// `Damaged` exactly if the area is damaged: the first kind of damage, at the lowest sector
    /// that shows it.
    pub fn inspect<F: Flash, L: Ledger>(
        flash: &F,
        area: Area,
        reserve: u32,
        steps: &mut Steps<L>,
    ) -> Result<Ring, Damaged>
        requires { IsRingArea (F.device flash.now).banks area }

        ensures ok { IfOk result (λ ring. StandsOn (F.device flash.now) ring) }
        ensures ring { IfOk result
            (λ ring. (ring.area ≡ area) × (ring.reserve ≡ reserve) × (is_up ring.stage ≡ true)
            × (is_finished ring.stage ≡ false)) }
        ensures damaged { let is = ring_damage (F.device flash.now) area in
            MatchResult result (λ _. is ≡ None) (λ damaged. is ≡ Some damaged) }
    {
        let found = read_states(flash, &area, steps);
        let states = found.as_slice();
        if let Some(damaged) = first_damage(states) {
            return Err(damaged);
        }
        let count = states.len();
        let oldest = oldest_place(states);
        let all_used = used_from(states, oldest);
        let used = all_used.min(count - 1);
        let newest = newest_state(states, oldest, used);
        Ok(Ring {
            area,
            reserve,
            oldest: oldest as u32,
            used: used as u32,
            id: newest.id,
            end: newest.end,
            stage: Stage::Inspected {
                newest_waits: all_used == count,
            },
        })
    }

    /// Whether the ring is up: no call has returned `PowerLost`.
    pub fn is_up(&self) -> bool
        ensures { result ≡ is_up self.now.stage }
    {
        !matches!(self.stage, Stage::Down)
    }

    /// Whether the erases of the mount are done.
    pub fn is_finished(&self) -> bool
        ensures { result ≡ is_finished self.now.stage }
    {
        matches!(self.stage, Stage::Ready | Stage::Collecting)
    }

    /// Whether a garbage collection is under way: the scratch sector is open, and the oldest sector
    /// is not yet erased.
    pub fn is_collecting(&self) -> bool
        ensures { result ≡ is_collecting self.now.stage }
    {
        matches!(self.stage, Stage::Collecting)
    }

    /// The area on which the ring stands.
    pub fn area(&self) -> &Area
        ensures { result.now ≡ self.now.area }
    {
        &self.area
    }
}

impl Ring {
    /// Does the erases of a mount: of each sector with a torn header, and of the newest sector if
    /// none is free. The list stays, even if power is lost. If no erase is due, nothing changes.
    ///
    /// # Errors
    /// `PowerLost`: the ring is down.
    #[tactic(auto, using(flash_map::proofs::Touches::then))]
    pub fn finish<F: Flash, L: Ledger>(
        &mut self,
        flash: &mut F,
        steps: &mut Steps<L>,
    ) -> Result<(), PowerLost>
        requires stands { StandsOn (F.device flash.old) self.old }
        requires not_finished { is_finished self.old.stage ≡ false }

        ensures touches { Touches (self.old.area ∷ []) (F.device flash.old) (F.device flash.new)
            (is_err result) }
        ensures list { KeepsEntries (F.device flash.old) (F.device flash.new) self.old.area }
        ensures idle { erases_on (F.device flash.old) self.old.area ≡ 0
            → F.device flash.new ≡ F.device flash.old }

        ensures finished { let d = F.device flash.old in
            OnOk result (Finished d (F.device flash.new) self.old self.new) }
        ensures stopped { let d = F.device flash.old in
            OnErr result (StopsFinishing d (F.device flash.new) self.old self.new) }
    {
        let is_full = self.is_uncounted();
        self.stage = Stage::Down;
        let newest = self.place(self.used);
        erase_torn(flash, &self.area, steps)?;
        erase_if(flash, &self.area, newest, is_full)?;
        self.stage = Stage::Ready;
        Ok(())
    }

    // Whether no sector is free, and the newest waits to be erased.
    fn is_uncounted(&self) -> bool
        ensures { result ≡ is_uncounted self.now.stage }
    {
        matches!(self.stage, Stage::Inspected { newest_waits: true })
    }

    // The place of a sector of the run, by how far it is behind the oldest.
    pub(crate) fn place(&self, further: u32) -> u32
        requires area { self.now.area.sectors ≤ 64 }
        requires oldest { self.now.oldest < self.now.area.sectors }
        requires further { further ≤ self.now.area.sectors }
        ensures value { result ≡ turned self.now.area.sectors self.now.oldest further }
        ensures within { result < self.now.area.sectors }
    {
        turned(
            self.area.sectors as usize,
            self.oldest as usize,
            further as usize,
        ) as u32
    }
}
