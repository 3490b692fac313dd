// Garbage collection: the records of the oldest sector that are to stay are copied into the scratch
// sector.
ghost use Rattle.std.specs.Prelude.{◌≡◌, ◌+◌, ◌-◌, ◌/◌, ◌<◌, ◌≤◌, ◌∷◌, [], true, is_err, length, OnOk, OnErr};
ghost use Rattle.flash_sim.specs.declared.flash.TheConstants.{PROGRAM_LIMIT};
ghost use Rattle.flash_map.specs.Area.{sector_size, OthersStay};
ghost use Rattle.flash_map.specs.Touches.{Touches};
ghost use Rattle.fcb_ring.specs.Changing.{Begun, StopsBeginning, CopiedRecord, StopsCopyingRecord, cost_on, is_scratch_left, body_at};
ghost use Rattle.fcb_ring.specs.Ends.{Collected, StopsCollecting};
ghost use Rattle.fcb_ring.specs.Rings.{IsRing};
ghost use Rattle.fcb_ring.specs.Standing.{StandsOn, states_on, IsListed};

use crate::record::RecordAt;
use crate::ring::{Ring, Stage};
use arrayvec::ArrayVec;
use flash_map::area_erase;
use flash_sim::{Flash, PROGRAM_LIMIT, PowerLost, Steps};
use std::sync::ledger::Ledger;

fn copy_of(bytes: &[u8]) -> ArrayVec<u8, PROGRAM_LIMIT>
    requires { length bytes.now ≤ PROGRAM_LIMIT }
    ensures { result.items ≡ bytes.now }
{
    let mut copy = ArrayVec::new();
    let _fits = copy.try_extend_from_slice(bytes);
    copy
}

impl Ring {
    /// Opens the scratch sector for copies of the records of the oldest sector that are to stay.
    /// The list stays, even if power is lost.
    ///
    /// # Errors
    /// `PowerLost`: the scratch sector is still free, and the ring is down.
    pub fn begin_collect<F: Flash>(&mut self, flash: &mut F) -> Result<(), PowerLost>
        requires stands { StandsOn (F.device flash.old) self.old }
        requires ready { self.old.stage ≡ Stage.Ready }
        requires left { is_scratch_left self.old ≡ true }

        ensures touches { Touches (self.old.area ∷ []) (F.device flash.old) (F.device flash.new)
            (is_err result) }
        ensures begun { OnOk result
            (Begun (F.device flash.old) (F.device flash.new) self.old self.new) }
        ensures stopped { OnErr result
            (StopsBeginning (F.device flash.old) (F.device flash.new) self.old self.new) }
        ensures form { let e = F.device flash.new in
            OnErr result (IsRing (states_on e self.old.area) self.old.oldest self.old.used) }
    {
        self.open_next(flash, Stage::Collecting)?;
        Ok(())
    }

    // The body of a record.
    fn body_of<F: Flash, L: Ledger>(
        &self,
        flash: &F,
        r: &RecordAt,
        steps: &mut Steps<L>,
    ) -> ArrayVec<u8, PROGRAM_LIMIT>
        requires stands { StandsOn (F.device flash.now) self.now }
        requires listed { IsListed (F.device flash.now) self.now.area r.now }
        requires short { r.now.len ≤ PROGRAM_LIMIT }
        ensures bytes { result.items ≡ body_at (F.device flash.now) self.now.area r.now }
        ensures len { length result.items ≡ r.now.len }
    {
        copy_of(self.body(flash, r, steps))
    }

    /// Copies a record of the oldest sector behind the copies in the scratch sector. The copy
    /// counts once the collection ends. The list stays, even if power is lost.
    ///
    /// # Errors
    /// `PowerLost`: the ring is down.
    pub fn copy<F: Flash, L: Ledger>(
        &mut self,
        flash: &mut F,
        r: &RecordAt,
        steps: &mut Steps<L>,
    ) -> Result<(), PowerLost>
        requires stands { StandsOn (F.device flash.old) self.old }
        requires collecting { self.old.stage ≡ Stage.Collecting }
        requires listed { IsListed (F.device flash.old) self.old.area r.now }
        requires of_oldest { r.now.sector ≡ self.old.oldest }
        requires short { cost_on (F.device flash.old) self.old.area r.now.len ≤ PROGRAM_LIMIT }
        requires fits { let d = F.device flash.old in
            self.old.end + cost_on d self.old.area r.now.len ≤ sector_size d self.old.area }

        ensures touches { Touches (self.old.area ∷ []) (F.device flash.old) (F.device flash.new)
            (is_err result) }
        ensures copied { OnOk result
            (CopiedRecord (F.device flash.old) (F.device flash.new) self.old self.new r.now) }
        ensures stopped { OnErr result
            (StopsCopyingRecord (F.device flash.old) (F.device flash.new) self.old self.new r.now) }
    {
        let body = self.body_of(flash, r, steps);
        self.put_record(flash, body.as_slice())?;
        Ok(())
    }

    /// Ends the garbage collection: erases the oldest sector. Its records are gone from the list,
    /// and the copies count.
    ///
    /// # Errors
    /// `PowerLost`: the sectors are as before, and the ring is down.
    pub fn end_collect<F: Flash>(&mut self, flash: &mut F) -> Result<(), PowerLost>
        requires stands { StandsOn (F.device flash.old) self.old }
        requires collecting { self.old.stage ≡ Stage.Collecting }

        ensures touches { Touches (self.old.area ∷ []) (F.device flash.old) (F.device flash.new)
            (is_err result) }
        ensures others { OthersStay (F.device flash.old) (F.device flash.new) self.old.area
            self.old.oldest }

        ensures ended { let d = F.device flash.old in
            OnOk result (Collected d (F.device flash.new) self.old self.new) }
        ensures stopped { let d = F.device flash.old in
            OnErr result (StopsCollecting d (F.device flash.new) self.old self.new) }
    {
        let oldest = self.oldest;
        let next = self.place(1);
        self.stage = Stage::Down;
        area_erase(flash, &self.area, oldest)?;
        self.oldest = next;
        self.used -= 1;
        self.stage = Stage::Ready;
        Ok(())
    }
}
