// Appending records.
ghost use Rattle.std.specs.Prelude.{◌≡◌, ◌≤◌, ◌∷◌, [], true, false, length, OnOk};
ghost use Rattle.flash_map.specs.Touches.{Touches};
ghost use Rattle.fcb_ring.specs.Changing.{append_lost, is_scratch_left, stays_for, WritesRecord};
ghost use Rattle.fcb_ring.specs.Standing.{erases_on};
ghost use Rattle.event_ring.specs.Appending.{is_too_long, lost_in, drops_for, LogAppends};
ghost use Rattle.event_ring.specs.Dropping.{PutEnds};
ghost use Rattle.event_ring.specs.Room.{IsFilled};
ghost use Rattle.event_ring.specs.Standing.{IsOpen};

use crate::dropping::drop_oldest;
use crate::event_log::EventLog;
use fcb_ring::{AppendFault, Ring};
use flash_map::Area;
use flash_sim::{Flash, Steps};
use std::sync::ledger::Ledger;

/// Why a record was not appended.
#[derive(Clone, Copy, Debug, PartialEq, Eq)]
pub enum LogFault {
    /// The body is empty, or longer than a value of the area may be. Nothing changed.
    TooLong,
    /// Power was off, or was lost in the call.
    PowerLost,
}

// Whether a body of this length is empty, or longer than a value may be.
fn is_too_long(area: &Area, len: usize) -> bool
    ensures { result ≡ is_too_long area.now len }
{
    len == 0 || len > area.value_limit() as usize
}

// Puts a record behind the others, if it fits there or a sector besides the scratch one is free.
fn put<F: Flash>(ring: &mut Ring, flash: &mut F, body: &[u8]) -> Result<(), AppendFault>
    requires mounted { IsOpen (F.device flash.old) ring.old }
    requires short { is_too_long ring.old.area (length body.now) ≡ false }

    ensures touches { Touches (ring.old.area ∷ []) (F.device flash.old) (F.device flash.new)
        (append_lost result) }
    ensures area { ring.new.area ≡ ring.old.area }
    ensures ends { PutEnds (F.device flash.old) (F.device flash.new) ring.old ring.new body.now
        result }
    ensures bytes { let d = F.device flash.old in let stays = stays_for d ring.old body.now 0 in
        OnOk result (WritesRecord stays d (F.device flash.new) ring.old body.now) }
    ensures left { erases_on (F.device flash.new) ring.old.area ≤ 1 }
{
    ring.append(flash, body, false)
}

// Drops the records of the oldest sector, and puts a record, which then fits.
#[tactic(auto, using(flash_map::proofs::Touches::then))]
fn drop_and_put<F: Flash, L: Ledger>(
    ring: &mut Ring,
    flash: &mut F,
    body: &[u8],
    steps: &mut Steps<L>,
) -> Result<u32, LogFault>
    requires mounted { IsOpen (F.device flash.old) ring.old }
    requires short { is_too_long ring.old.area (length body.now) ≡ false }
    requires no_room { stays_for (F.device flash.old) ring.old body.now 0 ≡ false }
    requires left { is_scratch_left ring.old ≡ true }

    ensures touches { Touches (ring.old.area ∷ []) (F.device flash.old) (F.device flash.new)
        (lost_in result) }
    ensures area { ring.new.area ≡ ring.old.area }
    ensures ends { LogAppends (F.device flash.old) (F.device flash.new) ring.old ring.new body.now
        result }
    ensures filled { let area = ring.old.area in
        IsFilled (F.device flash.old) area → IsFilled (F.device flash.new) area }
    ensures left { erases_on (F.device flash.new) ring.old.area ≤ 1 }
{
    let Ok(dropped) = drop_oldest(ring, flash, steps) else {
        return Err(LogFault::PowerLost);
    };
    match put(ring, flash, body) {
        Ok(()) => Ok(dropped),
        Err(AppendFault::PowerLost) => Err(LogFault::PowerLost),
        Err(AppendFault::TooLong) => unreachable!(),
        Err(AppendFault::Full) => unreachable!(),
    }
}

impl EventLog {
    /// Adds a record with this body, and returns how many records that check were dropped for it.
    /// The oldest sector is dropped first, but only if the record does not fit the newest sector
    /// and only the scratch sector is free. If no sector but the newest has room for the longest
    /// record, that is only if the items cost more than all sectors but one have room for, less
    /// the longest record in each. Without a drop it writes the record, behind the header of the
    /// sector that it opens, if any, and no other byte.
    ///
    /// # Errors
    /// `TooLong` exactly if the body is empty or longer than a value of the area may be: nothing
    /// changes. `PowerLost`: the log is down. Its items are as before, or those kept after the
    /// drop, or these followed by a torn record of the same cost or by the record. Or, if the
    /// record's first units with FF behind them check by chance, a record follows whose body is a
    /// proper prefix of the body, with FF behind it to its length. Where the oldest sector is to
    /// be dropped, the items are as before unless at least the units of the drop were spent.
    ///
    /// Whatever the result: if no sector but the newest had room for the longest record, no sector
    /// but the newest has it. The next mount erases at most one sector.
    pub fn append<F: Flash, L: Ledger>(
        &mut self,
        flash: &mut F,
        body: &[u8],
        steps: &mut Steps<L>,
    ) -> Result<u32, LogFault>
        requires { IsOpen (F.device flash.old) self.old.ring }
        ensures touches { Touches (self.old.ring.area ∷ []) (F.device flash.old)
            (F.device flash.new) (lost_in result) }
        ensures area { self.new.ring.area ≡ self.old.ring.area }
        ensures ends { LogAppends (F.device flash.old) (F.device flash.new) self.old.ring
            self.new.ring body.now result }
        ensures bytes { let d = F.device flash.old in let ring = self.old.ring in
            drops_for d ring body.now ≡ false
            → OnOk result
            (WritesRecord (stays_for d ring body.now 0) d (F.device flash.new) ring body.now) }
        ensures filled { let area = self.old.ring.area in
            IsFilled (F.device flash.old) area → IsFilled (F.device flash.new) area }
        ensures left { erases_on (F.device flash.new) self.old.ring.area ≤ 1 }
    {
        if is_too_long(self.ring.area(), body.len()) {
            return Err(LogFault::TooLong);
        }
        match put(&mut self.ring, flash, body) {
            Ok(()) => Ok(0),
            Err(AppendFault::PowerLost) => Err(LogFault::PowerLost),
            Err(AppendFault::TooLong) => unreachable!(),
            Err(AppendFault::Full) => drop_and_put(&mut self.ring, flash, body, steps),
        }
    }
}
