// The log over one area.
ghost use Rattle.std.specs.Prelude.{◌≡◌, ◌+◌, ◌≤◌, ◌∷◌, [], true, None, IfOk, OnOk};
ghost use Rattle.std.specs.Option.{ForSome};
ghost use Rattle.flash_map.specs.Area.{sectors_of};
ghost use Rattle.flash_map.specs.Faults.{mount_lost};
ghost use Rattle.flash_map.specs.Touches.{Touches};
ghost use Rattle.fcb_ring.specs.Changing.{StopsErasing, body_at};
ghost use Rattle.fcb_ring.specs.Standing.{IsRingArea, IsListed, IsBodyOf, IsNext, entries_on, erases_on, is_up, mounted_on, ring_damage};
ghost use Rattle.event_ring.specs.Room.{IsFilled};
ghost use Rattle.event_ring.specs.Standing.{IsOpen, KeepsItems, LogMounts};

use fcb_ring::{RecordAt, Ring};
use flash_map::{Area, MountFault};
use flash_sim::{Flash, Steps};
use std::sync::ledger::Ledger;

/// A log of records in the sectors of one area. It allocates nothing.
#[derive(Drop)]
pub struct EventLog {
    pub(crate) ring: Ring,
}

impl EventLog {
    /// Mounts the log on its area. Its items stay, even if power is lost. It erases the sectors
    /// that are due and changes no other byte. No more erases are due afterwards than before.
    ///
    /// # Errors
    /// `Damaged` exactly if the area has the damage of a ring: nothing changed. `PowerLost`. Never
    /// `NoMemory`.
    pub fn mount<F: Flash, L: Ledger>(
        flash: &mut F,
        area: Area,
        steps: &mut Steps<L>,
    ) -> Result<EventLog, MountFault>
        requires { IsRingArea (F.device flash.old).banks area }
        ensures touches { Touches (area ∷ []) (F.device flash.old) (F.device flash.new)
            (mount_lost result) }
        ensures ends { LogMounts (F.device flash.old) (F.device flash.new) area result }
        ensures idle { erases_on (F.device flash.old) area ≡ 0
            → F.device flash.new ≡ F.device flash.old }
        ensures erased { IfOk result
            (λ log. sectors_of (F.device flash.new) area ≡ mounted_on (F.device flash.old) area) }
        ensures part { mount_lost result ≡ true
            → StopsErasing (F.device flash.old) (F.device flash.new) area }
        ensures filled { let d = F.device flash.old in
            ring_damage d area ≡ None → IsFilled d area → IsFilled (F.device flash.new) area }
        ensures keeps { let d = F.device flash.old in
            ring_damage d area ≡ None → KeepsItems d (F.device flash.new) area }
        ensures left { erases_on (F.device flash.new) area ≤ erases_on (F.device flash.old) area }
    {
        match Ring::mount(flash, area, 0, steps) {
            Ok(ring) => Ok(EventLog { ring }),
            Err(fault) => Err(fault),
        }
    }

    /// Whether the log is up: no call has returned `PowerLost`.
    pub fn is_up(&self) -> bool
        ensures { result ≡ is_up self.now.ring.stage }
    {
        self.ring.is_up()
    }

    /// The record after the given one, or the first of all if none is given; `None` at the end. The
    /// records are those that check, the oldest first.
    pub fn next<F: Flash, L: Ledger>(
        &self,
        flash: &F,
        after: Option<RecordAt>,
        steps: &mut Steps<L>,
    ) -> Option<RecordAt>
        requires mounted { IsOpen (F.device flash.now) self.now.ring }
        requires after { ForSome after (IsListed (F.device flash.now) self.now.ring.area) }
        ensures next { IsNext (entries_on (F.device flash.now) self.now.ring.area) after result }
        ensures listed { ForSome result (IsListed (F.device flash.now) self.now.ring.area) }
    {
        self.ring.next(flash, after, steps)
    }

    /// The body of a record. It counts one step.
    pub fn body<'a, F: Flash, L: Ledger>(
        &self,
        flash: &'a F,
        r: &RecordAt,
        steps: &mut Steps<L>,
    ) -> &'a [u8]
        requires mounted { IsOpen (F.device flash.now) self.now.ring }
        requires listed { IsListed (F.device flash.now) self.now.ring.area r.now }
        ensures step { steps.new ≡ steps.old + 1 }
        ensures bytes { result.now ≡ body_at (F.device flash.now) self.now.ring.area r.now }
        ensures body { IsBodyOf (F.device flash.now) self.now.ring.area r.now result.now }
    {
        self.ring.body(flash, r, steps)
    }
}
