// Mounting.
ghost use Rattle.std.specs.Prelude.{◌≡◌, ◌<◌, ◌∷◌, [], None, true, IfOk};
ghost use Rattle.flash_map.specs.Area.{sectors_of};
ghost use Rattle.flash_map.specs.Touches.{Touches};
ghost use Rattle.fcb_ring.specs.Changing.{StopsErasing};
ghost use Rattle.flash_map.specs.Faults.{mount_lost};
ghost use Rattle.fcb_ring.specs.Standing.{IsRingArea, KeepsEntries, mounted_on, erases_on, ring_damage, MountEnds};

use crate::ring::Ring;
use flash_map::{Area, MountFault};
use flash_sim::{Flash, Steps};
use std::sync::ledger::Ledger;

impl Ring {
    /// Mounts a ring: `inspect`, and then `finish`. `reserve` is the room, in bytes, that ordinary
    /// records leave in each sector. The list stays, even if power is lost. If no erase is due,
    /// nothing changes.
    ///
    /// # Errors
    /// `Damaged`: nothing changed. `PowerLost`: some of the erases that were due are done. Never
    /// `NoMemory`.
    #[tactic(auto, using(flash_map::proofs::Touches::then))]
    pub fn mount<F: Flash, L: Ledger>(
        flash: &mut F,
        area: Area,
        reserve: u32,
        steps: &mut Steps<L>,
    ) -> Result<Ring, MountFault>
        requires { IsRingArea (F.device flash.old).banks area }
        ensures touches { Touches (area ∷ []) (F.device flash.old) (F.device flash.new)
            (mount_lost result) }
        ensures ends { MountEnds (F.device flash.old) (F.device flash.new) area reserve result }
        ensures idle { erases_on (F.device flash.old) area ≡ 0
            → F.device flash.new ≡ F.device flash.old }
        ensures erased { IfOk result
            (λ ring. sectors_of (F.device flash.new) area ≡ mounted_on (F.device flash.old) area) }
        ensures part { mount_lost result ≡ true
            → StopsErasing (F.device flash.old) (F.device flash.new) area }
        ensures list { let d = F.device flash.old in
            ring_damage d area ≡ None → KeepsEntries d (F.device flash.new) area }
    {
        match Ring::inspect(flash, area, reserve, steps) {
            Err(damaged) => Err(MountFault::Damaged(damaged)),
            Ok(mut ring) => match ring.finish(flash, steps) {
                Err(_) => Err(MountFault::PowerLost),
                Ok(()) => Ok(ring),
            },
        }
    }
}
