// The erases of a mount.
ghost use Rattle.std.specs.Prelude.{◌≡◌, ◌∷◌, [], ℕ, is_err, map, count_by, OnOk, OnErr};
ghost use Rattle.flash_map.specs.Area.{sectors_of};
ghost use Rattle.flash_map.specs.Sectors.{blanked, blanked_up_to};
ghost use Rattle.flash_map.specs.Touches.{Touches};
ghost use Rattle.flash_map.specs.Units.{is_written};
ghost use Rattle.fcb_ring.specs.SectorStates.{torn_count, mended};
ghost use Rattle.fcb_ring.specs.Changing.{StopsMending};
ghost use Rattle.flash_map.specs.Spending.{Spends, SpendsAtMost};
ghost use Rattle.fcb_ring.specs.Standing.{IsRingArea};

use crate::ring::Ring;
use crate::sector::is_torn;
use flash_map::{Area, area_format, erase_if, sector_view};
use flash_sim::{Flash, PowerLost, Steps};
use std::sync::ledger::Ledger;

// Erases each sector that has a torn header.
#[tactic(auto, using(flash_map::proofs::Touches::then))]
pub(crate) fn erase_torn<F: Flash, L: Ledger>(
    flash: &mut F,
    area: &Area,
    steps: &mut Steps<L>,
) -> Result<(), PowerLost>
    requires { IsRingArea (F.device flash.old).banks area.now }

    ensures touches { Touches (area.now ∷ []) (F.device flash.old) (F.device flash.new)
        (is_err result) }
    ensures idle { torn_count (sectors_of (F.device flash.old) area.now) ≡ 0
        → F.device flash.new ≡ F.device flash.old }
    ensures mended { OnOk result
        (sectors_of (F.device flash.new) area.now
        ≡ map mended (sectors_of (F.device flash.old) area.now)) }
    ensures units { let d = F.device flash.old in
        OnOk result (Spends d (F.device flash.new) (torn_count (sectors_of d area.now))) }

    ensures part { OnErr result (StopsMending (F.device flash.old) (F.device flash.new) area.now) }
    ensures bound { let d = F.device flash.old in
        OnErr result (SpendsAtMost d (F.device flash.new) (torn_count (sectors_of d area.now))) }
{
    for sector in 0..area.sectors {
        let is_due = is_torn(sector_view(flash, area, sector, steps));
        erase_if(flash, area, sector, is_due)?;
    }
    Ok(())
}

impl Ring {
    /// Erases each sector of the area that is not all FF.
    ///
    /// # Errors
    /// `PowerLost` if power was off or was lost in the call: some first sectors are all FF, and the
    /// others are as before.
    pub fn format<F: Flash, L: Ledger>(
        flash: &mut F,
        area: &Area,
        steps: &mut Steps<L>,
    ) -> Result<(), PowerLost>
        requires { IsRingArea (F.device flash.old).banks area.now }

        ensures touches { Touches (area.now ∷ []) (F.device flash.old) (F.device flash.new)
            (is_err result) }
        ensures blank { OnOk result
            (sectors_of (F.device flash.new) area.now
            ≡ map blanked (sectors_of (F.device flash.old) area.now)) }
        ensures units { let d = F.device flash.old in
            OnOk result
            (Spends d (F.device flash.new) (count_by is_written (sectors_of d area.now))) }

        ensures part { OnErr result
            ((n : ℕ)
            × (sectors_of (F.device flash.new) area.now
            ≡ blanked_up_to n (sectors_of (F.device flash.old) area.now))) }
        ensures bound { let d = F.device flash.old in
            OnErr result
            (SpendsAtMost d (F.device flash.new) (count_by is_written (sectors_of d area.now))) }
    {
        area_format(flash, area, steps)
    }
}
