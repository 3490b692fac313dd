// Erasing what is not erased.
ghost use Rattle.std.specs.Prelude.{◌≡◌, ◌<◌, ◌+◌, ◌∷◌, [], ℕ, true, false, is_err, map, replicate, count_by, slice_set, OnOk, OnErr, if◌then◌else◌};
ghost use Rattle.flash_sim.specs.Device.{FailsToErase};
ghost use Rattle.flash_map.specs.Area.{IsLawfulArea, sectors_of, sector_size};
ghost use Rattle.flash_map.specs.Sectors.{blanked, blanked_up_to};
ghost use Rattle.flash_map.specs.Spending.{Spends, SpendsAtMost};
ghost use Rattle.flash_map.specs.Touches.{Touches};
ghost use Rattle.flash_map.specs.Units.{is_written};

use crate::{Area, area_erase, is_erased, sector_view};
use flash_sim::{Flash, PowerLost, Steps};
use std::sync::ledger::Ledger;

/// Erases the sector of the area, if `is_due`.
///
/// # Errors
/// `PowerLost`, only if `is_due`: power was off or was lost in the call. No byte changed.
pub fn erase_if<F: Flash>(
    flash: &mut F,
    area: &Area,
    sector: u32,
    is_due: bool,
) -> Result<(), PowerLost>
    requires lawful { IsLawfulArea (F.device flash.old).banks area.now }
    requires has_sector { sector < area.now.sectors }

    ensures touches { Touches (area.now ∷ []) (F.device flash.old) (F.device flash.new)
        (is_err result) }
    ensures idle { is_due ≡ false → F.device flash.new ≡ F.device flash.old }
    ensures erased { OnOk result
        (sectors_of (F.device flash.new) area.now
        ≡ (if is_due then slice_set (sectors_of (F.device flash.old) area.now) sector
        (replicate (sector_size (F.device flash.old) area.now) 0xFF) else sectors_of
        (F.device flash.old) area.now)) }
    ensures units { OnOk result
        (Spends (F.device flash.old) (F.device flash.new) (if is_due then 1 else 0)) }

    ensures due { OnErr result (is_due ≡ true) }
    ensures lost { OnErr result
        (FailsToErase (F.device flash.old) (F.device flash.new) area.now.bank
        (area.now.first + sector)) }
    ensures same { OnErr result
        (sectors_of (F.device flash.new) area.now ≡ sectors_of (F.device flash.old) area.now) }
    ensures bound { OnErr result (SpendsAtMost (F.device flash.old) (F.device flash.new) 0) }
{
    if is_due {
        return area_erase(flash, area, sector);
    }
    Ok(())
}

/// Erases each sector of the area that is not all FF.
///
/// # Errors
/// `PowerLost` if power was off or was lost in the call: some first sectors are all FF, and the
/// others are as before.
#[tactic(auto, using(crate::proofs::Touches::then))]
pub fn area_format<F: Flash, L: Ledger>(
    flash: &mut F,
    area: &Area,
    steps: &mut Steps<L>,
) -> Result<(), PowerLost>
    requires { IsLawfulArea (F.device flash.old).banks area.now }

    ensures touches { Touches (area.now ∷ []) (F.device flash.old) (F.device flash.new)
        (is_err result) }
    ensures blank { OnOk result
        (sectors_of (F.device flash.new) area.now
        ≡ map blanked (sectors_of (F.device flash.old) area.now)) }
    ensures units { OnOk result
        (Spends (F.device flash.old) (F.device flash.new)
        (count_by is_written (sectors_of (F.device flash.old) area.now))) }

    ensures part { OnErr result
        ((n : ℕ)
        × (sectors_of (F.device flash.new) area.now
        ≡ blanked_up_to n (sectors_of (F.device flash.old) area.now))) }
    ensures bound { OnErr result
        (SpendsAtMost (F.device flash.old) (F.device flash.new)
        (count_by is_written (sectors_of (F.device flash.old) area.now))) }
{
    for sector in 0..area.sectors {
        let is_used = !is_erased(sector_view(flash, area, sector, steps));
        erase_if(flash, area, sector, is_used)?;
    }
    Ok(())
}
