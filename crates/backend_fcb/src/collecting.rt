// Garbage collection of the oldest sector.
ghost use Rattle.std.specs.Prelude.{◌≡◌, ◌∷◌, [], true, is_err, Some, None, OnOk, OnErr};
ghost use Rattle.flash_map.specs.Spending.{SpendsAtMost};
ghost use Rattle.flash_map.specs.Touches.{Touches};
ghost use Rattle.fcb_ring.specs.Chance.{HasNoChance};
ghost use Rattle.fcb_ring.specs.Changing.{is_scratch_left};
ghost use Rattle.fcb_ring.specs.Scratch.{ChangesScratch, HasEmptyScratch};
ghost use Rattle.fcb_ring.specs.Standing.{StandsOn as RingStandsOn};
ghost use Rattle.backend_fcb.specs.Changing.{Copies, CopiesLive, StopsCopying, CanCopy, IsCollected, StopsCollecting, collect_units};
ghost use Rattle.backend_fcb.specs.Compaction.{bodies_at};
ghost use Rattle.backend_fcb.specs.Standing.{damage_on, settings_on, IsReady};

use crate::compaction::{Kept, Table, find_live};
use fcb_ring::{Ring, Stage};
use flash_sim::{Flash, PowerLost, Steps};
use std::sync::ledger::Ledger;

// Copies the records of a table, in order.
#[tactic(auto, using(flash_map::proofs::Touches::then))]
fn copy_all<F: Flash, L: Ledger>(
    ring: &mut Ring,
    flash: &mut F,
    live: &[Kept],
    steps: &mut Steps<L>,
) -> Result<(), PowerLost>
    requires stands { RingStandsOn (F.device flash.old) ring.old }
    requires collecting { ring.old.stage ≡ Stage.Collecting }
    requires live { CanCopy (F.device flash.old) ring.old live.now }

    ensures touches { Touches (ring.old.area ∷ []) (F.device flash.old) (F.device flash.new)
        (is_err result) }
    ensures only { ChangesScratch (F.device flash.old) (F.device flash.new) ring.old ring.new }
    ensures copies { let d = F.device flash.old in
        OnOk result
        (Copies d (F.device flash.new) ring.old ring.new (bodies_at d ring.old.area live.now)) }
    ensures stops { OnErr result
        (StopsCopying (F.device flash.old) (F.device flash.new) ring.old ring.new) }
    ensures lost { OnErr result
        ((F.device flash.old).is_on ≡ true → HasNoChance (F.device flash.new) ring.old.area) }
{
    for kept in live {
        ring.copy(flash, &kept.at, steps)?;
    }
    Ok(())
}

// Copies each record of the oldest sector that is the last of its name and has a value. For each
// table that these fill, it walks once over what is left of the list.
#[tactic(auto, using(flash_map::proofs::Touches::then))]
fn copy_live<F: Flash, L: Ledger>(
    ring: &mut Ring,
    flash: &mut F,
    steps: &mut Steps<L>,
) -> Result<(), PowerLost>
    requires scratch { HasEmptyScratch (F.device flash.old) ring.old }
    requires undamaged { damage_on (F.device flash.old) ring.old.area ≡ None }

    ensures touches { Touches (ring.old.area ∷ []) (F.device flash.old) (F.device flash.new)
        (is_err result) }
    ensures only { ChangesScratch (F.device flash.old) (F.device flash.new) ring.old ring.new }
    ensures copies { OnOk result
        (CopiesLive (F.device flash.old) (F.device flash.new) ring.old ring.new) }
    ensures stops { OnErr result
        (StopsCopying (F.device flash.old) (F.device flash.new) ring.old ring.new) }
    ensures lost { OnErr result
        ((F.device flash.old).is_on ≡ true → HasNoChance (F.device flash.new) ring.old.area) }
{
    let oldest = ring.oldest();
    let mut table = Table::new();
    let mut at = ring.next(flash, None, steps);
    while let Some(from) = at {
        at = find_live(ring, flash, &mut table, Some(from), oldest, steps);
        copy_all(ring, flash, table.as_slice(), steps)?;
    }
    Ok(())
}

// Collects the oldest sector into the scratch sector. The settings stay, even if power is lost.
#[tactic(auto, using(flash_map::proofs::Touches::then))]
pub(crate) fn collect<F: Flash, L: Ledger>(
    ring: &mut Ring,
    flash: &mut F,
    steps: &mut Steps<L>,
) -> Result<(), PowerLost>
    requires ready { IsReady (F.device flash.old) ring.old }
    requires left { is_scratch_left ring.old ≡ true }

    ensures touches { Touches (ring.old.area ∷ []) (F.device flash.old) (F.device flash.new)
        (is_err result) }
    ensures area { ring.new.area ≡ ring.old.area }
    ensures settings { settings_on (F.device flash.new) ring.old.area
        ≡ settings_on (F.device flash.old) ring.old.area }
    ensures undamaged { damage_on (F.device flash.new) ring.old.area ≡ None }
    ensures at_most { SpendsAtMost (F.device flash.old) (F.device flash.new)
        (collect_units (F.device flash.old) ring.old) }

    ensures collected { OnOk result
        (IsCollected (F.device flash.old) (F.device flash.new) ring.old ring.new) }
    ensures stopped { OnErr result
        (StopsCollecting (F.device flash.old) (F.device flash.new) ring.old ring.new) }
{
    ring.begin_collect(flash)?;
    copy_live(ring, flash, steps)?;
    ring.end_collect(flash)?;
    Ok(())
}
