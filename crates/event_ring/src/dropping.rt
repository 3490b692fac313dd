// Dropping the records of the oldest sector.
ghost use Rattle.std.specs.Prelude.{◌≡◌, ◌≤◌, ◌∷◌, [], true, is_err, length, IfOk, OnOk, OnErr};
ghost use Rattle.flash_map.specs.Touches.{Touches};
ghost use Rattle.fcb_ring.specs.Changing.{is_scratch_left, sector_list};
ghost use Rattle.fcb_ring.specs.Standing.{erases_on};
ghost use Rattle.event_ring.specs.Dropping.{Dropped, StopsDropping};
ghost use Rattle.event_ring.specs.Standing.{IsOpen};

use fcb_ring::Ring;
use flash_sim::{Flash, PowerLost, Steps};
use std::sync::ledger::Ledger;

// How many records of the oldest sector check.
fn count_oldest<F: Flash, L: Ledger>(ring: &Ring, flash: &F, steps: &mut Steps<L>) -> u32
    requires mounted { IsOpen (F.device flash.now) ring.now }
    requires left { is_scratch_left ring.now ≡ true }
    ensures { result ≡ length (sector_list (F.device flash.now) ring.now.area ring.now.oldest) }
{
    let oldest = ring.oldest();
    let mut count = 0;
    let mut at = ring.next(flash, None, steps);
    while let Some(record) = at {
        if Some(record.sector) != oldest {
            return count;
        }
        count += 1;
        at = ring.next(flash, Some(record), steps);
    }
    count
}

// Drops the records of the oldest sector, and returns how many of them checked. They are gone once
// the scratch sector is open and the oldest is erased.
#[tactic(auto, using(flash_map::proofs::Touches::then))]
pub(crate) fn drop_oldest<F: Flash, L: Ledger>(
    ring: &mut Ring,
    flash: &mut F,
    steps: &mut Steps<L>,
) -> Result<u32, PowerLost>
    requires mounted { IsOpen (F.device flash.old) ring.old }
    requires left { is_scratch_left ring.old ≡ true }

    ensures touches { Touches (ring.old.area ∷ []) (F.device flash.old) (F.device flash.new)
        (is_err result) }
    ensures area { ring.new.area ≡ ring.old.area }
    ensures count { let d = F.device flash.old in
        IfOk result (λ count. count ≡ length (sector_list d ring.old.area ring.old.oldest)) }
    ensures dropped { OnOk result
        (Dropped (F.device flash.old) (F.device flash.new) ring.old ring.new) }
    ensures stopped { OnErr result
        (StopsDropping (F.device flash.old) (F.device flash.new) ring.old ring.new) }
    ensures left { erases_on (F.device flash.new) ring.old.area ≤ 1 }
{
    let count = count_oldest(ring, flash, steps);
    ring.begin_collect(flash)?;
    ring.end_collect(flash)?;
    Ok(count)
}
