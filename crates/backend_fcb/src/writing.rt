// Appending settings.
ghost use Rattle.std.specs.Prelude.{◌≡◌, ◌+◌, ◌*◌, ◌<◌, ◌≤◌, ◌∷◌, [], true, length};
ghost use Rattle.flash_map.specs.Area.{value_limit, unit_of};
ghost use Rattle.flash_map.specs.Spending.{SpendsAtMost};
ghost use Rattle.flash_map.specs.Touches.{Touches};
ghost use Rattle.fcb_ring.specs.Changing.{append_lost, kept_room};
ghost use Rattle.backend_fcb.specs.Changing.{PutEnds, TryEnds, collect_units};
ghost use Rattle.record_settings.specs.Room.{put_cost};
ghost use Rattle.record_settings.specs.Settings.{longest};
ghost use Rattle.backend_fcb.specs.Standing.{IsReady};

use crate::collecting::collect;
use fcb_ring::{AppendFault, Ring};
use flash_sim::{Flash, Steps};
use std::sync::ledger::Ledger;

// Appends a record, if it fits.
fn try_append<F: Flash>(
    ring: &mut Ring,
    flash: &mut F,
    body: &[u8],
    into_reserve: bool,
) -> Result<(), AppendFault>
    requires ready { IsReady (F.device flash.old) ring.old }
    requires some { 0 < length body.now }
    requires short { length body.now ≤ longest (value_limit ring.old.area) }
    requires no_put { into_reserve ≡ true
        → put_cost (value_limit ring.old.area) (unit_of (F.device flash.old) ring.old.area) body.now
        ≡ 0 }

    ensures touches { Touches (ring.old.area ∷ []) (F.device flash.old) (F.device flash.new)
        (append_lost result) }
    ensures area { ring.new.area ≡ ring.old.area }
    ensures ends { TryEnds (F.device flash.old) (F.device flash.new) ring.old ring.new body.now
        (kept_room ring.old into_reserve) result }
{
    ring.append(flash, body, into_reserve)
}

// Appends a record, and collects up to so many times while it does not fit.
pub(crate) fn put<F: Flash, L: Ledger>(
    ring: &mut Ring,
    flash: &mut F,
    body: &[u8],
    into_reserve: bool,
    rounds: u32,
    steps: &mut Steps<L>,
) -> Result<(), AppendFault>
    requires ready { IsReady (F.device flash.old) ring.old }
    requires some { 0 < length body.now }
    requires short { length body.now ≤ longest (value_limit ring.old.area) }
    requires no_put { into_reserve ≡ true
        → put_cost (value_limit ring.old.area) (unit_of (F.device flash.old) ring.old.area) body.now
        ≡ 0 }
    requires few { rounds < ring.old.area.sectors }

    ensures touches { Touches (ring.old.area ∷ []) (F.device flash.old) (F.device flash.new)
        (append_lost result) }
    ensures area { ring.new.area ≡ ring.old.area }
    ensures ends { PutEnds (F.device flash.old) (F.device flash.new) ring.old ring.new body.now
        (kept_room ring.old into_reserve) rounds result }
    ensures at_most { SpendsAtMost (F.device flash.old) (F.device flash.new)
        ((rounds + 1) * collect_units (F.device flash.old) ring.old) }
{
    for _round in 0..rounds {
        match try_append(ring, flash, body, into_reserve) {
            Ok(()) => return Ok(()),
            Err(AppendFault::Full) => {}
            Err(AppendFault::TooLong) => return Err(AppendFault::TooLong),
            Err(AppendFault::PowerLost) => return Err(AppendFault::PowerLost),
        }
        if collect(ring, flash, steps).is_err() {
            return Err(AppendFault::PowerLost);
        }
    }
    try_append(ring, flash, body, into_reserve)
}
