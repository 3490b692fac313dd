// Plans of power losses.
ghost use Rattle.std.specs.Prelude.{◌≡◌};
ghost use Rattle.script_lines.specs.declared.line.Line.TheVariants.{Cut, Uncut};
ghost use Rattle.session.specs.OnMap.{DoneBeside, meanings};

use backend_api::Backend;
use flash_map::FlashMap;
use flash_sim::{Bench, Flash};
use script_lines::Answer;

// Plans a power loss after so many units and erases.
pub(crate) fn plan_loss<K: Backend, B: Bench>(bench: &mut B, map: &FlashMap, units: u64) -> Answer
    ensures done { let d = B.device bench.old in
        DoneBeside (meanings K.contents K.room K.chance K.tears) map.now (Cut units) result d
        (B.device bench.new) }
    ensures same { B.device bench.new
        ≡ record (B.device bench.old) { plan = (B.device bench.new).plan } }
{
    bench.arm(units);
    Answer::Done { units: 0 }
}

// Drops the plan.
pub(crate) fn drop_plan<K: Backend, B: Bench>(bench: &mut B, map: &FlashMap) -> Answer
    ensures done { let d = B.device bench.old in
        DoneBeside (meanings K.contents K.room K.chance K.tears) map.now Uncut result d
        (B.device bench.new) }
    ensures same { B.device bench.new
        ≡ record (B.device bench.old) { plan = (B.device bench.new).plan } }
{
    bench.disarm();
    Answer::Done { units: 0 }
}
