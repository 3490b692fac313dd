// Plans of power losses.
ghost use Rattle.std.specs.Prelude.{◌≡◌};
ghost use Rattle.item_session.specs.declared.line.Line.TheVariants.{Cut, Uncut};
ghost use Rattle.item_session.specs.LineDone.{LineDone};

use crate::answer::Answer;
use flash_map::Area;
use flash_sim::{Bench, Flash};
use item_store::SlotSectors;

// Plans a power loss after so many units and erases.
pub(crate) fn plan_loss<T: SlotSectors, B: Bench>(bench: &mut B, area: &Area, units: u64) -> Answer
    ensures done { LineDone T.format_of area.now (Cut units) result (B.device bench.old)
        (B.device bench.new) }
    ensures same { B.device bench.new
        ≡ record (B.device bench.old) { plan = (B.device bench.new).plan } }
{
    bench.arm(units);
    Answer::Done { units: 0 }
}

// Drops the plan.
pub(crate) fn drop_plan<T: SlotSectors, B: Bench>(bench: &mut B, area: &Area) -> Answer
    ensures done { LineDone T.format_of area.now Uncut result (B.device bench.old)
        (B.device bench.new) }
    ensures same { B.device bench.new
        ≡ record (B.device bench.old) { plan = (B.device bench.new).plan } }
{
    bench.disarm();
    Answer::Done { units: 0 }
}
