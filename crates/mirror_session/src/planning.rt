// Plans of power losses.
ghost use Rattle.std.specs.Prelude.{◌≡◌, Bool};
ghost use Rattle.mirror_session.specs.declared.line.Line.TheVariants.{Cut, Uncut};
ghost use Rattle.mirror_session.specs.Bench.{meanings, moment};
ghost use Rattle.mirror_session.specs.LineDone.{LineDone, SameButPlan};

use crate::answer::Answer;
use flash_map::FlashMap;
use flash_sim::{Bench, Flash};
use mirror::Priced;

// Plans a power loss after so many units and erases.
pub(crate) fn plan_loss<K: Priced, B: Bench>(bench: &mut B, map: &FlashMap, units: u64) -> Answer
    ensures done { let m = meanings K.damage K.contents K.rests K.room K.prices K.owes in
        let d = B.device bench.old in let e = B.device bench.new in
        (whole : Bool) → LineDone m map.now (Cut units) result (moment d whole) (moment e whole) }
    ensures same { SameButPlan (B.device bench.old) (B.device bench.new) }
{
    bench.arm(units);
    Answer::done(0)
}

// Drops the plan.
pub(crate) fn drop_plan<K: Priced, B: Bench>(bench: &mut B, map: &FlashMap) -> Answer
    ensures done { let m = meanings K.damage K.contents K.rests K.room K.prices K.owes in
        let d = B.device bench.old in let e = B.device bench.new in
        (whole : Bool) → LineDone m map.now Uncut result (moment d whole) (moment e whole) }
    ensures same { SameButPlan (B.device bench.old) (B.device bench.new) }
{
    bench.disarm();
    Answer::done(0)
}
