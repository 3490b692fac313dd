// The mount of a mirror.
ghost use Rattle.std.specs.Prelude.{◌≡◌, Bool, false, is_some, IfErr, IfOk};
ghost use Rattle.mirror.specs.Trusted.{IsMirrorMap};
ghost use Rattle.mirror_session.specs.declared.line.Line.TheVariants.{Mount};
ghost use Rattle.mirror_session.specs.Bench.{meanings, moment};
ghost use Rattle.mirror_session.specs.LineDone.{LineDone};
ghost use Rattle.mirror_session.specs.Owing.{OwesUpTo, ReportsOwed};
ghost use Rattle.mirror_session.specs.Plan.{units_of};
ghost use Rattle.mirror_session.specs.Running.{LineStops};
ghost use Rattle.mirror_session.specs.Standing.{IsReady};

use crate::answer::Answer;
use crate::fault::SessionFault;
use flash_map::FlashMap;
use flash_sim::{Bench, Flash, Steps};
use mirror::{Mirror, MirrorMount, Priced};
use std::alloc::Global;
use std::sync::ledger::Ledger;

// The answer to a mount, and the mounted mirror; `None` if power was lost.
#[derive(Drop)]
pub(crate) struct Mounted<K: Priced> {
    pub(crate) answer: Answer,
    pub(crate) mirror: Option<Mirror<K>>,
}

// Turns power on, and mounts.
pub(crate) fn mount<K: Priced, B: Bench, L: Ledger>(
    alloc: Global,
    bench: &mut B,
    map: &FlashMap,
    steps: &mut Steps<L>,
) -> Result<Mounted<K>, SessionFault>
    requires map { IsMirrorMap K.serves map.now (B.device bench.old) }

    ensures done { let m = meanings K.damage K.contents K.rests K.room K.prices K.owes in
        let d = B.device bench.old in let e = B.device bench.new in
        IfOk result
        (λ mounted. (was : Bool)
        → LineDone m map.now Mount mounted.answer (moment d was)
        (moment e (is_some mounted.mirror))) }
    ensures ready { let m = meanings K.damage K.contents K.rests K.room K.prices K.owes in
        IfOk result
        (λ mounted. IsReady K.mounted_on K.stands m map.now (B.device bench.new) mounted.mirror) }
    ensures stops { let m = meanings K.damage K.contents K.rests K.room K.prices K.owes in
        IfErr result
        (λ fault. (was : Bool)
        → LineStops m map.now Mount (moment (B.device bench.old) was) (B.device bench.new) fault) }
    ensures banks { (B.device bench.new).banks ≡ (B.device bench.old).banks }
    ensures boots { let d = B.device bench.old in
        IfOk result
        (λ mounted. ReportsOwed K.owes K.damage K.contents map.now d (units_of mounted.answer)) }
    ensures left { let d = B.device bench.old in let e = B.device bench.new in
        IfOk result
        (λ mounted. (was : Bool)
        → OwesUpTo K.owes 0 map.now (moment d was) (moment e (is_some mounted.mirror))) }
    ensures kept { let d = B.device bench.old in let e = B.device bench.new in
        (was : Bool) → OwesUpTo K.owes 0 map.now (moment d was) (moment e false) }
{
    bench.restore();
    let before = bench.spent();
    let end = Mirror::mount(alloc, bench, map, steps);
    let units = bench.spent() - before;
    match end {
        Ok(mirror) => Ok(Mounted {
            answer: Answer::done(units),
            mirror: Some(mirror),
        }),
        Err(MirrorMount::PowerLost) => Ok(Mounted {
            answer: Answer::lost(units),
            mirror: None,
        }),
        Err(MirrorMount::Damaged { area, damage }) => Err(SessionFault::Damaged { area, damage }),
        Err(MirrorMount::Unfit { area }) => Err(SessionFault::Unfit { area }),
        Err(MirrorMount::NoMemory) => Err(SessionFault::NoMemory),
    }
}
