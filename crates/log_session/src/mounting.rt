// The mount of a log.
ghost use Rattle.std.specs.Prelude.{◌≡◌, None, Some, IfOk, IfErr, OnOk};
ghost use Rattle.fcb_ring.specs.Standing.{IsRingArea, erases_on, ring_damage};
ghost use Rattle.log_session.specs.declared.answer.Answer.TheVariants.{Done};
ghost use Rattle.log_session.specs.declared.line.Line.TheVariants.{Mount};
ghost use Rattle.log_session.specs.LineDone.{LineDone, turned_on};
ghost use Rattle.log_session.specs.Standing.{IsMounted, ShowsDamage};

use crate::answer::Answer;
use event_ring::EventLog;
use flash_map::{Area, Damaged, MountFault};
use flash_sim::{Bench, Flash, Steps};
use std::sync::ledger::Ledger;

// The answer to a mount, and the mounted log; `None` if power was lost.
#[derive(Drop)]
pub(crate) struct Mounted {
    pub(crate) answer: Answer,
    pub(crate) log: Option<EventLog>,
}

// Turns power on, and mounts. If the area is damaged, nothing else changed.
pub(crate) fn mount<B: Bench, L: Ledger>(
    bench: &mut B,
    area: &Area,
    steps: &mut Steps<L>,
) -> Result<Mounted, Damaged>
    requires { IsRingArea (B.device bench.old).banks area.now }

    ensures done { IfOk result (λ mounted.
        LineDone area.now Mount mounted.answer (B.device bench.old) (B.device bench.new)) }
    ensures mounted { IfOk result (λ mounted. IsMounted (B.device bench.new) area.now mounted.log) }
    ensures before { OnOk result (ring_damage (B.device bench.old) area.now ≡ None) }
    ensures undamaged { OnOk result (ring_damage (B.device bench.new) area.now ≡ None) }
    ensures rests { erases_on (B.device bench.old) area.now ≡ 0
        → IfOk result (λ mounted. mounted.answer ≡ Done 0) }
    ensures damaged { IfErr result (λ damaged.
        ShowsDamage area.now (B.device bench.old) (B.device bench.new) damaged) }
{
    bench.restore();
    let before = bench.spent();
    let end = EventLog::mount(bench, *area, steps);
    let units = bench.spent() - before;
    match end {
        Ok(log) => Ok(Mounted {
            answer: Answer::Done { units },
            log: Some(log),
        }),
        Err(MountFault::PowerLost) => Ok(Mounted {
            answer: Answer::Lost {
                units,
                chance: false,
            },
            log: None,
        }),
        Err(MountFault::Damaged(damaged)) => Err(damaged),
        Err(MountFault::NoMemory) => unreachable!(),
    }
}
