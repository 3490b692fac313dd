// Lines that list the records of a log, with power on.
ghost use Rattle.std.specs.Prelude.{◌≡◌, true, IfOk};
ghost use Rattle.event_ring.specs.Items.{log_on};
ghost use Rattle.event_ring.specs.Standing.{IsOpen};
ghost use Rattle.log_session.specs.declared.line.Line.TheVariants.{Records};
ghost use Rattle.log_session.specs.LineDone.{LineDone};

use crate::answer::{Answer, Bodies};
use event_ring::EventLog;
use flash_map::Area;
use flash_sim::{Bench, Flash, NoMemory, Steps};
use script_lines::copied;
use std::alloc::Global;
use std::sync::ledger::Ledger;

// The bodies of all records, the oldest first.
fn bodies_of<F: Flash, L: Ledger>(
    alloc: Global,
    flash: &F,
    log: &EventLog,
    steps: &mut Steps<L>,
) -> Result<Bodies, NoMemory>
    requires { IsOpen (F.device flash.now) log.now.ring }
    ensures { IfOk result (λ bodies. bodies ≡ log_on (F.device flash.now) log.now.ring.area) }
{
    let mut bodies = Bodies::new(alloc);
    let mut at = log.next(flash, None, steps);
    while let Some(record) = at {
        let body = copied(alloc, log.body(flash, &record, steps))?;
        bodies.push(body)?;
        at = log.next(flash, Some(record), steps);
    }
    Ok(bodies)
}

// Lists all records.
pub(crate) fn report_records<B: Bench, L: Ledger>(
    alloc: Global,
    bench: &B,
    log: &EventLog,
    area: &Area,
    steps: &mut Steps<L>,
) -> Result<Answer, NoMemory>
    requires on { (B.device bench.now).is_on ≡ true }
    requires area { log.now.ring.area ≡ area.now }
    requires mounted { IsOpen (B.device bench.now) log.now.ring }
    ensures { IfOk result
        (λ answer. LineDone area.now Records answer (B.device bench.now) (B.device bench.now)) }
{
    let bodies = bodies_of(alloc, bench, log, steps)?;
    Ok(Answer::Log { bodies })
}
