// Lines that append a record, with power on.
ghost use Rattle.std.specs.Prelude.{◌≡◌, true, None, Some};
ghost use Rattle.event_ring.specs.Standing.{IsOpen};
ghost use Rattle.fcb_ring.specs.Chance.{chance_on};
ghost use Rattle.fcb_ring.specs.Standing.{IsRingArea, ring_damage};
ghost use Rattle.flash_map.specs.Area.{value_limit};
ghost use Rattle.flash_sim.specs.declared.flash.Loss.{Loss as loss_type};
ghost use Rattle.log_session.specs.declared.line.Line.TheVariants.{Put};
ghost use Rattle.log_session.specs.LineDone.{IsServed, LineDone};

use crate::answer::Answer;
use event_ring::{EventLog, LogFault};
use fcb_ring::chance;
use flash_map::Area;
use flash_sim::{Bench, Flash, Steps};
use script_lines::Bytes;
use std::sync::ledger::Ledger;

// Whether the units before the last loss spell, by chance, another record in the area.
fn spells_another<B: Bench, L: Ledger>(bench: &B, area: &Area, steps: &mut Steps<L>) -> bool
    requires { IsRingArea (B.device bench.now).banks area.now }
    ensures { (loss : loss_type) → (B.device bench.now).last_loss ≡ Some loss
        → result ≡ chance_on (B.device bench.now) area.now loss }
{
    match bench.last_loss() {
        Some(loss) => chance(bench, area, loss, steps),
        None => false,
    }
}

// Appends a record.
pub(crate) fn put_record<B: Bench, L: Ledger>(
    bench: &mut B,
    log: &mut EventLog,
    area: &Area,
    body: &Bytes,
    steps: &mut Steps<L>,
) -> Answer
    requires on { (B.device bench.old).is_on ≡ true }
    requires area { log.old.ring.area ≡ area.now }
    requires mounted { IsOpen (B.device bench.old) log.old.ring }
    requires line { IsServed (value_limit area.now) (Put body.now) }

    ensures done { LineDone area.now (Put body.now) result (B.device bench.old)
        (B.device bench.new) }
    ensures undamaged { ring_damage (B.device bench.new) area.now ≡ None }
    ensures area { log.new.ring.area ≡ area.now }
    ensures mounted { (B.device bench.new).is_on ≡ true → IsOpen (B.device bench.new) log.new.ring }
{
    let before = bench.spent();
    let end = log.append(bench, body.as_slice(), steps);
    let units = bench.spent() - before;
    match end {
        Ok(dropped) => Answer::Appended { units, dropped },
        Err(LogFault::PowerLost) => Answer::Lost {
            units,
            chance: spells_another(bench, area, steps),
        },
        Err(LogFault::TooLong) => unreachable!(),
    }
}
