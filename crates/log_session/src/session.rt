// A session, which carries out lines one by one.
ghost use Rattle.std.specs.Prelude.{◌≡◌, true, None, IfOk, IfErr, OnErr, OnOk};
ghost use Rattle.fcb_ring.specs.Standing.{IsRingArea, erases_on, ring_damage};
ghost use Rattle.flash_map.specs.Area.{value_limit};
ghost use Rattle.log_session.specs.declared.answer.Answer.TheVariants.{Done};
ghost use Rattle.log_session.specs.declared.line.Line.TheVariants.{Put, Mount, Records};
ghost use Rattle.log_session.specs.LineDone.{IsServed, LineDone};
ghost use Rattle.log_session.specs.Owing.{OwesUpTo, ReportsOwed, boot_units};
ghost use Rattle.log_session.specs.Standing.{IsMounted, IsReady, IsSound, ShowsDamage};

use crate::answer::Answer;
use crate::appending::put_record;
use crate::line::Line;
use crate::mounting::mount;
use crate::planning::{drop_plan, plan_loss};
use crate::reporting::report_records;
use event_ring::EventLog;
use flash_map::{Area, Damaged};
use flash_sim::{Bench, Flash, NoMemory, Steps};
use script_lines::Bytes;
use std::alloc::Global;
use std::sync::ledger::Ledger;

/// A session on the log of one area.
#[derive(Drop)]
pub struct LogSession {
    pub(crate) area: Area,
    // `None` after a mount in which power was lost
    pub(crate) log: Option<EventLog>,
}

impl LogSession {
    /// Turns power on, and mounts the log of an area. It returns the session with the answer to
    /// that mount. A mount spends at most what the area owes, and leaves no more to the next one.
    /// At rest it spends nothing. It takes no memory.
    ///
    /// # Errors
    /// The damage that the area shows; the bench is then as before, except that power is on.
    pub fn open<B: Bench, L: Ledger>(
        bench: &mut B,
        area: &Area,
        steps: &mut Steps<L>,
    ) -> Result<(LogSession, Answer), Damaged>
        requires { IsRingArea (B.device bench.old).banks area.now }

        ensures done { IfOk result (λ opened.
            LineDone area.now Mount opened.1 (B.device bench.old) (B.device bench.new)) }
        ensures ready { IfOk result (λ opened. IsReady (B.device bench.new) opened.0) }
        ensures area { IfOk result (λ opened. opened.0.area ≡ area.now) }
        ensures before { OnOk result (ring_damage (B.device bench.old) area.now ≡ None) }
        ensures rests { erases_on (B.device bench.old) area.now ≡ 0
            → IfOk result (λ opened. opened.1 ≡ Done 0) }
        ensures boots { let d = B.device bench.old in
            IfOk result (λ opened. ReportsOwed area.now d opened.1) }
        ensures left { OwesUpTo 0 area.now (B.device bench.old) (B.device bench.new) }
        ensures damaged { IfErr result (λ damaged.
            ShowsDamage area.now (B.device bench.old) (B.device bench.new) damaged) }
    {
        match mount(bench, area, steps) {
            Ok(mounted) => {
                let session = LogSession {
                    area: *area,
                    log: mounted.log,
                };
                Ok((session, mounted.answer))
            }
            Err(damaged) => Err(damaged),
        }
    }

    /// Carries out a line. With power off, `put` and `all` answer `off`. A mount spends at most
    /// what the area owes, and at rest nothing. After any line the area owes no more than before,
    /// or at most `boot_units`.
    ///
    /// # Errors
    /// `NoMemory`, only if the line is `all` and power is on; nothing changed then, and the
    /// session goes on.
    pub fn carry_out<B: Bench, L: Ledger>(
        &mut self,
        alloc: Global,
        line: &Line,
        bench: &mut B,
        steps: &mut Steps<L>,
    ) -> Result<Answer, NoMemory>
        requires ready { IsReady (B.device bench.old) self.old }
        requires line { IsServed (value_limit self.old.area) line.now }

        ensures done { IfOk result (λ answer.
            LineDone self.old.area line.now answer (B.device bench.old) (B.device bench.new)) }
        ensures ready { IsReady (B.device bench.new) self.new }
        ensures area { self.new.area ≡ self.old.area }
        ensures rests { line.now ≡ Mount → erases_on (B.device bench.old) self.old.area ≡ 0
            → IfOk result (λ answer. answer ≡ Done 0) }
        ensures boots { let d = B.device bench.old in
            line.now ≡ Mount → IfOk result (λ answer. ReportsOwed self.old.area d answer) }
        ensures left { OwesUpTo boot_units self.old.area (B.device bench.old) (B.device bench.new) }
        ensures same { OnErr result (B.device bench.new ≡ B.device bench.old) }
        ensures memory { OnErr result ((line.now ≡ Records) × ((B.device bench.old).is_on ≡ true)) }
    {
        let area = self.area;
        run_line(alloc, line, bench, &area, &mut self.log, steps)
    }
}

// Mounts an undamaged area again.
fn mount_again<B: Bench, L: Ledger>(
    bench: &mut B,
    area: &Area,
    log: &mut Option<EventLog>,
    steps: &mut Steps<L>,
) -> Answer
    requires { IsSound (B.device bench.old) area.now }

    ensures done { LineDone area.now Mount result (B.device bench.old) (B.device bench.new) }
    ensures sound { IsSound (B.device bench.new) area.now }
    ensures mounted { IsMounted (B.device bench.new) area.now log.new }
    ensures rests { erases_on (B.device bench.old) area.now ≡ 0 → result ≡ Done 0 }
{
    match mount(bench, area, steps) {
        Ok(mounted) => {
            *log = mounted.log;
            mounted.answer
        }
        Err(_) => unreachable!(),
    }
}

// Appends a record to the log that was mounted on an undamaged area.
fn run_put<B: Bench, L: Ledger>(
    body: &Bytes,
    bench: &mut B,
    area: &Area,
    log: &mut Option<EventLog>,
    steps: &mut Steps<L>,
) -> Answer
    requires sound { IsSound (B.device bench.old) area.now }
    requires mounted { IsMounted (B.device bench.old) area.now log.old }
    requires line { IsServed (value_limit area.now) (Put body.now) }

    ensures done { LineDone area.now (Put body.now) result (B.device bench.old)
        (B.device bench.new) }
    ensures sound { IsSound (B.device bench.new) area.now }
    ensures mounted { IsMounted (B.device bench.new) area.now log.new }
{
    match log {
        Some(log) if bench.is_on() => put_record(bench, log, area, body, steps),
        _ => Answer::Off,
    }
}

// Lists the records of the log that was mounted on an area.
fn run_records<B: Bench, L: Ledger>(
    alloc: Global,
    bench: &B,
    area: &Area,
    log: &Option<EventLog>,
    steps: &mut Steps<L>,
) -> Result<Answer, NoMemory>
    requires { IsMounted (B.device bench.now) area.now log.now }

    ensures done { IfOk result
        (λ answer. LineDone area.now Records answer (B.device bench.now) (B.device bench.now)) }
    ensures memory { OnErr result ((B.device bench.now).is_on ≡ true) }
{
    match log {
        Some(log) if bench.is_on() => report_records(alloc, bench, log, area, steps),
        _ => Ok(Answer::Off),
    }
}

// Carries out a line on an undamaged area, with the log that was mounted on it.
fn run_line<B: Bench, L: Ledger>(
    alloc: Global,
    line: &Line,
    bench: &mut B,
    area: &Area,
    log: &mut Option<EventLog>,
    steps: &mut Steps<L>,
) -> Result<Answer, NoMemory>
    requires sound { IsSound (B.device bench.old) area.now }
    requires mounted { IsMounted (B.device bench.old) area.now log.old }
    requires line { IsServed (value_limit area.now) line.now }

    ensures done { IfOk result (λ answer.
        LineDone area.now line.now answer (B.device bench.old) (B.device bench.new)) }
    ensures sound { IsSound (B.device bench.new) area.now }
    ensures mounted { IsMounted (B.device bench.new) area.now log.new }
    ensures rests { line.now ≡ Mount → erases_on (B.device bench.old) area.now ≡ 0
        → IfOk result (λ answer. answer ≡ Done 0) }
    ensures same { OnErr result (B.device bench.new ≡ B.device bench.old) }
    ensures memory { OnErr result ((line.now ≡ Records) × ((B.device bench.old).is_on ≡ true)) }
{
    match line {
        Line::Put { body } => Ok(run_put(body, bench, area, log, steps)),
        Line::Records => run_records(alloc, bench, area, log, steps),
        Line::Mount => Ok(mount_again(bench, area, log, steps)),
        Line::Cut { units } => Ok(plan_loss(bench, area, *units)),
        Line::Uncut => Ok(drop_plan(bench, area)),
    }
}
