// A session, which carries out lines one by one.
ghost use Rattle.std.specs.Prelude.{◌≡◌, true, false, is_some, IfErr, IfOk, OnErr, OnOk};
ghost use Rattle.mirror.specs.Trusted.{IsMirrorMap};
ghost use Rattle.mirror_session.specs.declared.line.Line.TheVariants.{Mount, Blank};
ghost use Rattle.mirror_session.specs.Bench.{meanings, moment, state_of};
ghost use Rattle.mirror_session.specs.LineDone.{IsServed, LineDone};
ghost use Rattle.mirror_session.specs.Owing.{OwesUpTo, ReportsOwed};
ghost use Rattle.mirror_session.specs.Plan.{units_of};
ghost use Rattle.mirror_session.specs.Running.{FindsArea, LineStops, takes_memory};
ghost use Rattle.mirror_session.specs.Standing.{IsHeld, IsReady};
ghost use Rattle.mirror_session.specs.State.{IsOn};
ghost use Rattle.mirror_session.specs.Step.{needs_power};
ghost use Rattle.session.specs.OnMap.{limit_of};
ghost use Rattle.session.specs.Owing.{greatest_boot};

use crate::answer::Answer;
use crate::areas::labelled;
use crate::blanking::blank_area;
use crate::changing::{change_setting, delete_setting};
use crate::fault::SessionFault;
use crate::line::Line;
use crate::mounting::mount;
use crate::planning::{drop_plan, plan_loss};
use crate::reporting::{get_setting, report_all};
use flash_map::FlashMap;
use flash_sim::{Bench, Flash, NoMemory, Steps};
use migrator::area_at;
use mirror::{Mirror, Priced};
use script_lines::Label;
use std::alloc::Global;
use std::sync::ledger::Ledger;

/// A session on a mirror of settings.
#[derive(Drop)]
pub struct MirrorSession<K: Priced> {
    // `None` after a mount in which power was lost, or once an area was replaced; power is off then
    pub(crate) mirror: Option<Mirror<K>>,
}

impl<K: Priced> MirrorSession<K> {
    /// Turns power on, and mounts the mirror of a map. It returns the session with the answer
    /// to that mount, which reports at most the units of the selector, what the areas owe, and one
    /// repair (`ReportsOwed`). The area that is read owes no more afterwards, and no more erases
    /// are due in the selector, or at most one.
    ///
    /// # Errors
    /// `Damaged` with the damage that the map shows: the selector's, or that of the area that is
    /// read. `Unfit` if the settings do not fit one of the two areas. `NoMemory`. After any error
    /// the same area is read, as the same map, and damage is left as it was.
    pub fn open<B: Bench, L: Ledger>(
        alloc: Global,
        bench: &mut B,
        map: &FlashMap,
        steps: &mut Steps<L>,
    ) -> Result<(MirrorSession<K>, Answer), SessionFault>
        requires map { IsMirrorMap K.serves map.now (B.device bench.old) }

        ensures done { let m = meanings K.damage K.contents K.rests K.room K.prices K.owes in
            let d = B.device bench.old in let e = B.device bench.new in
            IfOk result
            (λ opened. LineDone m map.now Mount opened.1 (moment d false)
            (moment e (is_some opened.0.mirror))) }
        ensures ready { let m = meanings K.damage K.contents K.rests K.room K.prices K.owes in
            IfOk result
            (λ opened. IsReady K.mounted_on K.stands m map.now (B.device bench.new)
            opened.0.mirror) }
        ensures stops { let m = meanings K.damage K.contents K.rests K.room K.prices K.owes in
            let d = B.device bench.old in
            IfErr result
            (λ fault. LineStops m map.now Mount (moment d false) (B.device bench.new) fault) }
        ensures banks { (B.device bench.new).banks ≡ (B.device bench.old).banks }
        ensures boots { let d = B.device bench.old in
            IfOk result
            (λ opened. ReportsOwed K.owes K.damage K.contents map.now d (units_of opened.1)) }
        ensures left { let d = B.device bench.old in let e = B.device bench.new in
            IfOk result
            (λ opened. OwesUpTo K.owes 0 map.now (moment d false)
            (moment e (is_some opened.0.mirror))) }
        ensures kept { let d = B.device bench.old in let e = B.device bench.new in
            OwesUpTo K.owes 0 map.now (moment d false) (moment e false) }
    {
        match mount(alloc, bench, map, steps) {
            Ok(mounted) => {
                let session = MirrorSession {
                    mirror: mounted.mirror,
                };
                Ok((session, mounted.answer))
            }
            Err(fault) => Err(fault),
        }
    }

    /// Carries out a line. With power off, `set`, `get`, `del` and `names` answer `off`. Power
    /// is off from a line in which it was lost, or in which an area was replaced, until a
    /// mount answers `ok`. A mount reports at most what is due in the selector, one choice, what
    /// both areas owe, and one repair (`ReportsOwed`). After any line the area that is read owes no
    /// more than before, or at most what one cut command leaves (`greatest_boot`); and no more
    /// erases are due in the selector, or at most one.
    ///
    /// # Errors
    /// `Damaged` and `Unfit` as in `open`, only for a mount. `NoMemory`, only for a line
    /// that takes memory: `get` and `names` with power on, `mount`, and a `blank` that replaces an
    /// area. After any error the session must be opened again.
    pub fn carry_out<B: Bench, L: Ledger>(
        &mut self,
        alloc: Global,
        line: &Line,
        bench: &mut B,
        map: &FlashMap,
        steps: &mut Steps<L>,
    ) -> Result<Answer, SessionFault>
        requires map { IsMirrorMap K.serves map.now (B.device bench.old) }
        requires ready { let m = meanings K.damage K.contents K.rests K.room K.prices K.owes in
            IsReady K.mounted_on K.stands m map.now (B.device bench.old) self.old.mirror }
        requires line { IsServed (limit_of map.now) line.now }

        ensures done { let m = meanings K.damage K.contents K.rests K.room K.prices K.owes in
            let d = B.device bench.old in let e = B.device bench.new in
            IfOk result
            (λ answer. LineDone m map.now line.now answer (moment d (is_some self.old.mirror))
            (moment e (is_some self.new.mirror))) }
        ensures ready { let m = meanings K.damage K.contents K.rests K.room K.prices K.owes in
            OnOk result
            (IsReady K.mounted_on K.stands m map.now (B.device bench.new) self.new.mirror) }
        ensures stops { let m = meanings K.damage K.contents K.rests K.room K.prices K.owes in
            let old = moment (B.device bench.old) (is_some self.old.mirror) in
            IfErr result (λ fault. LineStops m map.now line.now old (B.device bench.new) fault) }
        ensures banks { (B.device bench.new).banks ≡ (B.device bench.old).banks }
        ensures boots { let d = B.device bench.old in
            line.now ≡ Mount
            → IfOk result
            (λ answer. ReportsOwed K.owes K.damage K.contents map.now d (units_of answer)) }
        ensures left { let d = B.device bench.old in let e = B.device bench.new in
            OnOk result
            (OwesUpTo K.owes (greatest_boot K.boot_units d.banks map.now) map.now
            (moment d (is_some self.old.mirror)) (moment e (is_some self.new.mirror))) }
        ensures kept { let d = B.device bench.old in let e = B.device bench.new in
            OwesUpTo K.owes (greatest_boot K.boot_units d.banks map.now) map.now
            (moment d (is_some self.old.mirror)) (moment e false) }
    {
        match line {
            Line::Mount => self.mount(alloc, bench, map, steps),
            Line::Cut { units } => Ok(plan_loss::<K, B>(bench, map, *units)),
            Line::Uncut => Ok(drop_plan::<K, B>(bench, map)),
            Line::Blank { label } => match self.replace(alloc, label, bench, map) {
                Ok(answer) => Ok(answer),
                Err(_) => Err(SessionFault::NoMemory),
            },
            _ => match self.on_mirror(alloc, line, bench, map, steps) {
                Ok(answer) => Ok(answer),
                Err(_) => Err(SessionFault::NoMemory),
            },
        }
    }

    // Mounts the mirror again.
    fn mount<B: Bench, L: Ledger>(
        &mut self,
        alloc: Global,
        bench: &mut B,
        map: &FlashMap,
        steps: &mut Steps<L>,
    ) -> Result<Answer, SessionFault>
        requires map { IsMirrorMap K.serves map.now (B.device bench.old) }

        ensures done { let m = meanings K.damage K.contents K.rests K.room K.prices K.owes in
            let d = B.device bench.old in let e = B.device bench.new in
            IfOk result
            (λ answer. LineDone m map.now Mount answer (moment d (is_some self.old.mirror))
            (moment e (is_some self.new.mirror))) }
        ensures ready { let m = meanings K.damage K.contents K.rests K.room K.prices K.owes in
            OnOk result
            (IsReady K.mounted_on K.stands m map.now (B.device bench.new) self.new.mirror) }
        ensures stops { let m = meanings K.damage K.contents K.rests K.room K.prices K.owes in
            let old = moment (B.device bench.old) (is_some self.old.mirror) in
            IfErr result (λ fault. LineStops m map.now Mount old (B.device bench.new) fault) }
        ensures banks { (B.device bench.new).banks ≡ (B.device bench.old).banks }
        ensures boots { let d = B.device bench.old in
            IfOk result
            (λ answer. ReportsOwed K.owes K.damage K.contents map.now d (units_of answer)) }
        ensures left { let d = B.device bench.old in let e = B.device bench.new in
            OnOk result
            (OwesUpTo K.owes (greatest_boot K.boot_units d.banks map.now) map.now
            (moment d (is_some self.old.mirror)) (moment e (is_some self.new.mirror))) }
        ensures kept { let d = B.device bench.old in let e = B.device bench.new in
            OwesUpTo K.owes (greatest_boot K.boot_units d.banks map.now) map.now
            (moment d (is_some self.old.mirror)) (moment e false) }
    {
        match mount(alloc, bench, map, steps) {
            Ok(mounted) => {
                self.mirror = mounted.mirror;
                Ok(mounted.answer)
            }
            Err(fault) => Err(fault),
        }
    }

    // Replaces the store area with this label by a blank one, if power is off, the last mount was
    // whole, and no area was replaced after it.
    fn replace<B: Bench>(
        &mut self,
        alloc: Global,
        label: &Label,
        bench: &mut B,
        map: &FlashMap,
    ) -> Result<Answer, NoMemory>
        requires map { IsMirrorMap K.serves map.now (B.device bench.old) }
        requires ready { let m = meanings K.damage K.contents K.rests K.room K.prices K.owes in
            IsReady K.mounted_on K.stands m map.now (B.device bench.old) self.old.mirror }

        ensures done { let m = meanings K.damage K.contents K.rests K.room K.prices K.owes in
            let d = B.device bench.old in let e = B.device bench.new in
            IfOk result
            (λ answer. LineDone m map.now (Blank label.now) answer
            (moment d (is_some self.old.mirror)) (moment e (is_some self.new.mirror))) }
        ensures ready { let m = meanings K.damage K.contents K.rests K.room K.prices K.owes in
            OnOk result
            (IsReady K.mounted_on K.stands m map.now (B.device bench.new) self.new.mirror) }
        ensures same { OnErr result (B.device bench.new ≡ B.device bench.old) }
        ensures finds { let old = moment (B.device bench.old) (is_some self.old.mirror) in
            OnErr result (FindsArea map.now (Blank label.now) old) }
        ensures banks { (B.device bench.new).banks ≡ (B.device bench.old).banks }
        ensures left { let d = B.device bench.old in let e = B.device bench.new in
            OwesUpTo K.owes 0 map.now (moment d (is_some self.old.mirror))
            (moment e (is_some self.new.mirror)) }
    {
        let is_whole = self.mirror.is_some();
        if is_whole && bench.is_on() {
            return Ok(Answer::On);
        }
        let Some(place) = labelled(map, label.as_slice()) else {
            return Ok(Answer::NoArea);
        };
        if !is_whole {
            return Ok(Answer::NotYet);
        }
        let area = area_at(map, place);
        blank_area(alloc, bench, &area)?;
        self.mirror = None;
        Ok(Answer::done(0))
    }

    // Carries out a line that needs power.
    fn on_mirror<B: Bench, L: Ledger>(
        &mut self,
        alloc: Global,
        line: &Line,
        bench: &mut B,
        map: &FlashMap,
        steps: &mut Steps<L>,
    ) -> Result<Answer, NoMemory>
        requires map { IsMirrorMap K.serves map.now (B.device bench.old) }
        requires needs { needs_power line.now ≡ true }
        requires ready { let m = meanings K.damage K.contents K.rests K.room K.prices K.owes in
            IsReady K.mounted_on K.stands m map.now (B.device bench.old) self.old.mirror }
        requires line { IsServed (limit_of map.now) line.now }

        ensures done { let m = meanings K.damage K.contents K.rests K.room K.prices K.owes in
            let d = B.device bench.old in let e = B.device bench.new in
            IfOk result
            (λ answer. LineDone m map.now line.now answer (moment d (is_some self.old.mirror))
            (moment e (is_some self.new.mirror))) }
        ensures ready { let m = meanings K.damage K.contents K.rests K.room K.prices K.owes in
            OnOk result
            (IsReady K.mounted_on K.stands m map.now (B.device bench.new) self.new.mirror) }
        ensures same { OnErr result (B.device bench.new ≡ B.device bench.old) }
        ensures takes { OnErr result (takes_memory line.now ≡ true) }
        ensures on { let m = meanings K.damage K.contents K.rests K.room K.prices K.owes in
            let old = moment (B.device bench.old) (is_some self.old.mirror) in
            OnErr result (IsOn (state_of m map.now old)) }
        ensures banks { (B.device bench.new).banks ≡ (B.device bench.old).banks }
        ensures left { let d = B.device bench.old in let e = B.device bench.new in
            OwesUpTo K.owes (greatest_boot K.boot_units d.banks map.now) map.now
            (moment d (is_some self.old.mirror)) (moment e (is_some self.new.mirror)) }
    {
        if !bench.is_on() {
            return Ok(Answer::off());
        }
        match &mut self.mirror {
            Some(mirror) => with_power(alloc, line, bench, map, mirror, steps),
            None => Ok(Answer::off()),
        }
    }
}

// Carries out a line that needs power, with power on.
fn with_power<K: Priced, B: Bench, L: Ledger>(
    alloc: Global,
    line: &Line,
    bench: &mut B,
    map: &FlashMap,
    mirror: &mut Mirror<K>,
    steps: &mut Steps<L>,
) -> Result<Answer, NoMemory>
    requires map { IsMirrorMap K.serves map.now (B.device bench.old) }
    requires on { (B.device bench.old).is_on ≡ true }
    requires needs { needs_power line.now ≡ true }
    requires held { let m = meanings K.damage K.contents K.rests K.room K.prices K.owes in
        IsHeld K.mounted_on K.stands m map.now (B.device bench.old) mirror.old }
    requires line { IsServed (limit_of map.now) line.now }

    ensures done { let m = meanings K.damage K.contents K.rests K.room K.prices K.owes in
        let d = B.device bench.old in let e = B.device bench.new in
        IfOk result (λ answer. LineDone m map.now line.now answer (moment d true) (moment e true)) }
    ensures held { let m = meanings K.damage K.contents K.rests K.room K.prices K.owes in
        IsHeld K.mounted_on K.stands m map.now (B.device bench.new) mirror.new }
    ensures same { OnErr result (B.device bench.new ≡ B.device bench.old) }
    ensures takes { OnErr result (takes_memory line.now ≡ true) }
    ensures banks { (B.device bench.new).banks ≡ (B.device bench.old).banks }
    ensures left { let d = B.device bench.old in let e = B.device bench.new in
        OwesUpTo K.owes (greatest_boot K.boot_units d.banks map.now) map.now
        (moment d true) (moment e true) }
{
    match line {
        Line::Set { name, value } => Ok(change_setting(bench, mirror, map, name, value, steps)),
        Line::Del { name } => Ok(delete_setting(bench, mirror, map, name, steps)),
        Line::Get { name } => get_setting(alloc, bench, mirror, map, name, steps),
        Line::Names => report_all(alloc, bench, mirror, map, steps),
        _ => unreachable!(),
    }
}
