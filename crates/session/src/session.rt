// A session, which carries out lines one by one.
ghost use Rattle.std.specs.Prelude.{◌≡◌, true, false, None, Some, IfOk, IfErr, OnErr, OnOk};
ghost use Rattle.flash_map.specs.On.{on};
ghost use Rattle.handlers.specs.Registry.{registered};
ghost use Rattle.script_lines.specs.declared.answer.Answer.TheVariants.{Done};
ghost use Rattle.script_lines.specs.declared.line.Line.TheVariants.{Mount, Migrate};
ghost use Rattle.session_table.specs.Step.{needs_power};
ghost use Rattle.settings_core.specs.Owing.{OwesBoot};
ghost use Rattle.session.specs.Handling.{LeavesHandlers, MovesHandlers};
ghost use Rattle.session.specs.Mounting.{down};
ghost use Rattle.session.specs.Owing.{LeavesMap, ReportsOwed, map_boot};
ghost use Rattle.session.specs.OnMap.{CarriedBeside, DoesNothing, DoneWithin, IsAtRest, IsReady, IsServed, IsServedMap, LineCarried, LineStops, is_local, kinds, limit_of, meanings, moment, StandsOnActive, StaysOnArea, HandlersFit, StopsUnchanged};

use crate::changing::{delete_setting, set_setting};
use crate::fault::SessionFault;
use crate::handling::with_handlers;
use crate::mounting::{answered, mount_map};
use crate::moving::move_settings;
use crate::planning::{drop_plan, plan_loss};
use crate::reporting::{get_setting, report_all, report_settings};
use backend_api::Backend;
use flash_map::{Area, FlashMap};
use flash_sim::{Bench, Flash, NoMemory, Steps};
use handlers::{Handler, Registry};
use migrator::{Selector, area_at};
use script_lines::{Answer, Line};
use settings_core::Settings;
use std::alloc::Global;
use std::sync::ledger::Ledger;

/// A session on the settings of a map of areas. One of the areas is active.
#[derive(Drop)]
pub struct Session<K: Backend> {
    // if the map has one
    pub(crate) selector: Option<Selector>,
    // on the active area; `None` after a mount in which power was lost
    pub(crate) settings: Option<Settings<K>>,
    // its place in the map
    pub(crate) active: usize,
}

impl<K: Backend> Session<K> {
    // A session without settings, as after a power loss in a mount.
    pub(crate) fn down() -> Session<K>
        ensures { result ≡ down }
    {
        Session {
            selector: None,
            settings: None,
            active: 0,
        }
    }

    /// Turns power on, and mounts the selector, if the map has one, and settings on the active
    /// area. It returns the session with the answer to that mount. It spends nothing if the map is
    /// at rest. Else it spends at most the erases that are due in the selector and the most units
    /// of a mount of the active area (`mount_bound`), and at most what the map owes (`OwesOnMap`).
    /// The map owes no more afterwards. A map without damage has none afterwards, whatever the
    /// result.
    ///
    /// # Errors
    /// `Damaged` with the damage that the map shows; `NoMemory`. The bench is then as before,
    /// except that power is on and the selector may have been mounted.
    pub fn open<B: Bench, L: Ledger>(
        alloc: Global,
        bench: &mut B,
        map: &FlashMap,
        steps: &mut Steps<L>,
    ) -> Result<(Session<K>, Answer), SessionFault>
        requires map { IsServedMap K.serves map.now (B.device bench.old) }

        ensures done { IfOk result
            (λ opened. let d = B.device bench.old in let e = B.device bench.new in CarriedBeside
            (meanings K.contents K.room K.chance K.tears) K.damage map.now Mount opened.1 d e) }
        ensures rests { let d = B.device bench.old in let e = B.device bench.new in
            IsAtRest K.rests map.now d → IfOk result (λ opened. DoesNothing opened.1 d e) }
        ensures stops { let d = B.device bench.old in let e = B.device bench.new in
            IfErr result
            (λ fault. LineStops (meanings K.contents K.room K.chance K.tears) K.damage map.now
            Mount d e fault) }
        ensures ready { IfOk result
            (λ opened. let e = B.device bench.new in IsReady K.mounted_on K.stands K.runs map.now e
            opened.0.selector opened.0.active opened.0.settings) }
        ensures boots { let d = B.device bench.old in
            IfOk result (λ opened. ReportsOwed K.owes map.now d opened.1) }
        ensures leaves { let d = B.device bench.old in let e = B.device bench.new in
            LeavesMap K.damage K.owes 0 map.now d e }
    {
        bench.restore();
        let before = bench.spent();
        let mounted = mount_map(alloc, bench, map, steps);
        let units = bench.spent() - before;
        answered(units, mounted)
    }

    /// Carries out a line. With power off, every line but `mount`, `cut` and `uncut` answers `off`.
    /// A mount of a map at rest spends nothing. No mount, save or migration spends more than its
    /// bound (`mount_bound`, `save_bound`, `move_bound`), and no mount more than the map owes.
    /// After any line the map owes no more than before, or at most `map_boot`. A migration that
    /// moved the settings puts one record into the selector. No other line puts any, but a
    /// migration that was cut may. A map without damage has none afterwards, whatever the result. A
    /// `register` that answers `Done` moves the first handler of the kind out of the pool, behind
    /// the registered ones. No other line that is answered changes the pool, and none but `load`,
    /// `commit` and `rset` changes the registry.
    ///
    /// # Errors
    /// `Damaged`, only for a mount, with the damage that the map shows; the pool and the registry
    /// are as before. `NoMemory`, only for a line that takes memory: `set`, `del`, `save`, `commit`,
    /// `cut`, `uncut` and lines that answer `off` take none. The bench is then as before, with two
    /// exceptions. A mount has turned power on, and may have mounted the selector. A migration may
    /// have changed the target. After either error the session must be opened again.
    pub fn carry_out<B: Bench, L: Ledger>(
        &mut self,
        alloc: Global,
        line: &Line,
        bench: &mut B,
        map: &FlashMap,
        pool: &mut Vec<Box<dyn Handler>>,
        registry: &mut Registry,
        steps: &mut Steps<L>,
    ) -> Result<Answer, SessionFault>
        requires map { IsServedMap K.serves map.now (B.device bench.old) }
        requires ready { let d = B.device bench.old in
            IsReady K.mounted_on K.stands K.runs map.now d self.old.selector self.old.active
            self.old.settings }
        requires line { IsServed (limit_of map.now) line.now }
        requires handlers { let hs = registered state registry.old in
            HandlersFit state (limit_of map.now) hs pool.old.items }

        ensures done { let m = meanings K.contents K.room K.chance K.tears in
            IfOk result
            (λ answer. LineCarried m K.damage map.now line.now answer
            (moment (B.device bench.old) (registered state registry.old)
            (kinds state pool.old.items))
            (moment (B.device bench.new) (registered state registry.new)
            (kinds state pool.new.items))) }
        ensures rests { let d = B.device bench.old in let e = B.device bench.new in
            line.now ≡ Mount → IsAtRest K.rests map.now d
            → IfOk result (λ answer. DoesNothing answer d e) }
        ensures stops { let d = B.device bench.old in let e = B.device bench.new in
            IfErr result
            (λ fault. LineStops (meanings K.contents K.room K.chance K.tears) K.damage map.now
            line.now d e fault) }
        ensures ready { let e = B.device bench.new in
            OnOk result
            (IsReady K.mounted_on K.stands K.runs map.now e self.new.selector self.new.active
            self.new.settings) }
        ensures boots { let d = B.device bench.old in
            line.now ≡ Mount
            → IfOk result (λ answer. ReportsOwed K.owes map.now d answer) }
        ensures leaves { let d = B.device bench.old in let e = B.device bench.new in
            LeavesMap K.damage K.owes (map_boot K.boot_units d.banks map.now) map.now d e }
        ensures handlers { let hs = registered state registry.new in
            HandlersFit state (limit_of map.now) hs pool.new.items }
        ensures moves { let before = pool.old.items in
            LeavesHandlers state line.now result before pool.new.items registry.old registry.new }
    {
        if !needs_power(line) {
            return self.without_power(alloc, line, bench, map, steps);
        }
        if !bench.is_on() {
            return Ok(Answer::Off);
        }
        if is_local(line) {
            self.on_active(alloc, line, bench, map, pool, registry, steps)
        } else {
            self.migrate(alloc, bench, map, steps)
        }
    }

    // Carries out a line that needs no power.
    fn without_power<B: Bench, L: Ledger>(
        &mut self,
        alloc: Global,
        line: &Line,
        bench: &mut B,
        map: &FlashMap,
        steps: &mut Steps<L>,
    ) -> Result<Answer, SessionFault>
        requires map { IsServedMap K.serves map.now (B.device bench.old) }
        requires ready { let d = B.device bench.old in
            IsReady K.mounted_on K.stands K.runs map.now d self.old.selector self.old.active
            self.old.settings }
        requires needs { needs_power line.now ≡ false }

        ensures done { IfOk result
            (λ answer. let d = B.device bench.old in let e = B.device bench.new in CarriedBeside
            (meanings K.contents K.room K.chance K.tears) K.damage map.now line.now answer d e) }
        ensures rests { let d = B.device bench.old in let e = B.device bench.new in
            line.now ≡ Mount → IsAtRest K.rests map.now d
            → IfOk result (λ answer. DoesNothing answer d e) }
        ensures stops { let d = B.device bench.old in let e = B.device bench.new in
            IfErr result
            (λ fault. LineStops (meanings K.contents K.room K.chance K.tears) K.damage map.now
            line.now d e fault) }
        ensures ready { let e = B.device bench.new in
            OnOk result
            (IsReady K.mounted_on K.stands K.runs map.now e self.new.selector self.new.active
            self.new.settings) }
        ensures boots { let d = B.device bench.old in
            line.now ≡ Mount
            → IfOk result (λ answer. ReportsOwed K.owes map.now d answer) }
        ensures leaves { let d = B.device bench.old in let e = B.device bench.new in
            LeavesMap K.damage K.owes 0 map.now d e }
    {
        match line {
            Line::Mount => self.mount(alloc, bench, map, steps),
            Line::Cut { units } => Ok(plan_loss::<K, B>(bench, map, *units)),
            Line::Uncut => Ok(drop_plan::<K, B>(bench, map)),
            _ => unreachable!(),
        }
    }

    // Mounts the map again.
    fn mount<B: Bench, L: Ledger>(
        &mut self,
        alloc: Global,
        bench: &mut B,
        map: &FlashMap,
        steps: &mut Steps<L>,
    ) -> Result<Answer, SessionFault>
        requires map { IsServedMap K.serves map.now (B.device bench.old) }

        ensures done { IfOk result
            (λ answer. let d = B.device bench.old in let e = B.device bench.new in CarriedBeside
            (meanings K.contents K.room K.chance K.tears) K.damage map.now Mount answer d e) }
        ensures rests { let d = B.device bench.old in let e = B.device bench.new in
            IsAtRest K.rests map.now d → IfOk result (λ answer. DoesNothing answer d e) }
        ensures stops { let d = B.device bench.old in let e = B.device bench.new in
            IfErr result
            (λ fault. LineStops (meanings K.contents K.room K.chance K.tears) K.damage map.now
            Mount d e fault) }
        ensures ready { let e = B.device bench.new in
            OnOk result
            (IsReady K.mounted_on K.stands K.runs map.now e self.new.selector self.new.active
            self.new.settings) }
        ensures boots { let d = B.device bench.old in
            IfOk result (λ answer. ReportsOwed K.owes map.now d answer) }
        ensures leaves { let d = B.device bench.old in let e = B.device bench.new in
            LeavesMap K.damage K.owes 0 map.now d e }
    {
        match Session::open(alloc, bench, map, steps) {
            Ok((session, answer)) => {
                *self = session;
                Ok(answer)
            }
            Err(fault) => Err(fault),
        }
    }

    // Moves the settings to the next area, with power on.
    fn migrate<B: Bench, L: Ledger>(
        &mut self,
        alloc: Global,
        bench: &mut B,
        map: &FlashMap,
        steps: &mut Steps<L>,
    ) -> Result<Answer, SessionFault>
        requires map { IsServedMap K.serves map.now (B.device bench.old) }
        requires on { (B.device bench.old).is_on ≡ true }
        requires ready { let d = B.device bench.old in
            IsReady K.mounted_on K.stands K.runs map.now d self.old.selector self.old.active
            self.old.settings }

        ensures done { IfOk result
            (λ answer. let d = B.device bench.old in let e = B.device bench.new in CarriedBeside
            (meanings K.contents K.room K.chance K.tears) K.damage map.now Migrate answer d e) }
        ensures stops { let d = B.device bench.old in let e = B.device bench.new in
            IfErr result
            (λ fault. LineStops (meanings K.contents K.room K.chance K.tears) K.damage map.now
            Migrate d e fault) }
        ensures ready { let e = B.device bench.new in
            OnOk result
            (IsReady K.mounted_on K.stands K.runs map.now e self.new.selector self.new.active
            self.new.settings) }
        ensures leaves { let d = B.device bench.old in let e = B.device bench.new in
            LeavesMap K.damage K.owes (map_boot K.boot_units d.banks map.now) map.now d e }
    {
        match (&mut self.selector, &mut self.settings) {
            (Some(selector), Some(settings)) => {
                let active = &mut self.active;
                match move_settings(alloc, bench, map, selector, active, settings, steps) {
                    Ok(answer) => Ok(answer),
                    Err(_) => Err(SessionFault::NoMemory),
                }
            }
            (None, Some(_)) => Ok(Answer::NoTarget),
            _ => unreachable!(),
        }
    }

    // Carries out a line on the active area, with power on.
    fn on_active<B: Bench, L: Ledger>(
        &mut self,
        alloc: Global,
        line: &Line,
        bench: &mut B,
        map: &FlashMap,
        pool: &mut Vec<Box<dyn Handler>>,
        registry: &mut Registry,
        steps: &mut Steps<L>,
    ) -> Result<Answer, SessionFault>
        requires map { IsServedMap K.serves map.now (B.device bench.old) }
        requires on { (B.device bench.old).is_on ≡ true }
        requires local { is_local line.now ≡ true }
        requires ready { let d = B.device bench.old in
            IsReady K.mounted_on K.stands K.runs map.now d self.old.selector self.old.active
            self.old.settings }
        requires line { IsServed (limit_of map.now) line.now }
        requires handlers { let hs = registered state registry.old in
            HandlersFit state (limit_of map.now) hs pool.old.items }

        ensures done { let m = meanings K.contents K.room K.chance K.tears in
            IfOk result
            (λ answer. DoneWithin m map.now line.now answer
            (moment (B.device bench.old) (registered state registry.old)
            (kinds state pool.old.items))
            (moment (B.device bench.new) (registered state registry.new)
            (kinds state pool.new.items))) }
        ensures stops { let d = B.device bench.old in let e = B.device bench.new in
            IfErr result
            (λ fault. LineStops (meanings K.contents K.room K.chance K.tears) K.damage map.now
            line.now d e fault) }
        ensures ready { let e = B.device bench.new in
            OnOk result
            (IsReady K.mounted_on K.stands K.runs map.now e self.new.selector self.new.active
            self.new.settings) }
        ensures leaves { let d = B.device bench.old in let e = B.device bench.new in
            LeavesMap K.damage K.owes (map_boot K.boot_units d.banks map.now) map.now d e }
        ensures handlers { let hs = registered state registry.new in
            HandlersFit state (limit_of map.now) hs pool.new.items }
        ensures moves { let before = pool.old.items in
            IfOk result
            (λ answer. MovesHandlers state line.now answer before pool.new.items registry.old
            registry.new) }
    {
        match &mut self.settings {
            Some(settings) => {
                let area = area_at(map, self.active);
                match with_power(
                    alloc, line, bench, map, &area, settings, pool, registry, steps,
                ) {
                    Ok(answer) => Ok(answer),
                    Err(_) => Err(SessionFault::NoMemory),
                }
            }
            None => unreachable!(),
        }
    }
}

// Whether a line is carried out only with power on.
fn needs_power(line: &Line) -> bool
    ensures { result ≡ needs_power line.now }
{
    !matches!(line, Line::Mount | Line::Cut { .. } | Line::Uncut)
}

// Whether a line needs power, and changes no area but the active one.
fn is_local(line: &Line) -> bool
    ensures { result ≡ is_local line.now }
{
    needs_power(line) && !matches!(line, Line::Migrate)
}

// Carries out a line on the active area, with power on.
fn with_power<K: Backend, B: Bench, L: Ledger>(
    alloc: Global,
    line: &Line,
    bench: &mut B,
    map: &FlashMap,
    area: &Area,
    settings: &mut Settings<K>,
    pool: &mut Vec<Box<dyn Handler>>,
    registry: &mut Registry,
    steps: &mut Steps<L>,
) -> Result<Answer, NoMemory>
    requires map { IsServedMap K.serves map.now (B.device bench.old) }
    requires here { let d = B.device bench.old in
        StandsOnActive K.mounted_on K.stands K.runs map.now d area.now settings.old.backend }
    requires local { is_local line.now ≡ true }
    requires line { IsServed (limit_of map.now) line.now }
    requires handlers { let hs = registered state registry.old in
        HandlersFit state (limit_of map.now) hs pool.old.items }

    ensures done { let m = meanings K.contents K.room K.chance K.tears in
        IfOk result
        (λ answer. DoneWithin m map.now line.now answer
        (moment (B.device bench.old) (registered state registry.old) (kinds state pool.old.items))
        (moment (B.device bench.new) (registered state registry.new)
        (kinds state pool.new.items))) }
    ensures sound { let d = B.device bench.old in let e = B.device bench.new in
        on K.damage d area.now ≡ None → on K.damage e area.now ≡ None }
    ensures stops { OnErr result
        (StopsUnchanged line.now (B.device bench.old) (B.device bench.new)) }
    ensures stays { let e = B.device bench.new in
        StaysOnArea K.mounted_on K.stands K.runs e area.now settings.new.backend }
    ensures left { (B.device bench.new).is_on ≡ false
        → OwesBoot K.owes K.boot_units (B.device bench.new) area.now }
    ensures handlers { let hs = registered state registry.new in
        HandlersFit state (limit_of map.now) hs pool.new.items }
    ensures moves { let before = pool.old.items in
        IfOk result
        (λ answer. MovesHandlers state line.now answer before pool.new.items registry.old
        registry.new) }
{
    match line {
        Line::Set { name, value } => Ok(set_setting(
            bench, settings, map, area, name, value, steps,
        )),
        Line::Del { name } => Ok(delete_setting(bench, settings, map, area, name, steps)),
        Line::Get { name } => get_setting(alloc, bench, settings, map, area, name, steps),
        Line::Direct { subtree } => report_settings(
            alloc, bench, settings, map, area, subtree, steps,
        ),
        Line::Names => report_all(alloc, bench, settings, map, area, steps),
        Line::Register { .. }
        | Line::Load { .. }
        | Line::Save { .. }
        | Line::Commit
        | Line::RunSet { .. }
        | Line::RunGet { .. } => {
            with_handlers(
                alloc, line, bench, map, area, settings, pool, registry, steps,
            )
        }
        _ => unreachable!(),
    }
}
