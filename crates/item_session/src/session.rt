// A session, which carries out lines one by one.
ghost use Rattle.std.specs.Prelude.{◌≡◌, ◌⊎◌, true, None, IfOk, IfErr, OnErr, OnOk};
ghost use Rattle.flash_map.specs.Area.{geometry_of};
ghost use Rattle.item_store.specs.Standing.{IsStoreArea};
ghost use Rattle.item_session.specs.declared.line.Line.TheVariants.{Mount};
ghost use Rattle.item_session.specs.Device.{IsServedOn, TakesValues};
ghost use Rattle.item_session.specs.LineDone.{LineDone};
ghost use Rattle.item_session.specs.Owing.{OwesOn, ReportsOwed, boot_units};
ghost use Rattle.item_session.specs.Running.{MountStops, WantsMemory};
ghost use Rattle.item_session.specs.Standing.{IsMounted, IsReady, IsSound, damage_on};

use crate::answer::Answer;
use crate::fault::SessionFault;
use crate::line::Line;
use crate::mounting::mount;
use crate::planning::{drop_plan, plan_loss};
use crate::reporting::{report_item, report_older, report_space};
use crate::writing::{delete_item, set_item};
use flash_map::Area;
use flash_sim::{Bench, Flash, NoMemory, Steps};
use item_store::{SlotSectors, Store};
use std::alloc::Global;
use std::sync::ledger::Ledger;

/// A session on the items of one area.
#[derive(Drop)]
pub struct ItemSession<T> {
    pub(crate) area: Area,
    // `None` after a mount in which power was lost
    pub(crate) store: Option<Store<T>>,
}

impl<T: SlotSectors> ItemSession<T> {
    /// Turns power on, and mounts the store of an area. It returns the session with the answer to
    /// that mount. A mount spends at most what the area owes, and at rest nothing. An area without
    /// damage owes at most `boot_units` afterwards.
    ///
    /// # Errors
    /// `Damaged` with the damage that the area shows; `NoMemory`. After either the bench is as
    /// before, except that power is on.
    pub fn open<B: Bench, L: Ledger>(
        alloc: Global,
        bench: &mut B,
        area: &Area,
        steps: &mut Steps<L>,
    ) -> Result<(ItemSession<T>, Answer), SessionFault>
        requires area { IsStoreArea T.role (B.device bench.old).banks area.now }
        requires values { TakesValues T.format_of (B.device bench.old) area.now }

        ensures done { IfOk result (λ opened.
            LineDone T.format_of area.now Mount opened.1 (B.device bench.old)
            (B.device bench.new)) }
        ensures ready { IfOk result
            (λ opened. IsReady T.role T.format_of T.kept (B.device bench.new) opened.0) }
        ensures area { IfOk result (λ opened. opened.0.area ≡ area.now) }
        ensures before { OnOk result (damage_on T.format_of (B.device bench.old) area.now ≡ None) }
        ensures boots { let d = B.device bench.old in
            IfOk result (λ opened. ReportsOwed T.format_of area.now d opened.1) }
        ensures left { let d = B.device bench.old in let area = area.now in
            damage_on T.format_of d area ≡ None
            → OwesOn T.format_of (B.device bench.new) area
            (boot_units T.format_of (geometry_of d area)) }
        ensures stops { IfErr result
            (MountStops T.format_of area.now (B.device bench.old) (B.device bench.new)) }
    {
        match mount::<T, B, L>(alloc, bench, area, steps) {
            Ok(mounted) => {
                let session = ItemSession {
                    area: *area,
                    store: mounted.store,
                };
                Ok((session, mounted.answer))
            }
            Err(fault) => Err(fault),
        }
    }

    /// Carries out a line. With power off, `set`, `del`, `get`, `older` and `space` answer `off`. A
    /// mount spends at most what the area owes, and at rest nothing. After any line the area owes
    /// at most `boot_units`.
    ///
    /// # Errors
    /// `NoMemory`, for the bytes that `get` or `older` reports, or for what a mount keeps of the
    /// area; no other line takes memory. The bench is then as before, except that a mount turned
    /// power on. The session cannot carry out more lines.
    pub fn carry_out<B: Bench, L: Ledger>(
        &mut self,
        alloc: Global,
        line: &Line,
        bench: &mut B,
        steps: &mut Steps<L>,
    ) -> Result<Answer, NoMemory>
        requires ready { IsReady T.role T.format_of T.kept (B.device bench.old) self.old }
        requires line { IsServedOn T.format_of (B.device bench.old) self.old.area line.now }

        ensures done { IfOk result
            (λ answer. LineDone T.format_of self.old.area line.now answer (B.device bench.old)
            (B.device bench.new)) }
        ensures ready { OnOk result
            (IsReady T.role T.format_of T.kept (B.device bench.new) self.new) }
        ensures area { self.new.area ≡ self.old.area }
        ensures undamaged { damage_on T.format_of (B.device bench.new) self.old.area ≡ None }
        ensures boots { let d = B.device bench.old in
            line.now ≡ Mount
            → IfOk result (λ answer. ReportsOwed T.format_of self.old.area d answer) }
        ensures left { let area = self.old.area in OwesOn T.format_of (B.device bench.new) area
            (boot_units T.format_of (geometry_of (B.device bench.old) area)) }
        ensures wants { OnErr result (WantsMemory T.format_of self.old.area line.now
            (B.device bench.old) (B.device bench.new)) }
    {
        let area = self.area;
        run_line(alloc, line, bench, &area, &mut self.store, steps)
    }
}

// Mounts an undamaged area again.
fn mount_again<T: SlotSectors, B: Bench, L: Ledger>(
    alloc: Global,
    bench: &mut B,
    area: &Area,
    store: &mut Option<Store<T>>,
    steps: &mut Steps<L>,
) -> Result<Answer, NoMemory>
    requires { IsSound T.role T.format_of (B.device bench.old) area.now }

    ensures done { IfOk result (λ answer.
        LineDone T.format_of area.now Mount answer (B.device bench.old) (B.device bench.new)) }
    ensures sound { IsSound T.role T.format_of (B.device bench.new) area.now }
    ensures mounted { OnOk result
        (IsMounted T.role T.format_of T.kept (B.device bench.new) area.now store.new) }
    ensures wants { OnErr result (WantsMemory T.format_of area.now Mount
        (B.device bench.old) (B.device bench.new)) }
{
    match mount::<T, B, L>(alloc, bench, area, steps) {
        Ok(mounted) => {
            *store = mounted.store;
            Ok(mounted.answer)
        }
        Err(SessionFault::Damaged(_)) => unreachable!(),
        Err(SessionFault::NoMemory) => Err(NoMemory),
    }
}

// Carries out a line on an undamaged area, with the store that was mounted on it.
fn run_line<T: SlotSectors, B: Bench, L: Ledger>(
    alloc: Global,
    line: &Line,
    bench: &mut B,
    area: &Area,
    store: &mut Option<Store<T>>,
    steps: &mut Steps<L>,
) -> Result<Answer, NoMemory>
    requires sound { IsSound T.role T.format_of (B.device bench.old) area.now }
    requires mounted { IsMounted T.role T.format_of T.kept (B.device bench.old) area.now store.old }
    requires line { IsServedOn T.format_of (B.device bench.old) area.now line.now }

    ensures done { IfOk result (λ answer.
        LineDone T.format_of area.now line.now answer (B.device bench.old) (B.device bench.new)) }
    ensures sound { IsSound T.role T.format_of (B.device bench.new) area.now }
    ensures mounted { OnOk result
        (IsMounted T.role T.format_of T.kept (B.device bench.new) area.now store.new) }
    ensures wants { OnErr result (WantsMemory T.format_of area.now line.now
        (B.device bench.old) (B.device bench.new)) }
{
    match line {
        Line::Set { id, value } => match store {
            Some(store) if bench.is_on() => Ok(set_item(bench, store, area, *id, value, steps)),
            _ => Ok(Answer::Off),
        },
        Line::Delete { id } => match store {
            Some(store) if bench.is_on() => Ok(delete_item(bench, store, area, *id, steps)),
            _ => Ok(Answer::Off),
        },
        Line::Get { id } => match store {
            Some(store) if bench.is_on() => report_item(alloc, bench, store, area, *id, steps),
            _ => Ok(Answer::Off),
        },
        Line::Older { id, n } => match store {
            Some(store) if bench.is_on() => report_older(alloc, bench, store, area, *id, *n, steps),
            _ => Ok(Answer::Off),
        },
        Line::Space => match store {
            Some(store) if bench.is_on() => Ok(report_space(bench, store, area, steps)),
            _ => Ok(Answer::Off),
        },
        Line::Mount => mount_again(alloc, bench, area, store, steps),
        Line::Cut { units } => Ok(plan_loss::<T, B>(bench, area, *units)),
        Line::Uncut => Ok(drop_plan::<T, B>(bench, area)),
    }
}
