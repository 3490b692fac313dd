// The mount of a store.
ghost use Rattle.std.specs.Prelude.{◌≡◌, None, Some, IfOk, IfErr, OnOk};
ghost use Rattle.item_store.specs.Standing.{IsStoreArea};
ghost use Rattle.item_session.specs.declared.line.Line.TheVariants.{Mount};
ghost use Rattle.item_session.specs.LineDone.{LineDone};
ghost use Rattle.item_session.specs.Running.{MountStops};
ghost use Rattle.item_session.specs.Standing.{IsMounted, damage_on};

use crate::answer::Answer;
use crate::fault::SessionFault;
use flash_map::{Area, MountFault};
use flash_sim::{Bench, Flash, Steps};
use item_store::{SlotSectors, Store};
use std::alloc::Global;
use std::sync::ledger::Ledger;

// The answer to a mount, and the mounted store; `None` if power was lost.
#[derive(Drop)]
pub(crate) struct Mounted<T> {
    pub(crate) answer: Answer,
    pub(crate) store: Option<Store<T>>,
}

// Turns power on, and mounts. If the area is damaged or memory runs out, nothing else changed.
pub(crate) fn mount<T: SlotSectors, B: Bench, L: Ledger>(
    alloc: Global,
    bench: &mut B,
    area: &Area,
    steps: &mut Steps<L>,
) -> Result<Mounted<T>, SessionFault>
    requires { IsStoreArea T.role (B.device bench.old).banks area.now }

    ensures done { IfOk result (λ mounted.
        LineDone T.format_of area.now Mount mounted.answer (B.device bench.old)
        (B.device bench.new)) }
    ensures mounted { IfOk result (λ mounted.
        IsMounted T.role T.format_of T.kept (B.device bench.new) area.now mounted.store) }
    ensures before { OnOk result (damage_on T.format_of (B.device bench.old) area.now ≡ None) }
    ensures undamaged { OnOk result (damage_on T.format_of (B.device bench.new) area.now ≡ None) }
    ensures stops { IfErr result
        (MountStops T.format_of area.now (B.device bench.old) (B.device bench.new)) }
{
    bench.restore();
    let before = bench.spent();
    let end = Store::<T>::mount(alloc, bench, *area, steps);
    let units = bench.spent() - before;
    match end {
        Ok(store) => Ok(Mounted {
            answer: Answer::Done { units },
            store: Some(store),
        }),
        Err(MountFault::PowerLost) => Ok(Mounted {
            answer: Answer::Lost { units },
            store: None,
        }),
        Err(MountFault::Damaged(damaged)) => Err(SessionFault::Damaged(damaged)),
        Err(MountFault::NoMemory) => Err(SessionFault::NoMemory),
    }
}
