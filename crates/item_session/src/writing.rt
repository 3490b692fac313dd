// Lines that set and delete items, with power on.
ghost use Rattle.std.specs.Prelude.{◌≡◌, true, None};
ghost use Rattle.item_store.specs.Stands.{StandsOn};
ghost use Rattle.item_session.specs.declared.line.Line.TheVariants.{Delete, Set};
ghost use Rattle.item_session.specs.Device.{IsServedOn, TakesValues};
ghost use Rattle.item_session.specs.LineDone.{LineDone};
ghost use Rattle.item_session.specs.Standing.{damage_on};

use crate::answer::Answer;
use flash_map::{Area, WriteFault};
use flash_sim::{Bench, Flash, Steps};
use item_store::{SlotSectors, Store};
use script_lines::Bytes;
use std::sync::ledger::Ledger;

// Sets an item.
pub fn set_item<T: SlotSectors, B: Bench, L: Ledger>(
    bench: &mut B,
    store: &mut Store<T>,
    area: &Area,
    id: u32,
    value: &Bytes,
    steps: &mut Steps<L>,
) -> Answer
    requires on { (B.device bench.old).is_on ≡ true }
    requires area { store.old.area ≡ area.now }
    requires mounted { StandsOn T.role T.format_of T.kept (B.device bench.old) store.old }
    requires values { TakesValues T.format_of (B.device bench.old) area.now }
    requires line { IsServedOn T.format_of (B.device bench.old) area.now (Set id value.now) }

    ensures done { LineDone T.format_of area.now (Set id value.now) result
        (B.device bench.old) (B.device bench.new) }
    ensures undamaged { damage_on T.format_of (B.device bench.new) area.now ≡ None }
    ensures area { store.new.area ≡ area.now }
    ensures mounted { (B.device bench.new).is_on ≡ true
        → StandsOn T.role T.format_of T.kept (B.device bench.new) store.new }
{
    let before = bench.spent();
    let end = store.write(bench, id, value.as_slice(), steps);
    let units = bench.spent() - before;
    match end {
        Ok(()) => Answer::Done { units },
        Err(WriteFault::NoSpace { need, live }) => Answer::NoSpace { units, need, live },
        Err(WriteFault::PowerLost) => Answer::Lost { units },
        Err(WriteFault::TooLong) => unreachable!(),
    }
}

// Deletes an item.
pub fn delete_item<T: SlotSectors, B: Bench, L: Ledger>(
    bench: &mut B,
    store: &mut Store<T>,
    area: &Area,
    id: u32,
    steps: &mut Steps<L>,
) -> Answer
    requires on { (B.device bench.old).is_on ≡ true }
    requires area { store.old.area ≡ area.now }
    requires mounted { StandsOn T.role T.format_of T.kept (B.device bench.old) store.old }
    requires line { IsServedOn T.format_of (B.device bench.old) area.now (Delete id) }

    ensures done { LineDone T.format_of area.now (Delete id) result (B.device bench.old)
        (B.device bench.new) }
    ensures undamaged { damage_on T.format_of (B.device bench.new) area.now ≡ None }
    ensures area { store.new.area ≡ area.now }
    ensures mounted { (B.device bench.new).is_on ≡ true
        → StandsOn T.role T.format_of T.kept (B.device bench.new) store.new }
{
    let before = bench.spent();
    let end = store.delete(bench, id, steps);
    let units = bench.spent() - before;
    match end {
        Ok(()) => Answer::Done { units },
        Err(_) => Answer::Lost { units },
    }
}
