// Lines that ask for items, their versions and the space that they take, with power on.
ghost use Rattle.std.specs.Prelude.{◌≡◌, true, IfOk, OnErr};
ghost use Rattle.item_store.specs.Stands.{StandsOn};
ghost use Rattle.item_session.specs.declared.answer.Answer.TheVariants.{Value};
ghost use Rattle.item_session.specs.declared.line.Line.TheVariants.{Get, Older as OlderLine, Space as SpaceLine};
ghost use Rattle.item_session.specs.LineDone.{LineDone};
ghost use Rattle.item_session.specs.Running.{WantsMemory};

use crate::answer::Answer;
use flash_map::Area;
use flash_sim::{Bench, Flash, NoMemory, Steps};
use item_history::{Older, store_older, store_space};
use item_store::{SlotSectors, Store};
use script_lines::copied;
use std::alloc::Global;
use std::sync::ledger::Ledger;

// These bytes as an answer.
fn value_of(alloc: Global, bytes: &[u8]) -> Result<Answer, NoMemory>
    ensures { IfOk result (λ answer. answer ≡ Value bytes.now) }
{
    let value = copied(alloc, bytes)?;
    Ok(Answer::Value { value })
}

// The bytes of an item. `NoMemory`: memory ran out for them.
pub fn report_item<T: SlotSectors, B: Bench, L: Ledger>(
    alloc: Global,
    bench: &B,
    store: &Store<T>,
    area: &Area,
    id: u32,
    steps: &mut Steps<L>,
) -> Result<Answer, NoMemory>
    requires on { (B.device bench.now).is_on ≡ true }
    requires area { store.now.area ≡ area.now }
    requires mounted { StandsOn T.role T.format_of T.kept (B.device bench.now) store.now }
    ensures done { IfOk result (λ answer.
        LineDone T.format_of area.now (Get id) answer (B.device bench.now) (B.device bench.now)) }
    ensures wants { OnErr result (WantsMemory T.format_of area.now (Get id)
        (B.device bench.now) (B.device bench.now)) }
{
    match store.get(bench, id, steps) {
        Some(bytes) => value_of(alloc, bytes),
        None => Ok(Answer::Absent),
    }
}

// A version of an item. `NoMemory`: memory ran out for its bytes.
pub fn report_older<T: SlotSectors, B: Bench, L: Ledger>(
    alloc: Global,
    bench: &B,
    store: &Store<T>,
    area: &Area,
    id: u32,
    n: u32,
    steps: &mut Steps<L>,
) -> Result<Answer, NoMemory>
    requires on { (B.device bench.now).is_on ≡ true }
    requires area { store.now.area ≡ area.now }
    requires mounted { StandsOn T.role T.format_of T.kept (B.device bench.now) store.now }
    ensures done { IfOk result
        (λ answer. LineDone T.format_of area.now (OlderLine id n) answer (B.device bench.now)
        (B.device bench.now)) }
    ensures wants { OnErr result (WantsMemory T.format_of area.now (OlderLine id n)
        (B.device bench.now) (B.device bench.now)) }
{
    match store_older(store, bench, id, n, steps) {
        Older::Value(bytes) => value_of(alloc, bytes),
        Older::Deleted => Ok(Answer::Deleted),
        Older::Gone => Ok(Answer::Gone),
    }
}

// What the items and their other versions cost, and what is free, in bytes.
pub fn report_space<T: SlotSectors, B: Bench, L: Ledger>(
    bench: &B,
    store: &Store<T>,
    area: &Area,
    steps: &mut Steps<L>,
) -> Answer
    requires on { (B.device bench.now).is_on ≡ true }
    requires area { store.now.area ≡ area.now }
    requires mounted { StandsOn T.role T.format_of T.kept (B.device bench.now) store.now }
    ensures { LineDone T.format_of area.now SpaceLine result (B.device bench.now)
        (B.device bench.now) }
{
    let space = store_space(store, bench, steps);
    Answer::Space {
        live: space.live,
        stale: space.stale,
        free: space.free,
    }
}
