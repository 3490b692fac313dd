// Lines on handlers, with power on.
ghost use Rattle.std.specs.Prelude.{◌≡◌, ◌<◌, length, get_or, ℕ, true, false, None, IfOk, OnErr, All, List};
ghost use Rattle.std.specs.List.{list_any};
ghost use Rattle.std.specs.Str.{bytes_eq};
ghost use Rattle.flash_map.specs.Lawful.{IsLawfulFor};
ghost use Rattle.flash_map.specs.On.{on, StandsOn};
ghost use Rattle.backend_api.specs.Map.{IsSettings, IsValue};
ghost use Rattle.handlers.specs.Registry.{registered, subtrees, nobody};
ghost use Rattle.handlers.specs.declared.handler.HandlerKind.{HandlerKind as kind_type};
ghost use Rattle.settings_core.specs.Saving.{AreLawful};
ghost use Rattle.script_lines.specs.declared.line.Line.TheVariants.{Save};
ghost use Rattle.session_table.specs.State.{State};
ghost use Rattle.session_table.specs.Step.{Registers, Loads, Commits, Offers, Asks, same_kind};
ghost use Rattle.settings_core.specs.Owing.{OwesBoot};
ghost use Rattle.session.specs.Handling.{beside, FirstAt, MovesHandlers, RegisterMoves, TakeEnds};
ghost use Rattle.session.specs.OnMap.{meanings, moment, kinds, DoneWithin, IsFresh, IsServedMap, IsServed, is_handled, limit_of, StandsOnActive, StaysOnArea, HandlersFit, StopsUnchanged};

use crate::changing::spells_another;
use backend_api::Backend;
use flash_map::{Area, FlashMap};
use flash_sim::{Bench, Flash, NoMemory, Steps};
use handlers::{Handler, HandlerKind, RegisterFault, Registry, ValueView};
use script_lines::{Answer, Bytes, Give, Gives, Line, SaveEnd, copied};
use setting_name::Name;
use settings_core::{
    LoadFault, Report, RuntimeFault, SaveFault, Settings, commit, lawful_registry, runtime_get,
    runtime_set,
};
use std::alloc::Global;
use std::sync::ledger::Ledger;

// What a load has given so far.
#[derive(Drop)]
struct Given {
    gives: Gives,
}

impl Report for Given {
    ghost use Rattle.std.specs.Prelude.{Some, map};
    ghost use Rattle.session.specs.Handling.{as_given};

    ghost gives = { λ given. Some (map as_given given.gives) };

    fn given(
        &mut self,
        alloc: Global,
        subtree: &Name,
        rest: &[u8],
        value: ValueView<'_>,
        taken: bool,
    ) -> Result<(), NoMemory> {
        let rest = copied(alloc, rest)?;
        let value = copied(alloc, value.bytes())?;
        self.gives.push(Give {
            subtree: subtree.copy(),
            rest,
            value,
            taken,
        })
    }
}

// ---- registering

// Whether the handler at this place is registered for the subtree.
fn is_own(registry: &Registry, i: usize, subtree: &Name) -> bool
    requires { i < length (registered state registry.now) }
    ensures { result
        ≡ bytes_eq subtree.now (get_or (registered state registry.now) i nobody).subtree }
{
    match registry.subtree(i) {
        Some(own) => *subtree == *own,
        None => false,
    }
}

// Whether a handler is registered for the subtree.
fn is_registered(registry: &Registry, subtree: &Name) -> bool
    ensures { result ≡ list_any (bytes_eq subtree.now) (subtrees (registered state registry.now)) }
{
    for i in 0..registry.len() {
        if is_own(registry, i, subtree) {
            return true;
        }
    }
    false
}

// Whether the handler is of the kind.
fn is_of_kind(handler: &Box<dyn Handler>, kind: HandlerKind) -> bool
    ensures { result ≡ same_kind kind (state handler.now).kind }
{
    match kind {
        HandlerKind::Table => matches!(handler.kind(), HandlerKind::Table),
        HandlerKind::Counter => matches!(handler.kind(), HandlerKind::Counter),
        HandlerKind::Level => matches!(handler.kind(), HandlerKind::Level),
    }
}

// The place of the first handler of the kind.
fn first_of(pool: &[Box<dyn Handler>], kind: HandlerKind) -> Option<usize>
    ensures { FirstAt kind (kinds state pool.now) result }
{
    pool.iter().position(
        |handler|
            ensures { result ≡ same_kind kind (state handler.now).kind }
        { is_of_kind(handler, kind) },
    )
}

// Takes the first handler of the kind out of the others.
fn take_first(pool: &mut Vec<Box<dyn Handler>>, kind: HandlerKind) -> Option<Box<dyn Handler>>
    ensures { TakeEnds state kind pool.old.items pool.new.items result }
{
    match first_of(pool.as_slice(), kind) {
        Some(place) => Some(pool.remove(place)),
        None => None,
    }
}

// Registers the first handler of the kind that is left. If memory runs out, it may be lost.
fn register_handler(
    subtree: &Name,
    kind: HandlerKind,
    pool: &mut Vec<Box<dyn Handler>>,
    registry: &mut Registry,
) -> Result<Answer, NoMemory>
    requires pool { All (IsFresh state) pool.old.items }

    ensures done { IfOk result (λ answer. (s : State) → Registers subtree.now kind answer
        (beside s (registered state registry.old) (kinds state pool.old.items))
        (beside s (registered state registry.new) (kinds state pool.new.items))) }
    ensures moves { let before = pool.old.items in
        IfOk result
        (λ answer. RegisterMoves state subtree.now kind answer before pool.new.items registry.old
        registry.new) }
    ensures pool { All (IsFresh state) pool.new.items }
    ensures lawful { (limit : ℕ) → AreLawful limit (registered state registry.old)
        → AreLawful limit (registered state registry.new) }
{
    if is_registered(registry, subtree) {
        return Ok(Answer::Exists);
    }
    let Some(handler) = take_first(pool, kind) else {
        return Ok(Answer::NoKind);
    };
    lawful_registry();
    match registry.register(subtree.copy(), handler) {
        Ok(()) => Ok(Answer::Done { units: 0 }),
        Err((RegisterFault::NoMemory, _)) => Err(NoMemory),
        Err((RegisterFault::Exists, _)) => unreachable!(),
    }
}

// ---- loads and commits

// Gives the stored settings of a subtree, or all of them, to their handlers, and commits these.
fn load_settings<K: Backend, B: Bench, L: Ledger>(
    alloc: Global,
    bench: &B,
    settings: &Settings<K>,
    subtree: &Option<Name>,
    registry: &mut Registry,
    steps: &mut Steps<L>,
) -> Result<Answer, NoMemory>
    requires lawful { IsLawfulFor (B.device bench.now).banks (K.mounted_on settings.now.backend) }
    requires up { K.runs settings.now.backend ≡ true }
    requires stands { StandsOn K.mounted_on K.stands (B.device bench.now) settings.now.backend }

    ensures done { let stored =
        on K.contents (B.device bench.now) (K.mounted_on settings.now.backend) in
        IfOk result
        (λ answer. (s : State) → s.settings ≡ stored
        → Loads subtree.now answer (beside s (registered state registry.old) s.pool)
        (beside s (registered state registry.new) s.pool)) }
    ensures lawful { let stored =
        on K.contents (B.device bench.now) (K.mounted_on settings.now.backend) in
        (limit : ℕ) → IsSettings limit stored → AreLawful limit (registered state registry.old)
        → AreLawful limit (registered state registry.new) }
{
    lawful_registry();
    let mut given = Given {
        gives: Gives::new(alloc),
    };
    match settings.load(alloc, bench, registry, subtree.as_ref(), &mut given, steps) {
        Ok(loaded) => Ok(Answer::Loaded {
            gives: given.gives,
            taken: loaded.taken,
            rejected: loaded.rejected,
            passed: loaded.passed,
        }),
        Err(LoadFault::NoMemory) => Err(NoMemory),
        Err(LoadFault::Off) => unreachable!(),
    }
}

// Commits all handlers.
fn commit_handlers(registry: &mut Registry) -> Answer
    ensures done { (s : State)
        → Commits result (beside s (registered state registry.old) s.pool)
        (beside s (registered state registry.new) s.pool) }
    ensures lawful { (limit : ℕ) → AreLawful limit (registered state registry.old)
        → AreLawful limit (registered state registry.new) }
{
    lawful_registry();
    commit(registry, None);
    Answer::Done { units: 0 }
}

// ---- values at run time

// Gives a value to the best handler for the name.
fn offer_value(
    alloc: Global,
    name: &Name,
    value: &Bytes,
    registry: &mut Registry,
) -> Result<Answer, NoMemory>
    ensures done { IfOk result
        (λ answer. (s : State)
        → Offers name.now value.now answer (beside s (registered state registry.old) s.pool)
        (beside s (registered state registry.new) s.pool)) }
    ensures lawful { (limit : ℕ) → IsValue limit value.now
        → AreLawful limit (registered state registry.old)
        → AreLawful limit (registered state registry.new) }
{
    lawful_registry();
    let _text = name.bytes();
    match runtime_set(alloc, registry, name, value.as_slice()) {
        Ok(()) => Ok(Answer::Done { units: 0 }),
        Err(RuntimeFault::NoHandler) => Ok(Answer::NoHandler),
        Err(RuntimeFault::Rejected) => Ok(Answer::Rejected),
        Err(RuntimeFault::NoMemory) => Err(NoMemory),
    }
}

// What the best handler for the name holds for it.
fn ask_handler(alloc: Global, name: &Name, registry: &Registry) -> Result<Answer, NoMemory>
    ensures { IfOk result
        (λ answer. (s : State)
        → Asks name.now answer (beside s (registered state registry.now) s.pool)
        (beside s (registered state registry.now) s.pool)) }
{
    match runtime_get(registry, name) {
        Ok(Some(bytes)) => {
            let value = copied(alloc, bytes)?;
            Ok(Answer::Value { value })
        }
        Ok(None) => Ok(Answer::Absent),
        Err(_) => Ok(Answer::NoHandler),
    }
}

// ---- saves

// Stores what the handlers of a subtree, or all handlers, hold.
fn save_settings<K: Backend, B: Bench, L: Ledger>(
    bench: &mut B,
    map: &FlashMap,
    area: &Area,
    settings: &mut Settings<K>,
    subtree: &Option<Name>,
    registry: &Registry,
    steps: &mut Steps<L>,
) -> Answer
    requires map { IsServedMap K.serves map.now (B.device bench.old) }
    requires here { let d = B.device bench.old in
        StandsOnActive K.mounted_on K.stands K.runs map.now d area.now settings.old.backend }
    requires registry { AreLawful (limit_of map.now) (registered state registry.now) }

    ensures done { let m = meanings K.contents K.room K.chance K.tears in
        (pool : List kind_type) → DoneWithin m map.now (Save subtree.now) result
        (moment (B.device bench.old) (registered state registry.now) pool)
        (moment (B.device bench.new) (registered state registry.now) pool) }
    ensures sound { on K.damage (B.device bench.new) area.now ≡ None }
    ensures stays { let e = B.device bench.new in
        StaysOnArea K.mounted_on K.stands K.runs e area.now settings.new.backend }
    ensures left { (B.device bench.new).is_on ≡ false
        → OwesBoot K.owes K.boot_units (B.device bench.new) area.now }
{
    let before = bench.spent();
    let saved = settings.save(bench, registry, subtree.as_ref(), steps);
    let units = bench.spent() - before;
    let pairs = saved.pairs;
    match saved.end {
        Ok(()) => Answer::Saved {
            pairs,
            units,
            end: SaveEnd::Whole,
        },
        Err(SaveFault::NoSpace { need, live }) => Answer::Saved {
            pairs,
            units,
            end: SaveEnd::NoSpace { need, live },
        },
        Err(SaveFault::TooManyNames) => Answer::Saved {
            pairs,
            units,
            end: SaveEnd::TooMany,
        },
        Err(SaveFault::PowerLost) => Answer::Lost {
            units,
            chance: spells_another::<K, B, L>(bench, area, steps),
        },
        Err(SaveFault::Off) => unreachable!(),
    }
}

// ---- all of them

// Carries out a line on handlers.
pub fn with_handlers<K: Backend, B: Bench, L: Ledger>(
    alloc: Global,
    line: &Line,
    bench: &mut B,
    map: &FlashMap,
    area: &Area,
    settings: &mut Settings<K>,
    pool: &mut Vec<Box<dyn Handler>>,
    registry: &mut Registry,
    steps: &mut Steps<L>,
) -> Result<Answer, NoMemory>
    requires map { IsServedMap K.serves map.now (B.device bench.old) }
    requires here { let d = B.device bench.old in
        StandsOnActive K.mounted_on K.stands K.runs map.now d area.now settings.old.backend }
    requires handled { is_handled line.now ≡ true }
    requires line { IsServed (limit_of map.now) line.now }
    requires handlers { let hs = registered state registry.old in
        HandlersFit state (limit_of map.now) hs pool.old.items }

    ensures done { let m = meanings K.contents K.room K.chance K.tears in
        IfOk result
        (λ answer. DoneWithin m map.now line.now answer
        (moment (B.device bench.old) (registered state registry.old) (kinds state pool.old.items))
        (moment (B.device bench.new) (registered state registry.new)
        (kinds state pool.new.items))) }
    ensures sound { on K.damage (B.device bench.old) area.now ≡ None
        → on K.damage (B.device bench.new) area.now ≡ None }
    ensures stops { OnErr result
        (StopsUnchanged line.now (B.device bench.old) (B.device bench.new)) }
    ensures stays { let e = B.device bench.new in
        StaysOnArea K.mounted_on K.stands K.runs e area.now settings.new.backend }
    ensures left { (B.device bench.new).is_on ≡ false
        → OwesBoot K.owes K.boot_units (B.device bench.new) area.now }
    ensures handlers { let hs = registered state registry.new in
        HandlersFit state (limit_of map.now) hs pool.new.items }
    ensures moves { let before = pool.old.items in
        IfOk result
        (λ answer. MovesHandlers state line.now answer before pool.new.items registry.old
        registry.new) }
{
    match line {
        Line::Register { subtree, kind } => register_handler(subtree, *kind, pool, registry),
        Line::Load { subtree } => load_settings(alloc, bench, settings, subtree, registry, steps),
        Line::Save { subtree } => Ok(save_settings(
            bench, map, area, settings, subtree, registry, steps,
        )),
        Line::Commit => Ok(commit_handlers(registry)),
        Line::RunSet { name, value } => offer_value(alloc, name, value, registry),
        Line::RunGet { name } => ask_handler(alloc, name, registry),
        Line::Set { .. }
        | Line::Get { .. }
        | Line::Del { .. }
        | Line::Direct { .. }
        | Line::Names
        | Line::Mount
        | Line::Cut { .. }
        | Line::Uncut
        | Line::Migrate => unreachable!(),
    }
}
