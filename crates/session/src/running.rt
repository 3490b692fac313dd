// The run of all lines of a script.
ghost use Rattle.std.specs.Prelude.{◌≡◌, ℕ, ◌≤◌, ◌∷◌, true, All, None, IfErr, IfOk, OnOk};
ghost use Rattle.handlers.specs.Registry.{registered};
ghost use Rattle.script_lines.specs.Answer.{CanReport};
ghost use Rattle.script_lines.specs.declared.line.Line.TheVariants.{Mount};
ghost use Rattle.settings_core.specs.Saving.{AreLawful};
ghost use Rattle.session.specs.declared.fault.SessionFault.TheVariants.{NoMemory};
ghost use Rattle.session.specs.Handling.{RunLeaves, boxes};
ghost use Rattle.session.specs.OnMap.{IsAtRest, IsFresh, IsServed, IsServedMap, RunEnds, damage_in, kinds, limit_of, meanings, moment};
ghost use Rattle.session.specs.Owing.{MountsWithin, OwesOnMap, map_boot};
ghost use Rattle.session.specs.Texts.{AreLabelled};

use crate::fault::SessionFault;
use crate::session::Session;
use backend_api::Backend;
use flash_map::FlashMap;
use flash_sim::{Bench, Flash, Steps};
use handlers::{Handler, Registry};
use script_lines::{Answer, Line, ListOf};
use std::alloc::Global;
use std::sync::ledger::Ledger;

/// The answers to lines.
pub type Answers = ListOf<Answer>;

/// Mounts a map and carries out lines one after another. It returns the answers to the mount and to
/// each line. The handlers of the pool hold nothing; those that lines register move from it into
/// the registry, each time the first of the kind. If power is on after the last line, another mount
/// of the map would have nothing to do. A map without damage has none afterwards, whatever the
/// result. If the labels of the map are lawful, each answer has a text (`answer_text`). Take
/// a number of units and erases, at least `map_boot` and at least what the map owes (`OwesOnMap`).
/// No mount of the run reports more, and the map owes no more after the lines, whatever the result.
///
/// # Errors
/// `Damaged` with the damage that a mount found; a map without damage does not give it. The registry
/// is then as the lines before left it. `NoMemory`.
/// The bench is then as the first lines left it, except that the next one, a mount or a migration,
/// may have begun.
pub fn run_lines<K: Backend, B: Bench, L: Ledger>(
    alloc: Global,
    lines: &[Line],
    bench: &mut B,
    map: &FlashMap,
    mut pool: Vec<Box<dyn Handler>>,
    registry: &mut Registry,
    steps: &mut Steps<L>,
) -> Result<Answers, SessionFault>
    requires map { IsServedMap K.serves map.now (B.device bench.old) }
    requires lines { All (IsServed (limit_of map.now)) lines.now }
    requires pool { All (IsFresh state) pool.items }
    requires registry { AreLawful (limit_of map.now) (registered state registry.old) }

    ensures ends { let d = B.device bench.old in let e = B.device bench.new in
        RunEnds (meanings K.contents K.room K.chance K.tears) K.damage K.rests map.now
        (Mount ∷ lines.now) (moment d (registered state registry.old) (kinds state pool.items)) e
        (registered state registry.new) result }
    ensures moves { let d = B.device bench.old in let e = B.device bench.new in
        RunLeaves state (meanings K.contents K.room K.chance K.tears) K.damage K.rests map.now
        (Mount ∷ lines.now) result (boxes d registry.old pool.items) e registry.new }
    ensures undamaged { let d = B.device bench.old in let e = B.device bench.new in
        damage_in K.damage map.now d ≡ None → damage_in K.damage map.now e ≡ None }
    ensures serves { let d = B.device bench.old in
        damage_in K.damage map.now d ≡ None → IfErr result (λ fault. fault ≡ NoMemory) }
    ensures rests { let e = B.device bench.new in
        OnOk result (e.is_on ≡ true → IsAtRest K.rests map.now e) }
    ensures boots { let d = B.device bench.old in let e = B.device bench.new in
        let limit = map_boot K.boot_units d.banks map.now in
        (most : ℕ) → limit ≤ most → OwesOnMap K.owes map.now d most
        → OwesOnMap K.owes map.now e most
        × IfOk result (λ answers. MountsWithin most (Mount ∷ lines.now) answers) }
    ensures texts { AreLabelled map.now → IfOk result (λ answers. All CanReport answers) }
{
    let opened = Session::<K>::open(alloc, bench, map, steps);
    let (mut session, first) = match opened {
        Ok(opened) => opened,
        Err(fault) => return Err(fault),
    };
    let mut answers = Answers::new(alloc);
    match answers.push(first) {
        Ok(()) => {}
        Err(_) => return Err(SessionFault::NoMemory),
    }
    for line in lines {
        let answer = match session.carry_out(alloc, line, bench, map, &mut pool, registry, steps) {
            Ok(answer) => answer,
            Err(fault) => return Err(fault),
        };
        match answers.push(answer) {
            Ok(()) => {}
            Err(_) => return Err(SessionFault::NoMemory),
        }
    }
    Ok(answers)
}
