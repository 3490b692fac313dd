// A load that runs out of memory commits nothing; and how often a load and commits reach handlers.
ghost use Rattle.std.specs.Prelude.{◌≡◌, ◌≤◌, length, true};
ghost use Rattle.flash_map.specs.Lawful.{IsLawfulFor};
ghost use Rattle.flash_map.specs.On.{StandsOn};

use crate::holds;
use crate::tables::name_of;
use backend_api::Backend;
use flash_sim::{Bench, NoMemory, Steps};
use handlers::{Handler, LevelHandler, Registry, TableHandler, ValueView};
use setting_name::Name;
use settings_core::{LoadFault, Loaded, Report, Settings, commit};
use std::alloc::Global;
use std::process::Abort;
use std::sync::ledger::Ledger;

// Takes so many deliveries, and then runs out of memory.
#[derive(Drop)]
struct Tally {
    left: u32,
}

impl Report for Tally {
    ghost use Rattle.std.specs.Prelude.{None};

    ghost gives = { λ _. None };

    fn given(
        &mut self,
        _alloc: Global,
        _subtree: &Name,
        _rest: &[u8],
        _value: ValueView<'_>,
        _taken: bool,
    ) -> Result<(), NoMemory> {
        if self.left == 0 {
            return Err(NoMemory);
        }
        self.left -= 1;
        Ok(())
    }
}

// Six names. One is under no subtree, and one has a value that its handler rejects.
static SIX: [(&str, u8); 6] = [
    ("bt/mesh/iv", 1),
    ("bt/x", 3),
    ("btx/y", 4),
    ("bt", 5),
    ("lv", 100),
    ("lv/a", 101),
];

fn stores<K: Backend, B: Bench, L: Ledger, R: Abort>(
    rt: &R,
    settings: &mut Settings<K>,
    bench: &mut B,
    name: &str,
    value: &[u8],
    steps: &mut Steps<L>,
)
    requires lawful { IsLawfulFor (B.device bench.old).banks (K.mounted_on settings.old.backend) }
    requires stands { K.runs settings.old.backend ≡ true
        → StandsOn K.mounted_on K.stands (B.device bench.old) settings.old.backend }
    requires short { length value.now ≤ 4 }
    ensures lawful { IsLawfulFor (B.device bench.new).banks (K.mounted_on settings.new.backend) }
    ensures stands { K.runs settings.new.backend ≡ true
        → StandsOn K.mounted_on K.stands (B.device bench.new) settings.new.backend }
{
    let name = name_of(rt, name);
    settings
        .save_one(bench, &name, value, steps)
        .expect(rt, "not stored");
}

fn fills<K: Backend, B: Bench, L: Ledger, R: Abort>(
    rt: &R,
    settings: &mut Settings<K>,
    bench: &mut B,
    steps: &mut Steps<L>,
)
    requires lawful { IsLawfulFor (B.device bench.old).banks (K.mounted_on settings.old.backend) }
    requires stands { K.runs settings.old.backend ≡ true
        → StandsOn K.mounted_on K.stands (B.device bench.old) settings.old.backend }
    ensures lawful { IsLawfulFor (B.device bench.new).banks (K.mounted_on settings.new.backend) }
    ensures stands { K.runs settings.new.backend ≡ true
        → StandsOn K.mounted_on K.stands (B.device bench.new) settings.new.backend }
{
    for (name, value) in SIX.iter() {
        stores(rt, settings, bench, name, &[*value], steps);
    }
}

// A load whose report takes so many deliveries.
fn loads<K: Backend, B: Bench, L: Ledger>(
    alloc: Global,
    settings: &Settings<K>,
    bench: &B,
    registry: &mut Registry,
    left: u32,
    steps: &mut Steps<L>,
) -> Result<Loaded, LoadFault>
    requires lawful { IsLawfulFor (B.device bench.now).banks (K.mounted_on settings.now.backend) }
    requires stands { K.runs settings.now.backend ≡ true
        → StandsOn K.mounted_on K.stands (B.device bench.now) settings.now.backend }
{
    settings.load(alloc, bench, registry, None, &mut Tally { left }, steps)
}

// How often the handlers at two places were committed.
fn commits(registry: &Registry) -> (u64, u64) {
    match (registry.handler(0), registry.handler(1)) {
        (Some(first), Some(second)) => (first.commits(), second.commits()),
        _ => (0, 0),
    }
}

// Two tables, one under the other, and a level.
fn handlers<R: Abort>(rt: &R, alloc: Global) -> Registry {
    let bt: Box<dyn Handler> = Box::new(alloc, TableHandler::new(alloc)).expect(rt, "memory");
    let mesh: Box<dyn Handler> = Box::new(alloc, TableHandler::new(alloc)).expect(rt, "memory");
    let lv: Box<dyn Handler> = Box::new(alloc, LevelHandler::new(alloc)).expect(rt, "memory");
    let mut registry = Registry::new(alloc);
    let first = registry.register(name_of(rt, "bt"), bt).is_ok();
    let second = registry.register(name_of(rt, "bt/mesh"), mesh).is_ok();
    let third = registry.register(name_of(rt, "lv"), lv).is_ok();
    holds(rt, "registered", first & second & third);
    registry
}

/// Memory runs out after two deliveries. Then a load of all, and commits of all handlers and of
/// those under a subtree.
pub(crate) fn delivers<K: Backend, B: Bench, L: Ledger, R: Abort>(
    rt: &R,
    alloc: Global,
    mut settings: Settings<K>,
    bench: &mut B,
    steps: &mut Steps<L>,
)
    requires lawful { IsLawfulFor (B.device bench.old).banks (K.mounted_on settings.backend) }
    requires stands { K.runs settings.backend ≡ true
        → StandsOn K.mounted_on K.stands (B.device bench.old) settings.backend }
{
    fills(rt, &mut settings, bench, steps);
    let mut registry = handlers(rt, alloc);
    let short = loads(alloc, &settings, bench, &mut registry, 2, steps);
    let none = (commits(&registry) == (0, 0)) & !settings.is_off();
    holds(rt, "short", none & (short == Err(LoadFault::NoMemory)));
    let (taken, rejected, passed) = (4, 1, 1);
    let ended = loads(alloc, &settings, bench, &mut registry, 5, steps);
    let loaded = Loaded {
        taken,
        rejected,
        passed,
    };
    holds(
        rt,
        "loaded",
        (ended == Ok(loaded)) & (commits(&registry) == (1, 1)),
    );
    commit(&mut registry, None);
    commit(&mut registry, Some(&name_of(rt, "bt/mesh")));
    holds(rt, "commits", commits(&registry) == (2, 3));
}
