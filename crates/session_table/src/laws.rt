//! Laws of the table, over any backend. The functions do nothing: their contracts are the laws.

ghost use Rattle.std.specs.Prelude.{ℕ, List};
ghost use Rattle.flash_sim.specs.Device.{Device};
ghost use Rattle.flash_sim.specs.declared.flash.Bank.{Bank};
ghost use Rattle.flash_map.specs.declared.area.Area.{Area};
ghost use Rattle.session_table.specs.Bench.{rules_of};
ghost use Rattle.session_table.specs.Laws.{LeavesUnitsOpen, HoldsAcknowledged, ReportsDeeds, LosesPower, RunsInRow, LinesMakeRuns};

use backend_api::Backend;

/// If no power is lost and nothing is refused for want of room, the lines and the state before
/// determine the answers, except for their units, and the state after.
pub fn units_are_open<K: Backend>()
    ensures { (areas : List Area) (banks : List Bank) (last : ℕ)
        → LeavesUnitsOpen
        (rules_of
        (record { contents = K.contents; room = K.room; chance = K.chance; tears = K.tears }) areas
        banks last) }
{}

/// Wherever power is lost, the settings after each line are those that commands of the lines so far
/// make, in their order: all of each line that was done, as many as a refused save reports, and the
/// first so many of each line in which power was lost. The one exception: units that spell another
/// record by chance.
pub fn acknowledged_commands_stand<K: Backend>()
    ensures { (areas : List Area) (banks : List Bank) (last : ℕ)
        → HoldsAcknowledged
        (rules_of
        (record { contents = K.contents; room = K.room; chance = K.chance; tears = K.tears }) areas
        banks last) }
{}

/// Wherever power is lost, the settings after each line follow from those before it and from what
/// became of its commands, in their order: all of a line that was done, as many as a refused save
/// reports, and the first so many of a line in which power was lost. The next one of such a line
/// may be torn by chance.
pub fn torn_commands_report<K: Backend>()
    ensures { (areas : List Area) (banks : List Bank) (last : ℕ)
        → ReportsDeeds
        (rules_of
        (record { contents = K.contents; room = K.room; chance = K.chance; tears = K.tears }) areas
        banks last) }
{}

/// Power is off from a line in which it was lost until a mount answers `ok`.
pub fn power_follows_losses<K: Backend>()
    ensures { (areas : List Area) (banks : List Bank) (last : ℕ)
        → LosesPower
        (rules_of
        (record { contents = K.contents; room = K.room; chance = K.chance; tears = K.tears }) areas
        banks last) }
{}

/// Two runs in a row are one run of all their lines.
pub fn two_runs<K: Backend>()
    ensures { (areas : List Area) (banks : List Bank) (last : ℕ)
        → RunsInRow
        (rules_of
        (record { contents = K.contents; room = K.room; chance = K.chance; tears = K.tears }) areas
        banks last) }
{}

/// Lines that are carried out one by one make a run: it follows the table, the counts and the plan
/// are as the answers report, and no byte changes outside the areas that the lines work on.
pub fn line_by_line<K: Backend>()
    ensures { (areas : List Area)
        → LinesMakeRuns
        (record { contents = K.contents; room = K.room; chance = K.chance; tears = K.tears })
        areas }
{}
