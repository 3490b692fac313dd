// Laws of the table. The functions do nothing: their contracts are the laws.
ghost use Rattle.std.specs.Prelude.{List};
ghost use Rattle.flash_map.specs.declared.area.Area.{Area as area_type};
ghost use Rattle.mirror_session.specs.Bench.{meanings};
ghost use Rattle.mirror_session.specs.Laws.{HoldsAcknowledged, KeepsNamed, KeepsNamesRead, LinesAreServed, LinesMakeRuns, LosesPower, RunsInRow, StaysMirrored};

use mirror::Priced;

/// Wherever power is lost and an area is replaced, the settings are those that commands of the
/// lines make, in their order: all of each line that was done. A command in which power was lost
/// may be among them or not.
pub fn acknowledged_commands_stand()
    ensures { HoldsAcknowledged }
{}

/// With power on, both areas read as the settings.
pub fn areas_stay_mirrored()
    ensures { StaysMirrored }
{}

/// With power on, the selector names the area that is read.
pub fn named_area_is_read()
    ensures { KeepsNamesRead }
{}

/// Power is off from a line in which it was lost until a mount answers `ok`.
pub fn power_follows_losses()
    ensures { LosesPower }
{}

/// The selector names another area only after a mount that found the area named before all FF, and
/// the other one not.
pub fn named_area_stays()
    ensures { KeepsNamed }
{}

/// Two runs in a row are one run of all their lines.
pub fn two_runs()
    ensures { RunsInRow }
{}

/// Lines that are carried out one by one make a run: it follows the table, the counts and the plan
/// are as the answers report, and no byte changes outside the areas of the map.
pub fn line_by_line<K: Priced>()
    ensures { (areas : List area_type)
        → LinesMakeRuns (meanings K.damage K.contents K.rests K.room K.prices K.owes) areas }
{}

/// The lines of a script have values within the limit with which the script was read.
pub fn lines_fit()
    ensures { LinesAreServed }
{}
