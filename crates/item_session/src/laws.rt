// Laws of the table. The functions do nothing: their contracts are the laws.
ghost use Rattle.item_session.specs.Laws.{ForgetsForRoom, HistoryStaysWhole, HoldsAcknowledged, LinesAreServed, LinesMakeRuns, LosesPower, NvsBlankIsFresh, NvsTakesValues, RunsInRow, ZmsBlankIsFresh, ZmsTakesValues};

/// Wherever power is lost, the items are those of a plain list. The list starts with what the area
/// held at first. Each acknowledged set and delete that spent units is appended to it, and each
/// lost one may be. Of each id the area keeps the newest versions in that list, and at least one if
/// the id has a value.
pub fn acknowledged_items_stand()
    ensures { HoldsAcknowledged }
{}

/// Power is off from a line in which it was lost until a mount answers `ok`.
pub fn power_follows_losses()
    ensures { LosesPower }
{}

/// Two runs in a row are one run of all their lines.
pub fn two_runs()
    ensures { RunsInRow }
{}

/// Lines that are carried out one by one make a run: it follows the table, the counts and the plan
/// are as the answers report, and no byte changes outside the area.
pub fn line_by_line()
    ensures { LinesMakeRuns }
{}

/// A version is dropped only to make room: never by a line whose entry fits the open sector, nor by
/// a mount of an area at rest.
pub fn versions_go_for_room()
    ensures { ForgetsForRoom }
{}

/// From a fresh area on, the whole history of each id is kept as long as the sets and deletes of
/// the lines, but those answered `off`, cost at most the bytes that a sector has. This holds
/// wherever power is lost.
pub fn history_stays_whole()
    ensures { HistoryStaysWhole }
{}

/// An area whose bytes are all FF is fresh, in NVS and in ZMS: it holds no item and no version, and
/// its open sector is all free.
pub fn blank_areas_are_fresh()
    ensures nvs { NvsBlankIsFresh }
    ensures zms { ZmsBlankIsFresh }
{}

/// The lines of a script have ids below the end and values within the limit with which the
/// script was read.
pub fn lines_fit()
    ensures { LinesAreServed }
{}

/// Each value within an area's limit fits a sector of the area, in NVS and in ZMS.
pub fn areas_take_values()
    ensures nvs { NvsTakesValues }
    ensures zms { ZmsTakesValues }
{}
