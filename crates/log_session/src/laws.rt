// Laws of the table. The functions do nothing: their contracts are the laws.
ghost use Rattle.log_session.specs.Laws.{BlankDropsForRoom, BlankOwesNothing, DropsWhereFull, HoldsAcknowledged, LinesAreServed, LinesMakeRuns, LosesPower, RunsInRow, RunsReach};

/// Wherever power is lost, the log is the first log followed by the records that appends left,
/// without the oldest ones, which were dropped. Each acknowledged append left its record. Each
/// lost one left it, or nothing, or by chance a torn record. As many records were dropped as
/// the answers say. A lost append may have dropped some. No append drops more at once than one
/// sector has room for.
pub fn acknowledged_records_stand()
    ensures { HoldsAcknowledged }
{}

/// Power is off from a line in which it was lost until a mount answers `ok`.
pub fn power_follows_losses()
    ensures { LosesPower }
{}

/// Two runs in a row are one run of all their lines.
pub fn two_runs()
    ensures { RunsInRow }
{}

/// Lines that are carried out one by one make a run: it follows the table, the counts and the plan
/// are as the answers report, and no byte changes outside the area.
pub fn line_by_line()
    ensures { LinesMakeRuns }
{}

/// The lines of a script have bodies within the limit with which the script was read.
pub fn lines_fit()
    ensures { LinesAreServed }
{}

/// A blank area is reached, and so is each area that mounts and appends lead to from a reached one.
/// Lines lead from a reached area to a reached one, wherever power is lost.
pub fn runs_reach()
    ensures { RunsReach }
{}

/// On a reached area, an append drops records only if the items cost more bytes than all sectors
/// but one have room for, less the longest record in each.
pub fn lines_drop_where_full()
    ensures { DropsWhereFull }
{}

/// From a blank area on, lines drop items only where the log is full in this way: whole and cut
/// appends, and an oldest sector in which no record checks.
pub fn items_drop_where_full()
    ensures { BlankDropsForRoom }
{}

/// A mount of a blank area spends nothing. So from a blank area on, no mount of a script reports
/// more than one erase (`run_lines`: `boots`).
pub fn blank_owes_nothing()
    ensures { BlankOwesNothing }
{}
