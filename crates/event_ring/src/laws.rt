// Laws of the definitions. Each function does nothing; its contract is the law.
ghost use Rattle.event_ring.specs.Appending.{ItemsGiveLog};
ghost use Rattle.event_ring.specs.Filled.{BlankIsFilled, DropsWhereFull, LogIsOfRecords};
ghost use Rattle.event_ring.specs.Scripts.{DropsOnlyWhereFull};

/// The log of an area is the list of the bodies of its records that check.
pub fn log_is_of_records()
    ensures { LogIsOfRecords }
{}

/// In a blank area no sector counts, so none has room left for the longest record.
pub fn blank_is_filled()
    ensures { BlankIsFilled }
{}

/// If no sector that counts, except the newest, has room for the longest record, an append drops
/// the oldest records only if the items cost more than all sectors but one have room for, less the
/// longest record in each.
pub fn drops_where_full()
    ensures { DropsWhereFull }
{}

/// The same holds after any script of mounts and appends on a blank area, with any power losses.
pub fn drops_only_where_full()
    ensures { DropsOnlyWhereFull }
{}

/// What a power loss leaves of the items determines what it leaves of the log.
pub fn items_give_log()
    ensures { ItemsGiveLog }
{}
