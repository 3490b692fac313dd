// Laws of the jobs. The functions do nothing: their contracts are the laws.
ghost use Rattle.session_jobs.specs.ItemJobs.{ErasingItemBoots, NvsItemBoots, RewritableItemBoots};

/// The most units and erases of a mount of an undamaged area of items, as a number. NVS: the units
/// of a sector. ZMS: the units of a sector, 16 bytes each; on a rewritable bank twice as many.
///
/// Take sectors of 4,096 bytes. An NVS sector at unit 4 has 1,024 units. A ZMS sector has 256
/// units, which makes 512 on a rewritable bank.
pub fn item_boot_units_by_role()
    ensures nvs { NvsItemBoots }
    ensures erasing { ErasingItemBoots }
    ensures rewritable { RewritableItemBoots }
{}
