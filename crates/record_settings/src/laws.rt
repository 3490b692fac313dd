// What garbage collection and a torn record make of settings.
ghost use Rattle.std.specs.Prelude.{◌≡◌, ◌≤◌, ◌++◌, ℕ, List, length};
ghost use Rattle.flash_sim.specs.declared.flash.TheConstants.{PROGRAM_LIMIT};
ghost use Rattle.flash_map.specs.Units.{IsUnit};
ghost use Rattle.fcb_ring.specs.Writing.{record_cost, spelled, IsChance};
ghost use Rattle.record_settings.specs.Live.{live_bodies};
ghost use Rattle.record_settings.specs.Settings.{setting_of, settings_of};
ghost use Rattle.record_settings.specs.Torn.{torn_body, IsTornOf};

/// Garbage collection keeps the settings: the records of the other sectors, followed by the live
/// records of the victim, the oldest sector, say the same as those of the victim followed by those
/// of the others. The function does nothing; its contract is the law.
pub fn collect_records()
    ensures { (limit : ℕ) (victim others : List (List ℕ))
        → settings_of limit (others ++ live_bodies limit victim others)
        ≡ settings_of limit (victim ++ others) }
{}

/// A torn body, its first bytes with FF behind them, says nothing, or gives the same name a value
/// of the same length (`torn`). The same holds of a torn record that checks by chance (`spelled`).
/// The function does nothing; its contract is the law.
pub fn tear_record()
    ensures torn { (limit : ℕ) (body : List ℕ) (put : ℕ)
        → IsTornOf (setting_of limit body) (setting_of limit (torn_body body put)) }
    ensures spelled { (limit unit : ℕ) (body : List ℕ) (done : ℕ)
        → IsUnit unit → record_cost unit (length body) ≤ PROGRAM_LIMIT → IsChance unit body done
        → IsTornOf (setting_of limit body) (setting_of limit (spelled unit body done)) }
{}
