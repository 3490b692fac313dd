// Laws on loads and saves. The functions do nothing: their contracts are the laws.
ghost use Rattle.std.specs.Prelude.{ℕ, Bool, List};
ghost use Rattle.flash_map.specs.declared.area.Area.{Area as area_type};
ghost use Rattle.flash_map.specs.declared.area.Geometry.{Geometry};
ghost use Rattle.flash_sim.specs.Device.{Device};
ghost use Rattle.flash_sim.specs.declared.flash.Loss.{Loss};
ghost use Rattle.backend_api.specs.Commands.{Command};
ghost use Rattle.backend_api.specs.Map.{Map};
ghost use Rattle.backend_api.specs.Room.{Room};
ghost use Rattle.handlers.specs.Registry.{Registered};
ghost use Rattle.settings_core.specs.Deliveries.{Delivery};
ghost use Rattle.settings_core.specs.Laws.{DueCommands, OneCommand, LeavesPart, IsDelivered, HoldsStored, StaysLawful};
ghost use Rattle.settings_core.specs.Saving.{AreLawful};

use backend_api::Backend;

/// The commands that are due lead to the same settings as all of them, and each changes something.
pub fn due_commands()
    ensures commands { (settings : Map) (commands : List Command) → DueCommands settings commands }
    ensures one { (settings : Map) (c : Command) → OneCommand settings c }
{}

/// A call that was cut leaves the settings as the first so many of its commands make them, unless
/// the units before the loss spell another record by chance.
pub fn cut_commands<K: Backend>()
    ensures { (area : area_type) (geometry : Geometry) (room : Room) (chance : Loss → Bool)
        (old new : Device) (before after : Map) (commands : List Command) (count : ℕ)
        → LeavesPart room chance (K.tears area geometry) old new before after commands count }
{}

/// After a load, each handler holds its earlier values, overlaid in order with the deliveries
/// that it accepts.
pub fn each_delivery()
    ensures { (handlers : List Registered) (deliveries : List Delivery) (i : ℕ)
        → IsDelivered handlers deliveries i }
{}

/// After a load of all settings, a handler that was empty holds exactly the stored values of the
/// names whose best handler it is, as far as it accepts them.
pub fn stored_values()
    ensures { (limit : ℕ) (handlers : List Registered) (settings : Map) (place : ℕ)
        → HoldsStored limit handlers settings place }
{}

/// The handlers of a registry hold lawful settings, as long as each was new when it was registered
/// and took values only from loads and sets at run time.
pub fn lawful_registry()
    ensures { (limit : ℕ) (handlers : List Registered) → AreLawful limit handlers
        → StaysLawful limit handlers }
{}
