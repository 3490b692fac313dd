// What may go wrong, as one type.
ghost use Rattle.std.specs.Prelude.{◌≡◌};
ghost use Rattle.petaqwen.specs.declared.error.Error.TheVariants.{Layout, Name, Open, Register, Set, Load, Save, Off, NoHandler, NoMemory};

use crate::subsystem::{OpenFault, Unopened};
use flash_sim::Flash;
use handlers::RegisterFault;
use image_file::SpecFault;
use setting_name::NameFault;
use settings_core::{LoadFault, NoHandler, Off, RuntimeFault, SaveFault};
use std::alloc::AllocFailed;

/// What may go wrong in a program that keeps settings. `?` turns each fault of this crate into
/// it.
#[derive(Clone, Copy, Debug, PartialEq, Eq)]
pub enum Error {
    /// The word describes no flash.
    Layout(SpecFault),
    /// The bytes are no name.
    Name(NameFault),
    /// The settings were not opened.
    Open(OpenFault),
    /// The handler was not registered.
    Register(RegisterFault),
    /// No handler took the value.
    Set(RuntimeFault),
    /// The load failed.
    Load(LoadFault),
    /// The save stopped early.
    Save(SaveFault),
    /// An earlier call answered that power was lost.
    Off,
    /// No handler serves the name.
    NoHandler,
    /// There was not enough memory.
    NoMemory,
}

impl From<SpecFault> for Error {
    ghost from_gives = { λ fault error. error ≡ Layout fault };

    fn from(fault: SpecFault) -> Self {
        Error::Layout(fault)
    }
}

impl From<NameFault> for Error {
    ghost from_gives = { λ fault error. error ≡ Name fault };

    fn from(fault: NameFault) -> Self {
        Error::Name(fault)
    }
}

impl<F: Flash + Drop> From<Unopened<F>> for Error {
    ghost from_gives = { λ unopened error. error ≡ Open unopened.fault };

    fn from(unopened: Unopened<F>) -> Self {
        Error::Open(unopened.fault)
    }
}

impl From<RegisterFault> for Error {
    ghost from_gives = { λ fault error. error ≡ Register fault };

    fn from(fault: RegisterFault) -> Self {
        Error::Register(fault)
    }
}

impl From<RuntimeFault> for Error {
    ghost from_gives = { λ fault error. error ≡ Set fault };

    fn from(fault: RuntimeFault) -> Self {
        Error::Set(fault)
    }
}

impl From<LoadFault> for Error {
    ghost from_gives = { λ fault error. error ≡ Load fault };

    fn from(fault: LoadFault) -> Self {
        Error::Load(fault)
    }
}

impl From<SaveFault> for Error {
    ghost from_gives = { λ fault error. error ≡ Save fault };

    fn from(fault: SaveFault) -> Self {
        Error::Save(fault)
    }
}

impl From<Off> for Error {
    ghost from_gives = { λ _ error. error ≡ Off };

    fn from(_: Off) -> Self {
        Error::Off
    }
}

impl From<NoHandler> for Error {
    ghost from_gives = { λ _ error. error ≡ NoHandler };

    fn from(_: NoHandler) -> Self {
        Error::NoHandler
    }
}

impl<T: Drop> From<AllocFailed<T>> for Error {
    ghost from_gives = { λ _ error. error ≡ NoMemory };

    fn from(_: AllocFailed<T>) -> Self {
        Error::NoMemory
    }
}
