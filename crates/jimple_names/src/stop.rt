// Why no classes are named. Raw trees stand below; the pass over names above.
use std::alloc::{AllocError, AllocFailed};

/// A name that breaks a rule. Each place is the first byte of its token.
#[derive(Clone, Copy, Debug, PartialEq, Eq)]
pub enum NameFault {
    /// The second local, label, field or method of that name.
    DoubleName(u32),
    /// A local that isn't declared.
    UnknownLocal(u32),
    /// A label that doesn't stand in the body, or not before a statement where one is asked for.
    UnknownLabel(u32),
}

/// Why no classes are named.
#[derive(Debug, Drop)]
pub enum NameStop {
    OutOfMemory,
    Fault(NameFault),
}

impl From<AllocError> for NameStop {
    ghost use Rattle.std.specs.Prelude.{◌≡◌};
    ghost use Rattle.jimple_names.specs.declared.stop.NameStop.TheVariants.{OutOfMemory};

    ghost from_gives = { λ _ e. e ≡ OutOfMemory };

    fn from(_e: AllocError) -> NameStop {
        NameStop::OutOfMemory
    }
}

impl<T: Drop> From<AllocFailed<T>> for NameStop {
    ghost use Rattle.std.specs.Prelude.{◌≡◌};
    ghost use Rattle.jimple_names.specs.declared.stop.NameStop.TheVariants.{OutOfMemory};

    ghost from_gives = { λ _ e. e ≡ OutOfMemory };

    fn from(_e: AllocFailed<T>) -> NameStop {
        NameStop::OutOfMemory
    }
}
