ghost use Rattle.std.specs.Prelude.{◌≡◌, ◌≢◌, ◌⊎◌};
ghost use Rattle.std.specs.IoError.{error_kind};
ghost use Rattle.base.specs.declared.fault.Fault.TheVariants.{Device as DeviceFault, OutOfMemory};
ghost use Rattle.console.specs.declared.stop.Stop.TheVariants.{Refused, Broken};

use base::fault::Fault;
use std::alloc::AllocError;
use std::io;
use std::io::ErrorKind;

/// Why a subcommand ended before its work was done.
#[derive(Debug, Drop)]
pub enum Stop {
    Refused(Fault),
    /// The line of this number isn't a command.
    NotACommand(u64),
    /// The input couldn't be read, or the output couldn't be written, for this reason.
    Broken(ErrorKind),
}

/// The fault, on a device without a fuse: an operation fails there only if a store takes memory and there is none.
pub(crate) fn without_fuse(fault: Fault) -> Fault
    ensures device { fault ≡ DeviceFault → result ≡ OutOfMemory }
    ensures same { fault ≢ DeviceFault → result ≡ fault }
    ensures other { (result ≡ OutOfMemory) ⊎ (result ≡ fault) }
{
    match fault {
        Fault::Device => Fault::OutOfMemory,
        fault => fault,
    }
}

impl From<Fault> for Stop {
    ghost from_gives = { λ fault stop. stop ≡ Refused fault };

    fn from(fault: Fault) -> Stop {
        Stop::Refused(fault)
    }
}

impl From<AllocError> for Stop {
    ghost from_gives = { λ _ stop. stop ≡ Refused OutOfMemory };

    fn from(_error: AllocError) -> Stop {
        Stop::Refused(Fault::OutOfMemory)
    }
}

impl From<io::Error> for Stop {
    ghost from_gives = { λ error stop. stop ≡ Broken (error_kind error) };

    fn from(error: io::Error) -> Stop {
        Stop::Broken(error.kind())
    }
}
