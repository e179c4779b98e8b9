//! Why an audit stops.
use crate::AuditReason;
use bit_strings::OutOfMemory;

/// Why an audit doesn't go on with a line.
#[derive(Clone, Copy)]
pub(crate) enum Stop {
    /// The line is refused.
    Refused(AuditReason),
    /// There was no memory.
    OutOfMemory(OutOfMemory),
}

impl From<OutOfMemory> for Stop {
    ghost use Rattle.std.specs.Prelude.{◌≡◌};
    ghost use Rattle.air_audit.specs.declared.stop.Stop.TheVariants.{OutOfMemory};

    ghost from_gives = { λ error stop. stop ≡ OutOfMemory error };

    fn from(error: OutOfMemory) -> Stop {
        Stop::OutOfMemory(error)
    }
}
