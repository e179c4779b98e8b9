//! What a report tells, and why a run was cut off.
ghost use Rattle.std.specs.Prelude.{◌≡◌};
ghost use Rattle.report_lines.specs.declared.mode.PlayFault.TheVariants.{Write, OutOfMemory as NoMemory};

use air_io::WriteFailed;
use bit_strings::OutOfMemory;
use thiserror::Error;

/// How much a report tells.
#[derive(Clone, Copy)]
pub enum Mode {
    /// What was listed, the ends of rounds, the counts and the tags.
    Plain,
    /// Besides, for each exchange, the intervals that were sent and the levels that came back.
    Trace,
    /// The lines of `Plain`, each as a JSON object. A line takes memory.
    Json,
    /// The lines of `Plain`, and of the exchanges that are told who said what: the command, who missed it, what each
    /// tag answered, and what the channel gave.
    Exchanges,
    /// The waves of the exchanges that are told, as a value change dump (IEEE 1364), and no line of a report.
    Vcd,
}

/// Why a run was cut off, with a part of its report written from the beginning on.
#[derive(Clone, Copy, Debug, PartialEq, Eq, Error)]
pub enum PlayFault {
    /// A write failed.
    #[error("a write failed")]
    Write,
    /// There was no memory.
    #[error("there was no memory")]
    OutOfMemory,
}

impl From<WriteFailed> for PlayFault {
    ghost from_gives = { λ _ fault. fault ≡ Write };

    fn from(_: WriteFailed) -> PlayFault {
        PlayFault::Write
    }
}

impl From<OutOfMemory> for PlayFault {
    ghost from_gives = { λ _ fault. fault ≡ NoMemory };

    fn from(_: OutOfMemory) -> PlayFault {
        PlayFault::OutOfMemory
    }
}
