//! The terms in which the standard speaks of permissions.
ghost use Rattle.std.specs.Prelude.{◌≡◌};
ghost use Rattle.lock_rules.specs.ErrorCodes.{error_number};

/// A part of a tag's memory that has a pair of lock bits of its own (6.3.2.11.3.5 Lock). The two
/// passwords are locked one by one, the other banks as a whole.
#[derive(Clone, Copy, Debug, PartialEq, Eq)]
pub enum Field {
    /// The kill password, words 0 and 1 of the Reserved bank.
    KillWord,
    /// The access password, words 2 and 3 of the Reserved bank.
    AccessWord,
    /// The EPC bank.
    Epc,
    /// The TID bank.
    Tid,
    /// The User bank.
    User,
}

/// The state in which a tag is asked for a permission (6.3.2.4.5 Open state, 6.3.2.4.6 Secured state).
#[derive(Clone, Copy, Debug, PartialEq, Eq)]
pub enum Level {
    /// The tag is in open.
    Opened,
    /// The tag is in secured.
    Secured,
}

/// The error that a tag backscatters in place of the answer to an access command (Annex I of the
/// standard). Which of them a refused command answers is profile.
#[derive(Clone, Copy, Debug, PartialEq, Eq)]
pub enum ErrorCode {
    /// Any other error.
    Other,
    /// The memory asked for isn't there, or a length in PC passes the EPC bank.
    Overrun,
    /// The memory asked for is locked, and may not be read or written; or a payload would take a permalock off.
    Locked,
}

impl ErrorCode {
    /// The code's eight bits as a number.
    pub fn code(&self) -> u8
        ensures { result ≡ error_number self.now }
    {
        match self {
            ErrorCode::Other => 0x00,
            ErrorCode::Overrun => 0x03,
            ErrorCode::Locked => 0x04,
        }
    }
}
