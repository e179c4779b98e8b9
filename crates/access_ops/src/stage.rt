//! How far the operations on a tag are.
ghost use Rattle.std.specs.Prelude.{◌≡◌, ◌/◌, ◌%◌, ◌^◌, ◌<◌};
ghost use Rattle.access_ops.specs.Operations.{lower_half, upper_half};
ghost use Rattle.access_ops.specs.OpRunValue.{half_command, lower_expected, lower_extended, password_value};

use bit_strings::Pointer;
use command_grammar::{Bank, Command};
use reply_grammar::Expect;

/// A password that is shown in two halves, each under a cover (6.3.2.11.3.4 Kill, 6.3.2.11.3.6 Access).
#[derive(Clone, Copy)]
pub(crate) enum Password {
    /// The access password.
    Access(u32),
    /// The kill password.
    Kill(u32),
}

impl Password {
    /// The upper half of the password, which is shown first.
    pub(crate) fn upper(self) -> u16
        ensures { result ≡ upper_half (password_value self) }
    {
        (self.value() >> 16) as u16
    }

    /// The lower half of the password, which is shown behind the upper one.
    pub(crate) fn lower(self) -> u16
        ensures { result ≡ lower_half (password_value self) }
    {
        (self.value() % 65536) as u16
    }

    /// The password itself, 32 bits, whichever of the two it is.
    fn value(self) -> u32
        ensures { result ≡ password_value self }
    {
        match self {
            Password::Access(value) | Password::Kill(value) => value,
        }
    }

    /// The command that shows a half, which is covered, to the tag with this handle.
    pub(crate) fn command(self, covered: u16, handle: u16) -> Command
        ensures { result ≡ half_command self handle covered }
    {
        match self {
            Password::Access(_) => Command::Access {
                covered,
                rn: handle,
            },
            Password::Kill(_) => Command::Kill {
                covered,
                rn: handle,
            },
        }
    }

    /// What is expected in reply to the lower half: a second Access is answered with the handle, and a
    /// second Kill as a command that writes memory.
    pub(crate) fn lower_expected(self, handle: u16) -> Expect
        ensures { result ≡ lower_expected self handle }
    {
        match self {
            Password::Access(_) => Expect::Same(handle),
            Password::Kill(_) => Expect::Header(handle),
        }
    }

    /// Whether that reply has the extended preamble.
    pub(crate) fn lower_extended(self) -> bool
        ensures { result ≡ lower_extended self }
    {
        match self {
            Password::Access(_) => false,
            Password::Kill(_) => true,
        }
    }
}

/// What is sent under a cover.
#[derive(Clone, Copy)]
pub(crate) enum Covered {
    /// The word of a Write.
    Word {
        bank: Bank,
        pointer: Pointer,
        word: u16,
    },
    /// The upper half of a password, which goes first.
    Upper(Password),
    /// The lower half of a password.
    Lower(Password),
}

/// What the interrogator does with a number that it asked for.
#[derive(Clone, Copy)]
pub(crate) enum Purpose {
    /// It is the tag's handle.
    Handle,
    /// It covers this.
    Cover(Covered),
    /// It is the handle again, in reply to the upper half of this password.
    Same(Password),
}

/// What is done next.
#[derive(Clone, Copy)]
pub(crate) enum Stage {
    /// The tag is asked for its handle.
    Open,
    /// The next operation is denied.
    Deny,
    /// The next operation begins.
    Begin,
    /// A number was asked for.
    Number(Purpose),
    /// The last command of an operation was sent.
    Last,
    /// All is done.
    Done,
}
