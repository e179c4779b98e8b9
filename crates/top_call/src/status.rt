//! How a run of the program ended.
ghost use Rattle.std.specs.Prelude.{◌≡◌};
ghost use Rattle.top_call.specs.StatusNumber.{status_number};

/// How a run of the program ended. Its number is the program's exit status.
#[derive(Clone, Copy, Debug, PartialEq, Eq)]
pub enum Status {
    /// The whole defined text was written, and the input was read to its end.
    Done = 0,
    /// The words have none of the forms that the program knows. Nothing was read or written.
    BadWords = 2,
    /// The input was read to its end, and its first faulty line was reported: the one line
    /// `fault LINE REASON` was written.
    BadInput = 3,
    /// A read failed, and no more than 16,777,216 bytes were read. Nothing was written.
    ReadFault = 4,
    /// A write failed. A part of the defined text from its beginning on was written, maybe none.
    WriteFault = 5,
    /// More than 16,777,216 bytes were read. Nothing was written.
    TooLong = 6,
    /// There was no memory. No more than 16,777,216 bytes were read and nothing was written, or the input
    /// was read to its end and a part of the defined text from its beginning on was written.
    OutOfMemory = 7,
}

impl Status {
    /// The exit status of the program.
    pub fn number(&self) -> u8
        ensures { result ≡ status_number self.now }
    {
        *self as u8
    }
}
