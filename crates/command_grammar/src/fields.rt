//! The fields that stand behind the codes of commands (6.3.2.11).

/// A field behind the code of a command.
#[derive(Clone, Copy)]
pub(crate) enum Field {
    /// DR of a Query.
    Dr,
    /// M of a Query.
    M,
    /// TRext of a Query.
    TRext,
    /// Sel of a Query.
    Sel,
    /// Session of a QueryRep, Query or QueryAdjust.
    Session,
    /// Target of a Query.
    QueryTarget,
    /// Q of a Query.
    Q,
    /// CRC-5.
    Crc5,
    /// UpDn of a QueryAdjust.
    UpDn,
    /// Target of a Select.
    SelectTarget,
    /// Action of a Select.
    Action,
    /// MemBank of a Select.
    MaskBank,
    /// Pointer or WordPtr.
    Pointer,
    /// Length and Mask of a Select.
    Mask,
    /// Truncate of a Select.
    Truncate,
    /// MemBank of the other commands.
    Bank,
    /// WordCount of a Read.
    Count,
    /// WordCount and Data of a BlockWrite.
    Words,
    /// WordCount of a BlockErase.
    WordCount,
    /// Data of a Write, or half of a password.
    Covered,
    /// The three bits of a Kill behind the covered half.
    KillBits,
    /// Payload of a Lock.
    Payload,
    /// The tag's RN16 or handle.
    Rn,
    /// CRC-16.
    Crc16,
}
