//! Which commands there are, each with its code and its fields (6.3.2.11, Table 6.18). What reads or writes the layout of a command
//! goes by this table.
ghost use Rattle.std.specs.Prelude.{◌≡◌};
ghost use Rattle.command_grammar.specs.Commands.{code_of, command_fields_of, all_kinds};
ghost use Rattle.command_grammar.specs.reading.CheckNumbers.{AreServed, check_asked};
ghost use Rattle.command_grammar.specs.reading.Codes.{IsCodeStep, KeepsCode};

use crate::fields::Field;

/// Which command it is, as its code says (6.3.2.11, Table 6.18).
#[derive(Clone, Copy)]
pub enum CommandKind {
    /// QueryRep (6.3.2.11.2.3).
    QueryRep,
    /// ACK (6.3.2.11.2.4).
    Ack,
    /// Query (6.3.2.11.2.1).
    Query,
    /// QueryAdjust (6.3.2.11.2.2).
    QueryAdjust,
    /// Select (6.3.2.11.1.1).
    Select,
    /// NAK (6.3.2.11.2.5).
    Nak,
    /// Req_RN (6.3.2.11.3.1).
    ReqRn,
    /// Read (6.3.2.11.3.2).
    Read,
    /// Write (6.3.2.11.3.3).
    Write,
    /// Kill (6.3.2.11.3.4).
    Kill,
    /// Lock (6.3.2.11.3.5).
    Lock,
    /// Access (6.3.2.11.3.6).
    Access,
    /// BlockWrite (6.3.2.11.3.7).
    BlockWrite,
    /// BlockErase (6.3.2.11.3.8).
    BlockErase,
}

/// What a command of a kind consists of.
#[derive(Clone, Copy)]
pub(crate) struct Layout {
    /// Its code.
    pub(crate) code: &'static [bool],
    /// The check number that stands last.
    pub(crate) check: CheckNumber,
    /// The fields that follow the code, in their order.
    pub(crate) fields: &'static [Field],
}

/// The check number of a command (6.3.1.5).
#[derive(Clone, Copy)]
pub(crate) enum CheckNumber {
    /// A short command has none.
    Absent,
    /// That of a Query.
    Crc5,
    /// That of a Select or of an access command.
    Crc16,
}

impl CommandKind {
    /// All kinds, in the order of their codes.
    pub fn all() -> &'static [CommandKind]
        ensures { result.now ≡ all_kinds }
    {
        &[
            CommandKind::QueryRep,
            CommandKind::Ack,
            CommandKind::Query,
            CommandKind::QueryAdjust,
            CommandKind::Select,
            CommandKind::Nak,
            CommandKind::ReqRn,
            CommandKind::Read,
            CommandKind::Write,
            CommandKind::Kill,
            CommandKind::Lock,
            CommandKind::Access,
            CommandKind::BlockWrite,
            CommandKind::BlockErase,
        ]
    }

    /// What a command of this kind consists of: a row for each.
    pub(crate) fn layout(self) -> Layout
        ensures code { result.code.now ≡ code_of self }
        ensures fields { result.fields.now ≡ command_fields_of self }
        ensures served { AreServed (check_asked result.check) (command_fields_of self) }
    {
        match self {
            CommandKind::QueryRep => Layout {
                code: &[false, false],
                check: CheckNumber::Absent,
                fields: &[Field::Session],
            },
            CommandKind::Ack => Layout {
                code: &[false, true],
                check: CheckNumber::Absent,
                fields: &[Field::Rn],
            },
            CommandKind::Query => Layout {
                code: &[true, false, false, false],
                check: CheckNumber::Crc5,
                fields: &[
                    Field::Dr,
                    Field::M,
                    Field::TRext,
                    Field::Sel,
                    Field::Session,
                    Field::QueryTarget,
                    Field::Q,
                    Field::Crc5,
                ],
            },
            CommandKind::QueryAdjust => Layout {
                code: &[true, false, false, true],
                check: CheckNumber::Absent,
                fields: &[Field::Session, Field::UpDn],
            },
            CommandKind::Select => Layout {
                code: &[true, false, true, false],
                check: CheckNumber::Crc16,
                fields: &[
                    Field::SelectTarget,
                    Field::Action,
                    Field::MaskBank,
                    Field::Pointer,
                    Field::Mask,
                    Field::Truncate,
                    Field::Crc16,
                ],
            },
            CommandKind::Nak => Layout {
                code: &[true, true, false, false, false, false, false, false],
                check: CheckNumber::Absent,
                fields: &[],
            },
            CommandKind::ReqRn => Layout {
                code: &[true, true, false, false, false, false, false, true],
                check: CheckNumber::Crc16,
                fields: &[Field::Rn, Field::Crc16],
            },
            CommandKind::Read => Layout {
                code: &[true, true, false, false, false, false, true, false],
                check: CheckNumber::Crc16,
                fields: &[
                    Field::Bank,
                    Field::Pointer,
                    Field::Count,
                    Field::Rn,
                    Field::Crc16,
                ],
            },
            CommandKind::Write => Layout {
                code: &[true, true, false, false, false, false, true, true],
                check: CheckNumber::Crc16,
                fields: &[
                    Field::Bank,
                    Field::Pointer,
                    Field::Covered,
                    Field::Rn,
                    Field::Crc16,
                ],
            },
            CommandKind::Kill => Layout {
                code: &[true, true, false, false, false, true, false, false],
                check: CheckNumber::Crc16,
                fields: &[Field::Covered, Field::KillBits, Field::Rn, Field::Crc16],
            },
            CommandKind::Lock => Layout {
                code: &[true, true, false, false, false, true, false, true],
                check: CheckNumber::Crc16,
                fields: &[Field::Payload, Field::Rn, Field::Crc16],
            },
            CommandKind::Access => Layout {
                code: &[true, true, false, false, false, true, true, false],
                check: CheckNumber::Crc16,
                fields: &[Field::Covered, Field::Rn, Field::Crc16],
            },
            CommandKind::BlockWrite => Layout {
                code: &[true, true, false, false, false, true, true, true],
                check: CheckNumber::Crc16,
                fields: &[
                    Field::Bank,
                    Field::Pointer,
                    Field::Words,
                    Field::Rn,
                    Field::Crc16,
                ],
            },
            CommandKind::BlockErase => Layout {
                code: &[true, true, false, false, true, false, false, false],
                check: CheckNumber::Crc16,
                fields: &[
                    Field::Bank,
                    Field::Pointer,
                    Field::WordCount,
                    Field::Rn,
                    Field::Crc16,
                ],
            },
        }
    }
}

/// The bits of a command code that were read (6.3.2.11, Table 6.18). Some codes begin with them, and
/// none is them.
#[derive(Clone, Copy)]
pub(crate) enum CodeFront {
    Nothing,
    Bits0,
    Bits1,
    Bits10,
    Bits100,
    Bits101,
    Bits11,
    Bits110,
    Bits1100,
    Bits11000,
    Bits110000,
    Bits110001,
    Bits1100000,
    Bits1100001,
    Bits1100010,
    Bits1100011,
    Bits11001,
    Bits110010,
    Bits1100100,
}

/// What a command code says with its next bit.
#[derive(Clone, Copy)]
pub(crate) enum CodeStep {
    /// Some codes begin so.
    More(CodeFront),
    /// It is the code of this command.
    Is(CommandKind),
    /// No code begins so.
    Refused,
}

/// The code with its next bit.
pub(crate) fn code_step(front: CodeFront, bit: bool) -> CodeStep
    ensures says { IsCodeStep result front bit }
    ensures keeps { KeepsCode result front bit }
{
    match (front, bit) {
        (CodeFront::Nothing, false) => CodeStep::More(CodeFront::Bits0),
        (CodeFront::Nothing, true) => CodeStep::More(CodeFront::Bits1),
        (CodeFront::Bits0, false) => CodeStep::Is(CommandKind::QueryRep),
        (CodeFront::Bits0, true) => CodeStep::Is(CommandKind::Ack),
        (CodeFront::Bits1, false) => CodeStep::More(CodeFront::Bits10),
        (CodeFront::Bits1, true) => CodeStep::More(CodeFront::Bits11),
        (CodeFront::Bits10, false) => CodeStep::More(CodeFront::Bits100),
        (CodeFront::Bits10, true) => CodeStep::More(CodeFront::Bits101),
        (CodeFront::Bits100, false) => CodeStep::Is(CommandKind::Query),
        (CodeFront::Bits100, true) => CodeStep::Is(CommandKind::QueryAdjust),
        (CodeFront::Bits101, false) => CodeStep::Is(CommandKind::Select),
        (CodeFront::Bits101, true) => CodeStep::Refused,
        (CodeFront::Bits11, false) => CodeStep::More(CodeFront::Bits110),
        (CodeFront::Bits11, true) => CodeStep::Refused,
        (CodeFront::Bits110, false) => CodeStep::More(CodeFront::Bits1100),
        (CodeFront::Bits110, true) => CodeStep::Refused,
        (CodeFront::Bits1100, false) => CodeStep::More(CodeFront::Bits11000),
        (CodeFront::Bits1100, true) => CodeStep::More(CodeFront::Bits11001),
        (CodeFront::Bits11000, false) => CodeStep::More(CodeFront::Bits110000),
        (CodeFront::Bits11000, true) => CodeStep::More(CodeFront::Bits110001),
        (CodeFront::Bits110000, false) => CodeStep::More(CodeFront::Bits1100000),
        (CodeFront::Bits110000, true) => CodeStep::More(CodeFront::Bits1100001),
        (CodeFront::Bits110001, false) => CodeStep::More(CodeFront::Bits1100010),
        (CodeFront::Bits110001, true) => CodeStep::More(CodeFront::Bits1100011),
        (CodeFront::Bits1100000, false) => CodeStep::Is(CommandKind::Nak),
        (CodeFront::Bits1100000, true) => CodeStep::Is(CommandKind::ReqRn),
        (CodeFront::Bits1100001, false) => CodeStep::Is(CommandKind::Read),
        (CodeFront::Bits1100001, true) => CodeStep::Is(CommandKind::Write),
        (CodeFront::Bits1100010, false) => CodeStep::Is(CommandKind::Kill),
        (CodeFront::Bits1100010, true) => CodeStep::Is(CommandKind::Lock),
        (CodeFront::Bits1100011, false) => CodeStep::Is(CommandKind::Access),
        (CodeFront::Bits1100011, true) => CodeStep::Is(CommandKind::BlockWrite),
        (CodeFront::Bits11001, false) => CodeStep::More(CodeFront::Bits110010),
        (CodeFront::Bits11001, true) => CodeStep::Refused,
        (CodeFront::Bits110010, false) => CodeStep::More(CodeFront::Bits1100100),
        (CodeFront::Bits110010, true) => CodeStep::Refused,
        (CodeFront::Bits1100100, false) => CodeStep::Is(CommandKind::BlockErase),
        (CodeFront::Bits1100100, true) => CodeStep::Refused,
    }
}
