//! What was read of the fields of a command, and the command that has them.
ghost use Rattle.std.specs.Prelude.{◌≡◌, ◌≢◌, ◌^◌, ◌<◌, ◌≤◌, Ok};
ghost use Rattle.command_grammar.specs.declared.kinds.CommandKind.TheVariants as kinds;
ghost use Rattle.command_grammar.specs.Commands.{command_of};

use crate::commands::Command;
use crate::kinds::CommandKind;
use crate::refusal::CommandRefusal;
use bit_strings::{Action, Code, Count1, Payload, Pointer, QValue, Session};
use command_fields::{Bank, BlockWords, FlagName, Mask, MaskBank, Sel, Side, UpDn};
use std::mem;

/// The values of the fields that were read; the others hold some value.
#[derive(Drop)]
pub(crate) struct Fields {
    pub(crate) dr: bool,
    pub(crate) m: Code,
    pub(crate) trext: bool,
    pub(crate) sel: Sel,
    pub(crate) session: Session,
    pub(crate) query_target: Side,
    pub(crate) q: QValue,
    pub(crate) updn: UpDn,
    pub(crate) select_target: FlagName,
    pub(crate) action: Action,
    pub(crate) mask_bank: MaskBank,
    pub(crate) pointer: Pointer,
    pub(crate) mask: Mask,
    pub(crate) bank: Bank,
    pub(crate) count: u8,
    pub(crate) words: BlockWords,
    pub(crate) word_count: Count1,
    pub(crate) covered: u16,
    pub(crate) payload: Payload,
    pub(crate) rn: u16,
}

impl Fields {
    /// No field was read.
    pub(crate) fn new() -> Fields {
        Fields {
            dr: false,
            m: Code::Fm0,
            trext: false,
            sel: Sel::All00,
            session: session_of(0),
            query_target: Side::A,
            q: q_of(0),
            updn: UpDn::Same,
            select_target: FlagName::S0,
            action: action_of(0),
            mask_bank: MaskBank::Epc,
            pointer: pointer_of(0),
            mask: Mask::new(),
            bank: Bank::Reserved,
            count: 0,
            words: BlockWords::first(0),
            word_count: count_of(1),
            covered: 0,
            payload: payload_of(0),
            rn: 0,
        }
    }

    /// Answers with the command whose fields were all read. Each command is written where the answer stands,
    /// since a command has room for the longest mask and the longest list of words. Of one that most often stands behind another of its
    /// kind only the fields are written, since with a command all of its room is.
    pub(crate) fn answer(&mut self, kind: CommandKind, answer: &mut Result<Command, CommandRefusal>)
        ensures { answer.new ≡ Ok (command_of kind self.old) }
    {
        match kind {
            CommandKind::QueryRep => match answer {
                Ok(Command::QueryRep { session }) => *session = self.session,
                _ => {
                    *answer = Ok(Command::QueryRep {
                        session: self.session,
                    });
                }
            },
            CommandKind::Ack => {
                *answer = Ok(Command::Ack { rn: self.rn });
            }
            CommandKind::Query => {
                *answer = Ok(Command::Query {
                    dr: self.dr,
                    code: self.m,
                    trext: self.trext,
                    sel: self.sel,
                    session: self.session,
                    target: self.query_target,
                    q: self.q,
                });
            }
            CommandKind::QueryAdjust => self.answer_query_adjust(answer),
            CommandKind::Select => self.answer_select(answer),
            CommandKind::Nak => *answer = Ok(Command::Nak),
            CommandKind::ReqRn => match answer {
                Ok(Command::ReqRn { rn }) => *rn = self.rn,
                _ => *answer = Ok(Command::ReqRn { rn: self.rn }),
            },
            CommandKind::Read => {
                *answer = Ok(Command::Read {
                    bank: self.bank,
                    pointer: self.pointer,
                    count: self.count,
                    rn: self.rn,
                });
            }
            CommandKind::Write => {
                *answer = Ok(Command::Write {
                    bank: self.bank,
                    pointer: self.pointer,
                    covered: self.covered,
                    rn: self.rn,
                });
            }
            CommandKind::Kill => {
                *answer = Ok(Command::Kill {
                    covered: self.covered,
                    rn: self.rn,
                });
            }
            CommandKind::Lock => {
                *answer = Ok(Command::Lock {
                    payload: self.payload,
                    rn: self.rn,
                });
            }
            CommandKind::Access => {
                *answer = Ok(Command::Access {
                    covered: self.covered,
                    rn: self.rn,
                });
            }
            CommandKind::BlockWrite => self.answer_block_write(answer),
            CommandKind::BlockErase => {
                *answer = Ok(Command::BlockErase {
                    bank: self.bank,
                    pointer: self.pointer,
                    count: self.word_count,
                    rn: self.rn,
                });
            }
        }
    }

    /// Answers with the QueryAdjust whose fields were all read.
    fn answer_query_adjust(&self, answer: &mut Result<Command, CommandRefusal>)
        ensures { answer.new ≡ Ok (command_of kinds.QueryAdjust self.now) }
    {
        if let Ok(command) = answer {
            if let Command::QueryAdjust { session, updn } = command {
                *session = self.session;
                *updn = self.updn;
                return;
            }
        }
        *answer = Ok(Command::QueryAdjust {
            session: self.session,
            updn: self.updn,
        });
    }

    /// Answers with the Select whose fields were all read, and takes the mask out of them. It stays a function of its own, since
    /// what it takes out is large, and a function clears the room for its values each time that it begins.
    #[inline(never)]
    fn answer_select(&mut self, answer: &mut Result<Command, CommandRefusal>)
        ensures { answer.new ≡ Ok (command_of kinds.Select self.old) }
    {
        *answer = Ok(Command::Select {
            target: self.select_target,
            action: self.action,
            bank: self.mask_bank,
            pointer: self.pointer,
            mask: mem::replace(&mut self.mask, Mask::new()),
        });
    }

    /// Answers with the BlockWrite whose fields were all read, and takes the words out of them. It stays a function of its own, as
    /// [`answer_select`](Fields::answer_select) does.
    #[inline(never)]
    fn answer_block_write(&mut self, answer: &mut Result<Command, CommandRefusal>)
        ensures { answer.new ≡ Ok (command_of kinds.BlockWrite self.old) }
    {
        *answer = Ok(Command::BlockWrite {
            bank: self.bank,
            pointer: self.pointer,
            words: mem::replace(&mut self.words, BlockWords::first(0)),
            rn: self.rn,
        });
    }
}

/// The session of this number.
pub(crate) fn session_of(number: u32) -> Session
    requires { number ≤ 3 }
    ensures { result ≡ number }
{
    Session::new(number as u8).unwrap()
}

/// Q of this number.
pub(crate) fn q_of(number: u32) -> QValue
    requires { number ≤ 15 }
    ensures { result ≡ number }
{
    QValue::new(number as u8).unwrap()
}

/// The action of this number.
pub(crate) fn action_of(number: u32) -> Action
    requires { number ≤ 7 }
    ensures { result ≡ number }
{
    Action::new(number as u8).unwrap()
}

/// The pointer to this place.
pub(crate) fn pointer_of(number: u32) -> Pointer
    requires { number < 2 ^ 28 }
    ensures { result ≡ number }
{
    Pointer::new(number).unwrap()
}

/// The payload of a Lock whose 20 bits are this number.
pub(crate) fn payload_of(number: u32) -> Payload
    requires { number < 2 ^ 20 }
    ensures { result ≡ number }
{
    Payload::new(number).unwrap()
}

/// The number of words of a BlockErase.
pub(crate) fn count_of(number: u32) -> Count1
    requires some { number ≢ 0 }
    requires few { number ≤ 255 }
    ensures { result ≡ number }
{
    Count1::new(number as u8).unwrap()
}
