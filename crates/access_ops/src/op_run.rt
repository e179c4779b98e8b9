//! The operations on one tag, done one thing at a time.
ghost use Rattle.std.specs.Prelude.{◌≡◌, ◌+◌, ◌*◌, ◌-◌, ◌≤◌, ℕ, false, List, [], length, drop, option_copied, if◌then◌else◌};
ghost use Rattle.access_ops.specs.Operations.{Move, behind_last, behind_number, denials, is_for, operations_from_rn16, operation, words_expected};
ghost use Rattle.access_ops.specs.OpRunValue.{Does, IsNextOperation, OpRunStandsFor, behind_cover, behind_heard, behind_purpose, last_answer, later_of, result_in_reply, turns_at, turns_in, turns_left};
ghost use Rattle.access_ops.specs.declared.OpList.{OpList};

use crate::copies::copy_of_block;
use crate::op_next::{Answer, OpNext, OpResult};
use crate::operation_results::tell_reply;
use crate::stage::{Covered, Password, Purpose, Stage};
use crate::{Op, OpList};
use bit_strings::{Count1, xor16};
use command_grammar::Command;
use reply_grammar::{EpcWords, Expect, Received, Reply};
use std::marker::Model;

/// The operations on one tag, done one thing at a time. It is given the answer to each command, and
/// keeps none of them. After its end it answers the end again.
///
/// A contract sees it as a record of the number that the tag goes by, how many operations have begun and
/// what is done next.
#[derive(Drop)]
pub struct OpRun {
    rn: u16,
    begun: u32,
    stage: Stage,
}

impl Model for OpRun {
    ghost use Rattle.access_ops.specs.OpRunValue.{OpRunValue};

    ghost Value = { OpRunValue };

    ghost view = { λ a. record { rn = a.rn; begun = a.begun; stage = a.stage } };
}

impl OpRun {
    /// The operations of the list on the tag that sent this EPC, and this RN16 before it. Nothing is sent
    /// where the list names another EPC.
    pub fn start(list: &OpList, epc: &EpcWords, rn: u16) -> OpRun
        ensures stands { OpRunStandsFor result list.now epc.now rn [] }
        ensures turns { turns_left list.now result ≤ 5 * length list.now.ops + 2 }
    {
        OpRun {
            rn,
            begun: 0,
            stage: first_stage(&list.only, epc),
        }
    }

    /// Puts what comes next in place of what came before. The list is the same each time. An answer is given
    /// exactly behind a command; a whole reply in it is one that the command expects. What comes next has room for
    /// the longest list of words, and is never copied.
    pub fn next(&mut self, list: &OpList, answer: Option<&Answer>, next: &mut OpNext)
        ensures next { (epc : List ℕ) (rn : ℕ) (moves : List Move)
            → OpRunStandsFor self.old list.now epc rn moves
            → option_copied answer.entry ≡ last_answer moves
            → IsNextOperation next.new self.new list.now epc rn moves }
        ensures turns { turns_left list.now self.new + turns_in next.new
            ≤ turns_left list.now self.old }
        // Whatever it is given behind its end, that is answered again.
        ensures again { self.old.stage ≡ Stage.Done → (next.new ≡ OpNext.End)
            × (self.new.stage ≡ Stage.Done) }
    {
        match self.stage {
            Stage::Open => self.open(list, next),
            Stage::Deny => self.deny(list, next),
            Stage::Begin => self.begin(list, next),
            Stage::Number(purpose) => self.take_number(list, purpose, answer, next),
            Stage::Last => self.end_operation(answer, next),
            Stage::Done => self.end(next),
        }
    }

    /// Asks the tag for its handle, where there is an operation.
    fn open(&mut self, list: &OpList, next: &mut OpNext)
        ensures does { Does next.new self.new list.now
            (operations_from_rn16 (drop self.old.begun list.now.ops) self.old.rn) }
        ensures turns { turns_left list.now self.new + turns_in next.new ≤ 2
            + 5 * (length list.now.ops - self.old.begun) }
    {
        if self.begun >= list.ops.len() {
            return self.end(next);
        }
        self.ask_for_number(Purpose::Handle, next)
    }

    /// Denies the next operation, where there is one.
    fn deny(&mut self, list: &OpList, next: &mut OpNext)
        requires { self.old.stage ≡ Stage.Deny }
        ensures does { Does next.new self.new list.now
            (denials (drop self.old.begun list.now.ops)) }
        ensures turns { turns_left list.now self.new + turns_in next.new
            ≤ 5 * (length list.now.ops - self.old.begun) }
    {
        if self.begun >= list.ops.len() {
            return self.end(next);
        }
        self.begun += 1;
        *next = OpNext::Result(OpResult::Denied);
    }

    /// Begins the next operation, where there is one.
    fn begin(&mut self, list: &OpList, next: &mut OpNext)
        ensures does { Does next.new self.new list.now (later_of list.now self.old) }
        ensures turns { turns_left list.now self.new + turns_in next.new
            ≤ 5 * (length list.now.ops - self.old.begun) }
    {
        let Some(op) = list.ops.as_slice().get(self.begun as usize) else {
            return self.end(next);
        };
        self.begun += 1;
        self.begin_operation(op, next)
    }

    /// Sends the first command of an operation.
    fn begin_operation(&mut self, op: &Op, next: &mut OpNext)
        ensures does { (list : OpList)
            → Does next.new self.new list (operation op.now self.old.rn (later_of list self.old)) }
        ensures begun { self.new.begun ≡ self.old.begun }
        ensures turns { turns_at self.new.stage + turns_in next.new ≤ 5 }
    {
        let handle = self.rn;
        match op {
            Op::Read {
                bank,
                pointer,
                count,
            } => {
                let command = Command::Read {
                    bank: *bank,
                    pointer: *pointer,
                    count: *count,
                    rn: handle,
                };
                self.send_last(command, expected_words(*count, handle), false, next)
            }
            Op::Write {
                bank,
                pointer,
                word,
            } => {
                let covered = Covered::Word {
                    bank: *bank,
                    pointer: *pointer,
                    word: *word,
                };
                self.ask_for_number(Purpose::Cover(covered), next)
            }
            Op::BlockWrite {
                bank,
                pointer,
                words,
            } => {
                let command = Command::BlockWrite {
                    bank: *bank,
                    pointer: *pointer,
                    words: copy_of_block(words),
                    rn: handle,
                };
                self.send_last(command, Expect::Header(handle), true, next)
            }
            Op::BlockErase {
                bank,
                pointer,
                count,
            } => {
                let command = Command::BlockErase {
                    bank: *bank,
                    pointer: *pointer,
                    count: *count,
                    rn: handle,
                };
                self.send_last(command, Expect::Header(handle), true, next)
            }
            Op::Lock { payload } => {
                let command = Command::Lock {
                    payload: *payload,
                    rn: handle,
                };
                self.send_last(command, Expect::Header(handle), true, next)
            }
            Op::Access { password } => {
                let covered = Covered::Upper(Password::Access(*password));
                self.ask_for_number(Purpose::Cover(covered), next)
            }
            Op::Kill { password } => {
                let covered = Covered::Upper(Password::Kill(*password));
                self.ask_for_number(Purpose::Cover(covered), next)
            }
        }
    }

    /// Goes on with the answer to a Req_RN or to the upper half of a password.
    fn take_number(
        &mut self,
        list: &OpList,
        purpose: Purpose,
        answer: Option<&Answer>,
        next: &mut OpNext,
    )
        ensures does { Does next.new self.new list.now
            (behind_heard (behind_number (behind_purpose purpose list.now self.old))
            (option_copied answer.entry)) }
        ensures turns { turns_left list.now self.new + turns_in next.new
            ≤ turns_at (Stage.Number purpose) + 5 * (length list.now.ops - self.old.begun) }
    {
        match answer {
            Some(Answer::Got(Received::Whole(Reply::Handle(number)))) => {
                self.go_on(list, purpose, *number, next)
            }
            Some(Answer::Got(_)) => self.end_broken(next),
            Some(Answer::Silence) | None => self.end_silent(next),
        }
    }

    /// Goes on with a number that the tag was asked for.
    fn go_on(&mut self, list: &OpList, purpose: Purpose, number: u16, next: &mut OpNext)
        ensures does { Does next.new self.new list.now
            (behind_purpose purpose list.now self.old number) }
        ensures turns { turns_left list.now self.new + turns_in next.new
            ≤ turns_at (Stage.Number purpose) + 5 * (length list.now.ops - self.old.begun) }
    {
        match purpose {
            Purpose::Handle => {
                self.rn = number;
                self.begin(list, next)
            }
            Purpose::Cover(covered) => self.send_covered(covered, number, next),
            Purpose::Same(password) => {
                self.ask_for_number(Purpose::Cover(Covered::Lower(password)), next)
            }
        }
    }

    /// Sends what goes under this cover.
    fn send_covered(&mut self, covered: Covered, cover: u16, next: &mut OpNext)
        ensures does { (list : OpList)
            → Does next.new self.new list
            (behind_cover covered self.old.rn (later_of list self.old) cover) }
        ensures begun { self.new.begun ≡ self.old.begun }
        ensures turns { turns_at self.new.stage + turns_in next.new
            ≤ turns_at (Stage.Number (Purpose.Cover covered)) }
    {
        let handle = self.rn;
        match covered {
            Covered::Word {
                bank,
                pointer,
                word,
            } => {
                let command = Command::Write {
                    bank,
                    pointer,
                    covered: xor16(word, cover),
                    rn: handle,
                };
                self.send_last(command, Expect::Header(handle), true, next)
            }
            Covered::Upper(password) => {
                let command = password.command(xor16(password.upper(), cover), handle);
                self.stage = Stage::Number(Purpose::Same(password));
                *next = OpNext::Send {
                    command,
                    expect: Expect::Same(handle),
                    extended: false,
                };
            }
            Covered::Lower(password) => {
                let command = password.command(xor16(password.lower(), cover), handle);
                self.send_last(
                    command,
                    password.lower_expected(handle),
                    password.lower_extended(),
                    next,
                )
            }
        }
    }

    /// Asks the tag for a number (6.3.2.11.3.1 Req_RN).
    fn ask_for_number(&mut self, purpose: Purpose, next: &mut OpNext)
        ensures run { self.new ≡ record self.old { stage = Stage.Number purpose } }
        ensures send { next.new ≡ OpNext.Send (Command.ReqRn self.old.rn) Expect.Handle false }
    {
        self.stage = Stage::Number(purpose);
        *next = OpNext::Send {
            command: Command::ReqRn { rn: self.rn },
            expect: Expect::Handle,
            extended: false,
        };
    }

    /// Sends the command that ends an operation.
    fn send_last(&mut self, command: Command, expect: Expect, extended: bool, next: &mut OpNext)
        ensures run { self.new ≡ record self.old { stage = Stage.Last } }
        ensures send { next.new ≡ OpNext.Send command expect extended }
    {
        self.stage = Stage::Last;
        *next = OpNext::Send {
            command,
            expect,
            extended,
        };
    }

    /// Ends an operation with what was heard of its last command.
    fn end_operation(&mut self, answer: Option<&Answer>, next: &mut OpNext)
        ensures does { (list : OpList)
            → Does next.new self.new list
            (behind_heard (behind_last (later_of list self.old)) (option_copied answer.entry)) }
        ensures begun { self.new.begun ≡ self.old.begun }
        ensures turns { turns_at self.new.stage + turns_in next.new ≤ 1 }
    {
        match answer {
            None | Some(Answer::Silence) => self.end_silent(next),
            Some(Answer::Got(Received::Refused(_))) => self.end_broken(next),
            Some(Answer::Got(Received::Whole(reply))) => self.end_with(reply, next),
        }
    }

    /// Ends an operation with the reply to its last command.
    fn end_with(&mut self, reply: &Reply, next: &mut OpNext)
        ensures run { self.new ≡ record self.old { stage = Stage.Begin } }
        ensures next { next.new ≡ OpNext.Result (result_in_reply reply.now) }
    {
        self.stage = Stage::Begin;
        tell_reply(reply, next)
    }

    /// Ends the run where no reply came.
    fn end_silent(&mut self, next: &mut OpNext)
        ensures run { self.new ≡ record self.old { stage = Stage.Done } }
        ensures next { next.new ≡ OpNext.Result OpResult.Silent }
    {
        self.stage = Stage::Done;
        *next = OpNext::Result(OpResult::Silent);
    }

    /// Ends the run where another reply came than one that is expected.
    fn end_broken(&mut self, next: &mut OpNext)
        ensures run { self.new ≡ record self.old { stage = Stage.Done } }
        ensures next { next.new ≡ OpNext.Result OpResult.Broken }
    {
        self.stage = Stage::Done;
        *next = OpNext::Result(OpResult::Broken);
    }

    /// Ends the run of operations on the tag, with no further result. Where the end stands there already, it is left, as what comes next has
    /// all of its room made ready where it is made anew.
    fn end(&mut self, next: &mut OpNext)
        ensures run { self.new ≡ record self.old { stage = Stage.Done } }
        ensures next { next.new ≡ OpNext.End }
    {
        self.stage = Stage::Done;
        match next {
            OpNext::End => {}
            _ => *next = OpNext::End,
        }
    }
}

/// What a run begins with: the operations, or where another EPC is named, their denials.
fn first_stage(only: &Option<EpcWords>, epc: &EpcWords) -> Stage
    ensures { result ≡ (if is_for only.now epc.now then Stage.Open else Stage.Deny) }
{
    match only {
        Some(only) if only != epc => Stage::Deny,
        _ => Stage::Open,
    }
}

/// What a Read of so many words expects; 0 is for as many as there are (6.3.2.11.3.2 Read).
fn expected_words(count: u8, handle: u16) -> Expect
    ensures { result ≡ words_expected count handle }
{
    match Count1::new(count) {
        Some(count) => Expect::Words(count, handle),
        None => Expect::AnyWords(handle),
    }
}
