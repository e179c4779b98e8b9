//! Commands that a tag need not have (6.3.2.11.3 Access commands), and the BlockWrite that undoes what one did to the memory.
ghost use Rattle.std.specs.Prelude.{◌≡◌, ◌≤◌, Some};
ghost use Rattle.tag_machine.specs.Hearing.{tag_value_of};
ghost use Rattle.log_judge.specs.Explaining.{seen_answer_to};
ghost use Rattle.log_judge.specs.Answers.{seen_in};
ghost use Rattle.log_judge.specs.Optional.{AnswersOptional, IsUndone, Undoes, answers_held, answers_now, is_header, takes_access, takes_half};

use crate::answer::Answer;
use crate::asking::AskingRooms;
use bit_strings::Pointer;
use command_grammar::{Bank, BlockWords, Command};
use reply_grammar::Reply;
use std::sync::ledger::Ledger;
use tag_machine::{Answered, AnyTag, Half, Held, Password, StateNumbers, Steps};

/// Whether a half of the access password that comes with a cover is a first half, or makes the password whole (6.3.2.11.3.6 Access).
fn takes_half(half: Option<Half>, value: u16, password: u32) -> bool
    ensures { result ≡ takes_half half value password }
{
    match half {
        None => true,
        Some(half) => match half.password {
            Password::Kill => false,
            Password::Access => password == (u32::from(half.value) << 16) + u32::from(value),
        },
    }
}

/// Whether a tag that holds this answers an Access with this covered half.
fn takes_access(held: Held, covered: u16, password: u32) -> bool
    ensures { result ≡ takes_access held covered password }
{
    match held.cover {
        None => false,
        Some(cover) => takes_half(held.half, covered ^ cover, password),
    }
}

/// Whether a tag in open or secured answers a command that a tag need not have.
fn answers_held(command: &Command, held: Held, password: u32) -> bool
    ensures { result ≡ answers_held command.now held password }
{
    match command {
        Command::Access { covered, rn } => {
            held.handle == *rn && takes_access(held, *covered, password)
        }
        Command::BlockWrite { rn, .. } | Command::BlockErase { rn, .. } => {
            held.handle == *rn && held.half.is_none()
        }
        _ => false,
    }
}

/// Whether a tag answers a command that a tag need not have.
pub(crate) fn answers_optional(tag: &AnyTag, command: &Command) -> bool
    ensures { result ≡ answers_now command.now (tag_value_of tag.now) }
{
    match tag.numbers() {
        StateNumbers::Held(held) => answers_held(command, held, tag.memory().access_word()),
        StateNumbers::None | StateNumbers::Waiting { .. } | StateNumbers::Replied { .. } => false,
    }
}

/// The BlockWrite that writes so many words of a bank of the tag as they stand there now, if the bank has them.
fn undo_of(tag: &AnyTag, bank: Bank, pointer: Pointer, count: usize, rn: u16) -> Option<Command>
    requires some { 1 ≤ count }
    requires few { count ≤ 255 }
    ensures { Undoes bank pointer count rn (tag_value_of tag.now).body.memory result }
{
    let from = pointer.get() as usize;
    let words = tag.memory().bank(bank);
    let end = from + count;
    if words.len() < end {
        return None;
    }
    let words = BlockWords::of(&words[from..end]);
    Some(Command::BlockWrite {
        bank,
        pointer,
        words,
        rn,
    })
}

/// Whether a reply is a header alone: the command was carried out.
fn is_header(reply: &Reply) -> bool
    ensures { result ≡ is_header reply.now }
{
    match reply {
        Reply::Header => true,
        Reply::Rn16(_) | Reply::Handle(_) | Reply::Epc { .. } | Reply::Words(_) | Reply::Error(_) =>
            false,
    }
}

impl AskingRooms {
    /// Lets a tag hear a BlockWrite or BlockErase, and then writes back what stood there, so that the tag is as before. What it answered
    /// stands in the room then.
    fn hear_and_undo<L: Ledger>(
        &mut self,
        tag: AnyTag,
        command: &Command,
        undo: Option<Command>,
        steps: &mut Steps<L>,
    ) -> AnyTag
        requires { IsUndone command.now undo (tag_value_of tag) }
        ensures tag { tag_value_of result ≡ tag_value_of tag }
        ensures answer { seen_in self.new.answer
            ≡ seen_answer_to (Some command.now) (tag_value_of tag) }
    {
        // In each state a tag is legal.
        let _ = tag.state();
        let tag = self.hear(tag, command, steps);
        match undo {
            None => tag,
            Some(undo) => {
                // An error changes nothing.
                if !is_header(&self.answer.reply) {
                    return tag;
                }
                self.hear_unheard(tag, &undo, steps)
            }
        }
    }

    /// What a tag answers to a command that a tag need not have, and that it answers. It is as before then, and the answer stands in the
    /// room.
    pub(crate) fn ask<L: Ledger>(
        &mut self,
        tag: AnyTag,
        command: &Command,
        steps: &mut Steps<L>,
    ) -> AnyTag
        requires { AnswersOptional command.now (tag_value_of tag) }
        ensures tag { tag_value_of result ≡ tag_value_of tag }
        ensures answer { seen_in self.new.answer
            ≡ seen_answer_to (Some command.now) (tag_value_of tag) }
    {
        match command {
            Command::BlockWrite {
                bank,
                pointer,
                words,
                rn,
            } => {
                let undo = undo_of(&tag, *bank, *pointer, words.as_slice().len(), *rn);
                self.hear_and_undo(tag, command, undo, steps)
            }
            Command::BlockErase {
                bank,
                pointer,
                count,
                rn,
            } => {
                let undo = undo_of(&tag, *bank, *pointer, usize::from(count.get()), *rn);
                self.hear_and_undo(tag, command, undo, steps)
            }
            Command::Access { rn, .. } => {
                self.answer = Answer {
                    answered: Answered::Plain,
                    reply: Reply::Handle(*rn),
                };
                tag
            }
            _ => unreachable!(),
        }
    }
}
