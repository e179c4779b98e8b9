//! Read, Write, BlockWrite and BlockErase (6.3.2.11.3.2, 6.3.2.11.3.3, 6.3.2.11.3.7 and 6.3.2.11.3.8).
ghost use Rattle.std.specs.Prelude.{◌≡◌, ◌+◌, ◌≤◌};
ghost use Rattle.tag_machine.specs.Access.{read, write, block_write, block_erase};
ghost use Rattle.tag_machine.specs.Hearing.{GivesOutcome, tag_value_of};
ghost use Rattle.reply_grammar.specs.Replies.{reply_room};

use crate::abilities::WithHandle;
use crate::any_tag::{Answered, AnyTag, Heard};
use crate::step_counter::Steps;
use crate::tag::Tag;
use bit_strings::{Bits, Count1, Pointer};
use command_grammar::{Bank, BlockWords};
use std::sync::ledger::Ledger;

impl AnyTag {
    /// Read, in each state.
    pub(crate) fn read(
        self,
        bank: Bank,
        pointer: Pointer,
        count: u8,
        rn: u16,
        out: &mut Bits,
    ) -> Heard
        requires room { reply_room ≤ out.old.capacity }
        ensures { GivesOutcome
            (read bank pointer count rn (tag_value_of self).state (tag_value_of self).body) result
            out.old out.new }
    {
        match self.heed(rn, None, out) {
            Ok(tag) => {
                let handle = tag.held.handle;
                tag.body
                    .encode_read(tag.level, bank, pointer, count, handle, out);
                let answered = Answered::Plain;
                let tag = tag.tag();
                Heard { tag, answered }
            }
            Err(heard) => heard,
        }
    }

    /// Write, in each state.
    pub(crate) fn write(
        self,
        bank: Bank,
        pointer: Pointer,
        covered: u16,
        rn: u16,
        out: &mut Bits,
    ) -> Heard
        requires room { reply_room ≤ out.old.capacity }
        ensures { GivesOutcome
            (write bank pointer covered rn (tag_value_of self).state (tag_value_of self).body)
            result out.old out.new }
    {
        let tag = match self.heed(rn, None, out) {
            Ok(tag) => tag,
            Err(heard) => return heard,
        };
        let (mut tag, word) = match tag.uncover(covered, out) {
            Ok(found) => found,
            Err(heard) => return heard,
        };
        let change = tag.body.write(tag.level, bank, pointer, word);
        tag.answer_change(change, out)
    }

    /// BlockWrite, in each state.
    pub(crate) fn block_write(
        self,
        bank: Bank,
        pointer: Pointer,
        words: &BlockWords,
        rn: u16,
        out: &mut Bits,
    ) -> Heard
        requires room { reply_room ≤ out.old.capacity }
        ensures { GivesOutcome
            (block_write bank pointer words.now rn (tag_value_of self).state
            (tag_value_of self).body) result out.old out.new }
    {
        match self.heed(rn, None, out) {
            Ok(mut tag) => {
                let change = tag.body.block_write(tag.level, bank, pointer, words);
                tag.answer_change(change, out)
            }
            Err(heard) => heard,
        }
    }

    /// BlockErase, in each state.
    pub(crate) fn block_erase(
        self,
        bank: Bank,
        pointer: Pointer,
        count: Count1,
        rn: u16,
        out: &mut Bits,
    ) -> Heard
        requires room { reply_room ≤ out.old.capacity }
        ensures { GivesOutcome
            (block_erase bank pointer count rn (tag_value_of self).state (tag_value_of self).body)
            result out.old out.new }
    {
        match self.heed(rn, None, out) {
            Ok(mut tag) => {
                let change = tag.body.block_erase(tag.level, bank, pointer, count);
                tag.answer_change(change, out)
            }
            Err(heard) => heard,
        }
    }
}

impl<S: WithHandle> Tag<S> {
    /// With the handle the tag answers the words, or an error; after a first half it goes back to arbitrate. Another number
    /// changes nothing.
    pub fn read<L: Ledger>(
        self,
        bank: Bank,
        pointer: Pointer,
        count: u8,
        rn: u16,
        out: &mut Bits,
        steps: &mut Steps<L>,
    ) -> Heard
        requires room { reply_room ≤ out.old.capacity }
        ensures step { GivesOutcome
            (read bank pointer count rn self.state self.body) result out.old out.new }
        ensures counted { steps.new ≡ steps.old + 1 }
    {
        self.one_step(steps).read(bank, pointer, count, rn, out)
    }

    /// With the handle and a cover the tag writes the covered number XOR the cover, and answers the header or an error. The
    /// cover is used up, also where the Write is refused. Without a cover, or with another number, nothing changes; after a
    /// first half the tag goes back to arbitrate.
    pub fn write<L: Ledger>(
        self,
        bank: Bank,
        pointer: Pointer,
        covered: u16,
        rn: u16,
        out: &mut Bits,
        steps: &mut Steps<L>,
    ) -> Heard
        requires room { reply_room ≤ out.old.capacity }
        ensures step { GivesOutcome
            (write bank pointer covered rn self.state self.body) result out.old out.new }
        ensures counted { steps.new ≡ steps.old + 1 }
    {
        self.one_step(steps).write(bank, pointer, covered, rn, out)
    }

    /// With the handle the tag writes all the words or none, and answers the header or an error. With another number nothing
    /// changes; after a first half the tag goes back to arbitrate.
    pub fn block_write<L: Ledger>(
        self,
        bank: Bank,
        pointer: Pointer,
        words: &BlockWords,
        rn: u16,
        out: &mut Bits,
        steps: &mut Steps<L>,
    ) -> Heard
        requires room { reply_room ≤ out.old.capacity }
        ensures step { GivesOutcome
            (block_write bank pointer words.now rn self.state self.body) result out.old out.new }
        ensures counted { steps.new ≡ steps.old + 1 }
    {
        self.one_step(steps)
            .block_write(bank, pointer, words, rn, out)
    }

    /// With the handle the tag erases so many words or none, and answers the header or an error. With another number nothing
    /// changes; after a first half the tag goes back to arbitrate.
    pub fn block_erase<L: Ledger>(
        self,
        bank: Bank,
        pointer: Pointer,
        count: Count1,
        rn: u16,
        out: &mut Bits,
        steps: &mut Steps<L>,
    ) -> Heard
        requires room { reply_room ≤ out.old.capacity }
        ensures step { GivesOutcome
            (block_erase bank pointer count rn self.state self.body) result out.old out.new }
        ensures counted { steps.new ≡ steps.old + 1 }
    {
        self.one_step(steps)
            .block_erase(bank, pointer, count, rn, out)
    }
}
