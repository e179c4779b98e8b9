//! A tag by itself: how a program that uses the crates makes one, lets it hear a command and reads its answer.
ghost use Rattle.std.specs.Prelude.{◌≡◌, ◌≤◌};
ghost use Rattle.reply_grammar.specs.Replies.{reply_room};

use bit_strings::{Bits, Code, List, QValue, Session};
use command_grammar::{Command, Sel, Side};
use lock_rules::Locks;
use reply_grammar::{Expect, Reply, decode_reply};
use std::alloc::Global;
use std::marker::Brand;
use std::sync::ledger::{Blank, Ledger};
use std::test::Fail;
use tag_machine::{Answered, AnyTag, DrawWords, Heard, StateName, Steps};
use tag_memory::{BankImage, Memory};

/// The memory of a tag with the PC 0800, the EPC 1234 and passwords 0.
fn memory(alloc: Global) -> Result<Memory, Fail> {
    let image = BankImage {
        kill: 0,
        access: 0,
        epc: List::new(Vec::from_slice(alloc, &[0x0800, 0x1234])?),
        tid: List::new(Vec::from_slice(alloc, &[0xE200, 0x0001])?),
        user: List::new(Vec::new(alloc)),
    };
    Ok(Memory::new(alloc, &image)?)
}

fn no_locks() -> Result<Locks, Fail> {
    Ok(Locks::from_bits(0).ok_or("ten bits")?)
}

/// A tag that draws the word A1B2 again and again.
fn new_tag(alloc: Global) -> Result<AnyTag, Fail> {
    let words = DrawWords::new(alloc, &[0xA1B2])?;
    Ok(AnyTag::new(alloc, memory(alloc)?, no_locks()?, words)?)
}

/// The Query of session S0 to all tags with flag A, with one slot.
fn query() -> Result<Command, Fail> {
    Ok(Command::Query {
        dr: true,
        code: Code::Fm0,
        trext: false,
        sel: Sel::All00,
        session: Session::new(0).ok_or("a session")?,
        target: Side::A,
        q: QValue::new(0).ok_or("a Q")?,
    })
}

/// Lets a tag hear a command, with the ledger of the blank for the counter of steps: it takes no bytes, and contracts alone see it.
fn hear_counted<L: Ledger>(blank: Blank, tag: AnyTag, command: &Command, reply: &mut Bits) -> Heard
    requires name { blank.name ≡ L.name }
    requires parts { blank.parts ≡ L.parts }
    requires one { blank.parts ≡ 1 }
    requires room { reply_room ≤ reply.old.capacity }
{
    let mut steps = Steps::<L>::new(blank);
    tag.hear(command, reply, &mut steps)
}

/// The RN16 that the bits are, if they are one.
fn rn16_of(reply: &Bits) -> Option<u16> {
    match decode_reply(reply, &Expect::Rn16) {
        Ok(Reply::Rn16(rn)) => Some(rn),
        _ => None,
    }
}

/// How a tag answers a command, its state then, and the RN16 that it sends.
fn hear(
    alloc: Global,
    tag: AnyTag,
    command: &Command,
) -> Result<(Answered, StateName, Option<u16>), Fail> {
    let mut reply = Bits::new(alloc, 8240)?;
    let heard = hear_counted::<Brand>(Blank::new(1), tag, command, &mut reply);
    Ok((heard.answered, heard.tag.state(), rn16_of(&reply)))
}

/// The same of a new tag and the Query.
fn answer_to_query(alloc: Global) -> Result<(Answered, StateName, Option<u16>), Fail> {
    let query = query()?;
    hear(alloc, new_tag(alloc)?, &query)
}

#[test]
fn a_tag_answers_a_query(rt: HostRuntime) -> Result<(), Fail> {
    let answer = answer_to_query(rt.alloc())?;
    assert_eq!(rt; answer, (Answered::Plain, StateName::InReply, Some(0xA1B2)));
    Ok(())
}
