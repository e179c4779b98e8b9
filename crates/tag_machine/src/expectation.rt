//! What an interrogator expects of a tag that hears a command, and the reply that its bits then are.
ghost use Rattle.std.specs.Prelude.{◌≡◌};
ghost use Rattle.std.specs.Option.{IsSomeAnd};
ghost use Rattle.reply_grammar.specs.declared.expected.Reply.{Reply};
ghost use Rattle.reply_grammar.specs.Replies.{AnswersExpected};
ghost use Rattle.tag_machine.specs.TagValue.{StateValue};
ghost use Rattle.tag_machine.specs.StateNumbers.{numbers_of};
ghost use Rattle.tag_machine.specs.laws.Extended.{has_half};
ghost use Rattle.tag_machine.specs.laws.AnswersByCommand.{expect_of};

use crate::state_numbers::StateNumbers;
use bit_strings::{Bits, Count1};
use command_grammar::Command;
use reply_grammar::{Expect, Reply, decode_reply, decode_reply_to, reply_laws};

/// How many bits a handle and its CRC-16 have: what a first half of a Kill is answered with, and no answer to a second one.
const HANDLE_BITS: u32 = 32;

/// Whether a tag that holds these numbers holds the first half of a password.
pub fn has_half(numbers: StateNumbers) -> bool
    ensures { (state : StateValue) → numbers ≡ numbers_of state → result ≡ has_half state }
{
    match numbers {
        StateNumbers::Held(held) => held.half.is_some(),
        StateNumbers::None | StateNumbers::Waiting { .. } | StateNumbers::Replied { .. } => false,
    }
}

/// What an interrogator expects in answer to a command (Annex C), where the tag holds a first half or doesn't; none where no answer
/// may come.
pub fn expectation_of(command: &Command, unfinished: bool) -> Option<Expect>
    ensures { (state : StateValue) → has_half state ≡ unfinished
        → result ≡ expect_of command.now state }
{
    match command {
        Command::QueryRep { .. } | Command::Query { .. } | Command::QueryAdjust { .. } => {
            Some(Expect::Rn16)
        }
        Command::Ack { .. } => Some(Expect::Epc),
        Command::Select { .. } | Command::Nak => None,
        Command::ReqRn { .. } => Some(Expect::Handle),
        // A Read of 0 words is one of all to the bank's end (6.3.2.11.3.2).
        Command::Read { count, rn, .. } => Some(match Count1::new(*count) {
            Some(count) => Expect::Words(count, *rn),
            None => Expect::AnyWords(*rn),
        }),
        Command::Kill { rn, .. } => Some(if unfinished {
            Expect::Header(*rn)
        } else {
            Expect::Same(*rn)
        }),
        Command::Access { rn, .. } => Some(Expect::Same(*rn)),
        Command::Write { rn, .. }
        | Command::Lock { rn, .. }
        | Command::BlockWrite { rn, .. }
        | Command::BlockErase { rn, .. } => Some(Expect::Header(*rn)),
    }
}

/// Gives the reply that bits are, of which it is known that they answer what is expected, in place of another one. A reply has room for
/// the longest list of words, and none is copied so.
pub fn expected_reply_to(bits: &Bits, expect: &Option<Expect>, reply: &mut Reply)
    requires { (answer : Reply)
        × IsSomeAnd expect.now (λ it. AnswersExpected answer it bits.now.items) }
    ensures { (answer : Reply)
        → IsSomeAnd expect.now (λ it. AnswersExpected answer it bits.now.items)
        → reply.new ≡ answer }
{
    // By this law bits are one reply that is expected, or are refused.
    reply_laws();
    let Some(expect) = expect else { unreachable!() };
    match decode_reply_to(bits, expect, reply) {
        Ok(()) => {}
        Err(_) => unreachable!(),
    }
}

/// The reply that bits are, of which it is known that they answer what is expected. Of other bits nothing is known.
fn reply_in(bits: &Bits, expect: &Expect) -> Reply
    ensures { (reply : Reply) → AnswersExpected reply expect.now bits.now.items → result ≡ reply }
{
    match decode_reply(bits, expect) {
        Ok(reply) => reply,
        Err(_) => Reply::Header,
    }
}

/// The reply that bits are with which a tag answers a command, whatever it was before. Of other bits nothing is known.
pub fn reply_to(command: &Command, bits: &Bits) -> Reply
    ensures { (state : StateValue) (reply : Reply)
        → IsSomeAnd (expect_of command.now state) (λ it. AnswersExpected reply it bits.now.items)
        → result ≡ reply }
{
    match expectation_of(command, bits.len() != HANDLE_BITS) {
        None => Reply::Header,
        Some(expect) => reply_in(bits, &expect),
    }
}
