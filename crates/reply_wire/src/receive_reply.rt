//! Levels to replies.
ghost use Rattle.std.specs.Prelude.{◌≡◌, ℕ, ◌<◌, ◌≤◌, List, Bool, [], length, IfErr, OnOk};
ghost use Rattle.line_code.specs.TableFacts.{with_level_flipped};
ghost use Rattle.line_code.specs.Stream.{IsStream};
ghost use Rattle.reply_wire.specs.Codes.{table_of};
ghost use Rattle.reply_grammar.specs.Refusals.{RefusesReply};
ghost use Rattle.reply_grammar.specs.Replies.{AnswersExpected};
ghost use Rattle.reply_grammar.specs.declared.expected.Reply.{Reply};
ghost use Rattle.reply_grammar.specs.declared.expected.Received.{Received};
ghost use Rattle.reply_grammar.specs.declared.expected.Received.TheVariants.{Whole, Refused};
ghost use Rattle.reply_wire.specs.Received.{IsReceived};
ghost use Rattle.bit_strings.specs.BitString.{most_counted};

use crate::codes_by_name::decode_levels;
use bit_strings::{Bits, Code, Levels};
use line_code::LineRefusal;
use reply_grammar::{Expect, Received, Reply, ReplyRefusal, decode_reply_to};

/// Gives what an interrogator makes of a stream of levels (6.3.1.3.2 and 6.3.2.11 of the standard), where it
/// expects a reply of one kind, in place of what it made of another: the reply, or the place of refusal,
/// counted from 0. That is the place where the levels stop being a stream, or the number of levels where they
/// begin a stream and are none, or where they are one, and its bits no reply that is expected.
///
/// `bits` is a buffer with room for as many bits as there are levels. After a whole reply it holds the
/// bits of the stream, without the dummy at the end. After a refusal it is empty. No memory is taken, and no
/// list of words is copied: what is received has room for the longest.
pub fn receive(
    stream: &Levels,
    code: Code,
    trext: bool,
    expect: &Expect,
    bits: &mut Bits,
    received: &mut Received,
)
    requires room { length stream.now.items ≤ bits.old.capacity }
    requires few { length stream.now.items ≤ most_counted }
    ensures received { IsReceived (table_of code) trext expect.now stream.now.items received.new }
    ensures only { (answer : Received)
        → IsReceived (table_of code) trext expect.now stream.now.items answer
        → received.new ≡ answer }
    ensures only_whole { (reply : Reply) (sent : List Bool)
        → IsStream (table_of code) trext sent stream.now.items
        → AnswersExpected reply expect.now sent → (received.new ≡ Whole reply)
        × (bits.new.items ≡ sent) }
    ensures whole { (reply : Reply) → received.new ≡ Whole reply
        → IsStream (table_of code) trext bits.new.items stream.now.items
        × AnswersExpected reply expect.now bits.new.items }
    ensures flip { (sent whole : List Bool) (at : ℕ) → IsStream (table_of code) trext sent whole
        → at < length whole → stream.now.items ≡ with_level_flipped whole at → (place : ℕ)
        × (received.new ≡ Refused place) }
    ensures refused { (place : ℕ) → received.new ≡ Refused place → bits.new.items ≡ [] }
    ensures capacity { bits.new.capacity ≡ bits.old.capacity }
{
    match decode_levels(code, trext, stream, bits) {
        Ok(()) => match take_whole(bits, expect, received) {
            Ok(()) => {}
            Err(_) => {
                bits.clear();
                *received = Received::Refused(stream.len());
            }
        },
        Err(LineRefusal::Invalid(place)) => *received = Received::Refused(place),
        Err(LineRefusal::Unfinished(count)) => *received = Received::Refused(count),
    }
}

/// Gives the reply that bits are, in place of what was received before. Where they are refused, nothing is known of what stands there.
fn take_whole(bits: &Bits, expect: &Expect, received: &mut Received) -> Result<(), ReplyRefusal>
    ensures whole { OnOk result
        ((reply : Reply) × (received.new ≡ Whole reply)
        × AnswersExpected reply expect.now bits.now.items) }
    ensures refused { IfErr result (λ refusal. RefusesReply refusal expect.now bits.now.items) }
{
    // The room of a whole reply is taken over as it is.
    if let Received::Whole(reply) = received {
        return decode_reply_to(bits, expect, reply);
    }
    *received = Received::Whole(Reply::Header);
    match received {
        Received::Whole(reply) => decode_reply_to(bits, expect, reply),
        Received::Refused(_) => unreachable!(),
    }
}
