//! The moves that the commands share: how a tag answers, and where it goes.
ghost use Rattle.std.specs.Prelude.{◌≡◌, ◌≤◌};
ghost use Rattle.reply_grammar.specs.Replies.{reply_room};
ghost use Rattle.reply_grammar.specs.declared.expected.Reply.TheVariants.{Handle, Header};
ghost use Rattle.tag_machine.specs.Answers.{silent, plain_answer, extended_answer};
ghost use Rattle.tag_machine.specs.Draws.{begin_reply, enter, back, tag_back};
ghost use Rattle.tag_machine.specs.Hearing.{GivesOutcome, tag_value_of};

use crate::abilities::Present;
use crate::any_tag::{Answered, AnyTag, Heard};
use crate::states::{Arbitrate, InReply};
use crate::tag::Tag;
use bit_strings::{Bits, QValue, Session};
use reply_grammar::{encode_handle, encode_header, encode_rn16};
use tag_body::{Body, Slot};

/// No answer of the tag, which stays as it is: `out` has no bits then.
pub fn stay_silent(tag: AnyTag, out: &mut Bits) -> Heard
    ensures { GivesOutcome
        (silent (tag_value_of tag).state (tag_value_of tag).body) result out.old out.new }
{
    out.clear();
    let answered = Answered::Silent;
    Heard { tag, answered }
}

/// An answer that is a handle or a new RN16, whose preamble goes by the TRext of the Query. Its bits are the same whichever handle it is told with.
pub fn answer_handle(tag: AnyTag, number: u16, out: &mut Bits) -> Heard
    requires { reply_room ≤ out.old.capacity }
    ensures drawn { GivesOutcome
        (plain_answer (tag_value_of tag).state (tag_value_of tag).body (Handle number) 0) result
        out.old out.new }
    ensures held { GivesOutcome
        (plain_answer (tag_value_of tag).state (tag_value_of tag).body (Handle number) number)
        result out.old out.new }
{
    encode_handle(number, out);
    let answered = Answered::Plain;
    Heard { tag, answered }
}

/// An answer that says success by its header bit, with the extended preamble.
pub fn answer_header(tag: AnyTag, handle: u16, out: &mut Bits) -> Heard
    requires { reply_room ≤ out.old.capacity }
    ensures { GivesOutcome
        (extended_answer (tag_value_of tag).state (tag_value_of tag).body Header handle) result
        out.old out.new }
{
    encode_header(handle, out);
    let answered = Answered::Extended;
    Heard { tag, answered }
}

/// BACK: a tag with this body, in arbitrate with slot 0.
pub fn back(body: Body, session: Session, q: QValue) -> Tag<Arbitrate>
    ensures { result ≡ tag_back session q body }
{
    let slot = Slot::new(0);
    let state = Arbitrate { session, q, slot };
    Tag { state, body }
}

/// BACK, without an answer.
pub fn go_back(body: Body, session: Session, q: QValue, out: &mut Bits) -> Heard
    ensures { GivesOutcome (back session q body) result out.old out.new }
{
    stay_silent(AnyTag::Arbitrate(back(body, session, q)), out)
}

/// Draws an RN16 and answers it.
pub fn begin_reply(mut body: Body, session: Session, q: QValue, out: &mut Bits) -> Heard
    requires room { reply_room ≤ out.old.capacity }
    ensures { GivesOutcome (begin_reply session q body) result out.old out.new }
{
    let rn = body.draw();
    encode_rn16(rn, out);
    let tag = InReply { session, q, rn }.tag(body);
    let answered = Answered::Plain;
    Heard { tag, answered }
}

/// ENTER: draws a slot, the last Q bits of a word, and replies at once where it is 0.
pub fn enter(mut body: Body, session: Session, q: QValue, out: &mut Bits) -> Heard
    requires room { reply_room ≤ out.old.capacity }
    ensures { GivesOutcome (enter session q body) result out.old out.new }
{
    let Some(slot) = body.draw_slot(q) else {
        // The word that gives slot 0 is drawn before the RN16.
        body.draw();
        return begin_reply(body, session, q, out);
    };
    stay_silent(Arbitrate { session, q, slot }.tag(body), out)
}
