//! What a tag sends in answer.
ghost use Rattle.std.specs.Prelude.{◌≡◌, ◌<◌, ◌^◌, ◌↔◌, IsTrue, None, is_some};
ghost use Rattle.log_judge.specs.Explaining.{IsOtherError};
ghost use Rattle.log_judge.specs.laws.Logs.{number_seen, number_of_reply};
ghost use Rattle.log_judge.specs.Answers.{code_in, code_of_reply, seen_in};

use reply_grammar::Reply;
use tag_machine::Answered;

/// What a tag sends in answer, or was seen to send. Where it sends nothing, the reply is room and means nothing. The handle that stands
/// behind words, a header and an error isn't told.
#[derive(Drop)]
pub struct Answer {
    /// Whether it sends a reply, and with which preamble.
    pub answered: Answered,
    /// The reply.
    pub reply: Reply,
}

impl Answer {
    /// The answer of a tag that sends nothing.
    pub fn none() -> Answer
        ensures { seen_in result ≡ None }
    {
        Answer {
            answered: Answered::Silent,
            reply: Reply::Header,
        }
    }

    /// Whether it is an answer.
    pub(crate) fn is_some(&self) -> bool
        ensures { result ≡ is_some (seen_in self.now) }
    {
        match self.answered {
            Answered::Silent => false,
            Answered::Plain | Answered::Extended => true,
        }
    }

    /// Whether the two are one answer.
    pub(crate) fn is_same(&self, other: &Answer) -> bool
        ensures { IsTrue result ↔ (seen_in self.now ≡ seen_in other.now) }
    {
        if self.answered != other.answered {
            return false;
        }
        match self.answered {
            Answered::Silent => true,
            Answered::Plain | Answered::Extended => self.reply == other.reply,
        }
    }

    /// The number of an RN16 or of a handle, and 0 of other answers.
    pub(crate) fn number(&self) -> u16
        ensures value { result ≡ number_seen (seen_in self.now) }
        ensures small { number_seen (seen_in self.now) < 2 ^ 16 }
    {
        match self.answered {
            Answered::Silent => 0,
            Answered::Plain | Answered::Extended => number_of(&self.reply),
        }
    }

    /// The error code of the answer, if the tag sends an error.
    fn code(&self) -> Option<u8>
        ensures { result ≡ code_in (seen_in self.now) }
    {
        match self.answered {
            Answered::Silent => None,
            Answered::Plain | Answered::Extended => code_of(&self.reply),
        }
    }

    /// Whether both are errors with one preamble, and with two codes.
    pub(crate) fn is_other_error(&self, seen: &Answer) -> bool
        ensures { IsTrue result ↔ IsOtherError (seen_in self.now) (seen_in seen.now) }
    {
        let Some(code) = self.code() else {
            return false;
        };
        let Some(other) = seen.code() else {
            return false;
        };
        self.answered == seen.answered && other != code
    }
}

/// The number of an RN16 or of a handle, and 0 of other replies.
fn number_of(reply: &Reply) -> u16
    ensures { result ≡ number_of_reply reply.now }
{
    match reply {
        Reply::Rn16(number) | Reply::Handle(number) => *number,
        Reply::Epc { .. } | Reply::Words(_) | Reply::Header | Reply::Error(_) => 0,
    }
}

/// The error code of a reply, if the reply is an error.
fn code_of(reply: &Reply) -> Option<u8>
    ensures { result ≡ code_of_reply reply.now }
{
    match reply {
        Reply::Error(code) => Some(*code),
        Reply::Rn16(_) | Reply::Handle(_) | Reply::Epc { .. } | Reply::Words(_) | Reply::Header =>
            None,
    }
}
