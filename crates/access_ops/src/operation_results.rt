//! What is made of the reply to the last command of an operation.
ghost use Rattle.std.specs.Prelude.{◌≡◌};
ghost use Rattle.access_ops.specs.OpRunValue.{result_in_reply};
ghost use Rattle.access_ops.specs.declared.op_next.OpNext.{OpNext};
ghost use Rattle.access_ops.specs.declared.op_next.OpResult.{OpResult};

use crate::copies::copy_words;
use crate::op_next::{OpNext, OpResult};
use reply_grammar::{ReadWords, Reply};

/// Puts the result that a reply is in place of what came before.
pub(crate) fn tell_reply(reply: &Reply, next: &mut OpNext)
    ensures { next.new ≡ OpNext.Result (result_in_reply reply.now) }
{
    match reply {
        Reply::Error(code) => *next = OpNext::Result(OpResult::TagError(*code)),
        Reply::Words(words) => tell_words(words, next),
        _ => *next = OpNext::Result(OpResult::Ok(ReadWords::new())),
    }
}

/// Puts the result that these words are in place of what came before: they are copied once, to where they are told.
fn tell_words(words: &ReadWords, next: &mut OpNext)
    ensures { next.new ≡ OpNext.Result (OpResult.Ok words.now) }
{
    *next = OpNext::Result(OpResult::Ok(ReadWords::new()));
    match next {
        OpNext::Result(OpResult::Ok(told)) => copy_words(words, told),
        _ => unreachable!(),
    }
}
