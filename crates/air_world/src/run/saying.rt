//! Who said what in an exchange, told once it is over.
ghost use Rattle.std.specs.Prelude.{◌≡◌, ℕ, ◌≤◌, List, [], ◌∷◌, Some, length, map, slice_get};
ghost use Rattle.air_model.specs.Past.{Record};
ghost use Rattle.air_world.specs.Saying.{AnswersCommand, AreOfDifferentTags, AreShort, IsBehind};
ghost use Rattle.air_world.specs.Telling.{IsToldWhole};
ghost use Rattle.pie_line.specs.Link.{LinkValue};
ghost use Rattle.reply_grammar.specs.Replies.{longest_reply};
ghost use Rattle.report_lines.specs.ReportLine.{ExchangeLine, GivenLine, MissedLine};
ghost use Rattle.runs.specs.Report.{wave_lines};
ghost use Rattle.runs.specs.Said.{answer_line, exchanged_by, gave_of, said_lines};
ghost use Rattle.runs.specs.laws.Replies.{AreReplies};
ghost use Rattle.tag_machine.specs.Answers.{Sent, bits_sent};
ghost use Rattle.tag_machine.specs.TagsInExchange.{Replied};
ghost use Rattle.tag_population.specs.Answers.{answers_of};

use air_channel::{Air, Answers, Got};
use air_events::Entry;
use bit_strings::Bits;
use command_grammar::Command;
use reply_grammar::Reply;
use report_lines::{Line, Listener};
use tag_machine::reply_to;
use wave_dump::{Exchanged, Gave};

/// The reply that the bits of an answer are, read in the room that is lent for it.
fn read(command: &Command, answer: &[bool], bits: &mut Bits) -> Reply
    requires { length answer.now ≤ bits.old.capacity }
    ensures room { bits.new.capacity ≡ bits.old.capacity }
    ensures reply { (sent : Sent) → AnswersCommand command.now sent
        → answer.now ≡ bits_sent (Some sent) → result ≡ sent.reply }
{
    bits.clear();
    bits.put_all_reserved(answer);
    reply_to(command, bits)
}

/// Tells which command was sent, and which tags missed it.
fn tell_command<R: Listener>(exchange: u64, command: &Command, entry: &Entry, report: &mut R)
    ensures { IsToldWhole R.hears
        (ExchangeLine exchange command.now ∷ map (MissedLine exchange) entry.now.missed)
        report.old report.new }
{
    report.tell(&Line::Exchange { exchange, command });
    for tag in entry.missed.as_slice() {
        report.tell(&Line::Missed {
            exchange,
            tag: *tag,
        });
    }
}

/// Tells what each tag answered, in the order of their numbers.
fn tell_answers<R: Listener>(
    answers: &Answers,
    exchange: u64,
    command: &Command,
    bits: &mut Bits,
    report: &mut R,
)
    requires room { longest_reply ≤ bits.old.capacity }
    requires short { AreShort answers.now.items }
    ensures room { bits.new.capacity ≡ bits.old.capacity }
    ensures told { (replies : List Replied) → answers.now.items ≡ answers_of replies
        → AreReplies (AnswersCommand command.now) replies
        → IsToldWhole R.hears (map (answer_line exchange) replies) report.old report.new }
{
    for place in 0..answers.len() {
        let Some(answer) = answers.get(place) else {
            unreachable!();
        };
        let reply = read(command, answer.bits, bits);
        report.tell(&Line::Answer {
            exchange,
            tag: u32::from(answer.number.get()),
            extended: answer.extended,
            reply: &reply,
        });
    }
}

/// The reply of the tag with this number, which answered.
fn reply_of(answers: &Answers, tag: u32, command: &Command, bits: &mut Bits) -> Reply
    requires room { longest_reply ≤ bits.old.capacity }
    requires short { AreShort answers.now.items }
    ensures room { bits.new.capacity ≡ bits.old.capacity }
    ensures reply { (replies : List Replied) (place : ℕ) (replied : Replied)
        → answers.now.items ≡ answers_of replies → AreReplies (AnswersCommand command.now) replies
        → AreOfDifferentTags replies → slice_get replies place ≡ Some replied → tag ≡ replied.number
        → result ≡ replied.sent.reply }
{
    for place in 0..answers.len() {
        let Some(answer) = answers.get(place) else {
            unreachable!();
        };
        if u32::from(answer.number.get()) == tag {
            return read(command, answer.bits, bits);
        }
    }
    // A tag that the channel gives has answered.
    Reply::Header
}

/// What the channel gave, with the reply that came whole.
fn gave_of(air: &Air, got: Got, command: &Command, bits: &mut Bits) -> Gave
    requires room { longest_reply ≤ bits.old.capacity }
    requires short { AreShort air.now.answers }
    ensures room { bits.new.capacity ≡ bits.old.capacity }
    ensures gave { (link : LinkValue) (sent : Record) → IsBehind link sent air.now got
        → command.now ≡ sent.command → result ≡ gave_of link sent.given }
{
    match got {
        Got::Silence => Gave::Silence,
        Got::Whole(tag) => Gave::Whole(tag, reply_of(air.answers(), tag, command, bits)),
        Got::Broken(tag, place) => Gave::Broken(tag, place),
        Got::Raw => Gave::Raw,
    }
}

/// Tells what the channel gave.
fn tell_given<R: Listener>(
    air: &Air,
    got: Got,
    exchange: u64,
    command: &Command,
    bits: &mut Bits,
    report: &mut R,
)
    requires room { longest_reply ≤ bits.old.capacity }
    requires short { AreShort air.now.answers }
    ensures room { bits.new.capacity ≡ bits.old.capacity }
    ensures told { (link : LinkValue) (sent : Record)
        → IsBehind link sent air.now got → exchange ≡ sent.exchange → command.now ≡ sent.command
        → IsToldWhole R.hears (GivenLine (exchanged_by link sent) ∷ []) report.old report.new }
{
    let given = gave_of(air, got, command, bits);
    report.tell(&Line::Given(Exchanged {
        number: exchange,
        command,
        intervals: air.intervals().as_slice(),
        replies: air.replies(),
        given: &given,
        levels: air.stream(),
    }));
}

/// Tells who said what in the last exchange of an air, to a listener that wants it: the command, which tags missed it, what each tag
/// answered, and what the channel gave.
pub(crate) fn tell_said<R: Listener>(
    air: &Air,
    got: Got,
    exchange: u64,
    command: &Command,
    entry: &Entry,
    bits: &mut Bits,
    report: &mut R,
)
    requires room { longest_reply ≤ bits.old.capacity }
    requires short { AreShort air.now.answers }
    ensures room { bits.new.capacity ≡ bits.old.capacity }
    ensures told { (link : LinkValue) (sent : Record)
        → IsBehind link sent air.now got → exchange ≡ sent.exchange → command.now ≡ sent.command
        → entry.now ≡ sent.entry
        → IsToldWhole R.hears (said_lines link sent) report.old report.new }
{
    if !report.wants_exchanges() {
        return;
    }
    tell_command(exchange, command, entry, report);
    tell_answers(air.answers(), exchange, command, bits, report);
    tell_given(air, got, exchange, command, bits, report);
}

/// Tells of the waves of the last exchange of an air, to a listener that wants them: the frame that was sent, and the stream that came.
pub(crate) fn tell_waves<R: Listener>(air: &Air, exchange: u64, report: &mut R)
    ensures { (got : Got) (link : LinkValue) (sent : Record)
        → IsBehind link sent air.now got → exchange ≡ sent.exchange
        → IsToldWhole R.hears (wave_lines link sent) report.old report.new }
{
    if !report.wants_frames() {
        return;
    }
    report.tell(&Line::Tx {
        exchange,
        intervals: air.intervals().as_slice(),
    });
    report.tell(&Line::Rx {
        exchange,
        count: air.replies(),
        levels: air.stream().as_slice(),
    });
}
