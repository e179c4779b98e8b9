//! Lines of a report that say who said what in an exchange, written, each with its line feed. After an error the text may hold a
//! part of the line.
ghost use Rattle.std.specs.Prelude.{◌≡◌, ◌++◌, OnOk, [], ◌∷◌, codes};
ghost use Rattle.std.specs.String.{string_bytes};
ghost use Rattle.std.specs.Fmt.{decimal};
ghost use Rattle.text_fields.specs.Lines.{line_feed, line_with, space};
ghost use Rattle.report_lines.specs.ReportLine.{AnswerLine, ExchangeLine, MissedLine, given_fields, preamble_word, report_line_text};

use crate::line_writing::end_line;
use bit_strings::OutOfMemory;
use command_grammar::Command;
use reply_grammar::Reply;
use text_fields::{push_next_long_number, push_next_name, push_next_number};
use wave_dump::Gave;
use wire_text::{push_command, push_reply};

/// Writes the name of a line and the number of the exchange.
fn push_numbered(text: &mut String, name: &str, exchange: u64) -> Result<(), OutOfMemory>
    ensures { OnOk result (string_bytes text.new ≡ string_bytes text.old
        ++ line_with (name.now ∷ decimal exchange ∷ [])) }
{
    text.push_str(name)?;
    push_next_long_number(text, exchange)
}

/// Writes `exchange E COMMAND`: a command was sent.
pub fn push_exchange_line(
    text: &mut String,
    exchange: u64,
    command: &Command,
) -> Result<(), OutOfMemory>
    ensures { OnOk result (string_bytes text.new ≡ string_bytes text.old
        ++ report_line_text (ExchangeLine exchange command.now)) }
{
    push_numbered(text, "exchange", exchange)?;
    text.push(' ')?;
    push_command(text, command)?;
    end_line(text)
}

/// Writes `missed E TAG`: the tag with this number missed the command, as the scenario says.
pub fn push_missed_line(text: &mut String, exchange: u64, tag: u32) -> Result<(), OutOfMemory>
    ensures { OnOk result (string_bytes text.new ≡ string_bytes text.old
        ++ report_line_text (MissedLine exchange tag)) }
{
    push_numbered(text, "missed", exchange)?;
    push_next_number(text, tag)?;
    end_line(text)
}

/// With the extended preamble or by the link's TRext, as a word.
fn preamble_name(extended: bool) -> &'static str
    ensures { result.now ≡ preamble_word extended }
{
    if extended { "extended" } else { "plain" }
}

/// Writes `answer E TAG plain REPLY` or `answer E TAG extended REPLY`: what the tag with this number sent.
pub fn push_answer_line(
    text: &mut String,
    exchange: u64,
    tag: u32,
    extended: bool,
    reply: &Reply,
) -> Result<(), OutOfMemory>
    ensures { OnOk result (string_bytes text.new ≡ string_bytes text.old
        ++ report_line_text (AnswerLine exchange tag extended reply.now)) }
{
    push_numbered(text, "answer", exchange)?;
    push_next_number(text, tag)?;
    push_next_name(text, preamble_name(extended))?;
    text.push(' ')?;
    push_reply(text, reply)?;
    end_line(text)
}

/// Writes what the channel gave as the next fields.
fn push_next_given(text: &mut String, given: &Gave) -> Result<(), OutOfMemory>
    ensures { OnOk result (string_bytes text.new ≡ string_bytes text.old
        ++ space ∷ line_with (given_fields given.now)) }
{
    match given {
        Gave::Silence => push_next_name(text, "silence"),
        Gave::Whole(tag, _) => {
            push_next_name(text, "whole")?;
            push_next_number(text, *tag)
        }
        Gave::Broken(tag, place) => {
            push_next_name(text, "broken")?;
            push_next_number(text, *tag)?;
            push_next_number(text, *place)
        }
        Gave::Raw => push_next_name(text, "raw"),
    }
}

/// Writes `given E silence`, `given E whole TAG`, `given E broken TAG P` or `given E raw`: what the channel gave.
pub fn push_given_line(text: &mut String, exchange: u64, given: &Gave) -> Result<(), OutOfMemory>
    ensures { OnOk result (string_bytes text.new ≡ string_bytes text.old
        ++ (line_with (codes "given" ∷ decimal exchange ∷ given_fields given.now)
        ++ line_feed ∷ [])) }
{
    push_numbered(text, "given", exchange)?;
    push_next_given(text, given)?;
    end_line(text)
}
