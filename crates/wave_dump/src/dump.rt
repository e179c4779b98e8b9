//! The waves of a run as a value change dump, written as they are told.
ghost use Rattle.std.specs.Prelude.{◌≡◌, ◌++◌, [], ◌∷◌, IfOk, OnOk};
ghost use Rattle.std.specs.String.{string_bytes};
ghost use Rattle.wave_dump.specs.Waves.{answer_begin, answer_moments, begin_behind, dump_behind, end_text, exchange_text, head_text, heard_signals, moments_text, new_dump, sent_signals};
ghost use Rattle.wave_dump.specs.Borrowed.{exchanged_of, signals_of};

use crate::exchanged::Exchanged;
use crate::signals::{Signals, push_changes, push_moment, push_time};
use crate::times::{answer_begin, begin_behind_silence, later, level_begin, t2, t4};
use crate::values::{set_command, set_reply};
use crate::waves::{push_frame, push_stream};
use bit_strings::OutOfMemory;
use pie_line::Link;
use std::alloc::Global;
use std::marker::Model;
use std::mem;

/// Where a dump stands between two exchanges. It keeps no line: a contract sees it as the link, the time at which the next frame
/// begins, and the signals until then.
#[derive(Drop)]
pub struct Dump {
    link: Link,
    begin: u64,
    exchange: u64,
    replies: u32,
    command: String,
    /// Room for the values of an exchange, and for a line.
    next: String,
    reply: String,
    line: String,
}

impl Model for Dump {
    ghost use Rattle.std.specs.String.{string_bytes};
    ghost use Rattle.wave_dump.specs.DumpValue.{DrawingValue};
    ghost use Rattle.wave_dump.specs.Waves.{idle_between};

    ghost Value = { DrawingValue };

    ghost view = { λ a. record { link = a.link; dump = record { begin = a.begin; signals = idle_between a.exchange a.replies (string_bytes a.command) } } };
}

/// Writes the head of a dump, up to its first moment.
pub fn push_head(text: &mut String) -> Result<(), OutOfMemory>
    ensures { OnOk result (string_bytes text.new ≡ string_bytes text.old ++ head_text) }
{
    text.push_str(concat!(
        "$comment intervals and levels as played; the gaps between them are drawn $end\n",
        "$timescale 1 ns $end\n$scope module gen2 $end\n",
        "$var wire 1 r reader $end\n$var wire 1 t tag $end\n",
        "$var real 64 e exchange $end\n$var real 64 n replies $end\n",
        "$var string 1 c command $end\n$var string 1 g reply $end\n",
        "$upscope $end\n$enddefinitions $end\n",
        "#0\n$dumpvars\n1r\nzt\nr0 e\nr0 n\ns- c\ns- g\n$end\n",
    ))
}

/// Writes what comes behind a frame that ends at a time: the levels, or that some tags replied of which none came. Gives the time at
/// which the next frame begins.
fn push_answer(
    text: &mut String,
    link: &Link,
    end: u64,
    exchanged: &Exchanged<'_>,
    sent: &Signals<'_>,
    reply: &str,
) -> Result<u64, OutOfMemory>
    requires sent { signals_of sent.now ≡ sent_signals (exchanged_of exchanged.now) }
    requires reply { reply.now ≡ (heard_signals (exchanged_of exchanged.now)).reply }
    ensures text { OnOk result (string_bytes text.new ≡ string_bytes text.old
        ++ moments_text (sent_signals (exchanged_of exchanged.now))
        (answer_moments link.now (exchanged_of exchanged.now) (answer_begin link.now end)
        (exchanged_of exchanged.now).levels)) }
    ensures begin { IfOk result
        (λ begin. begin ≡ begin_behind link.now (exchanged_of exchanged.now).command end
        (exchanged_of exchanged.now).levels) }
{
    let begin = answer_begin(link, end);
    let unheard = Signals {
        replies: exchanged.replies,
        ..*sent
    };
    if exchanged.levels.is_empty() {
        push_moment(text, begin, sent, &unheard)?;
        return Ok(begin_behind_silence(link, exchanged.command, end));
    }
    let heard = Signals { reply, ..unheard };
    push_stream(text, link, begin, exchanged.levels, sent, &heard)?;
    let end = level_begin(link, begin, exchanged.levels.len());
    Ok(later(end, t2(link)))
}

impl Dump {
    /// The dump of a run over this link, before its first frame.
    pub fn new(alloc: Global, link: Link) -> Result<Dump, OutOfMemory>
        ensures { IfOk result (λ dump. dump ≡ record { link = link; dump = new_dump link }) }
    {
        let mut command = String::new(alloc);
        command.push('-')?;
        Ok(Dump {
            link,
            begin: t4(&link),
            exchange: 0,
            replies: 0,
            command,
            next: String::new(alloc),
            reply: String::new(alloc),
            line: String::new(alloc),
        })
    }

    /// Writes the waves of an exchange.
    pub fn push_exchange(
        &mut self,
        text: &mut String,
        exchanged: &Exchanged<'_>,
    ) -> Result<(), OutOfMemory>
        ensures text { OnOk result (string_bytes text.new ≡ string_bytes text.old
            ++ exchange_text self.old.link self.old.dump (exchanged_of exchanged.now)) }
        ensures behind { OnOk result
            (self.new ≡ record
            self.old {
              dump = dump_behind self.old.link self.old.dump
                  (exchanged_of exchanged.now);
            }) }
    {
        set_command(&mut self.next, &mut self.line, exchanged.command)?;
        set_reply(&mut self.reply, &mut self.line, exchanged.given)?;
        let old = Signals {
            reader: true,
            tag: None,
            exchange: self.exchange,
            replies: self.replies,
            command: self.command.as_str(),
            reply: "-",
        };
        let sent = Signals {
            exchange: exchanged.number,
            replies: 0,
            command: self.next.as_str(),
            ..old
        };
        let end = push_frame(text, self.begin, exchanged.intervals, &old, &sent)?;
        self.begin = push_answer(text, &self.link, end, exchanged, &sent, self.reply.as_str())?;
        self.exchange = exchanged.number;
        self.replies = if exchanged.levels.is_empty() {
            exchanged.replies
        } else {
            0
        };
        mem::swap(&mut self.command, &mut self.next);
        Ok(())
    }

    /// Writes the time at which a further frame would begin; no tag replies any more.
    pub fn push_end(&self, text: &mut String) -> Result<(), OutOfMemory>
        ensures { OnOk result (string_bytes text.new ≡ string_bytes text.old
            ++ end_text self.now.dump) }
    {
        let old = Signals {
            reader: true,
            tag: None,
            exchange: self.exchange,
            replies: self.replies,
            command: self.command.as_str(),
            reply: "-",
        };
        push_time(text, self.begin)?;
        push_changes(text, &old, &Signals { replies: 0, ..old })
    }
}
