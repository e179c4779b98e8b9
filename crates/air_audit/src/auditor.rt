//! An audit that is under way.
ghost use Rattle.std.specs.Prelude.{◌≡◌, ◌↔◌, ◌+◌, ◌<◌, ◌^◌, ◌++◌, ℕ, List, [], IfErr, IfOk, IsOk, IsTrue, OnOk, Some, codes, length, slice_get};
ghost use Rattle.std.specs.String.{string_bytes};
ghost use Rattle.air_model.specs.Past.{Start, Record, Item};
ghost use Rattle.report_lines.specs.ReportLine.{report_line_text, TagLine};
ghost use Rattle.tag_machine.specs.TagValue.{TagValue};
ghost use Rattle.runs.specs.Listing.{Listed};
ghost use Rattle.reply_wire.specs.Codes.{table_of};
ghost use Rattle.reply_grammar.specs.Reception.{reception_from};
ghost use Rattle.reply_wire.specs.Heard.{pair_received};
ghost use Rattle.reply_wire.specs.Received.{IsReceived};
ghost use Rattle.air_audit.specs.AuditorStanding.{ExpectsList, GoesOnOrStops, AuditorIsAt, AuditorIsBegun, IsEarly, IsHearing, AuditIsUnderway, KeepsUp, Lists, SendsTo, AuditorStandsAt, TellsLine, TellsOther, WritesTold};
ghost use Rattle.air_audit.specs.LineRefusals.{IsNoTxLine};
ghost use Rattle.air_audit.specs.TraceOrder.{TraceStanding, begun, between, listing, sending, telling, told_line};
ghost use Rattle.report_lines.specs.ReadLines.{first_field};

use crate::AuditReason;
use crate::expected_lines::is_text;
use crate::heard_levels::{HeardLevels, STREAM_ROOM};
use crate::rounds::place_of_command;
use crate::rx_line::compare_rx_line;
use crate::sent_frame::SentFrame;
use crate::stop::Stop;
use crate::trace_line_words::{Word, word_of_line};
use air_events::EntryCursor;
use bit_strings::{Bits, OutOfMemory};
use command_grammar::Command;
use pie_line::Link;
use reply_grammar::{EpcWords, Expect, Received, Reply};
use reply_wire::receive;
use report_lines::{push_blf_line, push_done_line, push_list_line, push_tag_line};
use std::alloc::Global;
use std::marker::Model;
use std::sync::ledger::Ledger;
use tag_machine::{Several, Steps, answers_are_replies, steps_keep_tags_legal};
use tag_population::{Answers, Population};

/// Where a trace stands.
#[derive(Clone, Copy)]
pub(crate) enum Position {
    /// Before its first line.
    First,
    /// Behind that or an exchange.
    Between,
    /// Behind the tx line of an exchange.
    Sending,
    /// Behind an exchange that lists an EPC, before its list line.
    Listing,
    /// Behind the lines of so many tags, of one at least.
    Telling(u32),
    /// Behind its last line.
    Ended,
}

/// An audit that is under way: where the trace stands, and the tags as its commands left them.
pub(crate) struct Auditor<'a, L: Ledger> {
    several: Several,
    population: Population,
    entries: EntryCursor<'a>,
    steps: Steps<L>,
    position: Position,
    exchanges: u32,
    round: u32,
    slot: u32,
    /// The frame of the last tx line.
    frame: SentFrame,
    /// What the tags answered it, and what the channel gives of that.
    answers: Answers,
    heard: HeardLevels,
    /// Room for the levels of a line, and for the bits of a reply.
    room: Bits,
    /// Room for a reply.
    received: Received,
    /// The line that has to come, where one is written.
    text: String,
}

// Written out, so that a drop is one call in the proof of each function that owns an audit, and not one for each part.
impl<'a, L: Ledger> Drop for Auditor<'a, L> {
    fn drop(self) {
        let Auditor {
            several: _,
            population: _,
            entries: _,
            steps: _,
            position: _,
            exchanges: _,
            round: _,
            slot: _,
            frame: _,
            answers: _,
            heard: _,
            room: _,
            received: _,
            text: _,
        } = self;
    }
}

impl<'a, L: Ledger> Model for Auditor<'a, L> {
    ghost use Rattle.std.specs.Prelude.{◌≤◌, length};
    ghost use Rattle.std.specs.String.{string_bytes};
    ghost use Rattle.air_audit.specs.AuditorStanding.{AuditorValue};
    ghost use Rattle.air_audit.specs.HeardLevels.{room_for_audited_streams};

    ghost Value = { AuditorValue };

    ghost view = { λ a. record { several = a.several; tags = a.population; entries = a.entries; position = a.position; exchanges = a.exchanges; round = a.round; slot = a.slot; sent = a.frame; answers = record { link = a.heard.link; count = length a.answers.items; levels = a.heard.levels }; text = string_bytes a.text } };

    ghost invariant = { λ a. (room_for_audited_streams ≤ a.room.capacity)
        × (length a.population ≤ a.answers.tags) };
}

impl<'a, L: Ledger> Auditor<'a, L> {
    /// Begins an audit: no line was read yet.
    pub(crate) fn new(
        alloc: Global,
        population: Population,
        link: Link,
        several: Several,
        entries: EntryCursor<'a>,
        steps: Steps<L>,
    ) -> Result<Auditor<'a, L>, OutOfMemory>
        ensures { IfOk result
            (λ auditor. AuditorIsBegun link several population entries.entry auditor) }
    {
        let frame = SentFrame::new(alloc)?;
        let answers = Answers::new(alloc, population.len() as usize)?;
        let heard = HeardLevels::new(alloc, link)?;
        let room = Bits::new(alloc, STREAM_ROOM)?;
        Ok(Auditor {
            several,
            population,
            entries,
            steps,
            position: Position::First,
            exchanges: 0,
            round: 0,
            slot: 0,
            frame,
            answers,
            heard,
            room,
            received: Received::Refused(0),
            text: String::new(alloc),
        })
    }

    /// Whether the trace stands behind its last line.
    pub(crate) fn has_ended(&self) -> bool
        ensures { IsTrue result ↔ (self.now.position ≡ Position.Ended) }
    {
        matches!(self.position, Position::Ended)
    }

    /// Goes on with a line, which is given without its line feed.
    ///
    /// # Errors
    ///
    /// The first reason for which the line doesn't follow, or that there was no memory for the text that has to stand there.
    pub(crate) fn follow(&mut self, line: &[u8]) -> Result<(), Stop>
        requires underway { AuditIsUnderway self.old }
        requires early { IsEarly (2 ^ 31) self.old }
        ensures follows { (start : Start) (standing : TraceStanding)
            → AuditorStandsAt start standing self.old
            → GoesOnOrStops result start standing line.now self.new }
        ensures early { (most : ℕ) → IsEarly most self.old → IsEarly (most + 1) self.new }
    {
        match self.position {
            Position::First => self.begin(line),
            Position::Between => self.go_on(line),
            Position::Sending => self.hear(line),
            Position::Listing => self.list(line),
            Position::Telling(told) => self.tell_on(told, line),
            Position::Ended => Err(Stop::Refused(AuditReason::Extra)),
        }
    }

    /// Goes on with the first line, which has to be that of the link.
    fn begin(&mut self, line: &[u8]) -> Result<(), Stop>
        ensures follows { (start : Start) → KeepsUp start [] self.old
            → GoesOnOrStops result start begun line.now self.new }
        ensures early { (most : ℕ) → IsEarly most self.old → IsEarly (most + 1) self.new }
    {
        let (numerator, denominator) = self.heard.link().blf();
        self.text.clear();
        push_blf_line(&mut self.text, numerator, denominator)?;
        if !is_text(line, self.text.as_str()) {
            return Err(Stop::Refused(AuditReason::Blf));
        }
        self.position = Position::Between;
        Ok(())
    }

    /// Goes on with a line behind the first one or an exchange.
    fn go_on(&mut self, line: &[u8]) -> Result<(), Stop>
        requires underway { (start : Start) × (past : List Item) × KeepsUp start past self.old }
        requires early { IsEarly (2 ^ 31) self.old }
        ensures follows { (start : Start) (past : List Item)
            → AuditorIsAt Position.Between start past self.old
            → GoesOnOrStops result start (between past) line.now self.new }
        ensures early { (most : ℕ) → IsEarly most self.old → IsEarly (most + 1) self.new }
    {
        match word_of_line(line) {
            Word::Tx => match self.send(line) {
                Ok(()) => Ok(()),
                Err(reason) => Err(Stop::Refused(reason)),
            },
            Word::Unjudged => Ok(()),
            Word::OfTags => self.tell(0, line),
            Word::List => Err(Stop::Refused(AuditReason::List)),
            Word::Rx => Err(Stop::Refused(AuditReason::Word)),
            Word::Other => Err(Stop::Refused(AuditReason::Word)),
        }
    }

    /// Goes on with a line that begins with `tx`, behind the first line or an exchange: the tags hear its command.
    fn send(&mut self, line: &[u8]) -> Result<(), AuditReason>
        requires underway { (start : Start) × (past : List Item) × KeepsUp start past self.old }
        requires early { IsEarly (2 ^ 31) self.old }
        requires word { first_field line.now ≡ codes "tx" }
        ensures sends { IsOk result → (start : Start) (past : List Item)
            → KeepsUp start past self.old → SendsTo start past line.now self.new }
        ensures refused { IfErr result (IsNoTxLine (self.old.exchanges + 1) line.now) }
        ensures early { (most : ℕ) → IsEarly most self.old → IsEarly (most + 1) self.new }
    {
        let exchange = self.exchanges + 1;
        self.frame.read(line, exchange)?;
        let entry = self.entries.next_entry(u64::from(exchange));
        let command = self.frame.command();
        let (round, slot) = place_of_command(self.round, self.slot, command);
        self.population
            .befall_all(entry.events.as_slice(), &mut self.steps);
        self.population
            .hear(command, entry, &mut self.answers, &mut self.steps);
        self.heard.hear(&self.answers, &entry.choice, self.several);
        self.exchanges = exchange;
        self.round = round;
        self.slot = slot;
        self.position = Position::Sending;
        Ok(())
    }

    /// Goes on with a line behind a tx line: the rx line of the exchange has to follow.
    fn hear(&mut self, line: &[u8]) -> Result<(), Stop>
        requires { IsEarly (2 ^ 31) self.old }
        ensures follows { (start : Start) (past : List Item) (sent : Record)
            → IsHearing start past sent self.old
            → GoesOnOrStops result start (sending past sent) line.now self.new }
        ensures early { (most : ℕ) → IsEarly most self.old → IsEarly (most + 1) self.new }
    {
        match word_of_line(line) {
            Word::Rx => self.hear_levels(line),
            Word::List => Err(Stop::Refused(AuditReason::List)),
            _ => Err(Stop::Refused(AuditReason::Word)),
        }
    }

    /// Goes on with a line that begins with `rx`, behind a tx line.
    fn hear_levels(&mut self, line: &[u8]) -> Result<(), Stop>
        requires word { first_field line.now ≡ codes "rx" }
        requires early { IsEarly (2 ^ 31) self.old }
        ensures follows { (start : Start) (past : List Item) (sent : Record)
            → IsHearing start past sent self.old
            → GoesOnOrStops result start (sending past sent) line.now self.new }
        ensures early { (most : ℕ) → IsEarly most self.old → IsEarly (most + 1) self.new }
    {
        // By these laws no levels come that are too many for a line.
        answers_are_replies();
        steps_keep_tags_legal();
        if let Err(reason) = compare_rx_line(
            line,
            self.exchanges,
            self.answers.len(),
            self.heard.levels(),
            &mut self.room,
        ) {
            return Err(Stop::Refused(reason));
        }
        let Some((pc, epc)) = self.pair_to_list() else {
            self.position = Position::Between;
            return Ok(());
        };
        self.text.clear();
        push_list_line(&mut self.text, self.round, self.slot, pc, &epc)?;
        self.position = Position::Listing;
        Ok(())
    }

    /// What the last exchange lists: the PC and the EPC that come whole in reply to an ACK.
    fn pair_to_list(&mut self) -> Option<(u16, EpcWords)>
        ensures same { self.new ≡ self.old }
        ensures lists { (start : Start) (past : List Item) (sent : Record)
            → IsHearing start past sent self.old → Lists result sent }
    {
        // By these laws what is received of a stream is what the channel gives.
        answers_are_replies();
        steps_keep_tags_legal();
        if !self.frame.is_ack() || self.heard.levels().is_empty() {
            return None;
        }
        self.hear_epc()
    }

    /// The PC and the EPC that are received of the levels that the audit heard last, if they come whole.
    fn hear_epc(&mut self) -> Option<(u16, EpcWords)>
        ensures same { self.new ≡ self.old }
        ensures received { (received : Received)
            × IsReceived (table_of self.old.answers.link.code) self.old.answers.link.trext
            Expect.Epc self.old.answers.levels received
            × (result ≡ pair_received (reception_from received)) }
    {
        let link = self.heard.link();
        receive(
            self.heard.levels(),
            link.code(),
            link.trext(),
            &Expect::Epc,
            &mut self.room,
            &mut self.received,
        );
        pair_of(&self.received)
    }

    /// Goes on with a line behind an exchange that lists an EPC: its list line has to follow.
    fn list(&mut self, line: &[u8]) -> Result<(), Stop>
        ensures follows { (start : Start) (past : List Item) (listed : Listed)
            → ExpectsList start past listed self.old
            → GoesOnOrStops result start (listing past listed) line.now self.new }
        ensures early { (most : ℕ) → IsEarly most self.old → IsEarly (most + 1) self.new }
    {
        if !is_text(line, self.text.as_str()) {
            return Err(Stop::Refused(AuditReason::List));
        }
        self.position = Position::Between;
        Ok(())
    }

    /// Goes on with a line behind those of so many tags.
    fn tell_on(&mut self, told: u32, line: &[u8]) -> Result<(), Stop>
        ensures follows { (start : Start) (past : List Item) → KeepsUp start past self.old
            → GoesOnOrStops result start (telling past told) line.now self.new }
        ensures early { (most : ℕ) → IsEarly most self.old → IsEarly (most + 1) self.new }
    {
        match word_of_line(line) {
            Word::OfTags => self.tell(told, line),
            Word::List => Err(Stop::Refused(AuditReason::List)),
            _ => Err(Stop::Refused(AuditReason::Word)),
        }
    }

    /// Goes on with a line that has to be that of the next tag behind so many, or the last one.
    fn tell(&mut self, told: u32, line: &[u8]) -> Result<(), Stop>
        ensures tells { IsOk result
            → TellsLine told (slice_get self.old.tags told) line.now self.old self.new }
        ensures other { IfErr result
            (TellsOther (told_line told (slice_get self.old.tags told)) line.now) }
        ensures early { (most : ℕ) → IsEarly most self.old → IsEarly (most + 1) self.new }
    {
        let behind = self.write_told(told)?;
        if !is_text(line, self.text.as_str()) {
            return Err(Stop::Refused(AuditReason::Tag));
        }
        self.position = behind;
        Ok(())
    }

    /// Writes the line of the next tag behind so many, or the last line, and says where a trace stands behind it.
    fn write_told(&mut self, told: u32) -> Result<Position, OutOfMemory>
        ensures rest { self.new ≡ record self.old { text = self.new.text } }
        ensures told { IfOk result
            (λ behind. WritesTold told (slice_get self.old.tags told) behind self.new.text) }
    {
        self.text.clear();
        if told >= self.population.len() {
            push_done_line(&mut self.text)?;
            return Ok(Position::Ended);
        }
        push_tag(&mut self.text, told, &mut self.population, &mut self.steps)?;
        Ok(Position::Telling(told + 1))
    }
}

/// The PC and the EPC, where they were received whole.
fn pair_of(received: &Received) -> Option<(u16, EpcWords)>
    ensures { result ≡ pair_received (reception_from received.now) }
{
    match received {
        Received::Whole(Reply::Epc { pc, epc }) => Some((*pc, EpcWords::of(epc.as_slice()))),
        _ => None,
    }
}

/// Writes the line of the tag with this number.
fn push_tag<L: Ledger>(
    text: &mut String,
    number: u32,
    population: &mut Population,
    steps: &mut Steps<L>,
) -> Result<(), OutOfMemory>
    requires { number < length population.old }
    ensures same { population.new ≡ population.old }
    ensures text { OnOk result
        ((tag : TagValue) → slice_get population.old number ≡ Some tag
        → string_bytes text.new ≡ string_bytes text.old ++ report_line_text (TagLine number tag)) }
{
    let tag = population.tag(number, steps);
    push_tag_line(text, number, tag)
}
