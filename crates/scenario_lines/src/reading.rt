//! Lines, read. Nothing here takes memory: what a line says borrows from its text.
ghost use Rattle.std.specs.Prelude.{◌≡◌, ◌≤◌, ◌↔◌, [], ◌∷◌, IfOk, IfErr, IfSome, IfNone, IsOk, IsOkAnd, IsTrue};
ghost use Rattle.std.specs.Fmt.{decimal};
ghost use Rattle.text_fields.specs.Lines.{fields_of};
ghost use Rattle.scenario_lines.specs.declared.line.Line.{Line};
ghost use Rattle.scenario_lines.specs.declared.keywords.Keyword.{Keyword};
ghost use Rattle.scenario_lines.specs.LineFaults.{BeginsWithKeyword, HasKnownKind, IsFaultyLine, IsFaultyBehind};
ghost use Rattle.scenario_lines.specs.Reading.{MisreadsNumber};
ghost use Rattle.scenario_lines.specs.SpelledLines.{SpellsLine, SpellsBehind};

mod air;
mod event;
mod head;
mod link;
mod op;
mod round;
mod select;
mod tag;

use crate::names::event_kind_named;
use crate::{AirKind, Keyword, Line, OpKind};
use air::read_air;
use checked_lines::FaultReason;
use event::read_event;
use head::{read_default, read_version};
use link::read_link;
use op::{read_only, read_op};
use round::read_round;
use select::read_select;
use std::marker::Model;
use tag::read_copies;
pub use tag::read_tag;
use text_fields::{Fields, is_at_end, number, one_field};
use wire_text::value_named;

/// The number up to `most` that the one field that is left spells.
fn one_number(fields: Fields, most: u32) -> Result<u32, FaultReason>
    ensures ok { IfOk result (λ n. (fields.entry ≡ decimal n ∷ []) × (n ≤ most)) }
    ensures refused { IfErr result (MisreadsNumber most fields.entry) }
{
    let Some(field) = one_field(fields) else {
        return Err(FaultReason::Shape);
    };
    match number(field, most) {
        Some(number) => Ok(number),
        None => Err(FaultReason::Number),
    }
}

/// Whether a kind that stands behind the first field is one of its kinds. That of an air line stands behind the number of
/// its exchange.
fn has_known_kind(keyword: Keyword, mut others: Fields) -> bool
    ensures { IsTrue result ↔ HasKnownKind keyword others.entry }
{
    match keyword {
        Keyword::Air => {
            if others.next().is_none() {
                return true;
            }
            match others.next() {
                Some(kind) => value_named::<AirKind>(kind).is_some(),
                None => true,
            }
        }
        Keyword::Event => match others.next() {
            Some(kind) => event_kind_named(kind).is_some(),
            None => true,
        },
        Keyword::Op => match others.next() {
            Some(kind) => value_named::<OpKind>(kind).is_some(),
            None => true,
        },
        _ => true,
    }
}

/// Whether no field stands behind the first.
fn read_bare(others: Fields) -> Result<(), FaultReason>
    ensures ok { IsOk result ↔ (others.entry ≡ []) }
    ensures refused { IfErr result (λ fault. fault ≡ FaultReason.Shape) }
{
    if is_at_end(others) {
        Ok(())
    } else {
        Err(FaultReason::Shape)
    }
}

/// What a line with this keyword says, by its other fields.
fn read_behind<'a>(keyword: Keyword, others: Fields<'a>) -> Result<Line<'a>, FaultReason>
    ensures ok { IfOk result (SpellsBehind keyword others.entry) }
    ensures refused { IfErr result (IsFaultyBehind keyword others.entry) }
{
    // A `?` in each arm would be two calls more, which the proof goes through.
    match keyword {
        Keyword::Version => match read_version(others) {
            Ok(version) => Ok(Line::Version(version)),
            Err(fault) => Err(fault),
        },
        Keyword::Link => match read_link(others) {
            Ok(link) => Ok(Line::Link(link)),
            Err(fault) => Err(fault),
        },
        Keyword::Default => match read_default(others) {
            Ok(several) => Ok(Line::Default(several)),
            Err(fault) => Err(fault),
        },
        Keyword::Tag => match read_tag(others) {
            Ok(tag) => Ok(Line::Tag(tag)),
            Err(fault) => Err(fault),
        },
        Keyword::Copies => match read_copies(others) {
            Ok((count, tag)) => Ok(Line::Copies(count, tag)),
            Err(fault) => Err(fault),
        },
        Keyword::Air => match read_air(others) {
            Ok((exchange, happening)) => Ok(Line::Air {
                exchange,
                happening,
            }),
            Err(fault) => Err(fault),
        },
        Keyword::Select => match read_select(others) {
            Ok(selection) => Ok(Line::Select(selection)),
            Err(fault) => Err(fault),
        },
        Keyword::Nak => match read_bare(others) {
            Ok(()) => Ok(Line::Nak),
            Err(fault) => Err(fault),
        },
        Keyword::Event => match read_event(others) {
            Ok((event, tag)) => Ok(Line::Event { event, tag }),
            Err(fault) => Err(fault),
        },
        Keyword::Round => match read_round(others) {
            Ok((version, spec)) => Ok(Line::Round(version, spec)),
            Err(fault) => Err(fault),
        },
        Keyword::Only => match read_only(others) {
            Ok(epc) => Ok(Line::Only(epc)),
            Err(fault) => Err(fault),
        },
        Keyword::Op => match read_op(others) {
            Ok(op) => Ok(Line::Op(op)),
            Err(fault) => Err(fault),
        },
        Keyword::End => match read_bare(others) {
            Ok(()) => Ok(Line::End),
            Err(fault) => Err(fault),
        },
    }
}

/// A line that begins with a keyword of a scenario, of which no more is read yet. A contract sees it as its
/// fields.
#[derive(Drop)]
pub struct BegunLine<'a> {
    line: &'a [u8],
    keyword: Keyword,
}

impl<'a> Model for BegunLine<'a> {
    ghost use Rattle.std.specs.Prelude.{List, ℕ};
    ghost use Rattle.text_fields.specs.Lines.{fields_of};
    ghost use Rattle.scenario_lines.specs.LineFaults.{BeginsWithKeyword};

    ghost Value = { List (List ℕ) };

    ghost view = { λ a. fields_of a.line.now };

    ghost invariant = { λ a. BeginsWithKeyword (fields_of a.line.now) a.keyword };
}

impl<'a> BegunLine<'a> {
    /// A line, which is given without its line feed. None exactly where the first field is no keyword of a
    /// scenario, or the kind of an air, event or op line is there and is none of its kinds.
    pub fn new(line: &'a [u8]) -> Option<BegunLine<'a>>
        ensures value { IfSome result (λ begun. begun ≡ fields_of line.now) }
        ensures none { IfNone result (IsFaultyLine (fields_of line.now) FaultReason.Word) }
    {
        let mut fields = Fields::new(line);
        let keyword = value_named(fields.next()?)?;
        if has_known_kind(keyword, fields) {
            Some(BegunLine { line, keyword })
        } else {
            None
        }
    }

    /// The keyword that the line begins with.
    pub fn keyword(&self) -> Keyword
        ensures value { BeginsWithKeyword self.now result }
        ensures only { (keyword : Keyword) → BeginsWithKeyword self.now keyword → keyword ≡ result }
    {
        self.keyword
    }

    /// What the line says.
    ///
    /// # Errors
    ///
    /// The first reason for which the line says nothing, whatever the lines before it say.
    pub fn read(self) -> Result<Line<'a>, FaultReason>
        // What is read is spelled so.
        ensures ok { IfOk result (SpellsLine self.entry) }
        // What is spelled so is read.
        ensures only { (said : Line) → SpellsLine self.entry said
            → IsOkAnd result (λ it. it ≡ said) }
        ensures refused { IfErr result (IsFaultyLine self.entry) }
    {
        let mut others = Fields::new(self.line);
        // The first field is the keyword.
        let _ = others.next();
        read_behind(self.keyword, others)
    }
}

/// What a line says, which is given without its line feed.
///
/// # Errors
///
/// The first reason for which the line says nothing, whatever the lines before it say.
pub fn read_line(line: &[u8]) -> Result<Line<'_>, FaultReason>
    // What is read is spelled so.
    ensures ok { IfOk result (SpellsLine (fields_of line.now)) }
    // What is spelled so is read.
    ensures only { (said : Line) → SpellsLine (fields_of line.now) said
        → IsOkAnd result (λ it. it ≡ said) }
    ensures refused { IfErr result (IsFaultyLine (fields_of line.now)) }
{
    match BegunLine::new(line) {
        Some(begun) => begun.read(),
        None => Err(FaultReason::Word),
    }
}
