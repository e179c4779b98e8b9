//! How far the reader of a scenario has come, and what the next line says.
ghost use Rattle.std.specs.Prelude.{◌≡◌, ◌↔◌, [], IsTrue, IfOk, IfErr, OnOk};
ghost use Rattle.text_fields.specs.Lines.{fields_of};
ghost use Rattle.scenario_lines.specs.SpelledLines.{SpellsLine};
ghost use Rattle.scenario_lines.specs.Spelling.{line_text};
ghost use Rattle.scenario.specs.Faults.{DisagreesAt, IsFaultyAt, IsFaultyInScenario, LeadsBy};
ghost use Rattle.scenario.specs.Standing.{AgreesWith, MayStandNext, HasRoomForLine, MayStand, standing_after, begun, start};
ghost use Rattle.scenario.specs.ReaderAnswers.{IsNotTaken, IsUnfinished, StandsFor, standing_of};

use crate::draft::Draft;
use crate::values::Scenario;
use air_events::Several;
use bit_strings::OutOfMemory;
use checked_lines::{FaultReason, Unread, unread_at};
use pie_line::Link;
use scenario_lines::{BegunLine, Keyword, Line, Version};
use std::alloc::Global;
use std::mem;

/// How far the reader of a scenario has come.
#[derive(Drop)]
pub(crate) enum Progress {
    /// Before the first line.
    Start,
    /// Behind the version.
    Begun(Version),
    /// Behind the link of version 2.
    Linked(Link),
    /// Behind the head, or a line after it.
    Within(Draft),
    /// Behind the end.
    Ended(Draft),
}

/// The version that the first line says.
///
/// # Errors
///
/// `Version` where the line says none.
fn said_version(line: &[u8]) -> Result<Version, FaultReason>
    ensures ok { IfOk result (λ version. line.now ≡ line_text (Line.Version version)) }
    ensures refused { IfErr result (IsFaultyInScenario start line.now) }
{
    if line == b"gen2 1".as_slice() {
        Ok(Version::One)
    } else if line == b"gen2 2".as_slice() {
        Ok(Version::Two)
    } else {
        Err(FaultReason::Version)
    }
}

/// How far the reader has come behind the link of a text of this version: in version 1 nothing more
/// stands before all other lines.
fn behind_link(alloc: Global, version: Version, link: Link) -> Progress
    ensures { standing_of result ≡ standing_after (begun version) (Line.Link link) }
{
    match version {
        Version::One => Progress::Within(Draft::new(alloc, version, link, Several::Break)),
        Version::Two => Progress::Linked(link),
    }
}

impl Progress {
    /// Whether a line with this keyword may stand where the reader of a scenario has come to.
    fn may_stand(&self, keyword: Keyword) -> bool
        ensures { IsTrue result ↔ MayStand (standing_of self.now) keyword }
    {
        match self {
            Progress::Start => matches!(keyword, Keyword::Version),
            Progress::Begun(_) => matches!(keyword, Keyword::Link),
            Progress::Linked(_) => matches!(keyword, Keyword::Default),
            Progress::Within(draft) => draft.may_stand(keyword),
            Progress::Ended(_) => false,
        }
    }

    /// Whether a line with this keyword is not one too many where the reader of a scenario has come to.
    fn has_room(&self, keyword: Keyword) -> bool
        ensures { IsTrue result ↔ HasRoomForLine (standing_of self.now) keyword }
    {
        match self {
            Progress::Start | Progress::Begun(_) | Progress::Linked(_) | Progress::Ended(_) => true,
            Progress::Within(draft) => draft.has_room(keyword),
        }
    }

    /// Whether what a line says agrees with the lines before it.
    ///
    /// # Errors
    ///
    /// The first reason for which it doesn't.
    fn agree(&self, line: &Line) -> Result<(), FaultReason>
        ensures ok { OnOk result (AgreesWith (standing_of self.now) line.now) }
        ensures disagrees { IfErr result (DisagreesAt (standing_of self.now) line.now) }
    {
        match self {
            Progress::Start | Progress::Begun(_) | Progress::Linked(_) | Progress::Ended(_) => Ok(
                (),
            ),
            Progress::Within(draft) => draft.agree(line),
        }
    }

    /// What a line says that stands behind the first.
    ///
    /// # Errors
    ///
    /// The first reason for which the line may not stand here.
    fn said_behind_first<'b>(&self, line: &'b [u8]) -> Result<Line<'b>, FaultReason>
        ensures ok { IfOk result
            (λ said. SpellsLine (fields_of line.now) said
            × MayStandNext (standing_of self.now) said) }
        ensures refused { IfErr result (IsFaultyAt (standing_of self.now) (fields_of line.now)) }
    {
        let Some(begun) = BegunLine::new(line) else {
            return Err(FaultReason::Word);
        };
        let keyword = begun.keyword();
        if !self.may_stand(keyword) {
            return Err(FaultReason::Word);
        }
        if !self.has_room(keyword) {
            return Err(FaultReason::Limit);
        }
        let said = begun.read()?;
        self.agree(&said)?;
        Ok(said)
    }

    /// What the next line says, which is given without its line feed.
    ///
    /// # Errors
    ///
    /// The first reason for which the line may not stand here.
    fn next_said<'b>(&self, line: &'b [u8]) -> Result<Line<'b>, FaultReason>
        ensures ok { IfOk result
            (λ said. SpellsLine (fields_of line.now) said
            × MayStandNext (standing_of self.now) said) }
        ensures refused { IfErr result (IsFaultyInScenario (standing_of self.now) line.now) }
    {
        match self {
            Progress::Start => Ok(Line::Version(said_version(line)?)),
            Progress::Begun(_) | Progress::Linked(_) | Progress::Within(_) => {
                self.said_behind_first(line)
            }
            Progress::Ended(_) => Err(FaultReason::Extra),
        }
    }

    /// Goes behind the end.
    fn end(&mut self)
        requires { MayStand (standing_of self.old) Keyword.End }
        ensures { standing_of self.new ≡ standing_after (standing_of self.old) Line.End }
    {
        match mem::replace(self, Progress::Start) {
            Progress::Within(draft) => *self = Progress::Ended(draft),
            // The end stands behind the head alone.
            Progress::Start | Progress::Begun(_) | Progress::Linked(_) | Progress::Ended(_) => {
                unreachable!()
            }
        }
    }

    /// Goes on by what a line says that may follow.
    fn go_on(&mut self, alloc: Global, said: Line) -> Result<(), OutOfMemory>
        requires { MayStandNext (standing_of self.old) said }
        ensures { OnOk result
            (standing_of self.new ≡ standing_after (standing_of self.old) said.entry) }
    {
        if matches!(&said, Line::End) {
            self.end();
            return Ok(());
        }
        match self {
            Progress::Start => match said {
                Line::Version(version) => *self = Progress::Begun(version),
                // Only a version may stand first.
                _ => unreachable!(),
            },
            Progress::Begun(version) => match said {
                Line::Link(link) => *self = behind_link(alloc, *version, link),
                // Only a link may stand behind the version.
                _ => unreachable!(),
            },
            Progress::Linked(link) => match said {
                Line::Default(several) => {
                    *self = Progress::Within(Draft::new(alloc, Version::Two, *link, several));
                }
                // Only the default may stand behind the link of version 2.
                _ => unreachable!(),
            },
            Progress::Within(draft) => draft.add(alloc, said)?,
            // Nothing may stand behind the end.
            Progress::Ended(_) => unreachable!(),
        }
        Ok(())
    }

    /// Takes the next line, which has this number and is given without its line feed. After an error no more is known of
    /// how far the reader has come.
    ///
    /// # Errors
    ///
    /// The first reason for which the line may not stand here; or there was no memory.
    pub(crate) fn take(&mut self, alloc: Global, line: &[u8], number: u32) -> Result<(), Unread>
        ensures taken { OnOk result
            (LeadsBy (standing_of self.old) line.now (standing_of self.new)) }
        ensures refused { IfErr result (IsNotTaken (standing_of self.old) line.now number) }
    {
        match self.next_said(line) {
            Ok(said) => Ok(self.go_on(alloc, said)?),
            Err(reason) => Err(unread_at(number, reason)),
        }
    }

    /// The scenario that the lines said, where these bytes stand behind the last line feed, as the line of this number.
    ///
    /// # Errors
    ///
    /// The text may not end so; or there was no memory.
    pub(crate) fn finish(self, rest: &[u8], number: u32) -> Result<Scenario, Unread>
        ensures ok { IfOk result
            (λ scenario. (rest.now ≡ []) × StandsFor (standing_of self) scenario) }
        ensures refused { IfErr result (IsUnfinished (standing_of self) rest.now number) }
    {
        match self {
            Progress::Start | Progress::Begun(_) | Progress::Linked(_) | Progress::Within(_) => {
                Err(unread_at(number, FaultReason::End))
            }
            Progress::Ended(draft) => {
                if !rest.is_empty() {
                    return Err(unread_at(number, FaultReason::Extra));
                }
                Ok(draft.finish()?)
            }
        }
    }
}
