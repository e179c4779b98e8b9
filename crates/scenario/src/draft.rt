//! What the lines of a scenario have said so far, from its head on.
ghost use Rattle.std.specs.Prelude.{◌≡◌, ◌↔◌, IsTrue, IfOk, IfErr, OnOk};
ghost use Rattle.scenario.specs.Draft.{draft_after, new_draft, scenario_of, tag_count};
ghost use Rattle.scenario.specs.Faults.{DisagreesBy};
ghost use Rattle.scenario.specs.Standing.{Agrees, MayStandNext, HasRoomForLine, IsOfVersion, MayStand, NamesTag, within};

mod air;
mod latest_entry;
mod steps;
mod tags;

use crate::values::{Scenario, Step};
use air::AirLines;
use air_events::Several;
use bit_strings::OutOfMemory;
use checked_lines::FaultReason;
use pie_line::Link;
use scenario_lines::{Happening, Keyword, Line, Version};
use std::alloc::Global;
use std::marker::Model;
use steps::StepLines;
use tags::TagLines;

/// What the lines of a scenario's head say, which stand before all others.
#[derive(Drop)]
struct Head {
    version: Version,
    link: Link,
    several: Several,
}

/// A scenario, line by line.
pub(crate) struct Draft {
    head: Head,
    tags: TagLines,
    air: AirLines,
    steps: StepLines,
}

// Written out, so that a drop is one call in the proof of each function that owns a draft, and not one for each part.
impl Drop for Draft {
    fn drop(self) {
        let Draft {
            head: _,
            tags: _,
            air: _,
            steps: _,
        } = self;
    }
}

impl Model for Draft {
    ghost use Rattle.scenario.specs.Draft.{DraftValue};

    ghost Value = { DraftValue };

    ghost view = { λ a. record {
      head = record { version = a.head.version; link = a.head.link; several = a.head.several };
      groups = a.tags;
      air = a.air;
      steps = a.steps;
    } };
}

impl Draft {
    /// What the first lines say, behind which nothing more is said yet.
    pub(crate) fn new(alloc: Global, version: Version, link: Link, several: Several) -> Draft
        ensures { result ≡ new_draft
            (record { version = version; link = link; several = several }) }
    {
        Draft {
            head: Head {
                version,
                link,
                several,
            },
            tags: TagLines::new(alloc),
            air: AirLines::new(alloc),
            steps: StepLines::new(alloc),
        }
    }

    /// Whether no line stands behind those of the tags.
    fn may_name_tags(&self) -> bool
        ensures { IsTrue result ↔ MayStand (within self.now) Keyword.Tag }
    {
        self.air.count() == 0 && self.steps.count() == 0
    }

    /// Whether a line with this keyword may follow those that the draft of a scenario has.
    pub(crate) fn may_stand(&self, keyword: Keyword) -> bool
        ensures { IsTrue result ↔ MayStand (within self.now) keyword }
    {
        match keyword {
            Keyword::Version | Keyword::Link | Keyword::Default => false,
            Keyword::Tag => self.may_name_tags(),
            Keyword::Copies => self.head.version == Version::Two && self.may_name_tags(),
            Keyword::Air => self.steps.count() == 0,
            Keyword::Only => self.steps.is_bare_round(),
            Keyword::Op => self.steps.is_in_round(),
            Keyword::Select | Keyword::Nak | Keyword::Event | Keyword::Round | Keyword::End => true,
        }
    }

    /// Whether the draft of a scenario has room for one more line with this keyword.
    pub(crate) fn has_room(&self, keyword: Keyword) -> bool
        ensures { IsTrue result ↔ HasRoomForLine (within self.now) keyword }
    {
        match keyword {
            Keyword::Tag | Keyword::Copies => self.tags.has_room(self.head.version),
            Keyword::Air => self.air.has_room(),
            Keyword::Select | Keyword::Nak | Keyword::Event | Keyword::Round => self
                .steps
                .has_room(),
            Keyword::Op => self.steps.has_room_for_op(),
            Keyword::Version | Keyword::Link | Keyword::Default | Keyword::Only | Keyword::End => {
                true
            }
        }
    }

    /// Whether a line, where it is a round, is spelled as the version of the text spells it.
    fn is_of_version(&self, line: &Line) -> bool
        ensures { IsTrue result ↔ IsOfVersion self.now.head.version line.now }
    {
        match line {
            Line::Round(version, _) => *version == self.head.version,
            _ => true,
        }
    }

    /// Whether the tag that a line names, where it names one, is there.
    fn names_tag(&self, line: &Line) -> bool
        ensures { IsTrue result ↔ NamesTag (tag_count self.now) line.now }
    {
        match line {
            Line::Air {
                happening: Happening::Event { tag, .. } | Happening::Miss(tag),
                ..
            }
            | Line::Event { tag, .. } => *tag < self.tags.count(),
            _ => true,
        }
    }

    /// Whether what a line says agrees with the lines before it.
    ///
    /// # Errors
    ///
    /// The first reason for which it doesn't: `Number`, `Copies`, `Tag`, `Order` or `Twice`.
    pub(crate) fn agree(&self, line: &Line) -> Result<(), FaultReason>
        ensures ok { OnOk result (Agrees self.now line.now) }
        ensures disagrees { IfErr result (DisagreesBy self.now line.now) }
    {
        if !self.is_of_version(line) {
            return Err(FaultReason::Number);
        }
        if !self.tags.may_copy(line) {
            return Err(FaultReason::Copies);
        }
        if !self.names_tag(line) {
            return Err(FaultReason::Tag);
        }
        if !self.air.keeps_order(line) {
            return Err(FaultReason::Order);
        }
        if !self.air.chooses_once(line) {
            return Err(FaultReason::Twice);
        }
        Ok(())
    }

    /// Adds what a line says that may follow. The end adds nothing.
    pub(crate) fn add(&mut self, alloc: Global, line: Line) -> Result<(), OutOfMemory>
        requires { MayStandNext (within self.old) line }
        ensures { OnOk result (self.new ≡ draft_after self.old line.entry) }
    {
        match line {
            Line::Tag(tag) => self.tags.add(alloc, 1, &tag),
            Line::Copies(count, tag) => self.tags.add(alloc, count, &tag),
            Line::Air {
                exchange,
                happening,
            } => self.air.add(alloc, exchange, happening),
            Line::Select(selection) => self
                .steps
                .add_step(alloc, Step::Select(selection.into_command())),
            Line::Nak => self.steps.add_step(alloc, Step::Nak),
            Line::Event { event, tag } => self.steps.add_step(alloc, Step::Event(event, tag)),
            Line::Round(_, spec) => self.steps.add_round(alloc, spec),
            Line::Only(epc) => {
                self.steps.name_epc(epc);
                Ok(())
            }
            Line::Op(op) => self.steps.add_op(op),
            Line::Version(_) | Line::Link(_) | Line::Default(_) | Line::End => Ok(()),
        }
    }

    /// The scenario that the lines said.
    pub(crate) fn finish(self) -> Result<Scenario, OutOfMemory>
        ensures { IfOk result (λ scenario. scenario ≡ scenario_of self) }
    {
        let Draft {
            head: Head {
                version,
                link,
                several,
            },
            tags,
            air,
            steps,
        } = self;
        Ok(Scenario {
            version,
            link,
            several,
            groups: tags.into_list(),
            entries: air.into_entries()?,
            steps: steps.into_steps()?,
        })
    }
}
