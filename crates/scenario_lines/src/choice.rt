//! What the channel gives in an exchange, as an air line spells it.
ghost use Rattle.std.specs.Prelude.{◌≡◌, IfOk};
ghost use Rattle.scenario_lines.specs.Choices.{choice_of};

use air_events::Choice;
use bit_strings::OutOfMemory;
use std::alloc::Global;
use std::marker::Model;
use text_fields::Digits;

/// What the channel gives, by the fields that spell it.
#[derive(Drop)]
pub(crate) enum ChoiceFields<'a> {
    /// The reply of this number.
    Pick(u32),
    /// Silence.
    Silent,
    /// The first reply, broken at this level.
    Break(u32),
    /// These levels.
    Raw(Digits<'a>),
}

/// What the channel gives in an exchange, as the fields of a line spell it. It holds no memory of its own
/// but borrows the line's. A contract sees it as the choice.
#[derive(Drop)]
pub struct ChoiceText<'a> {
    fields: ChoiceFields<'a>,
}

impl<'a> Model for ChoiceText<'a> {
    ghost use Rattle.air_events.specs.declared.Choice.{Choice};
    ghost use Rattle.scenario_lines.specs.Choices.{choice_of};

    ghost Value = { Choice };

    ghost view = { λ a. choice_of a.fields };
}

impl<'a> ChoiceText<'a> {
    /// What these fields spell.
    pub(crate) fn new(fields: ChoiceFields<'a>) -> ChoiceText<'a>
        ensures { result ≡ choice_of fields.entry }
    {
        ChoiceText { fields }
    }

    /// The choice, in memory of its own.
    pub fn to_choice(&self, alloc: Global) -> Result<Choice, OutOfMemory>
        ensures { IfOk result (λ choice. choice ≡ self.now) }
    {
        match &self.fields {
            ChoiceFields::Pick(reply) => Ok(Choice::Pick(*reply)),
            ChoiceFields::Silent => Ok(Choice::Silent),
            ChoiceFields::Break(place) => Ok(Choice::Break(*place)),
            ChoiceFields::Raw(levels) => Ok(Choice::Raw(levels.to_list(alloc)?)),
        }
    }
}
