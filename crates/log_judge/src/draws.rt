//! What a tag may draw at a command, and what is told of that by an answer.
ghost use Rattle.std.specs.Prelude.{◌≡◌, ◌-◌, ◌^◌, is_some};
ghost use Rattle.tag_machine.specs.Hearing.{tag_value_of};
ghost use Rattle.tag_machine.specs.StateNumbers.{numbers_of};
ghost use Rattle.log_judge.specs.Answers.{seen_in, want_in};
ghost use Rattle.log_judge.specs.Drawing.{draws_at, fallen, falls_in_turn, first_word_given, has_drawn, slots_behind, slots_told};
ghost use Rattle.log_judge.specs.Wanted.{comes_now, rn16_wanted, want_behind, want_told};

use crate::answer::Answer;
use crate::verdict::Want;
use bit_strings::{QValue, Session};
use command_grammar::Command;
use tag_machine::{AnyTag, StateNumbers};

/// What a tag may draw at a command (6.3.2.5 Tag random or pseudo-random number generator).
#[derive(Clone, Copy)]
pub(crate) enum Draws {
    /// A slot in a round of this session, and an RN16 where the slot is 0.
    Slot(Session),
    /// An RN16, where its slot comes in a round of this session.
    Turn(Session),
    /// A handle or a cover.
    Number,
    /// Nothing.
    Nothing,
}

/// What a tag may draw at a command.
pub(crate) fn draws_at(command: &Command) -> Draws
    ensures { result ≡ draws_at command.now }
{
    match command {
        Command::Query { session, .. } | Command::QueryAdjust { session, .. } => {
            Draws::Slot(*session)
        }
        Command::QueryRep { session } => Draws::Turn(*session),
        Command::ReqRn { .. } => Draws::Number,
        _ => Draws::Nothing,
    }
}

/// The first word that a tag is given to draw at a command, by what it was seen to answer; the second one is the number in that answer. They
/// let it answer that, where any do. A tag that is silent behind a slot that it drew is given slot 1, whatever slot it drew.
pub(crate) fn first_word_given(draws: Draws, seen: &Answer) -> u16
    ensures { result ≡ first_word_given draws (seen_in seen.now) }
{
    match draws {
        Draws::Slot(_) => { if seen.is_some() { 0 } else { 1 } }
        Draws::Turn(_) | Draws::Number | Draws::Nothing => seen.number(),
    }
}

/// The largest slot of a round with this Q (6.3.2.4.8 Slot counter).
fn largest_slot(q: QValue) -> u16
    ensures { result ≡ 2 ^ q - 1 }
{
    (1 << q.get()) - 1
}

/// Whether a tag in arbitrate in a round of its own drew its slot at a command of this session.
fn has_drawn(session: Session, own: Session, slot: u16) -> bool
    ensures { result ≡ has_drawn session own slot }
{
    own == session && slot != 0
}

/// The largest slot that a tag with these numbers may have, where it was silent.
fn slots_told(draws: Draws, numbers: StateNumbers, most: Option<u16>) -> Option<u16>
    ensures { result ≡ slots_told draws numbers most }
{
    match numbers {
        StateNumbers::Waiting {
            session: own,
            q,
            slot,
        } => match draws {
            Draws::Slot(session) => {
                if has_drawn(session, own, slot) {
                    Some(largest_slot(q))
                } else {
                    most
                }
            }
            Draws::Turn(_) | Draws::Number | Draws::Nothing => most,
        },
        StateNumbers::None | StateNumbers::Replied { .. } | StateNumbers::Held(_) => None,
    }
}

/// The largest slot that a tag may have, where it was silent and its slot may be any; none where it isn't in arbitrate, or its slot is
/// known.
pub(crate) fn slots_behind(draws: Draws, tag: &AnyTag, most: Option<u16>) -> Option<u16>
    ensures { result ≡ slots_behind draws (tag_value_of tag.now).state most }
{
    slots_told(draws, tag.numbers(), most)
}

/// The largest slot behind a QueryRep of this session, where the slot counter falls and may be another than 1.
fn falls_in_turn(session: Session, answered: bool, numbers: StateNumbers, most: u16) -> Option<u16>
    ensures { result ≡ falls_in_turn session answered numbers most }
{
    match numbers {
        StateNumbers::Waiting { session: own, .. } => {
            if own == session && !answered && 1 < most {
                Some(most - 1)
            } else {
                None
            }
        }
        StateNumbers::None | StateNumbers::Replied { .. } | StateNumbers::Held(_) => None,
    }
}

/// The largest slot that a tag may have behind a QueryRep of its round at which it was silent, where it may have another than 1.
pub(crate) fn fallen(draws: Draws, seen: &Answer, tag: &AnyTag, most: Option<u16>) -> Option<u16>
    ensures { result ≡ fallen draws (is_some (seen_in seen.now))
        (numbers_of (tag_value_of tag.now).state) most }
{
    match draws {
        Draws::Turn(session) => match most {
            Some(most) => falls_in_turn(session, seen.is_some(), tag.numbers(), most),
            None => None,
        },
        Draws::Slot(_) | Draws::Number | Draws::Nothing => None,
    }
}

/// An RN16, which may also come later where it need not come now.
fn rn16_wanted(now: bool) -> Want
    ensures { want_in result ≡ rn16_wanted now }
{
    if now {
        Want::AnyRn16
    } else {
        Want::NothingOrAnyRn16
    }
}

/// What a tag had to answer to a command at which it may draw a slot.
fn want_of_slot(session: Session, answered: bool, numbers: StateNumbers) -> Want
    ensures { want_in result ≡ want_told session answered numbers }
{
    match numbers {
        StateNumbers::Waiting {
            session: own,
            slot,
            ..
        } => {
            if !answered && has_drawn(session, own, slot) {
                Want::NothingOrAnyRn16
            } else {
                Want::Exactly(Answer::none())
            }
        }
        StateNumbers::Replied { q, .. } => {
            if answered {
                rn16_wanted(q.get() == 0)
            } else {
                Want::Exactly(Answer::none())
            }
        }
        StateNumbers::None | StateNumbers::Held(_) => Want::Exactly(Answer::none()),
    }
}

/// Whether a tag whose turn came has slot 1 for certain, where its slot may be any up to one.
fn comes_now(most: Option<u16>) -> bool
    ensures { result ≡ comes_now most }
{
    match most {
        None => true,
        Some(most) => most == 1,
    }
}

/// What a tag had to answer, by what it answered and what it is then. Where its slot may be any, the largest one that it may have had is
/// given.
pub(crate) fn want_behind(draws: Draws, answer: Answer, tag: &AnyTag, most: Option<u16>) -> Want
    ensures { want_in result
        ≡ want_behind draws (seen_in answer) (tag_value_of tag.now).state most }
{
    match draws {
        Draws::Slot(session) => want_of_slot(session, answer.is_some(), tag.numbers()),
        Draws::Turn(_) => {
            if answer.is_some() {
                rn16_wanted(comes_now(most))
            } else {
                Want::Exactly(Answer::none())
            }
        }
        Draws::Number => {
            if answer.is_some() {
                Want::AnyHandle
            } else {
                Want::Exactly(Answer::none())
            }
        }
        Draws::Nothing => Want::Exactly(answer),
    }
}
