//! What the channel gives of the tags' answers to one command.
ghost use Rattle.std.specs.Prelude.{◌≡◌, ◌%◌, ◌≤◌, List, [], length, slice_get, IfOk};
ghost use Rattle.std.specs.List.{All};
ghost use Rattle.line_code.specs.TableFacts.{with_level_flipped};
ghost use Rattle.tag_machine.specs.TagsInExchange.{Replied};
ghost use Rattle.tag_population.specs.Answers.{answers_of};
ghost use Rattle.air_model.specs.Channel.{HasFewLevels, default_given, first_broken, given_of, heard_levels, whole_or_silence};
ghost use Rattle.air_audit.specs.HeardLevels.{IsShortAnswer, room_for_audited_streams};

use bit_strings::{Bits, Levels, OutOfMemory};
use pie_line::Link;
use reply_wire::encode_bits;
use std::alloc::Global;
use std::marker::Model;
use tag_machine::{Choice, Several};
use tag_population::Answers;

/// How many levels an audit has room for: more than the 131,968 of the longest stream.
pub(crate) const STREAM_ROOM: u32 = 132_208;

/// How many bits the longest reply has.
const LONGEST_REPLY: u32 = 8_225;

/// The levels that the interrogator hears.
///
/// A contract sees the link and these levels.
#[derive(Drop)]
pub(crate) struct HeardLevels {
    link: Link,
    /// Room for the bits of an answer.
    bits: Bits,
    levels: Levels,
}

impl Model for HeardLevels {
    ghost use Rattle.std.specs.Prelude.{◌≡◌};
    ghost use Rattle.reply_grammar.specs.Replies.{longest_reply};
    ghost use Rattle.air_audit.specs.HeardLevels.{HeardValue, room_for_audited_streams};

    ghost Value = { HeardValue };

    ghost view = { λ a. record { link = a.link; levels = a.levels.items } };

    ghost invariant = { λ a. (a.levels.capacity ≡ room_for_audited_streams)
        × (a.bits.capacity ≡ longest_reply) };
}

impl HeardLevels {
    /// No levels over this link, with room for those of the longest answer.
    pub(crate) fn new(alloc: Global, link: Link) -> Result<HeardLevels, OutOfMemory>
        ensures { IfOk result (λ heard. heard ≡ record { link = link; levels = [] }) }
    {
        let bits = Bits::new(alloc, LONGEST_REPLY)?;
        let levels = Levels::new(alloc, STREAM_ROOM)?;
        Ok(HeardLevels { link, bits, levels })
    }

    /// The link over which the interrogator hears.
    pub(crate) fn link(&self) -> &Link
        ensures { result.now ≡ self.now.link }
    {
        &self.link
    }

    /// The levels that the interrogator heard last.
    pub(crate) fn levels(&self) -> &Levels
        ensures value { result.now.items ≡ self.now.levels }
        ensures few { length self.now.levels ≤ room_for_audited_streams }
    {
        prove!(self.levels.len() <= STREAM_ROOM);
        &self.levels
    }

    /// Hears what the channel gives of these answers by this choice, or by the default for several.
    pub(crate) fn hear(&mut self, answers: &Answers, choice: &Option<Choice>, several: Several)
        requires short { All IsShortAnswer answers.now.items }
        requires few { HasFewLevels choice.now }
        ensures link { self.new.link ≡ self.old.link }
        ensures heard { (replies : List Replied) → answers.now.items ≡ answers_of replies
            → self.new.levels
            ≡ heard_levels self.old.link (given_of self.old.link replies choice.now several) }
    {
        match choice {
            Some(Choice::Pick(number)) => self.hear_whole(answers, *number),
            Some(Choice::Silent) => self.levels.clear(),
            Some(Choice::Break(place)) => self.hear_broken(answers, *place),
            Some(Choice::Raw(levels)) => put_levels(levels.as_slice(), &mut self.levels),
            None => self.hear_default(answers, several),
        }
    }

    /// Hears one answer whole, and of several what is given by default.
    fn hear_default(&mut self, answers: &Answers, several: Several)
        requires short { All IsShortAnswer answers.now.items }
        ensures link { self.new.link ≡ self.old.link }
        ensures heard { (replies : List Replied) → answers.now.items ≡ answers_of replies
            → self.new.levels ≡ heard_levels self.old.link (default_given several replies) }
    {
        match several {
            Several::Break => {
                if answers.len() > 1 {
                    self.hear_broken(answers, 0);
                } else {
                    self.hear_whole(answers, 0);
                }
            }
            Several::Capture => self.hear_whole(answers, 0),
        }
    }

    /// Hears the answer at this place whole, or nothing where there is none.
    fn hear_whole(&mut self, answers: &Answers, at: u32)
        requires short { All IsShortAnswer answers.now.items }
        ensures link { self.new.link ≡ self.old.link }
        ensures heard { (replies : List Replied) → answers.now.items ≡ answers_of replies
            → self.new.levels
            ≡ heard_levels self.old.link (whole_or_silence (slice_get replies at)) }
    {
        let Some(answer) = answers.get(at) else {
            self.levels.clear();
            return;
        };
        self.bits.clear();
        self.bits.put_all_reserved(answer.bits);
        encode_bits(
            self.link.code(),
            answer.extended || self.link.trext(),
            &self.bits,
            &mut self.levels,
        );
    }

    /// Hears the first answer with one level inverted: that at this number modulo the number of its levels.
    fn hear_broken(&mut self, answers: &Answers, place: u32)
        requires short { All IsShortAnswer answers.now.items }
        ensures link { self.new.link ≡ self.old.link }
        ensures heard { (replies : List Replied) → answers.now.items ≡ answers_of replies
            → self.new.levels ≡ heard_levels self.old.link (first_broken replies place) }
    {
        self.hear_whole(answers, 0);
        if !self.levels.is_empty() {
            self.invert(place);
        }
    }

    /// Inverts the level at this number modulo their number.
    fn invert(&mut self, place: u32)
        requires { 1 ≤ length self.old.levels }
        ensures { self.new
            ≡ record self.old {
              levels = with_level_flipped self.old.levels
                  (place % length self.old.levels);
            } }
    {
        let at = place % self.levels.len();
        self.levels.flip(at);
    }
}

/// Puts these levels in place of those of a stream.
fn put_levels(levels: &[bool], stream: &mut Levels)
    requires room { length levels.now ≤ stream.old.capacity }
    ensures { stream.new ≡ record stream.old { items = levels.now } }
{
    stream.clear();
    stream.put_all_reserved(levels);
}
