//! What is known of the tag behind a part of its log.
ghost use Rattle.std.specs.Prelude.{◌≡◌, [], None, Some, true, IfOk};
ghost use Rattle.tag_memory.specs.Image.{sizes_fit, pc_fits};
ghost use Rattle.tag_machine.specs.Hearing.{tag_value_of};
ghost use Rattle.log_judge.specs.Log.{Befalls, tag_with};
ghost use Rattle.command_grammar.specs.Commands.{IsLegalCommand};
ghost use Rattle.log_judge.specs.Explaining.{ByTables};
ghost use Rattle.log_judge.specs.Answers.{seen_in};
ghost use Rattle.log_judge.specs.KnownTag.{Goes, IsReadyFor, LacksHere, Shows, known_of};

use crate::answer::Answer;
use crate::asking::AskingRooms;
use crate::draws::{Draws, draws_at, fallen, first_word_given, slots_behind, want_behind};
use crate::optional_commands::answers_optional;
use crate::shown::Shown;
use crate::verdict::Want;
use air_events::Event;
use bit_strings::OutOfMemory;
use command_grammar::Command;
use lock_rules::Locks;
use session_flags::DrawWords;
use std::alloc::Global;
use std::marker::Model;
use std::sync::ledger::Ledger;
use tag_machine::{AnyTag, Steps, draw_laws};
use tag_memory::BankImage;

/// What is known of the tag behind a part of its log: all but its slot counter, since what it draws besides is heard when it is drawn.
pub(crate) struct KnownTag {
    /// A tag that answered what the log says.
    tag: AnyTag,
    /// The largest slot that the tag may have, where it may have any from 1 up to that one. The tag above has slot 1 then.
    most: Option<u16>,
}

// Written out, so that a drop is one call in the proof of each function that owns a known tag, and not one for each part.
impl Drop for KnownTag {
    fn drop(self) {
        let KnownTag { tag: _, most: _ } = self;
    }
}

impl Model for KnownTag {
    ghost use Rattle.std.specs.Prelude.{◌≡◌, length};
    ghost use Rattle.tag_machine.specs.Hearing.{tag_value_of};
    ghost use Rattle.log_judge.specs.laws.Known.{Known};
    ghost use Rattle.log_judge.specs.KnownTag.{HasFirstSlot, known_of};

    ghost Value = { Known };

    ghost view = { λ known. known_of (tag_value_of known.tag) known.most };

    ghost invariant = { λ known. (length (tag_value_of known.tag).body.words ≡ 2)
        × HasFirstSlot known.most (tag_value_of known.tag).state };
}

/// What an exchange shows of a tag that was given words for it, and what is known of it then.
fn shown_by<L: Ledger>(
    tag: AnyTag,
    most: Option<u16>,
    command: &Command,
    seen: &Answer,
    rooms: &mut AskingRooms,
    steps: &mut Steps<L>,
) -> (KnownTag, Shown)
    requires ready { IsReadyFor command.now (seen_in seen.now) (tag_value_of tag) most }
    requires optional { ¬ LacksHere command.now (seen_in seen.now) (tag_value_of tag) }
    ensures { Shows (known_of (tag_value_of tag) most) (Some command.now)
        (seen_in seen.now) result.1 result.0 }
{
    // By this law the tag keeps as many words.
    draw_laws();
    let draws = draws_at(command);
    let tag = rooms.hear(tag, command, steps);
    if rooms.answer.is_same(seen) {
        if seen.is_some() {
            return (KnownTag { tag, most: None }, Shown::Explained);
        }
        let most = slots_behind(draws, &tag, most);
        return (KnownTag { tag, most }, Shown::Explained);
    }
    let excused = rooms.answer.is_other_error(seen);
    let want = want_behind(draws, rooms.take_answer(), &tag, most);
    if excused {
        return (KnownTag { tag, most: None }, Shown::Excused(want));
    }
    (KnownTag { tag, most: None }, Shown::Refused(want))
}

impl KnownTag {
    /// What is known before the log: the tag as it is made, whatever words it draws.
    pub(crate) fn new(
        alloc: Global,
        image: &BankImage,
        locks: Locks,
    ) -> Result<KnownTag, OutOfMemory>
        requires sizes { sizes_fit image.now ≡ true }
        requires pc { pc_fits image.now ≡ true }
        ensures { IfOk result
            (λ known. known
            ≡ known_of (tag_with (record { image = image.now; locks = locks }) []) None) }
    {
        let words = DrawWords::new(alloc, &[0, 0])?;
        let tag = AnyTag::of_image(alloc, image, locks, words)?;
        Ok(KnownTag { tag, most: None })
    }

    /// What an exchange shows of the tag, and what is known of it then.
    pub(crate) fn hear<L: Ledger>(
        self,
        command: &Command,
        seen: &Answer,
        rooms: &mut AskingRooms,
        steps: &mut Steps<L>,
    ) -> (KnownTag, Shown)
        requires { IsLegalCommand command.now }
        ensures { Shows self (Some command.now) (seen_in seen.now) result.1 result.0 }
    {
        let KnownTag { mut tag, most } = self;
        // In each state a tag is legal.
        let _ = tag.state();
        if let Some(most) = fallen(draws_at(command), seen, &tag, most) {
            let most = Some(most);
            return (KnownTag { tag, most }, Shown::Explained);
        }
        let first = first_word_given(draws_at(command), seen);
        let number = seen.number();
        tag.give_words(&[first, number]);
        if !seen.is_some() && answers_optional(&tag, command) {
            let tag = rooms.ask(tag, command, steps);
            let want = Want::Exactly(rooms.take_answer());
            return (KnownTag { tag, most }, Shown::Excused(want));
        }
        shown_by(tag, most, command, seen, rooms, steps)
    }

    /// What bits that spell no command show of the tag, of which it knows nothing: it stays as it is, and is silent.
    pub(crate) fn hear_no_command(&self, seen: &Answer) -> Shown
        ensures { Shows self.now None (seen_in seen.now) result self.now }
    {
        let _ = &self.tag;
        if seen.is_some() {
            Shown::Refused(Want::Exactly(Answer::none()))
        } else {
            Shown::Explained
        }
    }

    /// What is known behind an event.
    pub(crate) fn befall(self, event: Event) -> KnownTag
        ensures { Goes ByTables self (Befalls event) result }
    {
        let KnownTag { tag, most } = self;
        let tag = tag.event(event);
        let most = slots_behind(Draws::Nothing, &tag, most);
        KnownTag { tag, most }
    }
}
