//! What the channel gives the interrogator of what tags answered.
ghost use Rattle.std.specs.Prelude.{◌≡◌, ◌<◌, ◌≤◌, [], List, length, slice_get};
ghost use Rattle.air_events.specs.Streams.{longest_stream};
ghost use Rattle.line_code.specs.TableFacts.{with_level_flipped};
ghost use Rattle.reply_grammar.specs.Replies.{longest_reply};
ghost use Rattle.tag_machine.specs.TagsInExchange.{Replied};
ghost use Rattle.air_model.specs.Channel.{HasFewLevels, default_given, first_broken, given_of, got_of, heard_levels, whole_or_silence};
ghost use Rattle.air_model.specs.declared.got.Got.TheVariants as Got;
ghost use Rattle.air_channel.specs.Giving.{AreSentAnswers, CanGive, KeepsRoom, answer_levels};
ghost use Rattle.air_channel.specs.BufferSizes.{room_for_frames, room_for_streams};

use air_model::Got;
use bit_strings::{Bits, Levels};
use pie_line::Link;
use reply_wire::encode_bits;
use tag_machine::{Choice, Several};
use tag_population::{Answer, Answers};

/// Writes the stream that the channel gives by this choice, or by the default for several answers, in place of what the
/// stream holds, and says whom it gave. A raw stream has at most 131,968 levels. `bits` is a buffer.
pub(crate) fn give(
    link: &Link,
    choice: &Option<Choice>,
    several: Several,
    answers: &Answers,
    bits: &mut Bits,
    stream: &mut Levels,
) -> Got
    requires few { HasFewLevels choice.now }
    requires answers { CanGive answers.now.items bits.old stream.old }
    ensures stream { (replies : List Replied) → AreSentAnswers answers.now.items replies
        → stream.new.items ≡ heard_levels link.now (given_of link.now replies choice.now several) }
    ensures got { (replies : List Replied) → AreSentAnswers answers.now.items replies
        → result ≡ got_of link.now (given_of link.now replies choice.now several) }
    ensures room { KeepsRoom bits.old bits.new stream.old stream.new }
{
    match choice {
        Some(Choice::Pick(number)) => give_whole(link, answers, *number, bits, stream),
        Some(Choice::Silent) => give_nothing(stream),
        Some(Choice::Break(place)) => give_broken(link, answers, *place, bits, stream),
        Some(Choice::Raw(levels)) => {
            stream.clear();
            stream.put_all_reserved(levels.as_slice());
            Got::Raw
        }
        None => give_default(link, several, answers, bits, stream),
    }
}

/// Gives what is given where nothing is chosen: of several answers the first, broken at its first level or captured whole.
fn give_default(
    link: &Link,
    several: Several,
    answers: &Answers,
    bits: &mut Bits,
    stream: &mut Levels,
) -> Got
    requires answers { CanGive answers.now.items bits.old stream.old }
    ensures stream { (replies : List Replied) → AreSentAnswers answers.now.items replies
        → stream.new.items ≡ heard_levels link.now (default_given several replies) }
    ensures got { (replies : List Replied) → AreSentAnswers answers.now.items replies
        → result ≡ got_of link.now (default_given several replies) }
    ensures room { KeepsRoom bits.old bits.new stream.old stream.new }
{
    if answers.len() <= 1 {
        return give_whole(link, answers, 0, bits, stream);
    }
    match several {
        Several::Break => give_broken(link, answers, 0, bits, stream),
        Several::Capture => give_whole(link, answers, 0, bits, stream),
    }
}

/// Gives the answer at a place, counted from 0, whole, if there is one.
fn give_whole(link: &Link, answers: &Answers, at: u32, bits: &mut Bits, stream: &mut Levels) -> Got
    requires answers { CanGive answers.now.items bits.old stream.old }
    ensures stream { (replies : List Replied) → AreSentAnswers answers.now.items replies
        → stream.new.items ≡ heard_levels link.now (whole_or_silence (slice_get replies at)) }
    ensures got { (replies : List Replied) → AreSentAnswers answers.now.items replies
        → result ≡ got_of link.now (whole_or_silence (slice_get replies at)) }
    ensures room { KeepsRoom bits.old bits.new stream.old stream.new }
{
    let Some(answer) = answers.get(at) else {
        return give_nothing(stream);
    };
    encode(link, &answer, bits, stream);
    Got::Whole(u32::from(answer.number.get()))
}

/// Gives the first answer with the level inverted that stands at this number modulo their number, if there is an answer.
fn give_broken(
    link: &Link,
    answers: &Answers,
    number: u32,
    bits: &mut Bits,
    stream: &mut Levels,
) -> Got
    requires answers { CanGive answers.now.items bits.old stream.old }
    ensures stream { (replies : List Replied) → AreSentAnswers answers.now.items replies
        → stream.new.items ≡ heard_levels link.now (first_broken replies number) }
    ensures got { (replies : List Replied) → AreSentAnswers answers.now.items replies
        → result ≡ got_of link.now (first_broken replies number) }
    ensures room { KeepsRoom bits.old bits.new stream.old stream.new }
{
    let Some(answer) = answers.get(0) else {
        return give_nothing(stream);
    };
    encode(link, &answer, bits, stream);
    let place = number % stream.len();
    invert_level(place, stream);
    Got::Broken(u32::from(answer.number.get()), place)
}

/// Inverts the level at a place, counted from 0.
fn invert_level(place: u32, levels: &mut Levels)
    requires { place < length levels.old.items }
    ensures { levels.new ≡ record levels.old { items = with_level_flipped levels.old.items place } }
{
    levels.flip(place);
}

/// Gives the interrogator silence: a stream without a level.
fn give_nothing(stream: &mut Levels) -> Got
    ensures stream { stream.new ≡ record stream.old { items = [] } }
    ensures got { result ≡ Got.Silence }
{
    stream.clear();
    Got::Silence
}

/// Writes the stream of an answer. `bits` is a buffer.
fn encode(link: &Link, answer: &Answer<'_>, bits: &mut Bits, stream: &mut Levels)
    requires short { length answer.now.bits.now ≤ longest_reply }
    requires bits_room { room_for_frames ≤ bits.old.capacity }
    requires room { room_for_streams ≤ stream.old.capacity }
    ensures stream { stream.new ≡ record stream.old { items = answer_levels link.now answer.now } }
    ensures least { 1 ≤ length stream.new.items }
    ensures most { length stream.new.items ≤ longest_stream }
    ensures bits_capacity { bits.new.capacity ≡ bits.old.capacity }
{
    bits.clear();
    bits.put_all_reserved(answer.bits);
    encode_bits(link.code(), answer.extended || link.trext(), bits, stream);
}
