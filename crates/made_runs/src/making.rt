//! The scenario of a seed.
ghost use Rattle.std.specs.Prelude.{◌≡◌, ◌+◌, ◌*◌, ◌<◌, ◌≤◌, ◌^◌, [], ◌∷◌, length, map, IfOk, OnOk};
ghost use Rattle.made_runs.specs.Made.{
  made_scenario,
  made_group,
  made_round,
  numbered_tag,
  numbers_below,
  generator_of,
  generator_after,
  drawn_at,
  most_made_tags,
  words_of_tag,
};
ghost use Rattle.lock_rules.specs.Lock.{locks_of};
ghost use Rattle.scenario.specs.Limits.{IsScenario, no_operations};
ghost use Rattle.scenario.specs.declared.values.Step.TheVariants as steps;

use crate::link_and_round::{made_link, made_round};
use access_ops::OpList;
use bit_strings::{List, OutOfMemory};
use lock_rules::Locks;
use rand_core::utils::NextWord;
use rand_pcg::Lcg64Xsh32;
use scenario::{Scenario, Several, Step, TagGroup, TagSpec, Version};
use session_flags::DrawWords;
use std::alloc::Global;
use tag_memory::BankImage;

/// How many tags a made scenario has at most.
pub const MOST_MADE_TAGS: u32 = 256;

/// The stream of the generator that the random words are drawn from.
const DRAW_STREAM: u64 = 54;

/// How many random words a tag of a made scenario has.
const WORDS_OF_TAG: u32 = 64;

/// The locks of a tag of which nothing is locked.
fn no_locks() -> Locks
    ensures { result ≡ locks_of 0 }
{
    match Locks::from_bits(0) {
        Some(locks) => locks,
        None => unreachable!(),
    }
}

/// The next random words of a tag: of each word of the generator the low 16 bits.
fn draw_words(alloc: Global, generator: &mut Lcg64Xsh32) -> Result<DrawWords, OutOfMemory>
    ensures words { IfOk result
        (λ words. words ≡ map (drawn_at generator.old) (numbers_below words_of_tag)) }
    ensures after { OnOk result (generator.new ≡ generator_after words_of_tag generator.old) }
{
    let mut words = Vec::with_capacity(alloc, WORDS_OF_TAG as usize)?;
    for _ in 0..WORDS_OF_TAG {
        words.push_reserved((generator.next_word() % 0x1_0000) as u16);
    }
    DrawWords::new(alloc, words.as_slice())
}

/// A list of these words, for a made tag.
fn word_list(alloc: Global, words: &[u16]) -> Result<List<u16>, OutOfMemory>
    requires { length words.now < 2 ^ 32 }
    ensures { IfOk result (λ list. list ≡ words.now) }
{
    Ok(List::new(Vec::from_slice(alloc, words)?))
}

/// The tag of this number, with these random words.
fn numbered_tag(alloc: Global, number: u16, words: DrawWords) -> Result<TagSpec, OutOfMemory>
    ensures { IfOk result (λ tag. tag ≡ numbered_tag number words) }
{
    let epc = [0x3000, 0x3074, 0x257B, 0xF719, 0x4E40, 0x0000, number];
    let image = BankImage {
        kill: 0,
        access: 0,
        epc: word_list(alloc, &epc)?,
        tid: word_list(alloc, &[0xE200, number])?,
        user: List::new(Vec::new(alloc)),
    };
    Ok(TagSpec {
        image,
        locks: no_locks(),
        words,
    })
}

/// The tags, in order, with the words of one generator. None has copies.
fn made_groups(alloc: Global, seed: u64, count: u32) -> Result<List<TagGroup>, OutOfMemory>
    requires { count ≤ most_made_tags }
    ensures { IfOk result (λ groups. groups ≡ map (made_group seed) (numbers_below count)) }
{
    let mut generator = Lcg64Xsh32::new(seed, DRAW_STREAM);
    let mut groups = Vec::with_capacity(alloc, count as usize)?;
    for number in 0..count {
        let words = draw_words(alloc, &mut generator)?;
        let spec = numbered_tag(alloc, number as u16, words)?;
        groups.push_reserved(TagGroup { count: 1, spec });
    }
    Ok(List::new(groups))
}

/// The one step of a made scenario: a round without operations.
fn made_steps(alloc: Global) -> Result<List<Step>, OutOfMemory>
    ensures { IfOk result (λ list. list ≡ steps.Round made_round no_operations ∷ []) }
{
    let operations = OpList {
        only: None,
        ops: List::new(Vec::new(alloc)),
    };
    let mut steps = Vec::with_capacity(alloc, 1)?;
    steps.push_reserved(Step::Round(made_round(), operations));
    Ok(List::new(steps))
}

/// The scenario of a seed with so many tags: the tag of each number has the EPC
/// `3074257BF7194E400000` and the four hexadecimal digits of its number, and the next 64 words of the
/// generator. One round is run over them, without operations, and nothing is said of any exchange. It is
/// of version 1.
pub fn made_scenario(alloc: Global, seed: u64, tags: u32) -> Result<Scenario, OutOfMemory>
    requires { tags ≤ most_made_tags }
    ensures scenario { IfOk result (λ scenario. scenario ≡ made_scenario seed tags) }
    ensures legal { IfOk result IsScenario }
{
    Ok(Scenario {
        version: Version::One,
        link: made_link(),
        several: Several::Break,
        groups: made_groups(alloc, seed, tags)?,
        entries: List::new(Vec::new(alloc)),
        steps: made_steps(alloc)?,
    })
}
