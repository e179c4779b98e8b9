//! The air of a scenario.
ghost use Rattle.std.specs.Prelude.{◌≡◌, ◌≤◌, ◌++◌, IfOk, OnOk, map};
ghost use Rattle.air_world.specs.NewAir.{IsGroupOfTags, new_air};
ghost use Rattle.runs.specs.ScenarioHistory.{start_of, scenario_tag};
ghost use Rattle.scenario.specs.Groups.{copies_of, copy_of, raised};
ghost use Rattle.scenario.specs.Limits.{IsScenario};
ghost use Rattle.scenario_lines.specs.TagForm.{IsTag, epc_length};
ghost use Rattle.tag_machine.specs.Hearing.{tag_value_of};

use air_channel::{Air, Population};
use bit_strings::OutOfMemory;
use scenario::{Scenario, TagGroup, TagSpec};
use session_flags::DrawWords;
use std::alloc::Global;
use tag_machine::AnyTag;
use tag_memory::Memory;

/// A tag as a scenario gives it: ready, with the flags of a new tag and no draw made.
fn new_tag(alloc: Global, spec: &TagSpec) -> Result<AnyTag, OutOfMemory>
    requires { IsTag spec.now }
    ensures { IfOk result (λ tag. tag_value_of tag ≡ scenario_tag spec.now) }
{
    let words = DrawWords::new(alloc, spec.words.words())?;
    AnyTag::of_image(alloc, &spec.image, spec.locks, words)
}

/// A word raised by a number, modulo 65,536.
fn raised(word: u16, by: u32) -> u16
    ensures { result ≡ raised by word }
{
    let sum = u32::from(word) + by % 65_536;
    (sum % 65_536) as u16
}

/// The draw words, each raised by a number.
fn raised_words(alloc: Global, words: &DrawWords, by: u32) -> Result<DrawWords, OutOfMemory>
    ensures { IfOk result (λ changed. changed ≡ map (raised by) words.now) }
{
    let draws = words.words();
    let mut changed = Vec::with_capacity(alloc, draws.len())?;
    for word in draws {
        changed.push_reserved(raised(*word, by));
    }
    Ok(DrawWords::of(changed))
}

/// The copy of this number of a tag: the last word of its EPC, the last of its TID and each draw word are raised by the number.
fn new_copy(alloc: Global, spec: &TagSpec, number: u32) -> Result<AnyTag, OutOfMemory>
    requires tag { IsTag spec.now }
    requires epc { 1 ≤ epc_length spec.now }
    ensures { IfOk result (λ tag. tag_value_of tag ≡ scenario_tag (copy_of number spec.now)) }
{
    let epc = spec.image.epc.as_slice();
    let tid = spec.image.tid.as_slice();
    // The EPC stands behind PC, whose first five bits give the number of its words (6.3.2.1.2.2).
    let last_of_epc = raised(epc[usize::from(epc[0] >> 11)], number);
    let last_of_tid = raised(tid[tid.len() - 1], number);
    let memory = Memory::with_last_words(alloc, &spec.image, last_of_epc, last_of_tid)?;
    let words = raised_words(alloc, &spec.words, number)?;
    AnyTag::new(alloc, memory, spec.locks, words)
}

/// Adds the tags of a group: the tag as it is written, and behind it its other copies.
fn push_group(alloc: Global, tags: &mut Vec<AnyTag>, group: &TagGroup) -> Result<(), OutOfMemory>
    requires { IsGroupOfTags group.now }
    ensures { OnOk result (map tag_value_of tags.new.items ≡ map tag_value_of tags.old.items
        ++ map scenario_tag (copies_of group.now)) }
{
    tags.push(new_tag(alloc, &group.spec)?)?;
    for number in 1..group.count {
        tags.push(new_copy(alloc, &group.spec, number)?)?;
    }
    Ok(())
}

/// The tags of a scenario as they are at the start, group by group.
pub fn tags_at_start(alloc: Global, scenario: &Scenario) -> Result<Vec<AnyTag>, OutOfMemory>
    requires { IsScenario scenario.now }
    ensures { IfOk result (λ tags. map tag_value_of tags.items ≡ (start_of scenario.now).tags) }
{
    let groups = scenario.groups.as_slice();
    let mut tags = Vec::new(alloc);
    for group in groups {
        push_group(alloc, &mut tags, group)?;
    }
    Ok(tags)
}

/// The air of a scenario: its link, its tags as they are at the start, what the channel gives of several replies, and no exchange
/// made. It takes the memory for all that goes over the air.
pub fn set_up(alloc: Global, scenario: &Scenario) -> Result<Air, OutOfMemory>
    requires { IsScenario scenario.now }
    ensures { IfOk result (λ air. air ≡ new_air (start_of scenario.now)) }
{
    let tags = tags_at_start(alloc, scenario)?;
    let population = Population::new(alloc, tags)?;
    Air::new(alloc, population, scenario.link, scenario.several)
}
