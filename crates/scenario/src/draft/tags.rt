//! What the tag and copies lines of a scenario have said so far.
ghost use Rattle.std.specs.Prelude.{◌≡◌, ◌+◌, ◌<◌, ◌≤◌, ◌↔◌, ◌++◌, [], ◌∷◌, length, IsTrue, OnOk};
ghost use Rattle.air_events.specs.TagNumbers.{most_tags};
ghost use Rattle.scenario.specs.Groups.{tags_of};
ghost use Rattle.scenario.specs.Limits.{most_tags_of};
ghost use Rattle.scenario_lines.specs.declared.version.Version.TheVariants.{Two};
ghost use Rattle.scenario.specs.Standing.{MayCopy};

use crate::values::TagGroup;
use air_events::MOST_TAGS;
use bit_strings::{List, OutOfMemory};
use scenario_lines::{Line, TagText, Version};
use std::alloc::Global;
use std::marker::Model;

/// How many tags a scenario of version 1 may have.
const MOST_TAGS_OF_ONE: u32 = 256;

/// How many tags a scenario of this version may have.
fn most_tags(version: Version) -> u32
    ensures { result ≡ most_tags_of version }
{
    match version {
        Version::One => MOST_TAGS_OF_ONE,
        Version::Two => u32::from(MOST_TAGS),
    }
}

/// The groups of tags that the lines have named, in order. A contract sees the list of them.
#[derive(Drop)]
pub(crate) struct TagLines {
    groups: Vec<TagGroup>,
    /// How many tags they are.
    count: u32,
}

impl Model for TagLines {
    ghost use Rattle.std.specs.Prelude.{◌≡◌, List, length};
    ghost use Rattle.scenario.specs.declared.values.TagGroup.{TagGroup};
    ghost use Rattle.scenario.specs.Groups.{tags_of};
    ghost use Rattle.scenario.specs.TagLinesSoFar.{AreFewTagLines};

    ghost Value = { List TagGroup };

    ghost view = { λ a. a.groups.items };

    ghost invariant = { λ a. (a.count ≡ length (tags_of a.groups.items))
        × AreFewTagLines a.groups.items };
}

impl TagLines {
    /// The groups of tags before the first tag line: none.
    pub(crate) fn new(alloc: Global) -> TagLines
        ensures { result ≡ [] }
    {
        TagLines {
            groups: Vec::new(alloc),
            count: 0,
        }
    }

    /// How many tags the lines of the scenario have named so far.
    pub(crate) fn count(&self) -> u32
        ensures count { result ≡ length (tags_of self.now) }
        ensures small { result ≤ most_tags }
    {
        self.count
    }

    /// Whether one tag more is none too many in a scenario of this version.
    pub(crate) fn has_room(&self, version: Version) -> bool
        ensures { IsTrue result ↔ (length (tags_of self.now) < most_tags_of version) }
    {
        self.count < most_tags(version)
    }

    /// Whether a line of copies, where it is one, has an EPC for them to differ in, and isn't too many.
    pub(crate) fn may_copy(&self, line: &Line) -> bool
        ensures { IsTrue result ↔ MayCopy (length (tags_of self.now)) line.now }
    {
        match line {
            Line::Copies(count, tag) => {
                tag.epc_length() > 0 && *count <= u32::from(MOST_TAGS) - self.count
            }
            _ => true,
        }
    }

    /// Adds so many copies of a tag.
    #[tactic(auto, using(crate::proofs::Counts::tags_more))]
    pub(crate) fn add(
        &mut self,
        alloc: Global,
        count: u32,
        tag: &TagText,
    ) -> Result<(), OutOfMemory>
        requires some { 1 ≤ count }
        requires room { length (tags_of self.old) + count ≤ most_tags_of Two }
        ensures { OnOk result
            (self.new ≡ self.old ++ (record { count = count; spec = tag.now }) ∷ []) }
    {
        let spec = tag.to_spec(alloc)?;
        self.groups.push(TagGroup { count, spec })?;
        self.count += count;
        Ok(())
    }

    /// The list of the groups of tags that the lines of the scenario have named.
    pub(crate) fn into_list(self) -> List<TagGroup>
        ensures { result ≡ self }
    {
        let TagLines { groups, count: _ } = self;
        List::new(groups)
    }
}
