//! Laws of scenarios: a copy may stand where its tag may, and a scenario of either version keeps the limits of version 2.
ghost use Rattle.std.specs.Prelude.{List, All};
ghost use Rattle.scenario.specs.declared.values.TagGroup.{TagGroup};
ghost use Rattle.scenario.specs.Groups.{tags_of};
ghost use Rattle.scenario.specs.declared.values.Scenario.{Scenario};
ghost use Rattle.scenario.specs.Limits.{IsGroup, IsScenario};
ghost use Rattle.scenario.specs.Upgraded.{upgraded};
ghost use Rattle.scenario_lines.specs.TagForm.{IsTag};
ghost use Rattle.scenario_lines.specs.declared.version.Version.{Version};

/// Each copy of a tag that may stand in a scenario may stand there too.
pub fn copies_are_tags()
    ensures { (version : Version) (groups : List TagGroup) → All (IsGroup version) groups
        → All IsTag (tags_of groups) }
{}

/// A scenario that keeps the limits of its version keeps those of version 2.
pub fn upgraded_scenarios_are_legal()
    ensures { (scenario : Scenario) → IsScenario scenario → IsScenario (upgraded scenario) }
{}
