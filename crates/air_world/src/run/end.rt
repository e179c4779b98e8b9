//! What is told behind the steps.
ghost use Rattle.std.specs.Prelude.{◌≡◌, ◌<◌, ◌++◌, [], ◌∷◌, Some, length, map, slice_get};
ghost use Rattle.air_world.specs.Telling.{IsToldWhole};
ghost use Rattle.report_lines.specs.ReportLine.{DoneLine, TagLine};
ghost use Rattle.report_lines.specs.SeenCounts.{seen_line};
ghost use Rattle.runs.specs.Report.{tag_lines};
ghost use Rattle.tag_machine.specs.TagValue.{TagValue};

use crate::run::Run;
use air_channel::Air;
use report_lines::{Line, Listener, SeenCounts};
use std::sync::ledger::Ledger;

impl<'a, L: Ledger> Run<'a, L> {
    /// Tells how often each pair of PC and EPC was listed, what each tag is, and that this is all.
    pub(crate) fn finish<R: Listener>(&mut self, air: &mut Air, seen: &SeenCounts, report: &mut R)
        ensures air { air.new ≡ air.old }
        ensures told { IsToldWhole R.hears
            (map seen_line seen.now ++ tag_lines 0 air.old.tags ++ DoneLine ∷ [])
            report.old report.new }
    {
        tell_counts(seen, report);
        self.tell_tags(air, report);
        report.tell(&Line::Done);
    }

    /// Tells what each tag is.
    fn tell_tags<R: Listener>(&mut self, air: &mut Air, report: &mut R)
        ensures air { air.new ≡ air.old }
        ensures told { IsToldWhole R.hears (tag_lines 0 air.old.tags) report.old report.new }
    {
        for number in 0..air.len() {
            self.tell_tag(air, number, report);
        }
    }

    /// Tells what the tag with this number is.
    fn tell_tag<R: Listener>(&mut self, air: &mut Air, number: u32, report: &mut R)
        requires { number < length air.old.tags }
        ensures air { air.new ≡ air.old }
        ensures told { (tag : TagValue) → slice_get air.old.tags number ≡ Some tag
            → IsToldWhole R.hears (TagLine number tag ∷ []) report.old report.new }
    {
        let tag = air.tag(number, &mut self.steps);
        report.tell(&Line::Tag { number, tag });
    }
}

/// Tells how often each pair of PC and EPC was listed.
fn tell_counts<R: Listener>(seen: &SeenCounts, report: &mut R)
    ensures { IsToldWhole R.hears (map seen_line seen.now) report.old report.new }
{
    for at in 0..seen.len() {
        let Some((count, pc, epc)) = seen.get(at) else {
            unreachable!();
        };
        report.tell(&Line::Seen { count, pc, epc });
    }
}
