//! The audit of a trace.
ghost use Rattle.std.specs.Prelude.{◌≡◌, ◌≤◌, ◌^◌, length, map, vec_len, IfOk};
ghost use Rattle.tag_machine.specs.Hearing.{tag_value_of};
ghost use Rattle.air_model.specs.Past.{Start};
ghost use Rattle.air_audit.specs.AuditorStanding.{AreAsGiven, IsEarly, AuditorStandsAt};
ghost use Rattle.air_audit.specs.FirstRefusal.{IsAuditVerdict};
ghost use Rattle.air_audit.specs.ReceivedLists.{ListsWhatIsReceived};
ghost use Rattle.air_audit.specs.declared.verdict.Verdict.TheVariants.{Yes};
ghost use Rattle.air_audit.specs.TraceOrder.{begun};

use crate::auditor::Auditor;
use crate::laws::list_lines_are_received;
use crate::stop::Stop;
use crate::{AuditReason, Verdict};
use air_events::{Entry, EntryCursor, MOST_TAGS, empty_entry};
use bit_strings::{List, OutOfMemory};
use pie_line::Link;
use std::alloc::Global;
use std::marker::Brand;
use std::sync::ledger::{Blank, Ledger};
use tag_machine::{AnyTag, Several, Steps};
use tag_population::Population;
use text_fields::split_line;

/// Says whether a trace is what these tags and the channel make of the commands in it, or which line is the first with
/// which no such trace goes on, and why. What is said of exchanges, and what the channel gives of several replies, is as
/// a scenario says it.
///
/// # Errors
///
/// There was no memory. It is taken before the first line, and for the longest line that has to stand as it is written.
pub fn audit(
    alloc: Global,
    tags: Vec<AnyTag>,
    link: Link,
    entries: List<(u64, Entry)>,
    several: Several,
    trace: &[u8],
) -> Result<Verdict, OutOfMemory>
    requires given { AreAsGiven (vec_len tags) entries }
    requires trace { length trace.now ≤ 2 ^ 24 }
    ensures exact { IfOk result
        (IsAuditVerdict (record {
          link = link;
          tags = map tag_value_of
              tags.items;
          entries = entries;
          several = several;
        }) trace.now) }
    ensures listed { IfOk result (λ verdict. verdict ≡ Yes → ListsWhatIsReceived link trace.now) }
{
    audit_counted::<Brand>(Blank::new(1), alloc, tags, link, entries, several, trace)
}

/// Audits a trace. The blank is for the counter of steps.
fn audit_counted<L: Ledger>(
    blank: Blank,
    alloc: Global,
    tags: Vec<AnyTag>,
    link: Link,
    entries: List<(u64, Entry)>,
    several: Several,
    trace: &[u8],
) -> Result<Verdict, OutOfMemory>
    requires name { blank.name ≡ L.name }
    requires parts { blank.parts ≡ L.parts }
    requires one { blank.parts ≡ 1 }
    requires given { AreAsGiven (vec_len tags) entries }
    requires trace { length trace.now ≤ 2 ^ 24 }
    ensures exact { IfOk result
        (IsAuditVerdict (record {
          link = link;
          tags = map tag_value_of
              tags.items;
          entries = entries;
          several = several;
        }) trace.now) }
    ensures listed { IfOk result (λ verdict. verdict ≡ Yes → ListsWhatIsReceived link trace.now) }
{
    // By this law the list lines of an audited trace say what is received.
    list_lines_are_received();
    let population = Population::new(alloc, tags)?;
    // Tags are legal, and no more than that.
    prove!(population.len() <= u32::from(MOST_TAGS));
    let empty = empty_entry(alloc);
    let cursor = EntryCursor::new(entries.as_slice(), &empty);
    let mut auditor = Auditor::<L>::new(
        alloc,
        population,
        link,
        several,
        cursor,
        Steps::new(blank),
    )?;
    walk(&mut auditor, trace)
}

/// Goes over the lines of a trace, up to the first that is refused.
fn walk<L: Ledger>(auditor: &mut Auditor<'_, L>, trace: &[u8]) -> Result<Verdict, OutOfMemory>
    requires underway { (start : Start) × AuditorStandsAt start begun auditor.old }
    requires early { IsEarly 0 auditor.old }
    requires trace { length trace.now ≤ 2 ^ 24 }
    ensures { (start : Start) → AuditorStandsAt start begun auditor.old
        → IfOk result (IsAuditVerdict start trace.now) }
{
    let mut rest = trace;
    let mut number = 1;
    while let Some((line, behind)) = split_line(rest) {
        match auditor.follow(line) {
            Ok(()) => {}
            Err(Stop::Refused(reason)) => return Ok(Verdict::No(number, reason)),
            Err(Stop::OutOfMemory(error)) => return Err(error),
        }
        rest = behind;
        number += 1;
    }
    if auditor.has_ended() && rest.is_empty() {
        Ok(Verdict::Yes)
    } else {
        Ok(Verdict::No(number, AuditReason::End))
    }
}
