//! Two portals beside each other, and each alone.
ghost use Rattle.std.specs.Prelude.{◌≡◌, ◌+◌, ◌<◌, ◌≤◌, [], ◌∷◌, ◌++◌, All, IfOk, length, vec_capacity, vec_len};
ghost use Rattle.q_round.specs.SpecValue.{IsLegalSpec};
ghost use Rattle.two_portals.specs.PortalLines.{AreIndependent, IsNewTag, IsOfPortal, are_same, portal_line_of, portal_lines};

use crate::hall::{Hall, Pairs};
use crate::portal_line::PortalLine;
use bit_strings::OutOfMemory;
use q_round::{RoundEnd, RoundSpec};
use std::alloc::Global;

/// Plays the rounds of two portals, in order: all of them in the hall `joint`, those of session S2 in the hall
/// `alone2`, and those of session S3 in the hall `alone3`, of the same new tags each. It gives a line for each
/// round, first those of session S2.
///
/// # Errors
///
/// There was no memory.
pub fn compare<H: Hall + Drop>(
    alloc: Global,
    joint: H,
    alone2: H,
    alone3: H,
    specs: &[RoundSpec],
) -> Result<Vec<PortalLine>, OutOfMemory>
    requires equal2 { H.tags alone2 ≡ H.tags joint }
    requires equal3 { H.tags alone3 ≡ H.tags joint }
    requires fresh { All IsNewTag (H.tags joint) }
    requires sessions { All IsOfPortal specs.now }
    requires few { length specs.now ≤ 1024 }
    ensures lines { IfOk result
        (λ lines. lines.items ≡ portal_lines H.played (H.tags joint) specs.now) }
    ensures independent { IfOk result (λ lines. AreIndependent lines.items) }
{
    let mut joint = joint;
    let mut alone2 = alone2;
    let mut alone3 = alone3;
    play_all(alloc, &mut joint, &mut alone2, &mut alone3, specs)
}

/// Plays the rounds of two portals in three halls, which are lent for it, so that a hall is dropped where it is owned alone.
fn play_all<H: Hall>(
    alloc: Global,
    joint: &mut H,
    alone2: &mut H,
    alone3: &mut H,
    specs: &[RoundSpec],
) -> Result<Vec<PortalLine>, OutOfMemory>
    requires equal2 { H.tags alone2.old ≡ H.tags joint.old }
    requires equal3 { H.tags alone3.old ≡ H.tags joint.old }
    requires fresh { All IsNewTag (H.tags joint.old) }
    requires sessions { All IsOfPortal specs.now }
    requires few { length specs.now ≤ 1024 }
    ensures lines { IfOk result
        (λ lines. lines.items ≡ portal_lines H.played (H.tags joint.old) specs.now) }
    ensures independent { IfOk result (λ lines. AreIndependent lines.items) }
{
    let mut lines = Vec::with_capacity(alloc, specs.len())?;
    let mut lines3 = Vec::with_capacity(alloc, specs.len())?;
    let mut heard = Pairs::new(alloc, joint.len())?;
    let mut heard_alone = Pairs::new(alloc, joint.len())?;
    for spec in specs {
        if spec.session().get() == 2 {
            play_both(
                joint,
                alone2,
                spec,
                &mut lines,
                &mut heard,
                &mut heard_alone,
            );
        } else {
            play_both(
                joint,
                alone3,
                spec,
                &mut lines3,
                &mut heard,
                &mut heard_alone,
            );
        }
    }
    lines.extend_from_slice(&lines3)?;
    Ok(lines)
}

/// Plays a round in the hall that both portals share and in that of its own portal alone, and adds its line to
/// those of the portal, which have room for it. What is heard goes into rooms for as many pairs as there are tags.
fn play_both<H: Hall>(
    joint: &mut H,
    alone: &mut H,
    spec: &RoundSpec,
    lines: &mut Vec<PortalLine>,
    heard: &mut Pairs,
    heard_alone: &mut Pairs,
)
    requires line { vec_len lines.old < vec_capacity lines.old }
    requires few { vec_len lines.old < 1024 }
    requires room { length (H.tags joint.old) ≤ heard.old.capacity }
    requires room_alone { length (H.tags alone.old) ≤ heard_alone.old.capacity }
    ensures line { lines.new.items ≡ lines.old.items
        ++ portal_line_of spec.now.session (vec_len lines.old + 1)
        (H.played (H.tags joint.old) spec.now) (H.played (H.tags alone.old) spec.now) ∷ [] }
    ensures len { vec_len lines.new ≡ vec_len lines.old + 1 }
    ensures capacity { vec_capacity lines.new ≡ vec_capacity lines.old }
    ensures joint { H.tags joint.new ≡ (H.played (H.tags joint.old) spec.now).tags }
    ensures alone { H.tags alone.new ≡ (H.played (H.tags alone.old) spec.now).tags }
    ensures room { heard.new.capacity ≡ heard.old.capacity }
    ensures room_alone { heard_alone.new.capacity ≡ heard_alone.old.capacity }
    ensures legal { IsLegalSpec spec.now }
{
    let number = lines.len() as u32 + 1;
    heard.clear();
    heard_alone.clear();
    let end = joint.round(spec, heard);
    let end_alone = alone.round(spec, heard_alone);
    lines.push_reserved(PortalLine {
        session: spec.session(),
        number,
        joint: heard.len(),
        alone: heard_alone.len(),
        quiet: end == RoundEnd::Quiet && end_alone == RoundEnd::Quiet,
        same: are_same(heard, heard_alone),
    });
}

/// Whether two lists hold the same pairs, each as often. Both are sorted then.
fn are_same(heard: &mut Pairs, other: &mut Pairs) -> bool
    ensures same { result ≡ are_same heard.old.items other.old.items }
    ensures capacity { heard.new.capacity ≡ heard.old.capacity }
    ensures other { other.new.capacity ≡ other.old.capacity }
{
    heard.sort();
    other.sort();
    heard.as_slice() == other.as_slice()
}
