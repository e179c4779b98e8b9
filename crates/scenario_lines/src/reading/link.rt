//! Link lines, read.
ghost use Rattle.std.specs.Prelude.{◌≡◌, IfOk, IfErr};
ghost use Rattle.pie_line.specs.Link.{IsLegalLink};
ghost use Rattle.scenario_lines.specs.LineForm.{IsLinkForm};
ghost use Rattle.scenario_lines.specs.Spelling.{link_fields};
ghost use Rattle.text_fields.specs.NamedFields.{AreFilled};
ghost use Rattle.scenario_lines.specs.Reading.{Misreads, MisreadsLink, link_fault, link_value};

use bit_strings::Code;
use checked_lines::FaultReason;
use pie_line::{Link, LinkRefusal};
use text_fields::{Fields, code_named, number, one_bit, seven_fields};

/// The greatest length of time in a link line, in nanoseconds.
const MOST_NANOSECONDS: u32 = 999_999;

/// The parameters of a link, each in the range of its field.
#[derive(Clone, Copy)]
pub(crate) struct Parameters {
    tari: u32,
    rtcal: u32,
    trcal: u32,
    pw: u32,
    dr: bool,
    code: Code,
    trext: bool,
}

/// The parameters that the fields behind `link` spell.
fn read_parameters(others: Fields) -> Result<Parameters, FaultReason>
    ensures ok { IfOk result
        (λ it. (others.entry ≡ link_fields (link_value it)) × IsLinkForm (link_value it)) }
    ensures refused { IfErr result (Misreads (AreFilled 7) link_fields IsLinkForm others.entry) }
{
    let Some((tari, rtcal, trcal, pw, dr, code, trext)) = seven_fields(others) else {
        return Err(FaultReason::Shape);
    };
    let Some(tari) = number(tari, MOST_NANOSECONDS) else {
        return Err(FaultReason::Number);
    };
    let Some(rtcal) = number(rtcal, MOST_NANOSECONDS) else {
        return Err(FaultReason::Number);
    };
    let Some(trcal) = number(trcal, MOST_NANOSECONDS) else {
        return Err(FaultReason::Number);
    };
    let Some(pw) = number(pw, MOST_NANOSECONDS) else {
        return Err(FaultReason::Number);
    };
    let Some(dr) = one_bit(dr) else {
        return Err(FaultReason::Number);
    };
    let Some(code) = code_named(code) else {
        return Err(FaultReason::Number);
    };
    let Some(trext) = one_bit(trext) else {
        return Err(FaultReason::Number);
    };
    Ok(Parameters {
        tari,
        rtcal,
        trcal,
        pw,
        dr,
        code,
        trext,
    })
}

/// The fault of a line whose link is refused so.
fn link_fault(refusal: LinkRefusal) -> FaultReason
    ensures { result ≡ link_fault refusal }
{
    match refusal {
        LinkRefusal::Tari => FaultReason::Tari,
        LinkRefusal::RtCal => FaultReason::RtCal,
        LinkRefusal::TrCal => FaultReason::TrCal,
        LinkRefusal::Pw => FaultReason::Pw,
    }
}

/// The link that the fields behind `link` spell.
pub(crate) fn read_link(others: Fields) -> Result<Link, FaultReason>
    ensures ok { IfOk result
        (λ link. (others.entry ≡ link_fields link) × IsLinkForm link × IsLegalLink link) }
    ensures refused { IfErr result (MisreadsLink others.entry) }
{
    let of = read_parameters(others)?;
    match Link::new(of.tari, of.rtcal, of.trcal, of.pw, of.dr, of.code, of.trext) {
        Ok(link) => Ok(link),
        Err(refusal) => Err(link_fault(refusal)),
    }
}
