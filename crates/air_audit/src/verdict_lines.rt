//! The line that says whether a trace is audited.
ghost use Rattle.std.specs.Prelude.{◌≡◌, ◌≤◌, length};
ghost use Rattle.air_audit.specs.VerdictText.{event_line, audit_reason_word, refused_line, verdict_line};

use crate::{AuditReason, Verdict};
use arrayvec::ArrayVec;
use itoa::Buffer;
use text_fields::push_bytes;

/// The line of a verdict, `yes` or `no NUMBER REASON`, with its line feed. It takes no memory.
pub fn verdict_text(verdict: Verdict) -> ArrayVec<u8, 32>
    ensures { result.items ≡ verdict_line verdict }
{
    match verdict {
        Verdict::Yes => audited_line(),
        Verdict::No(number, reason) => refused_line(number, reason_name(reason)),
    }
}

/// The line `no 0 event`, with its line feed: no line of a trace tells of an event between two exchanges. It takes no memory.
pub fn event_text() -> ArrayVec<u8, 32>
    ensures { result.items ≡ event_line }
{
    refused_line(0, "event")
}

/// The line of a trace that is audited.
fn audited_line() -> ArrayVec<u8, 32>
    ensures { result.items ≡ verdict_line Verdict.Yes }
{
    let mut text = ArrayVec::new();
    push_bytes(&mut text, b"yes\n");
    text
}

/// The line of a trace that is refused.
fn refused_line(number: u32, reason: &str) -> ArrayVec<u8, 32>
    requires { length reason.now ≤ 14 }
    ensures { result.items ≡ refused_line number reason.now }
{
    let mut digits = Buffer::new();
    let mut text = ArrayVec::new();
    push_bytes(&mut text, b"no ");
    push_bytes(&mut text, digits.format(number).as_bytes());
    push_bytes(&mut text, b" ");
    push_bytes(&mut text, reason.as_bytes());
    push_bytes(&mut text, b"\n");
    text
}

/// The word of a reason.
fn reason_name(reason: AuditReason) -> &'static str
    ensures word { result.now ≡ audit_reason_word reason }
    ensures short { length result.now ≤ 14 }
{
    match reason {
        AuditReason::End => "end",
        AuditReason::Extra => "extra",
        AuditReason::Blf => "blf",
        AuditReason::List => "list",
        AuditReason::Word => "word",
        AuditReason::Shape => "shape",
        AuditReason::Number => "number",
        AuditReason::Exchange => "exchange",
        AuditReason::Frame => "frame",
        AuditReason::Count => "count",
        AuditReason::Levels => "levels",
        AuditReason::Tag => "tag",
    }
}
