//! What holds of the texts of logs and of what is judged of them. Each function here states one law by its contract, and does nothing but
//! call the laws that it follows from.
ghost use Rattle.std.specs.Prelude.{◌≡◌, ◌⊎◌, ℕ, List};
ghost use Rattle.log_judge.specs.Log.{LogEntry, LoggedTag};
ghost use Rattle.log_judge.specs.Verdicts.{Verdict};
ghost use Rattle.checked_lines.specs.declared.fault.FaultReason.{FaultReason};
ghost use Rattle.bench_lines.specs.Judged.{IsJudged};
ghost use Rattle.bench_lines.specs.laws.LogLineLaws.{LogLineLaws};
ghost use Rattle.bench_lines.specs.laws.SeenLaws.{SeenLaws};
ghost use Rattle.bench_lines.specs.LogText.{IsFirstLogFault, IsLogText};

use crate::probe_laws::{line_laws, stimuli_have_one_effect};
use log_judge::logs_have_one_verdict;
use wire_text::{replies_are_told_apart, replies_have_one_fault, spelled_replies_are_not_faulty};

/// What the laws of single answer lines say, together.
pub(crate) fn seen_laws()
    ensures { SeenLaws }
{
    replies_are_told_apart();
    spelled_replies_are_not_faulty();
    replies_have_one_fault();
}

/// What the laws of single lines of a log say, together.
fn log_line_laws()
    ensures { LogLineLaws }
{
    line_laws();
    stimuli_have_one_effect();
    seen_laws();
}

/// Bytes are the text of one log of one tag at most.
pub fn logs_are_told_apart()
    ensures { (bytes : List ℕ) (tag other_tag : LoggedTag) (log other_log : List LogEntry)
        → IsLogText bytes tag log → IsLogText bytes other_tag other_log
        → (tag ≡ other_tag) × (log ≡ other_log) }
{
    log_line_laws();
}

/// The text of a log has no faulty line.
pub fn log_texts_are_not_faulty()
    ensures { (bytes : List ℕ) (tag : LoggedTag) (log : List LogEntry) (number : ℕ)
        (fault : FaultReason) → IsLogText bytes tag log → IsFirstLogFault bytes number fault → ⊥ }
{
    log_line_laws();
}

/// As the text of a log, bytes have at most one first faulty line, which has one first reason.
pub fn log_texts_have_one_fault()
    ensures { (bytes : List ℕ) (one other : ℕ) (fault reason : FaultReason)
        → IsFirstLogFault bytes one fault → IsFirstLogFault bytes other reason
        → (one ≡ other) × (fault ≡ reason) }
{
    log_line_laws();
}

/// Each text is that of a log, or has a first faulty line.
pub fn texts_are_logs_or_faulty()
    ensures { (bytes : List ℕ)
        → ((tag : LoggedTag) × (log : List LogEntry) × IsLogText bytes tag log)
        ⊎ ((number : ℕ) × (fault : FaultReason) × IsFirstLogFault bytes number fault) }
{
    log_line_laws();
}

/// The text of a log has one verdict, and one only.
pub fn log_texts_have_one_verdict()
    ensures some { (bytes : List ℕ) (tag : LoggedTag) (log : List LogEntry)
        → IsLogText bytes tag log → (verdict : Verdict) × IsJudged bytes verdict }
    ensures one { (bytes : List ℕ) (one other : Verdict) → IsJudged bytes one → IsJudged bytes other
        → one ≡ other }
{
    logs_are_told_apart();
    logs_have_one_verdict();
}
