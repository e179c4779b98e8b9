//! What holds of the texts of probes and of what is told of them. Each function here states one law by its contract, and does nothing but
//! call the laws that it follows from.
ghost use Rattle.std.specs.Prelude.{◌≡◌, ℕ, List};
ghost use Rattle.std.specs.List.{AllZip};
ghost use Rattle.checked_lines.specs.declared.fault.FaultReason.{FaultReason};
ghost use Rattle.scenario_lines.specs.declared.tag.TagSpec.{TagSpec};
ghost use Rattle.tag_machine.specs.TagValue.{TagValue};
ghost use Rattle.bench_lines.specs.Stimuli.{Stimulus, StimulusEffect};
ghost use Rattle.bench_lines.specs.ProbeAnswers.{HasEffect, TellsEffects};
ghost use Rattle.bench_lines.specs.laws.ProbeLineLaws.{ProbeLineLaws, TagLineLaws};
ghost use Rattle.bench_lines.specs.ProbeText.{IsFirstProbeFault, IsProbe};

use command_grammar::spelling_laws;
use scenario_lines::{lines_are_told_apart, lines_have_one_fault, spelled_lines_are_not_faulty};
use text_fields::bits_are_told_apart;
use wire_text::{
    commands_are_told_apart, commands_have_one_fault, spelled_commands_are_not_faulty,
};

/// What the laws of single lines of a probe say, together.
pub fn line_laws()
    ensures lines { ProbeLineLaws }
    ensures tags { TagLineLaws }
{
    commands_are_told_apart();
    spelled_commands_are_not_faulty();
    commands_have_one_fault();
    bits_are_told_apart();
    lines_are_told_apart();
    lines_have_one_fault();
    spelled_lines_are_not_faulty();
}

/// Whatever is done to a tag has an effect on it, and one only.
pub fn stimuli_have_one_effect()
    ensures some { (said : List Stimulus) → (effects : List StimulusEffect)
        × AllZip HasEffect said effects }
    ensures one { (said : List Stimulus) (one other : List StimulusEffect)
        → AllZip HasEffect said one → AllZip HasEffect said other → one ≡ other }
{
    spelling_laws();
}

/// One text tells what comes of what is done to a tag.
pub fn probes_have_one_text()
    ensures { (tag : TagValue) (said : List Stimulus) (one other : List ℕ)
        → TellsEffects tag said one → TellsEffects tag said other → one ≡ other }
{
    stimuli_have_one_effect();
}

/// Bytes are the text of one probe at most.
pub fn probes_are_told_apart()
    ensures { (bytes : List ℕ) (tag other_tag : TagSpec) (said other_said : List Stimulus)
        → IsProbe bytes tag said → IsProbe bytes other_tag other_said
        → (tag ≡ other_tag) × (said ≡ other_said) }
{
    line_laws();
}

/// The text of a probe has no faulty line.
pub fn probe_texts_are_not_faulty()
    ensures { (bytes : List ℕ) (tag : TagSpec) (said : List Stimulus) (number : ℕ)
        (fault : FaultReason) → IsProbe bytes tag said → IsFirstProbeFault bytes number fault → ⊥ }
{
    line_laws();
}

/// As the text of a probe, bytes have at most one first faulty line, which has one first reason.
pub fn probe_texts_have_one_fault()
    ensures { (bytes : List ℕ) (one other : ℕ) (fault reason : FaultReason)
        → IsFirstProbeFault bytes one fault → IsFirstProbeFault bytes other reason
        → (one ≡ other) × (fault ≡ reason) }
{
    line_laws();
}
