//! What holds of the words and of the texts of each form.
ghost use Rattle.std.specs.Prelude.{◌≡◌, ℕ, List};
ghost use Rattle.top_call.specs.declared.forms.Form.{Form};
ghost use Rattle.top_call.specs.Form.{SpellForm};
ghost use Rattle.top_call.specs.Job.{Defines, IsLawful};
ghost use Rattle.top_call.specs.Jobs.{job_of};

use crate::forms::Form;
use crate::words::audit::audit_is_lawful;
use crate::words::decode::decode_is_lawful;
use crate::words::encode::encode_is_lawful;
use crate::words::generate::gen_is_lawful;
use crate::words::judge::judge_is_lawful;
use crate::words::names::names_are_lawful;
use crate::words::objects::objects_are_lawful;
use crate::words::own_texts::own_texts_are_lawful;
use crate::words::portals::portals_are_lawful;
use crate::words::probe::probe_is_lawful;
use crate::words::run::run_is_lawful;
use crate::words::upgrade::upgrade_is_lawful;

/// A list of words spells one form at most.
pub fn forms_are_told_apart()
    ensures { (words : List (List ℕ)) (one other : Form) → SpellForm words one
        → SpellForm words other → one ≡ other }
{}

/// The job of each form is lawful.
pub fn jobs_are_lawful()
    ensures { (form : Form) → IsLawful (job_of form) }
{
    decode_is_lawful();
    encode_is_lawful();
    run_is_lawful();
    upgrade_is_lawful();
    portals_are_lawful();
    names_are_lawful();
    probe_is_lawful();
    audit_is_lawful();
    judge_is_lawful();
    objects_are_lawful();
    gen_is_lawful();
    own_texts_are_lawful();
}

/// Under each form an input that the grammar allows has no fault line.
pub fn grammatical_inputs_are_not_refused()
    ensures { (form : Form) (bytes text : List ℕ) → (job_of form).allows bytes
        → (job_of form).refuses bytes text → ⊥ }
{
    jobs_are_lawful();
}

/// Under each form an input has one defined text at most: what the form has to write for it, or its fault
/// line, and never both.
pub fn inputs_have_one_text()
    ensures one { (form : Form) (bytes one other : List ℕ) → Defines (job_of form) bytes one
        → Defines (job_of form) bytes other → one ≡ other }
    ensures apart { (form : Form) (bytes one other : List ℕ) → (job_of form).writes bytes one
        → (job_of form).refuses bytes other → ⊥ }
{
    jobs_are_lawful();
}
