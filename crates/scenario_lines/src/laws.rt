//! What holds of the spellings themselves. Each function here states one law by its contract, and does
//! nothing.
ghost use Rattle.std.specs.Prelude.{◌≡◌, ◌⊎◌, ℕ, true, List, All};
ghost use Rattle.text_fields.specs.Lines.{IsFieldText};
ghost use Rattle.tag_memory.specs.Image.{banks_of, pc_fits, sizes_fit};
ghost use Rattle.tag_memory.specs.Memory.{IsLegalMemory};
ghost use Rattle.scenario_lines.specs.declared.tag.TagSpec.{TagSpec};
ghost use Rattle.scenario_lines.specs.TagForm.{IsTag};
ghost use Rattle.scenario_lines.specs.declared.keywords.Keyword.{Keyword};
ghost use Rattle.scenario_lines.specs.declared.line.Line.{Line};
ghost use Rattle.checked_lines.specs.declared.fault.FaultReason.{FaultReason};
ghost use Rattle.scenario_lines.specs.LineForm.{IsLine};
ghost use Rattle.scenario_lines.specs.LineFaults.{BeginsWithKeyword, IsFaultyLine};
ghost use Rattle.scenario_lines.specs.SpelledLines.{SpellsLine};
ghost use Rattle.scenario_lines.specs.Spelling.{line_fields, keyword_of};

/// Each field of a line may stand as a field.
#[tactic(auto, using(crate::proofs::LineTexts::line_texts))]
pub fn lines_are_field_texts()
    ensures { (line : Line) → IsLine line → All IsFieldText (line_fields line) }
{}

/// A list of fields spells at most one line.
pub fn lines_are_told_apart()
    ensures { (fields : List (List ℕ)) (one other : Line) → SpellsLine fields one
        → SpellsLine fields other → one ≡ other }
{}

/// The fields of a scenario's line begin with its keyword.
#[tactic(auto, using(crate::specs::LineBeginnings::begins))]
pub fn lines_begin_with_their_keyword()
    ensures { (line : Line) → BeginsWithKeyword (line_fields line) (keyword_of line) }
{}

/// Fields begin with at most one keyword.
pub fn lines_begin_with_one_keyword()
    ensures { (fields : List (List ℕ)) (one other : Keyword) → BeginsWithKeyword fields one
        → BeginsWithKeyword fields other → one ≡ other }
{}

/// Fields that spell a line are not faulty.
pub fn spelled_lines_are_not_faulty()
    ensures { (fields : List (List ℕ)) (line : Line) (fault : FaultReason) → SpellsLine fields line
        → IsFaultyLine fields fault → ⊥ }
{}

/// As a line of a scenario, fields are faulty for at most one reason.
pub fn lines_have_one_fault()
    ensures { (fields : List (List ℕ)) (one other : FaultReason) → IsFaultyLine fields one
        → IsFaultyLine fields other → one ≡ other }
{}

/// Fields begin with a keyword, or are faulty since they begin with none.
pub fn lines_begin_or_are_faulty()
    ensures { (fields : List (List ℕ)) → ((keyword : Keyword) × BeginsWithKeyword fields keyword)
        ⊎ IsFaultyLine fields FaultReason.Word }
{}

/// Fields spell a line, or are faulty for some reason.
pub fn lines_say_something_or_are_faulty()
    ensures { (fields : List (List ℕ)) → ((line : Line) × SpellsLine fields line)
        ⊎ ((fault : FaultReason) × IsFaultyLine fields fault) }
{}

/// A memory can be made of the image of each tag line (6.3.2.1 Tag memory), and its banks have the sizes
/// that a tag's banks may have.
pub fn tag_lines_fit_memories()
    ensures sizes { (tag : TagSpec) → IsTag tag → sizes_fit tag.image ≡ true }
    ensures pc { (tag : TagSpec) → IsTag tag → pc_fits tag.image ≡ true }
    ensures banks { (tag : TagSpec) → IsTag tag → IsLegalMemory (banks_of tag.image) }
{}
