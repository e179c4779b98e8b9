//! What holds of the spellings themselves. Each function here states one law by its contract, and does
//! nothing.
ghost use Rattle.std.specs.Prelude.{◌≡◌, ◌≢◌, ◌<◌, ◌^◌, ◌++◌, ℕ, Bool, List, [], ◌∷◌, All};
ghost use Rattle.std.specs.Fmt.{decimal};
ghost use Rattle.text_fields.specs.Binary.{binary};
ghost use Rattle.text_fields.specs.Hexadecimal.{hex_byte, hex_word, hex_words};
ghost use Rattle.text_fields.specs.Lines.{IsFieldText, Lacks, fields_of, line_feed, line_with, lines_of, space, text_with};

/// Two numbers of 32 bits are not spelled alike.
#[tactic(auto, using(crate::proofs::ToldApart::decimal_told))]
pub fn numbers_are_told_apart()
    ensures { (m n : ℕ) → m < 2 ^ 32 → n < 2 ^ 32 → decimal m ≡ decimal n → m ≡ n }
{}

/// Two lists of bits are not spelled alike.
#[tactic(auto, using(crate::proofs::ToldApart::binary_told))]
pub fn bits_are_told_apart()
    ensures { (one other : List Bool) → binary one ≡ binary other → one ≡ other }
{}

/// Two words are not spelled alike.
#[tactic(auto, using(crate::proofs::ToldApart::hex_word_told))]
pub fn words_are_told_apart()
    ensures { (m n : ℕ) → m < 2 ^ 16 → n < 2 ^ 16 → hex_word m ≡ hex_word n → m ≡ n }
{}

/// Two lists of words are not spelled alike.
#[tactic(auto, using(crate::proofs::ToldApart::hex_words_told))]
pub fn word_lists_are_told_apart()
    ensures { (one other : List ℕ) → All (λ word. word < 2 ^ 16) one
        → All (λ word. word < 2 ^ 16) other → hex_words one ≡ hex_words other → one ≡ other }
{}

/// Each spelling may stand as a field.
#[tactic(auto, using(crate::proofs::FieldTextLaws::field_texts))]
pub fn spellings_are_field_texts()
    ensures number { (n : ℕ) → n < 2 ^ 32 → IsFieldText (decimal n) }
    ensures bits { (bits : List Bool) → IsFieldText (binary bits) }
    ensures byte { (byte : ℕ) → IsFieldText (hex_byte byte) }
    ensures word { (word : ℕ) → IsFieldText (hex_word word) }
    ensures words { (words : List ℕ) → IsFieldText (hex_words words) }
{}

/// The fields of a line that is made of fields are these fields.
#[tactic(auto, using(crate::proofs::LineLaws::fields_come_back))]
pub fn fields_come_back()
    ensures { (fields : List (List ℕ)) → fields ≢ [] → All (Lacks space) fields
        → fields_of (line_with fields) ≡ fields }
{}

/// The lines of a text that is made of lines are these lines, and nothing stands behind the last one.
#[tactic(auto, using(crate::proofs::LineLaws::lines_come_back))]
pub fn lines_come_back()
    ensures { (lines : List (List ℕ)) → All (Lacks line_feed) lines
        → lines_of (text_with lines) ≡ lines ++ [] ∷ [] }
{}
