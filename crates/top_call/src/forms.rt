//! What the words of the command line ask for.
ghost use Rattle.std.specs.Prelude.{◌≡◌, ◌↔◌, ◌≤◌, ◌<◌, ◌^◌, ℕ, [], ◌∷◌, codes, IfSome, IsTrue, Some};
ghost use Rattle.std.specs.Fmt.{decimal};
ghost use Rattle.top_call.specs.declared.forms.Form.{Form};
ghost use Rattle.top_call.specs.Form.{texts, SpellForm};
ghost use Rattle.top_call.specs.Jobs.{job_of};
ghost use Rattle.made_runs.specs.Made.{most_made_tags};

use air_world::Mode;
use line_objects::{LineSet, spelled_number};
use made_runs::MOST_MADE_TAGS;
use text_fields::number;

/// What the program is asked to do, by its words.
#[derive(Clone, Copy)]
pub enum Form {
    /// The word `decode`: explain the captures of the input, line by line.
    Decode,
    /// The word `encode`: write for each line of the input the one that `decode` reads.
    Encode,
    /// The word `run`, and `trace`, `json`, `exchanges` or `vcd` behind it for another report: run the scenario of the input, and report.
    Run(Mode),
    /// The word `upgrade`: write the scenario of the input as the text of version 2.
    Upgrade,
    /// The word `probe`: do to the tag of the input what it says, line by line, and tell what the tag answers and what it is.
    Probe,
    /// The word `judge`: say whether the log of the input can be that of a tag that follows the tables, whatever it drew.
    Judge,
    /// The word `portals`: compare two portals that share the tags of the scenario of the input with each of them alone.
    Portals,
    /// The word `names`: copy lines, and add its name behind each line that has one.
    Names,
    /// The word `audit`: say whether the trace behind the scenario of the input is one of it, and else which line can't be.
    Audit,
    /// The word `decode`, `probe`, `judge` or `audit`, or the words `run exchanges`, and `json` behind them: the same, each line as a JSON object.
    Objects(LineSet),
    /// The word `--help`: write which words there are. Nothing is read.
    Help,
    /// The word `--version`: write the version, and what the program was proved with. Nothing is read.
    Version,
    /// The word `gen` and two numbers: make the scenario of a seed with so many tags, run it, and write its
    /// summary. Nothing is read.
    Gen {
        /// The seed of the generator of random words.
        seed: u64,
        /// How many tags there are.
        tags: u32,
    },
}

/// The form of a seed and a number of tags.
fn made_form(seed: &[u8], tags: &[u8]) -> Option<Form>
    ensures found { IfSome result (SpellForm (codes "gen" ∷ seed.now ∷ tags.now ∷ [])) }
    ensures only { (number count : ℕ) → number < 2 ^ 64 → count ≤ most_made_tags
        → seed.now ≡ decimal number → tags.now ≡ decimal count
        → result ≡ Some (Form.Gen number count) }
{
    Some(Form::Gen {
        seed: spelled_number(seed)?,
        tags: number(tags, MOST_MADE_TAGS)?,
    })
}

/// Whether a word is the name.
fn is_word(word: &[u8], name: &str) -> bool
    ensures { IsTrue result ↔ (word.now ≡ name.now) }
{
    // As patterns of a `match` the names would be compared, and proved, byte by byte.
    word == name.as_bytes()
}

/// The form of one word. None comes exactly where it is the spelling of no form.
pub fn form_of_one(word: &[u8]) -> Option<Form>
    ensures found { IfSome result (SpellForm (word.now ∷ [])) }
    ensures only { (form : Form) → SpellForm (word.now ∷ []) form → result ≡ Some form }
{
    if is_word(word, "decode") {
        return Some(Form::Decode);
    }
    if is_word(word, "encode") {
        return Some(Form::Encode);
    }
    if is_word(word, "run") {
        return Some(Form::Run(Mode::Plain));
    }
    if is_word(word, "upgrade") {
        return Some(Form::Upgrade);
    }
    if is_word(word, "portals") {
        return Some(Form::Portals);
    }
    if is_word(word, "names") {
        return Some(Form::Names);
    }
    if is_word(word, "probe") {
        return Some(Form::Probe);
    }
    if is_word(word, "judge") {
        return Some(Form::Judge);
    }
    if is_word(word, "audit") {
        return Some(Form::Audit);
    }
    if is_word(word, "--help") {
        return Some(Form::Help);
    }
    if is_word(word, "--version") {
        return Some(Form::Version);
    }
    None
}

/// Whether two words are these.
fn are_words(word: &[u8], behind: &[u8], first: &str, second: &str) -> bool
    ensures { IsTrue result ↔ ((word.now ≡ first.now) × (behind.now ≡ second.now)) }
{
    is_word(word, first) && is_word(behind, second)
}

/// The form of two words. None comes exactly where they are the spelling of no form.
pub fn form_of_two(word: &[u8], behind: &[u8]) -> Option<Form>
    ensures found { IfSome result (SpellForm (word.now ∷ behind.now ∷ [])) }
    ensures only { (form : Form) → SpellForm (word.now ∷ behind.now ∷ []) form
        → result ≡ Some form }
{
    if are_words(word, behind, "run", "trace") {
        return Some(Form::Run(Mode::Trace));
    }
    if are_words(word, behind, "run", "json") {
        return Some(Form::Run(Mode::Json));
    }
    if are_words(word, behind, "run", "exchanges") {
        return Some(Form::Run(Mode::Exchanges));
    }
    if are_words(word, behind, "run", "vcd") {
        return Some(Form::Run(Mode::Vcd));
    }
    if are_words(word, behind, "decode", "json") {
        return Some(Form::Objects(LineSet::Decode));
    }
    if are_words(word, behind, "probe", "json") {
        return Some(Form::Objects(LineSet::Probe));
    }
    if are_words(word, behind, "judge", "json") {
        return Some(Form::Objects(LineSet::Judge));
    }
    if are_words(word, behind, "audit", "json") {
        return Some(Form::Objects(LineSet::Audit));
    }
    None
}

/// The form of three words. None comes exactly where they are the spelling of no form.
pub fn form_of_three(word: &[u8], behind: &[u8], last: &[u8]) -> Option<Form>
    ensures found { IfSome result (SpellForm (word.now ∷ behind.now ∷ last.now ∷ [])) }
    ensures only { (form : Form) → SpellForm (word.now ∷ behind.now ∷ last.now ∷ []) form
        → result ≡ Some form }
{
    if are_words(word, behind, "run", "exchanges") {
        return if is_word(last, "json") {
            Some(Form::Objects(LineSet::Exchanges))
        } else {
            None
        };
    }
    if is_word(word, "gen") {
        return made_form(behind, last);
    }
    None
}

/// The form of the words. None comes exactly where they are the spelling of no form.
pub fn form_of(words: &[String]) -> Option<Form>
    ensures found { IfSome result (SpellForm (texts words.now)) }
    ensures only { (form : Form) → SpellForm (texts words.now) form → result ≡ Some form }
{
    match words {
        [word] => form_of_one(word.as_bytes()),
        [word, behind] => form_of_two(word.as_bytes(), behind.as_bytes()),
        [word, behind, last] => form_of_three(word.as_bytes(), behind.as_bytes(), last.as_bytes()),
        _ => None,
    }
}

/// Whether the words of a form read an input.
pub fn reads_input(form: Form) -> bool
    ensures { result ≡ (job_of form).input }
{
    match form {
        Form::Gen { .. } | Form::Help | Form::Version => false,
        _ => true,
    }
}
