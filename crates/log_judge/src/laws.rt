//! The laws of verdicts. Each function here states one law by its contract, and does nothing.
ghost use Rattle.std.specs.Prelude.{◌≡◌, ◌<◌, ◌++◌, ◌⊎◌, ℕ, List, [], ◌∷◌, Option, false};
ghost use Rattle.command_grammar.specs.declared.commands.Command.{Command};
ghost use Rattle.log_judge.specs.Log.{AreDrawn, LogEntry, LoggedTag, tag_with};
ghost use Rattle.log_judge.specs.Explaining.{IsAllowed, Manner};
ghost use Rattle.log_judge.specs.Verdicts.{IsVerdict, IsWanted, No, Profile, Verdict, Want, Yes};
ghost use Rattle.log_judge.specs.laws.Logs.{Deed, IsLegalEntry, IsLegalHeard, IsLegalLog, log_made};
ghost use Rattle.log_judge.specs.laws.Known.{Follows, Known, want_of};
ghost use Rattle.log_judge.specs.laws.StandingLaws.{StandsBehind};

/// A log has exactly one verdict.
pub fn logs_have_one_verdict()
    ensures some { (tag : LoggedTag) (log : List LogEntry) → IsLegalLog log
        → (verdict : Verdict) × IsVerdict tag log verdict }
    ensures one { (tag : LoggedTag) (log : List LogEntry) (one other : Verdict)
        → IsVerdict tag log one → IsVerdict tag log other → one ≡ other }
{}

/// A log that a tag made is judged `Yes`, whatever words it drew, of any number.
pub fn logs_that_tags_make_are_explained()
    ensures { (tag : LoggedTag) (words : List ℕ) (deeds : List Deed) → AreDrawn words
        → IsVerdict tag (log_made deeds (tag_with tag words)) Yes }
{}

/// A log that goes on behind a line that was judged `No` is judged the same. One that was judged
/// `Profile` is judged the same, or `No` at a later line.
pub fn verdicts_stay()
    ensures no { (tag : LoggedTag) (log more : List LogEntry) (number : ℕ) (want : Want)
        → IsVerdict tag log (No number want) → IsVerdict tag (log ++ more) (No number want) }
    ensures profile { (tag : LoggedTag) (log more : List LogEntry) (number : ℕ) (want : Want)
        (verdict : Verdict) → IsVerdict tag log (Profile number want)
        → IsVerdict tag (log ++ more) verdict → (verdict ≡ Profile number want)
        ⊎ ((later : ℕ) × (other : Want) × (verdict ≡ No later other) × (number < later)) }
{}

/// What is known of a tag stands for a log, entry by entry: a way to find a verdict in one pass.
///
/// Before the first entry the tag itself is known (`first`). Where something may be known behind a
/// further entry, that stands for the log with it (`on`); where nothing may, no words lead through it
/// (`fails`). One of the two is so (`decided`), and what may be known is one thing (`one`). Some words
/// do what a log says that something stands for (`allowed`), and what has to be answered next is told
/// by what is known (`wanted`).
pub fn what_is_known_stands()
    ensures first { (manner : Manner) (tag : LoggedTag) (words : List ℕ)
        → StandsBehind manner tag [] (record { tag = tag_with tag words; any = false }) }
    ensures on { (manner : Manner) (tag : LoggedTag) (log : List LogEntry) (known : Known)
        (entry : LogEntry) (next : Known) → StandsBehind manner tag log known → IsLegalEntry entry
        → Follows manner known entry next → StandsBehind manner tag (log ++ entry ∷ []) next }
    ensures fails { (manner : Manner) (tag : LoggedTag) (log : List LogEntry) (known : Known)
        (entry : LogEntry) → StandsBehind manner tag log known → IsLegalEntry entry
        → ((next : Known) → ¬ Follows manner known entry next)
        → ¬ IsAllowed manner tag (log ++ entry ∷ []) }
    ensures allowed { (manner : Manner) (tag : LoggedTag) (log : List LogEntry) (known : Known)
        → StandsBehind manner tag log known → IsAllowed manner tag log }
    ensures wanted { (manner : Manner) (tag : LoggedTag) (log : List LogEntry) (known : Known)
        (heard : Option Command) → StandsBehind manner tag log known → IsLegalHeard heard
        → IsWanted manner tag log heard (want_of known heard) }
    ensures one { (manner : Manner) (known : Known) (entry : LogEntry) (one other : Known)
        → Follows manner known entry one → Follows manner known entry other → one ≡ other }
    ensures decided { (manner : Manner) (known : Known) (entry : LogEntry)
        → ((next : Known) × Follows manner known entry next)
        ⊎ ((next : Known) → ¬ Follows manner known entry next) }
{}
