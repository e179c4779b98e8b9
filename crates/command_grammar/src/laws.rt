//! What holds of the spellings of commands.
ghost use Rattle.std.specs.Prelude.{◌≡◌, ◌≤◌, ◌++◌, ◌⊎◌, ℕ, [], List, Bool, Result, length};
ghost use Rattle.bit_strings.specs.Family.{IsBadAt, IsShortAt};
ghost use Rattle.command_grammar.specs.Commands.{SpellsCommand, Spellings, IsCommandRefusedAt, IsFinishAnswer};
ghost use Rattle.command_grammar.specs.declared.commands.Command.{Command};
ghost use Rattle.command_grammar.specs.declared.refusal.CommandRefusal.{CommandRefusal};
ghost use Rattle.command_grammar.specs.declared.refusal.Reason.{Reason};

/// Each command has one spelling, of at most 4,162 bits, no two have the same, and none begins
/// another. Each list of bits is a spelling, or is refused at one place, or only begins a spelling,
/// and is no two of these.
pub fn spelling_laws()
    ensures one { (c d : Command) (bits : List Bool) → SpellsCommand c bits → SpellsCommand d bits
        → c ≡ d }
    ensures same { (c : Command) (xs ys : List Bool) → SpellsCommand c xs → SpellsCommand c ys
        → xs ≡ ys }
    ensures apart { (c d : Command) (bits more : List Bool) → SpellsCommand c bits
        → SpellsCommand d (bits ++ more) → more ≡ [] }
    ensures short { (c : Command) (bits : List Bool) → SpellsCommand c bits → length bits ≤ 4162 }
    ensures some { (bits : List Bool) → Spellings bits
        ⊎ (IsShortAt Spellings bits (length bits) ⊎ ((place : ℕ) × IsBadAt Spellings bits place)) }
    ensures not_bad { (bits : List Bool) (place : ℕ) → Spellings bits → IsBadAt Spellings bits place
        → ⊥ }
    ensures not_short { (bits : List Bool) (count : ℕ) → Spellings bits
        → IsShortAt Spellings bits count → ⊥ }
    ensures not_both { (bits : List Bool) (place count : ℕ) → IsBadAt Spellings bits place
        → IsShortAt Spellings bits count → ⊥ }
    ensures place { (bits : List Bool) (p q : ℕ) → IsBadAt Spellings bits p
        → IsBadAt Spellings bits q → p ≡ q }
{}

/// Bits that are refused are refused at one place, for one reason.
pub fn one_refusal()
    ensures { (bits : List Bool) (p q : ℕ) (one other : Reason) → IsCommandRefusedAt bits p one
        → IsCommandRefusedAt bits q other → (p ≡ q) × (one ≡ other) }
{}

/// Each list of bits has exactly one outcome.
pub fn one_outcome()
    ensures some { (bits : List Bool) → (outcome : Result Command CommandRefusal)
        × IsFinishAnswer outcome bits }
    ensures one { (bits : List Bool) (one other : Result Command CommandRefusal)
        → IsFinishAnswer one bits → IsFinishAnswer other bits → one ≡ other }
{}
