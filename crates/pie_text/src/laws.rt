//! The law of lists of numbers. The function here states it by its contract, and does nothing.
ghost use Rattle.std.specs.Prelude.{◌⊎◌, ◌<◌, ◌^◌, ℕ, List};
ghost use Rattle.pie_text.specs.declared.number_lists.NotNumbers.{NotNumbers};
ghost use Rattle.pie_text.specs.NumberLists.{RefusesNumbers, SpellsNumbers};

/// Fields spell numbers up to a greatest one, or are refused.
pub fn numbers_or_refused()
    ensures { (most_items most : ℕ) (fields : List (List ℕ)) → most < 2 ^ 32 →
        ((numbers : List ℕ) × SpellsNumbers most_items most fields numbers)
        ⊎ ((reason : NotNumbers) × RefusesNumbers reason most_items most fields) }
{}
