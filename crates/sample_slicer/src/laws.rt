//! What holds of the levels of all samples.
ghost use Rattle.std.specs.Prelude.{◌≡◌, ◌≤◌, ℕ, Bool, List, Result};
ghost use Rattle.sample_slicer.specs.Samples.{IsSliceAnswer};
ghost use Rattle.sample_slicer.specs.declared.slicer.SliceRefusal.{SliceRefusal};

/// Samples have exactly one answer, at any threshold and any number of samples to a level.
pub fn one_answer()
    ensures some { (threshold per : ℕ) (samples : List ℕ) → 1 ≤ per
        → (answer : Result (List Bool) SliceRefusal) × IsSliceAnswer threshold per samples answer }
    ensures one { (threshold per : ℕ) (samples : List ℕ)
        (left right : Result (List Bool) SliceRefusal) → 1 ≤ per
        → IsSliceAnswer threshold per samples left → IsSliceAnswer threshold per samples right
        → left ≡ right }
{}
