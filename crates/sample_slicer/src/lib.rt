//! Levels from samples: a captured wave is a list of samples, of which a fixed number stand for one level.
#![tactic(auto)]

mod laws;
mod slicer;

pub use laws::one_answer;
pub use slicer::{SliceRefusal, slice_levels};
