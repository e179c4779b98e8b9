//! Lists of intervals as fields of a line, and how frames in pulse-interval encoding and the refusals
//! of intervals that are none are written (the texts are profile).
#![tactic(auto)]

mod frames;
mod kept_frames;
mod kept_intervals;
mod kept_texts;
mod laws;
mod leading;
mod number_lists;

pub use frames::{push_frame, push_pie_refusal};
pub use kept_intervals::KeptIntervals;
pub use laws::numbers_or_refused;
pub use number_lists::{NotNumbers, Numbers, read_numbers};
