//! A judge of logs of one tag: it is told entry by entry what the tag was sent and what it was seen to answer, and says whether that can be a
//! tag that follows the standard's tables (Annex B and Annex C), whatever it drew. It goes over a log once, and takes no memory for an entry.
//!
//! What is judged is defined over whole logs and lists of words of any length, and has its laws here too.
#![tactic(auto)]

mod answer;
mod asking;
mod draws;
mod judge;
mod known_tag;
mod laws;
mod optional_commands;
mod shown;
mod verdict;

pub use answer::Answer;
pub use judge::Judge;
pub use laws::{
    logs_have_one_verdict, logs_that_tags_make_are_explained, verdicts_stay, what_is_known_stands,
};
pub use verdict::{Verdict, Want};
