//! The lines of a scenario one by one: what each may say, how it is spelled, and how it is read and
//! written. How the lines follow one another belongs to the crate `scenario`. All of it is profile.
#![tactic(auto)]

mod choice;
mod keywords;
mod laws;
mod line;
mod names;
mod printing;
mod reading;
mod tag;
mod version;

pub use choice::ChoiceText;
pub use keywords::{AirKind, EventKind, Keyword, OpKind};
pub use laws::{
    lines_are_field_texts, lines_are_told_apart, lines_begin_or_are_faulty,
    lines_begin_with_one_keyword, lines_begin_with_their_keyword, lines_have_one_fault,
    lines_say_something_or_are_faulty, spelled_lines_are_not_faulty, tag_lines_fit_memories,
};
pub use line::{Happening, Line, Selection};
pub use names::{event_kind_named, expiring_flag_named};
pub use printing::{
    push_air_choice, push_air_event, push_air_miss, push_copies, push_default, push_end,
    push_event, push_link, push_nak, push_only, push_op, push_round, push_tag, push_version,
};
pub use reading::{BegunLine, read_line, read_tag};
pub use tag::{TagSpec, TagText};
pub use version::Version;
