//! A tag of the EPCglobal Class-1 Generation-2 standard, version 1.2.0, as a state machine: what it becomes and
//! what it answers when it hears a command (6.3.2.4 Tag states and slot counter, 6.3.2.8, 6.3.2.11, Annex B),
//! what events do to it, and its answers, read as the sender of a command expects them (Annex C).
#![tactic(auto)]

mod abilities;
mod access;
mod any_tag;
mod event;
mod expectation;
mod hear;
mod in_place;
mod inventory;
mod laws;
mod state_numbers;
mod states;
mod step_counter;
mod tag;
mod transitions;

pub use air_events::{Choice, Entry, Event, Several};
pub use any_tag::{Answered, AnyTag, Heard};
pub use expectation::{expectation_of, expected_reply_to, has_half, reply_to};
pub use laws::{
    absent_tags_stay, answers_are_expected, answers_are_replies, draw_laws, query_rep_laws,
    steps_keep_tags_legal,
};
pub use session_flags::DrawWords;
pub use state_numbers::StateNumbers;
pub use states::{
    Acknowledged, Arbitrate, Half, Held, InReply, Killed, Opened, Password, Ready, Secured, State,
    StateName, Unpowered,
};
pub use step_counter::Steps;
pub use tag::Tag;
