//! Texts of lines, by the rules of a text: what it means that bytes are one, which line is the first faulty one, and how that is
//! reported (profile). Among them are those of which each line asks for something and is answered by a line, as those of `decode`
//! and of `encode`. Which line may stand where, and what it asks for, is the matter of the crates above.
#![tactic(auto)]

mod fault;
mod heard_fields;

pub use fault::{FaultReason, FaultyLine, Unread, fault_text, unread_at};
pub use heard_fields::heard_as;
