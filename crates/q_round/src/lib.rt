//! The rounds of an interrogator: which slot command comes next, by the outcomes of the slots so far
//! (6.3.2.8 Inventorying Tag populations and Annex D of the EPCglobal Class-1 Generation-2 standard,
//! version 1.2.0), under each of three rules for Q.
#![tactic(auto)]

mod frame;
mod laws;
mod round;
mod round_spec;
mod rule;

pub use bit_strings::{Code, QValue, Session};
pub use command_grammar::{Command, Sel, Side, UpDn};
pub use frame::Outcome;
pub use laws::{round_facts, round_laws};
pub use pie_line::Link;
pub use round::{Next, Round, RoundEnd};
pub use round_spec::RoundSpec;
pub use rule::Rule;
