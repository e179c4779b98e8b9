//! The values of the fields of commands (6.3.2.11 of the EPCglobal Class-1 Generation-2 standard,
//! version 1.2.0): those that have names, and the lists that a Select and a BlockWrite carry. How they
//! are spelled is said with the commands.
#![tactic(auto)]

mod choices;
mod lists;

pub use choices::{Bank, FlagName, MaskBank, Sel, Side, UpDn};
pub use lists::{BlockWords, Mask};
