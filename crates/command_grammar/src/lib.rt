//! The commands that an interrogator sends to tags (6.3.2.11 of the EPCglobal Class-1 Generation-2
//! standard, version 1.2.0).
#![tactic(auto)]

mod choices;
mod commands;
mod fields;
mod kinds;
mod laws;
mod reader;
mod refusal;
mod spelling;
mod writing;

pub use bit_strings::{Action, Code, Count1, Payload, Pointer, QValue, Session};
pub use command_fields::{Bank, BlockWords, FlagName, Mask, MaskBank, Sel, Side, UpDn};
pub use commands::Command;
pub use kinds::CommandKind;
pub use laws::{one_outcome, one_refusal, spelling_laws};
pub use reader::{Framer, decode_command_to};
pub use refusal::{CommandRefusal, Pushed, Reason};
pub use spelling::encode_command;
