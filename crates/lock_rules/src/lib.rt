//! The permissions of a tag's memory, and the rules of the Lock command (6.3.2.11.3.5 of the
//! EPCglobal Class-1 Generation-2 standard, version 1.2.0).
#![tactic(auto)]

mod fields_and_levels;
mod locks;

pub use fields_and_levels::{ErrorCode, Field, Level};
pub use locks::{Locks, Pair};
