//! FM0 baseband, one of the line codes of the link from tag to interrogator.
#![tactic(auto)]

mod fm0;

pub use fm0::{Fm0, SymbolBefore};
