//! The Miller-modulated subcarrier, three of the line codes of the link from tag to interrogator.
#![tactic(auto)]

mod miller;
mod subcarrier;
mod symbols;

pub use miller::{Miller2, Miller4, Miller8};
pub use subcarrier::SymbolBefore;
