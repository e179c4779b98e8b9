//! That `decode` reads back what `encode` writes: laws of both, and no calls.
#![tactic(auto)]

mod laws;

pub use laws::written_lines_are_read_back;
