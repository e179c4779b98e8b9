//! The words of the command line: each a file that answers it, by its job.

pub mod audit;
pub mod decode;
pub mod encode;
pub mod generate;
pub mod judge;
pub mod names;
pub mod objects;
pub mod own_texts;
mod page;
pub mod portals;
pub mod probe;
mod refusal;
pub mod run;
pub mod upgrade;
pub mod whole;
