//! Reading a command, bit by bit: its code, then its fields in their order, one stage after another.

mod check;
mod command_in_progress;
mod decoding;
mod field_in_progress;
mod field_steps;
mod fields;
mod framer;
mod known_bits;

pub use decoding::decode_command_to;
pub use framer::Framer;
