//! Lists of bits with a capacity that is fixed when they are made, numbers in them, and what several
//! subjects share: the place at which a list stops being the front of some member of a family,
//! lists of items, also with a fixed capacity, the small numbers of commands, as sessions and Q, each
//! within its range, and the names of the line codes.
#![tactic(auto)]

mod bits;
mod bounded;
mod checked_numbers;
mod code;
mod ebv;
mod ebv_front;
mod laws;
mod list;
mod numbers_in_bits;
mod words;

pub use bits::{Bits, Full, Levels, OutOfMemory};
pub use bounded::Bounded;
pub use checked_numbers::{Action, Count1, Payload, Pointer, QValue, Session};
pub use code::Code;
pub use ebv::Ebv;
pub use ebv_front::{EbvFront, EbvStep};
pub use laws::{ebv_laws, field_laws};
pub use list::List;
pub use numbers_in_bits::{value_of_bits, xor16};
pub use words::{bits_of, word_of};
