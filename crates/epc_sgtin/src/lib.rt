//! SGTIN-96: the serialised trade item number that an EPC of six words carries, its EPC Tag URI (GS1 Tag Data Standard), and how
//! numbers, their words and what is none of them stand in a text (the texts are profile).
//!
//! An [`Sgtin`] is made from its parts, from the words of an EPC, or from a URI, and is written as either. Only what adds to a
//! `String` takes memory.
#![tactic(auto)]

mod digits;
mod encoding;
mod fixed_uri;
mod halves;
mod laws;
mod partitions;
mod printing;
mod tag_uri;
mod value;

pub use encoding::EpcFault;
pub use fixed_uri::Uri;
pub use laws::{partition_laws, sgtin_laws, uri_laws};
pub use printing::{push_epc_fault, push_name, push_sgtin_words, push_uri_fault};
pub use tag_uri::UriFault;
pub use value::{Sgtin, SgtinRefusal};
