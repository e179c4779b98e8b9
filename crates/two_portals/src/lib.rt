//! Two interrogators that share tags and take turns by whole rounds: what each lists then, beside what it would
//! list alone. One goes by session S2, the other by session S3 (6.3.2.2 Sessions and inventoried flags of the
//! EPCglobal Class-1 Generation-2 standard, version 1.2.0).
#![tactic(auto)]

mod hall;
mod portal_line;
mod portals;

pub use bit_strings::{Bounded, Full, OutOfMemory, Session};
pub use hall::{Hall, Pairs};
pub use portal_line::PortalLine;
pub use portals::compare;
pub use q_round::{RoundEnd, RoundSpec};
pub use reply_grammar::EpcWords;
