//! The link from interrogator to tag: its parameters, and frames in pulse-interval encoding, each a
//! list of intervals in nanoseconds (6.3.1.2 of the EPCglobal Class-1 Gen2 standard, 1.2.0).
#![tactic(auto)]

mod decoder;
mod edges;
mod encoder;
mod frame;
mod frame_state;
mod intervals;
mod laws;
mod link;
mod ranges;
mod sender;

pub use bit_strings::Code;
pub use decoder::decode_frame;
pub use edges::{Edge, Edges};
pub use encoder::encode_frame;
pub use frame::{FrameKind, Lead, PieRefusal};
pub use intervals::Intervals;
pub use laws::{one_answer, standing_decoders_begin_frames, written_frame};
pub use link::{Link, LinkRefusal};
pub use sender::{FrameTaker, send_frame};
