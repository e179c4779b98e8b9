//! Select and the inventory commands (6.3.2.11.1 and 6.3.2.11.2), each with its rule for all states.

mod ack;
mod back_to_arbitrate;
mod nak;
mod query;
mod query_adjust;
mod query_rep;
mod select;
mod slot_counter;

pub use query_adjust::q_of_redraw;
