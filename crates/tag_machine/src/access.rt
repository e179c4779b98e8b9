//! Req_RN and the access commands (6.3.2.11.3 Access commands), each with its rule for all states.

mod lock;
mod memory;
mod password;
mod req_rn;
mod rules;
