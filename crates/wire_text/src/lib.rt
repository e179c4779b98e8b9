//! How what the wire carries stands in a text: commands, what is expected of a tag, replies, and why bits are neither; and how
//! passwords and lock bits do. All of it is profile.
#![tactic(auto)]

mod choices;
mod command_kinds;
mod command_laws;
mod command_lists;
mod command_reading;
mod command_refusals;
mod commands;
mod expectation;
mod locks;
mod name_lists;
mod passwords;
mod payloads;
mod replies;
mod reply_kinds;
mod reply_laws;
mod reply_lists;
mod reply_reading;

pub use choices::{
    bank_name, bank_named, bit_name, flag_name, flag_named, mask_bank_named, side_letter,
    side_name, side_named,
};
pub use command_laws::{
    command_lines_come_back, commands_are_field_texts, commands_are_told_apart,
    commands_have_one_fault, spelled_commands_are_not_faulty,
};
pub use command_lists::{block_of, mask_of};
pub use command_reading::{read_command, read_command_to};
pub use command_refusals::push_command_refusal;
pub use commands::push_command;
pub use expectation::{expect_of, push_next_expect};
pub use locks::{locks_of, push_locks};
pub use name_lists::{Named, value_named};
pub use passwords::{password_of, push_next_password};
pub use payloads::{payload_of, push_next_payload};
pub use replies::{push_reply, push_reply_refusal};
pub use reply_kinds::ReplyKind;
pub use reply_laws::{
    expectations_are_field_texts, expectations_are_told_apart, replies_are_field_texts,
    replies_are_told_apart, replies_have_one_fault, reply_lines_come_back,
    spelled_replies_are_not_faulty,
};
pub use reply_lists::epc_of;
pub use reply_reading::read_reply;
