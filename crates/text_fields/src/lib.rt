//! The pieces that every text of the program is made of: lines, the fields of a line, and numbers,
//! binary digits, hexadecimal digits and the names of the line codes as fields.
//!
//! A text that is read is a slice of bytes, and nothing here copies it. A text that is written is a
//! `String`; it, and a list of bits or words that is read into, are all that takes memory. The line of a fault has a room
//! of its own.
#![tactic(auto)]

mod ascii;
mod binary;
mod byte_tests;
mod code_names;
mod decimal_numbers;
mod either_case_hex;
mod exact;
mod fault_lines;
mod fields;
mod fields_fault;
mod hexadecimal;
mod laws;
mod lines;
mod next_fields;
mod ranged_fields;
mod short_text;
mod word_lists;

pub use ascii::push_ascii;
pub use binary::{Digits, is_binary_digit, list_digits, one_bit, push_bits};
pub use code_names::{code_named, name_of};
pub use decimal_numbers::{number, push_long_number, push_number};
pub use either_case_hex::HexBytes;
pub use exact::{
    are_filled, five_fields, four_fields, is_at_end, one_field, seven_fields, six_fields,
    three_fields, two_fields,
};
pub use fault_lines::fault_line;
pub use fields::Fields;
pub use fields_fault::FieldsFault;
pub use hexadecimal::{byte, push_byte_hex, push_hex_digit, push_word, push_words, word};
pub use laws::{
    bits_are_told_apart, fields_come_back, lines_come_back, numbers_are_told_apart,
    spellings_are_field_texts, word_lists_are_told_apart, words_are_told_apart,
};
pub use lines::split_line;
pub use next_fields::{
    push_named_number, push_named_word, push_next_bits, push_next_long_number, push_next_name,
    push_next_number, push_next_numbers, push_next_word, push_next_words,
};
pub use ranged_fields::{
    action_of, count_of, number_from, pointer_of, q_of, session_of, words_from,
};
pub use short_text::push_bytes;
pub use word_lists::Words;
