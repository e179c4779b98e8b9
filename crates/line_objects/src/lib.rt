//! Lines as objects: what the lines of an answer say, each as a JSON object whose members are named as the fields of the line (the
//! objects are profile).
#![tactic(auto)]

mod field_members;
mod laws;
mod line_members;
mod member_names;
mod members;
mod objects;
mod plain_text;
mod values;

pub use laws::{fields_are_told, texts_have_objects};
pub use line_members::LineSet;
pub use objects::objects_of;
pub use plain_text::PlainText;
pub use values::spelled_number;
