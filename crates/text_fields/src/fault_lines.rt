//! The line that reports the first faulty line of a text.
ghost use Rattle.std.specs.Prelude.{◌≡◌, ◌≤◌, length};
ghost use Rattle.text_fields.specs.FaultLine.{fault_line};

use crate::short_text::push_bytes;
use arrayvec::ArrayVec;
use itoa::Buffer;

/// The line `fault NUMBER REASON` with its line feed, for the number of the faulty line, counted from 1, and the
/// word of the reason. It takes no memory.
pub fn fault_line(number: u32, reason: &str) -> ArrayVec<u8, 32>
    requires { length reason.now ≤ 14 }
    ensures { result.items ≡ fault_line number reason.now }
{
    let mut digits = Buffer::new();
    let mut text = ArrayVec::new();
    push_bytes(&mut text, b"fault ");
    push_bytes(&mut text, digits.format(number).as_bytes());
    push_bytes(&mut text, b" ");
    push_bytes(&mut text, reason.as_bytes());
    push_bytes(&mut text, b"\n");
    text
}
