//! Whether each line of an input asks for something.
ghost use Rattle.std.specs.Prelude.{◌≡◌, ◌<◌, ◌+◌, ◌^◌, length, IsOk, IfErr};
ghost use Rattle.encode_lines.specs.EncodeLines.{AskForEncoding, IsFirstEncodeFault};

use crate::request::request_of;
use checked_lines::{FaultReason, FaultyLine};
use text_fields::split_line;

/// Looks whether each line of an input asks for something. It takes no memory.
///
/// # Errors
///
/// The first faulty line, with the first reason that applies to it.
pub fn check_lines(input: &[u8]) -> Result<(), FaultyLine>
    requires { length input.now + 1 < 2 ^ 32 }
    ensures ok { IsOk result → AskForEncoding input.now }
    ensures refused { IfErr result (IsFirstEncodeFault input.now) }
{
    let mut rest = input;
    let mut number = 1;
    while let Some((line, behind)) = split_line(rest) {
        if let Err(reason) = request_of(line) {
            return Err(FaultyLine {
                line: number,
                reason,
            });
        }
        rest = behind;
        number += 1;
    }
    if rest.is_empty() {
        return Ok(());
    }
    Err(FaultyLine {
        line: number,
        reason: FaultReason::End,
    })
}
