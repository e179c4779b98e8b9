//! Bytes of ASCII, written.
ghost use Rattle.std.specs.Prelude.{◌≡◌, ◌++◌, OnOk};
ghost use Rattle.std.specs.Str.{IsAscii};
ghost use Rattle.std.specs.String.{string_bytes};

use bit_strings::OutOfMemory;

/// Writes bytes of ASCII at the end of the text. After an error the text may hold a part of them.
pub fn push_ascii(text: &mut String, bytes: &[u8]) -> Result<(), OutOfMemory>
    requires { IsAscii bytes.now }
    ensures { OnOk result (string_bytes text.new ≡ string_bytes text.old ++ bytes.now) }
{
    // ASCII is UTF-8, which the proof shows: nothing looks at the bytes once more.
    let letters = unsafe { str::from_utf8_unchecked(bytes) };
    text.push_str(letters)
}
