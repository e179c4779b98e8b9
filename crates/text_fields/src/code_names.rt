//! The names of the line codes in the program's texts.
ghost use Rattle.std.specs.Prelude.{◌≡◌, IfSome, Some};
ghost use Rattle.text_fields.specs.CodeNames.{code_word};

use bit_strings::Code;

/// The code of this name; none exactly where no code has it.
pub fn code_named(name: &[u8]) -> Option<Code>
    ensures value { IfSome result (λ code. name.now ≡ code_word code) }
    ensures only { (code : Code) → name.now ≡ code_word code → result ≡ Some code }
{
    match name {
        b"fm0" => Some(Code::Fm0),
        b"m2" => Some(Code::M2),
        b"m4" => Some(Code::M4),
        b"m8" => Some(Code::M8),
        _ => None,
    }
}

/// The name of a code.
pub fn name_of(code: Code) -> &'static str
    ensures { result.now ≡ code_word code }
{
    match code {
        Code::Fm0 => "fm0",
        Code::M2 => "m2",
        Code::M4 => "m4",
        Code::M8 => "m8",
    }
}
