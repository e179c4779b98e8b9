//! Bytes that are read as hexadecimal digits of either case.
ghost use Rattle.std.specs.Prelude.{◌≡◌, ◌≤◌, ℕ, List, length, IfSome, IsSomeAnd};
ghost use Rattle.hex.specs.Hex.{decode_of, is_hex_digit};

use crate::byte_tests::{ByteTest, all_pass};
use std::marker::Model;

/// At least one byte, which a field spells in two hexadecimal digits a byte, of either case. A
/// contract sees it as the list of these bytes.
#[derive(Drop)]
pub struct HexBytes<'a> {
    digits: &'a [u8],
}

impl<'a> Model for HexBytes<'a> {
    ghost use Rattle.std.specs.Prelude.{ℕ, List};
    ghost use Rattle.text_fields.specs.Hexadecimal.{IsHexText, bytes_of_hex};

    ghost Value = { List ℕ };

    ghost view = { λ a. bytes_of_hex a.digits.now };

    ghost invariant = { λ a. IsHexText a.digits.now };
}

/// The test of hexadecimal digits of either case.
struct HexDigit;

impl ByteTest for HexDigit {
    ghost test = { is_hex_digit };

    fn passes(byte: u8) -> bool {
        matches!(byte, b'0'..=b'9' | b'A'..=b'F' | b'a'..=b'f')
    }
}

impl<'a> HexBytes<'a> {
    /// The bytes that a field spells; none exactly where the field doesn't spell from 1 to `most`
    /// bytes.
    #[tactic(auto, using(crate::proofs::HexText::text))]
    pub fn new(field: &'a [u8], most: u32) -> Option<HexBytes<'a>>
        ensures value { IfSome result
            (λ bytes. (decode_of field.now ≡ Ok bytes) × (1 ≤ length bytes)
            × (length bytes ≤ most)) }
        ensures only { (bytes : List ℕ) → decode_of field.now ≡ Ok bytes → 1 ≤ length bytes
            → length bytes ≤ most → IsSomeAnd result (λ it. it ≡ bytes) }
    {
        let count = field.len() / 2;
        if count < 1
            || count > most as usize
            || field.len() % 2 == 1
            || !all_pass::<HexDigit>(field)
        {
            return None;
        }
        Some(HexBytes { digits: field })
    }

    /// How many bytes there are.
    #[tactic(auto, using(crate::proofs::HexText::text))]
    pub fn len(&self) -> u32
        ensures { result ≡ length self.now }
    {
        (self.digits.len() / 2) as u32
    }

    /// Writes the bytes over `out`, which has room for exactly these.
    #[tactic(auto, using(crate::proofs::HexText::hex_read))]
    pub fn write_to(&self, out: &mut [u8])
        requires { length out.old ≡ length self.now }
        ensures { out.new ≡ self.now }
    {
        match hex::decode_to_slice(self.digits, out) {
            Ok(()) => {}
            Err(_) => unreachable!(),
        }
    }
}
