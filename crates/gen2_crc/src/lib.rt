//! The check numbers of packets: the CRC-5 of a Query and the CRC-16 of all other commands and replies
//! that have one (6.3.1.5 Cyclic-redundancy check; Annex F).
#![tactic(auto)]

ghost use Rattle.std.specs.Prelude.{◌≡◌, ◌≤◌, ◌↔◌, List, Bool, ◌++◌, length, take, IsTrue};
ghost use Rattle.bit_strings.specs.NumbersInBits.{value_of};
ghost use Rattle.gen2_crc.specs.Crc.{crc5_of, crc16_of, register_of, residue};

use bit_strings::Bits;

mod laws;
mod register;
mod register5;
mod tables;

pub use laws::crc_laws;
pub use register::Crc16;
pub use register5::Crc5;

/// The CRC-5 of the first `upto` bits, a number below 32.
pub fn crc5(bits: &Bits, upto: u32) -> u8
    requires { upto ≤ length bits.now.items }
    ensures { result ≡ value_of (crc5_of (take upto bits.now.items)) }
{
    crc5_of_bits(&bits.as_slice()[..upto as usize])
}

/// The CRC-5 of bits in a slice, a number below 32.
pub fn crc5_of_bits(bits: &[bool]) -> u8
    ensures { result ≡ value_of (crc5_of bits.now) }
{
    let mut crc = Crc5::new();
    crc.push_all(bits);
    crc.value()
}

/// The CRC-16 of the first `upto` bits.
pub fn crc16(bits: &Bits, upto: u32) -> u16
    requires { upto ≤ length bits.now.items }
    ensures { result ≡ value_of (crc16_of (take upto bits.now.items)) }
{
    crc16_of_bits(&bits.as_slice()[..upto as usize])
}

/// The CRC-16 of bits in a slice.
pub fn crc16_of_bits(bits: &[bool]) -> u16
    ensures { result ≡ value_of (crc16_of bits.now) }
{
    let mut crc = Crc16::new();
    crc.push_all(bits);
    crc.value()
}

/// Whether the register holds 1D0Fh after all bits: so it does exactly where a message of at least 16
/// bits ends with its own CRC-16.
pub fn residue_ok(bits: &Bits) -> bool
    ensures register { IsTrue result ↔ (register_of bits.now.items ≡ residue) }
    ensures message { (front last : List Bool) → bits.now.items ≡ front ++ last → length last ≡ 16
        → (IsTrue result ↔ (last ≡ crc16_of front)) }
{
    let mut crc = Crc16::new();
    crc.push_all(bits.as_slice());
    crc.is_residue()
}
