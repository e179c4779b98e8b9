//! Laws of the definitions that the contracts of this crate cite.
ghost use Rattle.std.specs.Prelude.{◌≡◌, List, Bool, length};
ghost use Rattle.bit_strings.specs.NumbersInBits.{value_of, field_of};
ghost use Rattle.gen2_crc.specs.Crc.{crc5_of, crc16_of};

/// A check number has 5 or 16 bits, and they are the field of its value.
pub fn crc_laws()
    ensures five { (message : List Bool) → length (crc5_of message) ≡ 5 }
    ensures sixteen { (message : List Bool) → length (crc16_of message) ≡ 16 }
    ensures field5 { (message : List Bool)
        → field_of (value_of (crc5_of message)) 5 ≡ crc5_of message }
    ensures field16 { (message : List Bool)
        → field_of (value_of (crc16_of message)) 16 ≡ crc16_of message }
{}
