//! Check numbers from outside: the catalogue's check of each.
use bit_strings::Bits;
use gen2_crc::{crc5, crc16};
use std::alloc::Global;

/// Row `crc-vectors`: the CRC-16 and the CRC-5 of the catalogue's bytes, the digits 1 to 9, each most significant bit first.
fn catalogue_checks(alloc: Global) -> Option<(u16, u8)> {
    let mut bits = Bits::new(alloc, 72).ok()?;
    for byte in b"123456789" {
        bits.put_field(u32::from(*byte), 8).ok()?;
    }
    if bits.len() != 72 {
        return None;
    }
    Some((crc16(&bits, 72), crc5(&bits, 72)))
}

#[test]
fn the_catalogue_has_these_checks(rt: HostRuntime) {
    assert!(rt; catalogue_checks(rt.alloc()) == Some((0xd64e, 0)));
}
