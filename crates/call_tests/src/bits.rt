//! Vectors from outside, and the calls on bits that no row reaches.
use bit_strings::{Bits, Ebv, Full};
use std::alloc::Global;

/// The list of bits that a text of the digits 0 and 1 shows, with some room to spare.
fn bits_of(alloc: Global, text: &str) -> Option<Bits> {
    let mut bits = Bits::new(alloc, 64).ok()?;
    bits.copy_bytes(text.as_bytes(), b'1').ok()?;
    Some(bits)
}

/// Row `ebv-vectors`, and each other answer once: bits, and what stands at their beginning.
const VECTORS: &[(&str, Ebv)] = &[
    ("00000000", Ebv::Value { value: 0, next: 8 }),
    (
        "01111111",
        Ebv::Value {
            value: 127,
            next: 8,
        },
    ),
    (
        "1000000100000000",
        Ebv::Value {
            value: 128,
            next: 16,
        },
    ),
    (
        "11111111111111111111111101111111",
        Ebv::Value {
            value: 268_435_455,
            next: 32,
        },
    ),
    ("1000000000000001", Ebv::NotShortest),
    ("1000000", Ebv::Short),
    ("1111111111111111111111111", Ebv::TooLong),
];

/// Whether the bits begin so; and where they are a number, whether it is written as them.
fn is_vector(alloc: Global, text: &str, wanted: Ebv) -> Option<bool> {
    let bits = bits_of(alloc, text)?;
    let mut written = Bits::new(alloc, 32).ok()?;
    if let Ebv::Value { value, .. } = wanted {
        if value >= 268_435_456 {
            return None;
        }
        written.put_ebv(value).ok()?;
        return Some(bits.take_ebv(0) == wanted && written.as_slice() == bits.as_slice());
    }
    Some(bits.take_ebv(0) == wanted)
}

#[test]
fn vectors_are_spelled_and_read(rt: HostRuntime) {
    for &(text, wanted) in VECTORS {
        assert!(rt; is_vector(rt.alloc(), text, wanted) == Some(true), "{text}");
    }
}

/// Whether a field and a word are written one behind the other, and are read again, and no bit more fits than the list has room for.
fn are_written(alloc: Global) -> Option<bool> {
    let mut bits = Bits::new(alloc, 24).ok()?;
    bits.put_field(0b1011, 4).ok()?;
    bits.put_u16(0xa1b2).ok()?;
    let wanted = bits_of(alloc, "10111010000110110010")?;
    Some(
        bits.as_slice() == wanted.as_slice()
            && bits.word(4) == Some(0xa1b2)
            && bits.put_field(0, 5) == Err(Full),
    )
}

#[test]
fn fields_are_written_and_read(rt: HostRuntime) {
    assert!(rt; are_written(rt.alloc()) == Some(true));
}
