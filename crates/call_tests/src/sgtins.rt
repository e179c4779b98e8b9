//! Trade item numbers, made of their parts. Words and URIs, from the GS1 Tag Data Standard and reckoned from its tables by hand, stand in
//! rows/decode/numbers.txt.
use epc_sgtin::{Sgtin, SgtinRefusal};

/// The parts: the filter value, the number of the company's digits, the company, the item and the serial number.
type Parts = (u8, u8, u64, u32, u64);

/// Parts, and the words of the number that they make, or why they make none.
const SGTINS: &[(Parts, Result<[u16; 6], SgtinRefusal>)] = &[
    // A public example.
    (
        (3, 7, 614_141, 812_345, 6_789),
        Ok([0x3074, 0x257B, 0xF719, 0x4E40, 0x0000, 0x1A85]),
    ),
    ((8, 5, 0, 0, 0), Err(SgtinRefusal::Filter)),
    ((7, 13, 0, 0, 0), Err(SgtinRefusal::Digits)),
    (
        (7, 6, 1_000_000, 10_000_000, 274_877_906_944),
        Err(SgtinRefusal::Company),
    ),
    ((7, 12, 0, 10, 274_877_906_944), Err(SgtinRefusal::Item)),
    ((3, 7, 0, 0, 274_877_906_944), Err(SgtinRefusal::Serial)),
];

/// The words of the SGTIN of these parts.
fn words_of((filter, digits, company, item, serial): Parts) -> Result<[u16; 6], SgtinRefusal> {
    let sgtin = Sgtin::new(filter, digits, company, item, serial)?;
    Ok(sgtin.encode())
}

#[test]
fn parts_have_words(rt: HostRuntime) {
    for &(parts, wanted) in SGTINS {
        assert!(rt; words_of(parts) == wanted, "{parts:?}");
    }
}
