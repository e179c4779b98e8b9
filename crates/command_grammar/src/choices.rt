//! The fields of a few bits whose values have names, read and written (6.3.2.11).
ghost use Rattle.std.specs.Prelude.{◌≡◌};
ghost use Rattle.command_grammar.specs.Commands.{bits_of_bank, bits_of_m, bits_of_mask_bank, bits_of_query_target, bits_of_sel, bits_of_select_target, bits_of_updn};
ghost use Rattle.command_grammar.specs.reading.Readers.{IsChosen, child, pick, query_target_values, select_target_values, updn_values};

use bit_strings::Code;
use command_fields::{Bank, FlagName, MaskBank, Sel, Side, UpDn};

/// The values of M of a Query, by the number of their two bits (6.3.2.11.2.1).
pub(crate) const M_VALUES: [Code; 4] = [Code::Fm0, Code::M2, Code::M4, Code::M8];

/// The bits of M of a Query.
pub(crate) fn m_bits(code: Code) -> [bool; 2]
    ensures { result ≡ bits_of_m code }
{
    match code {
        Code::Fm0 => [false, false],
        Code::M2 => [false, true],
        Code::M4 => [true, false],
        Code::M8 => [true, true],
    }
}

/// The values of Sel of a Query, by the number of their two bits (6.3.2.11.2.1).
pub(crate) const SEL_VALUES: [Sel; 4] = [Sel::All00, Sel::All01, Sel::NotSl, Sel::Sl];

/// The bits of Sel of a Query.
pub(crate) fn sel_bits(sel: Sel) -> [bool; 2]
    ensures { result ≡ bits_of_sel sel }
{
    match sel {
        Sel::All00 => [false, false],
        Sel::All01 => [false, true],
        Sel::NotSl => [true, false],
        Sel::Sl => [true, true],
    }
}

/// Target of a Query (6.3.2.11.2.1).
pub(crate) fn query_target(bit: bool) -> Side
    ensures { child query_target_values bit ≡ pick result }
{
    if bit { Side::B } else { Side::A }
}

/// The bits of Target of a Query.
pub(crate) fn query_target_bits(side: Side) -> [bool; 1]
    ensures { result ≡ bits_of_query_target side }
{
    match side {
        Side::A => [false],
        Side::B => [true],
    }
}

/// UpDn of a QueryAdjust (6.3.2.11.2.2).
pub(crate) fn updn(first: bool, second: bool, third: bool) -> Option<UpDn>
    ensures { IsChosen result (child (child (child updn_values first) second) third) }
{
    match (first, second, third) {
        (true, true, false) => Some(UpDn::Up),
        (false, false, false) => Some(UpDn::Same),
        (false, true, true) => Some(UpDn::Down),
        _ => None,
    }
}

/// The bits of UpDn of a QueryAdjust.
pub(crate) fn updn_bits(updn: UpDn) -> [bool; 3]
    ensures { result ≡ bits_of_updn updn }
{
    match updn {
        UpDn::Up => [true, true, false],
        UpDn::Same => [false, false, false],
        UpDn::Down => [false, true, true],
    }
}

/// Target of a Select (6.3.2.11.1.1).
pub(crate) fn select_target(first: bool, second: bool, third: bool) -> Option<FlagName>
    ensures { IsChosen result (child (child (child select_target_values first) second) third) }
{
    match (first, second, third) {
        (false, false, false) => Some(FlagName::S0),
        (false, false, true) => Some(FlagName::S1),
        (false, true, false) => Some(FlagName::S2),
        (false, true, true) => Some(FlagName::S3),
        (true, false, false) => Some(FlagName::Sl),
        _ => None,
    }
}

/// The bits of Target of a Select.
pub(crate) fn select_target_bits(target: FlagName) -> [bool; 3]
    ensures { result ≡ bits_of_select_target target }
{
    match target {
        FlagName::S0 => [false, false, false],
        FlagName::S1 => [false, false, true],
        FlagName::S2 => [false, true, false],
        FlagName::S3 => [false, true, true],
        FlagName::Sl => [true, false, false],
    }
}

/// The banks that MemBank of a Select names, by the number of its two bits (6.3.2.11.1.1). Profile: none for the Reserved bank, with
/// which no mask is compared.
pub(crate) const MASK_BANK_VALUES: [Option<MaskBank>; 4] = [
    None,
    Some(MaskBank::Epc),
    Some(MaskBank::Tid),
    Some(MaskBank::User),
];

/// The bits of MemBank of a Select.
pub(crate) fn mask_bank_bits(bank: MaskBank) -> [bool; 2]
    ensures { result ≡ bits_of_mask_bank bank }
{
    match bank {
        MaskBank::Epc => [false, true],
        MaskBank::Tid => [true, false],
        MaskBank::User => [true, true],
    }
}

/// The banks that MemBank of a Read, Write, BlockWrite or BlockErase names, by the number of its two bits (6.3.2.11.3.2).
pub(crate) const BANK_VALUES: [Bank; 4] = [Bank::Reserved, Bank::Epc, Bank::Tid, Bank::User];

/// The bits of MemBank of a Read, Write, BlockWrite or BlockErase.
pub(crate) fn bank_bits(bank: Bank) -> [bool; 2]
    ensures { result ≡ bits_of_bank bank }
{
    match bank {
        Bank::Reserved => [false, false],
        Bank::Epc => [false, true],
        Bank::Tid => [true, false],
        Bank::User => [true, true],
    }
}
