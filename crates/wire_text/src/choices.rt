//! The words that stand for the choices in a command, written and read; and those for the reasons of a refusal.
ghost use Rattle.std.specs.Prelude.{◌≡◌, [], ◌∷◌, IfSome, Some};
ghost use Rattle.text_fields.specs.Binary.{binary_digit};
ghost use Rattle.wire_text.specs.FieldNames.{all_banks, all_flags, all_mask_banks, all_sels, all_sides, all_updns, bank_found, flag_found, mask_bank_found, sel_found, side_found, updn_found};
ghost use Rattle.wire_text.specs.CommandText.{bank_word, flag_word, mask_bank_word, refused_field_word, sel_word, side_letter, side_word, updn_word};

use crate::name_lists::{Named, value_named};
use command_grammar::{Bank, FlagName, MaskBank, Reason, Sel, Side, UpDn};

/// The digit 0 or 1 as the word that stands for a bit in a text, such as DR of a Query.
pub fn bit_name(bit: bool) -> &'static str
    ensures { result.now ≡ binary_digit bit ∷ [] }
{
    if bit { "1" } else { "0" }
}

impl Named for Sel {
    ghost word = { sel_word };

    ghost values = { all_sels };

    ghost finds = { sel_found };

    fn all() -> &'static [Sel] {
        &[Sel::All00, Sel::All01, Sel::NotSl, Sel::Sl]
    }

    fn name(self) -> &'static str {
        match self {
            Sel::All00 => "00",
            Sel::All01 => "01",
            Sel::NotSl => "10",
            Sel::Sl => "11",
        }
    }
}

impl Named for Side {
    ghost word = { side_word };

    ghost values = { all_sides };

    ghost finds = { side_found };

    fn all() -> &'static [Side] {
        &[Side::A, Side::B]
    }

    fn name(self) -> &'static str {
        match self {
            Side::A => "a",
            Side::B => "b",
        }
    }
}

/// The name of an inventoried flag's value.
pub fn side_name(side: Side) -> &'static str
    ensures { result.now ≡ side_word side }
{
    side.name()
}

/// The value of this name of an inventoried flag.
pub fn side_named(field: &[u8]) -> Option<Side>
    ensures value { IfSome result (λ side. field.now ≡ side_word side) }
    ensures only { (side : Side) → field.now ≡ side_word side → result ≡ Some side }
{
    value_named(field)
}

/// The letter of an inventoried flag's value, as the flags of a tag are written.
pub fn side_letter(side: Side) -> &'static str
    ensures { result.now ≡ side_letter side }
{
    match side {
        Side::A => "A",
        Side::B => "B",
    }
}

impl Named for UpDn {
    ghost word = { updn_word };

    ghost values = { all_updns };

    ghost finds = { updn_found };

    fn all() -> &'static [UpDn] {
        &[UpDn::Up, UpDn::Same, UpDn::Down]
    }

    fn name(self) -> &'static str {
        match self {
            UpDn::Up => "up",
            UpDn::Same => "same",
            UpDn::Down => "down",
        }
    }
}

impl Named for FlagName {
    ghost word = { flag_word };

    ghost values = { all_flags };

    ghost finds = { flag_found };

    fn all() -> &'static [FlagName] {
        &[
            FlagName::S0,
            FlagName::S1,
            FlagName::S2,
            FlagName::S3,
            FlagName::Sl,
        ]
    }

    fn name(self) -> &'static str {
        match self {
            FlagName::S0 => "s0",
            FlagName::S1 => "s1",
            FlagName::S2 => "s2",
            FlagName::S3 => "s3",
            FlagName::Sl => "sl",
        }
    }
}

/// The name of a flag that a Select changes.
pub fn flag_name(flag: FlagName) -> &'static str
    ensures { result.now ≡ flag_word flag }
{
    flag.name()
}

/// The flag of this name.
pub fn flag_named(field: &[u8]) -> Option<FlagName>
    ensures value { IfSome result (λ flag. field.now ≡ flag_word flag) }
    ensures only { (flag : FlagName) → field.now ≡ flag_word flag → result ≡ Some flag }
{
    value_named(field)
}

impl Named for MaskBank {
    ghost word = { mask_bank_word };

    ghost values = { all_mask_banks };

    ghost finds = { mask_bank_found };

    fn all() -> &'static [MaskBank] {
        &[MaskBank::Epc, MaskBank::Tid, MaskBank::User]
    }

    fn name(self) -> &'static str {
        match self {
            MaskBank::Epc => "epc",
            MaskBank::Tid => "tid",
            MaskBank::User => "user",
        }
    }
}

/// The bank of this name that a Select compares its mask with.
pub fn mask_bank_named(field: &[u8]) -> Option<MaskBank>
    ensures value { IfSome result (λ bank. field.now ≡ mask_bank_word bank) }
    ensures only { (bank : MaskBank) → field.now ≡ mask_bank_word bank → result ≡ Some bank }
{
    value_named(field)
}

impl Named for Bank {
    ghost word = { bank_word };

    ghost values = { all_banks };

    ghost finds = { bank_found };

    fn all() -> &'static [Bank] {
        &[Bank::Reserved, Bank::Epc, Bank::Tid, Bank::User]
    }

    fn name(self) -> &'static str {
        match self {
            Bank::Reserved => "res",
            Bank::Epc => "epc",
            Bank::Tid => "tid",
            Bank::User => "user",
        }
    }
}

/// The name of a bank.
pub fn bank_name(bank: Bank) -> &'static str
    ensures { result.now ≡ bank_word bank }
{
    bank.name()
}

/// The bank of this name.
pub fn bank_named(field: &[u8]) -> Option<Bank>
    ensures value { IfSome result (λ bank. field.now ≡ bank_word bank) }
    ensures only { (bank : Bank) → field.now ≡ bank_word bank → result ≡ Some bank }
{
    value_named(field)
}

/// The name of a reason.
pub(crate) fn reason_name(reason: Reason) -> &'static str
    ensures { result.now ≡ refused_field_word reason }
{
    match reason {
        Reason::Code => "code",
        Reason::UpDn => "updn",
        Reason::Target => "target",
        Reason::Bank => "bank",
        Reason::Ebv => "ebv",
        Reason::Truncate => "truncate",
        Reason::KillBits => "killbits",
        Reason::Count => "count",
        Reason::Crc5 => "crc5",
        Reason::Crc16 => "crc16",
        Reason::Extra => "extra",
    }
}
