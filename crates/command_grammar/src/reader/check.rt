//! The check number that goes along with the bits of a command (6.3.1.5).
ghost use Rattle.std.specs.Prelude.{◌≡◌, ◌≤◌, ◌<◌, ◌^◌, List, Bool, [], ◌∷◌, ◌++◌, Some};
ghost use Rattle.bit_strings.specs.NumbersInBits.{value_of, field_of};
ghost use Rattle.gen2_crc.specs.Crc.{crc5_of, crc16_of};
ghost use Rattle.command_grammar.specs.declared.refusal.Reason.TheVariants as reasons;
ghost use Rattle.command_grammar.specs.reading.CheckNumbers.{IsRegisterOf, check_asked, check_kept};

use crate::kinds::CheckNumber;
use gen2_crc::{Crc5, Crc16};

/// The check number of the bits so far, where one is still to come.
#[derive(Clone, Copy)]
pub(crate) enum Check {
    /// That of a Select or of an access command.
    Long(Crc16),
    /// That of a Query.
    Short(Crc5),
    /// None is to come.
    Over,
}

impl Check {
    /// The one of a command that has this check number, behind its code.
    pub(crate) fn of(number: CheckNumber, code: &[bool]) -> Check
        ensures counts { IsRegisterOf result code.now }
        ensures kept { check_kept result ≡ check_asked number }
    {
        match number {
            CheckNumber::Absent => Check::Over,
            CheckNumber::Crc5 => {
                let mut crc = Crc5::new();
                crc.push_all(code);
                Check::Short(crc)
            }
            CheckNumber::Crc16 => {
                let mut crc = Crc16::new();
                crc.push_all(code);
                Check::Long(crc)
            }
        }
    }

    /// Takes one bit more of the command into the check number, where one is still to come.
    pub(crate) fn push(&mut self, bit: bool)
        ensures counts { (front : List Bool) → IsRegisterOf self.old front
            → IsRegisterOf self.new (front ++ bit ∷ []) }
        ensures kept { check_kept self.new ≡ check_kept self.old }
    {
        match self {
            Check::Long(crc) => crc.push(bit),
            Check::Short(crc) => crc.push(bit),
            Check::Over => {}
        }
    }

    /// Takes the bits of a number into the check number, where one is still to come. Those of a word are taken at once.
    pub(crate) fn push_number(&mut self, value: u32, width: u32)
        requires narrow { width ≤ 20 }
        requires fits { value < 2 ^ width }
        ensures counts { (front : List Bool) → IsRegisterOf self.old front
            → IsRegisterOf self.new (front ++ field_of value width) }
        ensures kept { check_kept self.new ≡ check_kept self.old }
    {
        match self {
            Check::Over => {}
            Check::Long(crc) if width == 16 => crc.push_word(value as u16),
            Check::Long(_) | Check::Short(_) => self.push_digits(value, width),
        }
    }

    /// Takes the bits of a number one by one.
    fn push_digits(&mut self, value: u32, width: u32)
        requires { width ≤ 20 }
        ensures counts { (front : List Bool) → IsRegisterOf self.old front
            → IsRegisterOf self.new (front ++ field_of value width) }
        ensures kept { check_kept self.new ≡ check_kept self.old }
    {
        let mut places = width;
        while places > 0 {
            places -= 1;
            self.push((value >> places) % 2 == 1);
        }
    }
    /// The CRC-5 of the bits so far, where it is still to come.
    pub(crate) fn crc5(&self) -> u32
        requires { check_kept self.now ≡ Some reasons.Crc5 }
        ensures { (bits : List Bool) → IsRegisterOf self.now bits
            → result ≡ value_of (crc5_of bits) }
    {
        match self {
            Check::Short(crc) => u32::from(crc.value()),
            Check::Long(_) | Check::Over => unreachable!(),
        }
    }

    /// The CRC-16 of the bits so far, where it is still to come.
    pub(crate) fn crc16(&self) -> u32
        requires { check_kept self.now ≡ Some reasons.Crc16 }
        ensures { (bits : List Bool) → IsRegisterOf self.now bits
            → result ≡ value_of (crc16_of bits) }
    {
        match self {
            Check::Long(crc) => u32::from(crc.value()),
            Check::Short(_) | Check::Over => unreachable!(),
        }
    }
}
