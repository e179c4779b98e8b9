//! The three codes.
ghost use Rattle.miller_line.specs.Miller.{miller};
ghost use Rattle.miller_line.specs.SymbolContext.{context};
ghost use Rattle.miller_line.specs.laws.Miller.{two, four, eight, miller_even, miller_has_lead, miller_tells_bits, miller_refuses_flips, miller_hides_lead};

use crate::subcarrier::{self, SymbolBefore};
use crate::symbols::sixteen_bits;
use line_code::LineCode;

/// Miller-modulated subcarrier with M = 2 (6.3.1.3.2.3 of the standard): two cycles of the subcarrier,
/// which are 4 levels, for each bit.
#[derive(Clone, Copy, Debug, PartialEq, Eq)]
pub struct Miller2;

/// Miller-modulated subcarrier with M = 4 (6.3.1.3.2.3 of the standard): four cycles of the subcarrier,
/// which are 8 levels, for each bit.
#[derive(Clone, Copy, Debug, PartialEq, Eq)]
pub struct Miller4;

/// Miller-modulated subcarrier with M = 8 (6.3.1.3.2.3 of the standard): eight cycles of the
/// subcarrier, which are 16 levels, for each bit.
#[derive(Clone, Copy, Debug, PartialEq, Eq)]
pub struct Miller8;

impl LineCode for Miller2 {
    type Mark = SymbolBefore;

    ghost CHIPS = { 4 };

    ghost table = { miller 2 };

    ghost context_of = { context };

    const CHIPS: u32 = 4;

    fn lead_levels(trext: bool) -> &'static [bool] {
        subcarrier::lead_levels(2, trext)
    }

    fn after_lead() -> SymbolBefore {
        subcarrier::after_lead()
    }

    fn block(mark: SymbolBefore, bit: bool) -> &'static [bool] {
        subcarrier::block(2, mark, bit)
    }

    fn four_blocks(mark: SymbolBefore, number: u16) -> (&'static [bool], SymbolBefore) {
        subcarrier::four_blocks(2, mark, number)
    }

    fn sixteen_bits(mark: SymbolBefore, levels: &[bool]) -> Option<([bool; 16], SymbolBefore)> {
        sixteen_bits(2, mark, levels)
    }

    fn after(mark: SymbolBefore, bit: bool) -> SymbolBefore {
        subcarrier::after(mark, bit)
    }

    ghost even = { miller_even 2 two };

    ghost has_lead = { miller_has_lead 2 two };

    ghost tells_bits = { miller_tells_bits 2 two };

    ghost refuses_flips = { miller_refuses_flips 2 two };

    ghost hides_lead = { miller_hides_lead 2 two };
}

impl LineCode for Miller4 {
    type Mark = SymbolBefore;

    ghost CHIPS = { 8 };

    ghost table = { miller 4 };

    ghost context_of = { context };

    const CHIPS: u32 = 8;

    fn lead_levels(trext: bool) -> &'static [bool] {
        subcarrier::lead_levels(4, trext)
    }

    fn after_lead() -> SymbolBefore {
        subcarrier::after_lead()
    }

    fn block(mark: SymbolBefore, bit: bool) -> &'static [bool] {
        subcarrier::block(4, mark, bit)
    }

    fn four_blocks(mark: SymbolBefore, number: u16) -> (&'static [bool], SymbolBefore) {
        subcarrier::four_blocks(4, mark, number)
    }

    fn sixteen_bits(mark: SymbolBefore, levels: &[bool]) -> Option<([bool; 16], SymbolBefore)> {
        sixteen_bits(4, mark, levels)
    }

    fn after(mark: SymbolBefore, bit: bool) -> SymbolBefore {
        subcarrier::after(mark, bit)
    }

    ghost even = { miller_even 4 four };

    ghost has_lead = { miller_has_lead 4 four };

    ghost tells_bits = { miller_tells_bits 4 four };

    ghost refuses_flips = { miller_refuses_flips 4 four };

    ghost hides_lead = { miller_hides_lead 4 four };
}

impl LineCode for Miller8 {
    type Mark = SymbolBefore;

    ghost CHIPS = { 16 };

    ghost table = { miller 8 };

    ghost context_of = { context };

    const CHIPS: u32 = 16;

    fn lead_levels(trext: bool) -> &'static [bool] {
        subcarrier::lead_levels(8, trext)
    }

    fn after_lead() -> SymbolBefore {
        subcarrier::after_lead()
    }

    fn block(mark: SymbolBefore, bit: bool) -> &'static [bool] {
        subcarrier::block(8, mark, bit)
    }

    fn four_blocks(mark: SymbolBefore, number: u16) -> (&'static [bool], SymbolBefore) {
        subcarrier::four_blocks(8, mark, number)
    }

    fn sixteen_bits(mark: SymbolBefore, levels: &[bool]) -> Option<([bool; 16], SymbolBefore)> {
        sixteen_bits(8, mark, levels)
    }

    fn after(mark: SymbolBefore, bit: bool) -> SymbolBefore {
        subcarrier::after(mark, bit)
    }

    ghost even = { miller_even 8 eight };

    ghost has_lead = { miller_has_lead 8 eight };

    ghost tells_bits = { miller_tells_bits 8 eight };

    ghost refuses_flips = { miller_refuses_flips 8 eight };

    ghost hides_lead = { miller_hides_lead 8 eight };
}
