//! What the three codes share. The number `m` is M of the standard: a symbol has `2 * m` levels, two
//! halves of `m` levels each, and the subcarrier inverts at each level.
ghost use Rattle.std.specs.Prelude.{◌≡◌, ℕ, ◌≤◌, false, true, length};
ghost use Rattle.bit_strings.specs.NumbersInBits.{field_of};
ghost use Rattle.line_code.specs.TableFacts.{longest_lead};
ghost use Rattle.miller_line.specs.Miller.{miller, IsOneOfThree, start_phase, middle_phase, miller_lead, miller_block, miller_next};
ghost use Rattle.miller_line.specs.FourSymbols.{symbols};
ghost use Rattle.line_code.specs.Stream.{blocks};
ghost use Rattle.line_code.specs.States.{context_after};
ghost use Rattle.miller_line.specs.SymbolContext.{context};

/// The Miller symbol before a bit's block: its bit, and the phase in which it ended.
#[derive(Clone, Copy, Debug, PartialEq, Eq)]
pub struct SymbolBefore {
    pub(crate) bit: bool,
    /// The phase in which the symbol ended: `false` is phase 0.
    pub(crate) phase: bool,
}

/// The levels of four symbols, one behind the other: those of their halves, of which one in phase 0 is `$high` and one in phase 1 `$low`. The
/// phase at the start of the first symbol and their bits are the digits of the row's number.
macro_rules! four_symbols {
    ($high:expr, $low:expr) => {
        [
            [$high, $high, $low, $low, $high, $high, $low, $low],
            [$high, $high, $low, $low, $high, $high, $high, $low],
            [$high, $high, $low, $low, $low, $high, $high, $high],
            [$high, $high, $low, $low, $low, $high, $high, $low],
            [$high, $high, $high, $low, $low, $low, $high, $high],
            [$high, $high, $high, $low, $low, $low, $low, $high],
            [$high, $high, $high, $low, $low, $high, $high, $high],
            [$high, $high, $high, $low, $low, $high, $high, $low],
            [$high, $low, $low, $low, $high, $high, $low, $low],
            [$high, $low, $low, $low, $high, $high, $high, $low],
            [$high, $low, $low, $low, $low, $high, $high, $high],
            [$high, $low, $low, $low, $low, $high, $high, $low],
            [$high, $low, $low, $high, $high, $high, $low, $low],
            [$high, $low, $low, $high, $high, $high, $high, $low],
            [$high, $low, $low, $high, $high, $low, $low, $low],
            [$high, $low, $low, $high, $high, $low, $low, $high],
            [$low, $low, $high, $high, $low, $low, $high, $high],
            [$low, $low, $high, $high, $low, $low, $low, $high],
            [$low, $low, $high, $high, $high, $low, $low, $low],
            [$low, $low, $high, $high, $high, $low, $low, $high],
            [$low, $low, $low, $high, $high, $high, $low, $low],
            [$low, $low, $low, $high, $high, $high, $high, $low],
            [$low, $low, $low, $high, $high, $low, $low, $low],
            [$low, $low, $low, $high, $high, $low, $low, $high],
            [$low, $high, $high, $high, $low, $low, $high, $high],
            [$low, $high, $high, $high, $low, $low, $low, $high],
            [$low, $high, $high, $high, $high, $low, $low, $low],
            [$low, $high, $high, $high, $high, $low, $low, $high],
            [$low, $high, $high, $low, $low, $low, $high, $high],
            [$low, $high, $high, $low, $low, $low, $low, $high],
            [$low, $high, $high, $low, $low, $high, $high, $high],
            [$low, $high, $high, $low, $low, $high, $high, $low],
        ]
    };
}

/// The levels of four symbols with M = 2.
const FOUR_SYMBOLS_2: [[[bool; 2]; 8]; 32] = four_symbols!([true, false], [false, true]);

/// The levels of four symbols with M = 4.
const FOUR_SYMBOLS_4: [[[bool; 4]; 8]; 32] = four_symbols!(
    [true, false, true, false],
    [false, true, false, true]
);

/// The levels of four symbols with M = 8.
const FOUR_SYMBOLS_8: [[[bool; 8]; 8]; 32] = four_symbols!(
    [true, false, true, false, true, false, true, false],
    [false, true, false, true, false, true, false, true]
);

/// The levels of the pilot with TRext 1, which has 16 symbols, and of the preamble, by halves of symbols as those of four symbols.
macro_rules! long_lead {
    ($high:expr, $low:expr) => {
        [
            $high, $high, $high, $high, $high, $high, $high, $high, $high, $high, $high, $high,
            $high, $high, $high, $high, $high, $high, $high, $high, $high, $high, $high, $high,
            $high, $high, $high, $high, $high, $high, $high, $high, $high, $high, $high, $low,
            $low, $low, $low, $high, $high, $low, $low, $high,
        ]
    };
}

/// The levels of the pilot and of the preamble with M = 2 and TRext 1.
const LEAD_2: [[bool; 2]; 44] = long_lead!([true, false], [false, true]);

/// The levels of the pilot and of the preamble with M = 4 and TRext 1.
const LEAD_4: [[bool; 4]; 44] = long_lead!([true, false, true, false], [false, true, false, true]);

/// The levels of the pilot and of the preamble with M = 8 and TRext 1.
const LEAD_8: [[bool; 8]; 44] = long_lead!(
    [true, false, true, false, true, false, true, false],
    [false, true, false, true, false, true, false, true]
);

/// The phase at the start of a bit's symbol: a data-0 after a data-0 inverts it there.
fn phase_at_start(before: SymbolBefore, bit: bool) -> bool
    ensures { result ≡ start_phase (context before) bit }
{
    if bit || before.bit {
        before.phase
    } else {
        !before.phase
    }
}

/// The phase from the middle of a bit's symbol on: a data-1 inverts it there.
fn phase_at_middle(start: bool, bit: bool) -> bool
    ensures { result ≡ middle_phase start bit }
{
    if bit { !start } else { start }
}

/// The levels of the pilot and the preamble with TRext 1.
fn long_lead(m: u32) -> &'static [bool]
    requires { IsOneOfThree m }
    ensures { result.now ≡ miller_lead m true }
{
    match m {
        2 => LEAD_2.as_flattened(),
        4 => LEAD_4.as_flattened(),
        _ => LEAD_8.as_flattened(),
    }
}

/// The levels of the pilot and the preamble (6.3.1.3.2.4 of the standard). With TRext 0 the pilot has 12 symbols less.
#[tactic(auto, using(crate::proofs::Levels::few_levels, crate::proofs::Levels::shorter))]
pub fn lead_levels(m: u32, trext: bool) -> &'static [bool]
    requires { IsOneOfThree m }
    ensures value { result.now ≡ miller_lead m trext }
    ensures few { length (miller_lead m trext) ≤ longest_lead }
{
    let lead = long_lead(m);
    if trext {
        lead
    } else {
        &lead[(24 * m) as usize..]
    }
}

/// What stands before the first bit after the lead.
pub fn after_lead() -> SymbolBefore
    ensures { context result ≡ record { before = true; phase = false } }
{
    SymbolBefore {
        bit: true,
        phase: false,
    }
}

/// The levels of four symbols, one behind the other, by the phase at the start of the first and by their bits, which are the last four of a
/// number.
fn four_symbols(m: u32, start: bool, number: u16) -> &'static [bool]
    requires { IsOneOfThree m }
    ensures { result.now ≡ symbols m start (field_of number 4) }
{
    let row = 16 * (start as usize) + (number % 16) as usize;
    match m {
        2 => FOUR_SYMBOLS_2[row].as_flattened(),
        4 => FOUR_SYMBOLS_4[row].as_flattened(),
        _ => FOUR_SYMBOLS_8[row].as_flattened(),
    }
}

/// The levels of the block of a bit, by M and by the Miller symbol before it.
#[tactic(auto, using(crate::proofs::FourSymbols::first_symbol))]
pub fn block(m: u32, before: SymbolBefore, bit: bool) -> &'static [bool]
    requires { IsOneOfThree m }
    ensures { result.now ≡ miller_block m (context before) bit }
{
    // The first of four symbols.
    let symbols = four_symbols(m, phase_at_start(before, bit), 8 * u16::from(bit));
    &symbols[..(2 * m) as usize]
}

/// The phase at the start of the first of four symbols, whose bits are the last four of a number.
#[tactic(auto, using(crate::proofs::FourSymbols::from_start), unfolding(bit_strings::specs::NumbersInBits::field_of))]
fn start_of_four(before: SymbolBefore, number: u16) -> bool
    ensures { (m : ℕ) → symbols m result (field_of number 4)
        ≡ blocks (miller m) (context before) (field_of number 4) }
{
    phase_at_start(before, number / 8 % 2 == 1)
}

/// The levels of the blocks of the last four bits of a number, one behind the other, and what stands before the bit that follows them.
pub fn four_blocks(m: u32, before: SymbolBefore, number: u16) -> (&'static [bool], SymbolBefore)
    requires { IsOneOfThree m }
    ensures levels { result.0.now ≡ blocks (miller m) (context before) (field_of number 4) }
    ensures mark { context result.1
        ≡ context_after (miller m) (context before) (field_of number 4) }
{
    let start = start_of_four(before, number);
    let levels = four_symbols(m, start, number);
    // The last level of a half tells its phase, since a half has an even number of levels.
    let last = SymbolBefore {
        bit: number % 2 == 1,
        phase: levels[(8 * m - 1) as usize],
    };
    (levels, last)
}

/// What stands before the bit that follows a bit.
pub fn after(before: SymbolBefore, bit: bool) -> SymbolBefore
    ensures { context result ≡ miller_next (context before) bit }
{
    let phase = phase_at_middle(phase_at_start(before, bit), bit);
    SymbolBefore { bit, phase }
}
