//! What a line code is.
ghost use Rattle.std.specs.Prelude.{◌≡◌, ◌≢◌, ℕ, ◌*◌, ◌<◌, ◌≤◌, length, Bool, Some, IfSome, IfNone, slice_get};
ghost use Rattle.bit_strings.specs.NumbersInBits.{field_of};
ghost use Rattle.line_code.specs.Table.{Context, Table};
ghost use Rattle.line_code.specs.Stream.{blocks};
ghost use Rattle.line_code.specs.States.{context_after};
ghost use Rattle.line_code.specs.TableFacts.{IsEven, HasLead, TellsBits, RefusesFlips, HidesLead, longest_lead};

/// A line code of the link from tag to interrogator (6.3.1.3.2 of the standard).
///
/// A stream is a lead, which is the pilot and the preamble, then one block of [`LineCode::CHIPS`]
/// levels for each bit, then the block of a dummy data-1.
pub trait LineCode {
    /// What a line code keeps of the symbol before a bit's block, on which that block depends: the bit, and how
    /// the symbol ended.
    type Mark: Copy;

    /// How many levels a bit has.
    ghost CHIPS: { ℕ };

    /// The code as a table.
    ghost table: { Table };

    /// The context that a mark stands for.
    ghost context_of: { Self.Mark → Context };

    /// How many levels a bit has, from 1 to 16.
    const CHIPS: u32;

    /// The levels of the pilot and the preamble.
    fn lead_levels(trext: bool) -> &'static [bool]
        ensures value { result.now ≡ table.lead trext }
        ensures few { length (table.lead trext) ≤ longest_lead };

    /// How many levels the pilot and the preamble have.
    fn lead_len(trext: bool) -> u32
        ensures { result ≡ length (table.lead trext) }
    {
        Self::lead_levels(trext).len() as u32
    }

    /// The level of the pilot and the preamble at the place `at`, counted from 0.
    fn lead(trext: bool, at: u32) -> bool
        requires { at < length (table.lead trext) }
        ensures { slice_get (table.lead trext) at ≡ Some result }
    {
        Self::lead_levels(trext)[at as usize]
    }

    /// The mark of the first bit after the lead.
    fn after_lead() -> Self::Mark
        ensures { context_of result ≡ table.start };

    /// The levels of the block of a bit in this line code, behind this mark.
    fn block(mark: Self::Mark, bit: bool) -> &'static [bool]
        ensures { result.now ≡ table.block (context_of mark) bit };

    /// The level of a bit's block at the place `at`, counted from 0.
    fn level(mark: Self::Mark, bit: bool, at: u32) -> bool
        requires { at < CHIPS }
        ensures { slice_get (table.block (context_of mark) bit) at ≡ Some result }
    {
        Self::block(mark, bit)[at as usize]
    }

    /// The levels of the blocks of the last four bits of a number, one behind the other, and the mark of the bit that follows them.
    fn four_blocks(mark: Self::Mark, number: u16) -> (&'static [bool], Self::Mark)
        ensures levels { result.0.now ≡ blocks table (context_of mark) (field_of number 4) }
        ensures mark { context_of result.1
            ≡ context_after table (context_of mark) (field_of number 4) };

    /// The sixteen bits whose blocks, one behind the other, the levels are, and the mark of the bit that follows them. It may be none for any
    /// levels, which are then taken one by one.
    fn sixteen_bits(mark: Self::Mark, levels: &[bool]) -> Option<([bool; 16], Self::Mark)>
        requires { length levels.now ≡ 16 * CHIPS }
        ensures { IfSome result
            (λ it. (levels.now ≡ blocks table (context_of mark) it.0)
            × (context_of it.1 ≡ context_after table (context_of mark) it.0)) };

    /// The mark of the bit that follows a bit.
    fn after(mark: Self::Mark, bit: bool) -> Self::Mark
        ensures { context_of result ≡ table.next (context_of mark) bit };

    // Each block has the same number of levels, from 1 to 16.
    ghost even: { IsEven table CHIPS };

    // Something stands before the data.
    ghost has_lead: { HasLead table };

    // In one context the blocks of 0 and of 1 differ.
    ghost tells_bits: { TellsBits table };

    // No stream with one level flipped is a stream of the same code and TRext.
    ghost refuses_flips: { RefusesFlips table };

    // No list of data blocks begins with the lead.
    ghost hides_lead: { HidesLead table };
}
