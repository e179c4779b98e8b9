//! Encoding and decoding in the code that is named.
ghost use Rattle.std.specs.Prelude.{◌≡◌, ℕ, ◌+◌, ◌*◌, ◌<◌, ◌≤◌, List, Bool, [], length, OnOk, OnErr, IfErr, IsOk, IsErr};
ghost use Rattle.line_code.specs.TableFacts.{longest_lead, with_level_flipped};
ghost use Rattle.line_code.specs.Stream.{IsStream, Streams};
ghost use Rattle.line_code.specs.Refusal.{RefusesStream};
ghost use Rattle.reply_wire.specs.Codes.{table_of, chips_of};
ghost use Rattle.bit_strings.specs.BitString.{most_counted};

use bit_strings::{Bits, Code, Levels};
use fm0_line::Fm0;
use line_code::{LineRefusal, decode, encode};
use miller_line::{Miller2, Miller4, Miller8};

/// The bits of a stream (6.3.1.3.2 of the standard) in the code that is named, without the dummy at its
/// end, in `out`, which is emptied first.
///
/// # Errors
///
/// Exactly where the levels are no stream: `Invalid` with the place of the first level after which no
/// stream can follow, or `Unfinished` with the number of levels, which begin a stream. `out` is empty.
pub fn decode_levels(
    code: Code,
    trext: bool,
    levels: &Levels,
    out: &mut Bits,
) -> Result<(), LineRefusal>
    requires room { length levels.now.items ≤ out.old.capacity }
    requires few { length levels.now.items ≤ most_counted }
    ensures ok { OnOk result (IsStream (table_of code) trext out.new.items levels.now.items) }
    ensures refused { IfErr result
        (RefusesStream (Streams (table_of code) trext) levels.now.items) }
    ensures err { OnErr result (out.new.items ≡ []) }
    ensures capacity { out.new.capacity ≡ out.old.capacity }
    ensures only { (bits : List Bool) → IsStream (table_of code) trext bits levels.now.items
        → IsOk result × (out.new.items ≡ bits) }
    ensures flip { (bits : List Bool) (whole : List Bool) (at : ℕ)
        → IsStream (table_of code) trext bits whole → at < length whole
        → levels.now.items ≡ with_level_flipped whole at → IsErr result }
{
    match code {
        Code::Fm0 => decode::<Fm0>(trext, levels, out),
        Code::M2 => decode::<Miller2>(trext, levels, out),
        Code::M4 => decode::<Miller4>(trext, levels, out),
        Code::M8 => decode::<Miller8>(trext, levels, out),
    }
}

/// Writes the stream (6.3.1.3.2 of the standard) of bits in the code that is named to `out`, in place of
/// what that holds.
pub fn encode_bits(code: Code, trext: bool, bits: &Bits, out: &mut Levels)
    requires { length ((table_of code).lead trext) + chips_of code * (length bits.now.items + 1)
        ≤ out.old.capacity }
    ensures stream { IsStream (table_of code) trext bits.now.items out.new.items }
    ensures least { 1 ≤ length out.new.items }
    ensures exact { length out.new.items ≡ length ((table_of code).lead trext)
        + chips_of code * (length bits.now.items + 1) }
    ensures most { length out.new.items ≤ longest_lead + 16 * (length bits.now.items + 1) }
    ensures capacity { out.new.capacity ≡ out.old.capacity }
{
    match code {
        Code::Fm0 => encode::<Fm0>(trext, bits, out),
        Code::M2 => encode::<Miller2>(trext, bits, out),
        Code::M4 => encode::<Miller4>(trext, bits, out),
        Code::M8 => encode::<Miller8>(trext, bits, out),
    }
}
