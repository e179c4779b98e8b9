//! What holds of the four codes, and of the lengths of their streams.
ghost use Rattle.std.specs.Prelude.{◌≡◌, ◌+◌, ◌*◌, ◌≤◌, Bool, List, length};
ghost use Rattle.bit_strings.specs.declared.code.Code.{Code};
ghost use Rattle.line_code.specs.TableFacts.{IsEven, HasLead, TellsBits, RefusesFlips, HidesLead, longest_lead};
ghost use Rattle.line_code.specs.Stream.{stream_of};
ghost use Rattle.reply_wire.specs.Codes.{table_of, chips_of};
ghost use Rattle.reply_wire.specs.PilotExtension.{PreamblesDiffer, HasOnePreamble, KeepsPreamble};

/// The laws of each of the four codes: its blocks have one length, a lead stands before the data, the
/// blocks of 0 and of 1 differ, no stream with one level inverted is a stream, and no blocks of data
/// begin with the lead. The leads with the extended pilot and without it differ in two places at least:
/// no levels are a stream with both, and no stream with the one and with one level inverted is a stream
/// with the other.
pub fn code_laws()
    ensures even { (code : Code) → IsEven (table_of code) (chips_of code) }
    ensures has_lead { (code : Code) → HasLead (table_of code) }
    ensures tells_bits { (code : Code) → TellsBits (table_of code) }
    ensures refuses_flips { (code : Code) → RefusesFlips (table_of code) }
    ensures hides_lead { (code : Code) → HidesLead (table_of code) }
    ensures preambles_differ { (code : Code) → PreamblesDiffer (table_of code) }
    ensures one_preamble { (code : Code) → HasOnePreamble (table_of code) }
    ensures keeps_preamble { (code : Code) → KeepsPreamble (table_of code) }
{}

/// How many levels a stream has: those of the lead, and a block for each bit and for the dummy. So there
/// is one at least, and there are no more than the levels of the longest lead and 16 a block.
pub fn stream_length()
    ensures exact { (code : Code) (trext : Bool) (bits : List Bool)
        → length (stream_of (table_of code) trext bits) ≡ length ((table_of code).lead trext)
        + chips_of code * (length bits + 1) }
    ensures lead { (code : Code) (trext : Bool)
        → length ((table_of code).lead trext) ≤ longest_lead }
    ensures least { (code : Code) (trext : Bool) (bits : List Bool)
        → 1 ≤ length (stream_of (table_of code) trext bits) }
    ensures most { (code : Code) (trext : Bool) (bits : List Bool)
        → length (stream_of (table_of code) trext bits) ≤ longest_lead + 16 * (length bits + 1) }
{}
