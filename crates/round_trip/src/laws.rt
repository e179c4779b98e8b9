//! What `decode` answers to the lines that `encode` writes.
ghost use Rattle.std.specs.Prelude.{ℕ, List};
ghost use Rattle.encode_lines.specs.EncodeLines.{Encodes};
ghost use Rattle.encode_lines.specs.Request.{AsksToEncode};
ghost use Rattle.encode_lines.specs.Written.{AreWritten};
ghost use Rattle.encode_lines.specs.declared.request.Request.{Request};
ghost use Rattle.round_trip.specs.ReadBack.{ComesBack, IsReadBack};

use command_grammar::spelling_laws;
use pie_line::written_frame;

/// `decode` answers each line that `encode` writes, but a refusal, with what `encode` read.
pub fn written_lines_are_read_back()
    ensures line { (line : List ℕ) (request : Request) (fields : List (List ℕ))
        → AsksToEncode line request → AreWritten request fields → IsReadBack request fields }
    ensures text { (bytes text : List ℕ) → Encodes bytes text → ComesBack bytes text }
{
    // A wave is a frame of its bits, and each command has a short spelling.
    written_frame();
    spelling_laws();
}
