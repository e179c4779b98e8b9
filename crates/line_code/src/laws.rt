//! What holds of the streams of every line code.
ghost use Rattle.std.specs.Prelude.{◌≡◌, ℕ, Bool, List, Result};
ghost use Rattle.line_code.specs.Table.{Table};
ghost use Rattle.line_code.specs.TableFacts.{IsEven, TellsBits};
ghost use Rattle.line_code.specs.Stream.{IsStream, Streams};
ghost use Rattle.line_code.specs.States.{SeekingValue, InsideValue, Seeks, Reads};
ghost use Rattle.bit_strings.specs.Family.{Begins};
ghost use Rattle.line_code.specs.Answer.{IsStreamAnswer};
ghost use Rattle.line_code.specs.declared.refusal.LineRefusal.{LineRefusal};

/// To each list of levels there is exactly one answer, for each table whose blocks have one length
/// and tell the bits apart, and each TRext: it is a stream, or it is refused at one place, or it is
/// short. A stream is that of one list of bits.
pub fn one_answer()
    ensures some { (t : Table) (chips : ℕ) → IsEven t chips → TellsBits t
        → (trext : Bool) (levels : List Bool)
        → (answer : Result (Unit {0}) LineRefusal) × IsStreamAnswer t trext levels answer }
    ensures one { (t : Table) (chips : ℕ) → IsEven t chips → TellsBits t
        → (trext : Bool) (levels : List Bool)
        → (left right : Result (Unit {0}) LineRefusal) → IsStreamAnswer t trext levels left
        → IsStreamAnswer t trext levels right → left ≡ right }
    ensures bits { (t : Table) (chips : ℕ) → IsEven t chips → TellsBits t
        → (trext : Bool) (levels : List Bool)
        → (left right : List Bool) → IsStream t trext left levels → IsStream t trext right levels
        → left ≡ right }
{}

/// The levels for which a state of the decoder stands begin a stream. So a level that is not refused
/// is one with which some stream goes on, for each table.
pub fn states_begin_streams()
    ensures seeking { (t : Table) (trext : Bool) (state : SeekingValue) (levels : List Bool)
        → Seeks t trext state levels → Begins (Streams t trext) levels }
    ensures inside { (t : Table) (trext : Bool) (state : InsideValue) (levels bits : List Bool)
        → Reads t trext state levels bits → Begins (Streams t trext) levels }
{}
