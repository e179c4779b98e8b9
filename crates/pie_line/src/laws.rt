//! Laws of frames, over all lists of intervals.
ghost use Rattle.std.specs.Prelude.{◌≡◌, ◌≤◌, ◌↔◌, ℕ, Bool, List, All, IsOk};
ghost use Rattle.bit_strings.specs.Family.{Begins};
ghost use Rattle.pie_line.specs.declared.frame.FrameKind.{FrameKind};
ghost use Rattle.pie_line.specs.declared.frame.Lead.{Lead};
ghost use Rattle.pie_line.specs.Edges.{EdgesValue, EdgesStandFor};
ghost use Rattle.pie_line.specs.Link.{LinkValue, IsLegalLink};
ghost use Rattle.pie_line.specs.Pie.{Frames, IsFrame, wave_of, frame_kind_of, longest_interval};
ghost use Rattle.pie_line.specs.FrameAnswer.{HasOneAnswer};

/// Each list of intervals is exactly one of three: a frame, a list that begins no frame from one place
/// on, or the front of a frame that is none itself. A frame has one kind and one list of bits.
pub fn one_answer()
    ensures one { (intervals : List ℕ) → HasOneAnswer intervals }
    ensures frame { (kind other : FrameKind) (bits others : List Bool) (intervals : List ℕ) →
        IsFrame kind bits intervals → IsFrame other others intervals → (kind ≡ other)
        × (bits ≡ others) }
{}

/// What is written over any link is a frame of the link's durations and of the bits, and none of its
/// intervals is too long to be read.
pub fn written_frame()
    ensures frame { (link : LinkValue) (lead : Lead) (bits : List Bool) → IsLegalLink link →
        IsFrame (frame_kind_of link lead) bits (wave_of link lead bits) }
    ensures each { (link : LinkValue) (lead : Lead) (bits : List Bool) → IsLegalLink link →
        All (λ interval. interval ≤ longest_interval) (wave_of link lead bits) }
{}

/// A decoder that takes one interval at a time still stands exactly where the intervals that it was given
/// begin a frame. So it refuses at the interval with which they begin none, and not before.
pub fn standing_decoders_begin_frames()
    ensures { (edges : EdgesValue) (bits : List Bool) (intervals : List ℕ)
        → EdgesStandFor edges bits intervals →
        (IsOk edges.standing ↔ Begins Frames intervals) }
{}
