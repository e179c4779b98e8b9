//! Laws of rounds, over all parameters within their ranges and all outcomes that a round has.
ghost use Rattle.std.specs.Prelude.{◌≡◌, ℕ, ◌+◌, ◌^◌, ◌<◌, ◌≤◌, true, false, List, [], ◌∷◌, ◌++◌, length};
ghost use Rattle.command_grammar.specs.declared.commands.Command.TheVariants.{Query, QueryRep};
ghost use Rattle.pie_line.specs.Link.{LinkValue};
ghost use Rattle.q_round.specs.declared.frame.Outcome.{Outcome};
ghost use Rattle.q_round.specs.declared.round.Next.TheVariants.{Send, Quiet};
ghost use Rattle.q_round.specs.SpecValue.{SpecValue, IsLegalSpec};
ghost use Rattle.q_round.specs.Rounds.{AreOutcomes, is_over, slots_of, next_command, q_of, frame_of};
ghost use Rattle.q_round.specs.laws.RoundFacts.{RoundFacts};
ghost use Rattle.q_round.specs.laws.RoundLaws.{MovesQ, IsSilentFrame, IsLegalNext, IsEnd, SendsSlotCommand};

/// No round gives more slot commands than its limit. Q is from 0 to 15; each QueryAdjust moves it by
/// what it says, and nothing else does. The round ends quiet only after a whole frame of silent slots,
/// and a QueryRep comes only where the frame has slots left. The frame is the last of the outcomes.
/// Each command is within its fields.
///
/// A round begins with its Query. Where it goes on, a slot command of its session comes next, and it has
/// given one more of them than it was given outcomes; where it is over, an end comes next, and each slot
/// command had its outcome.
pub fn round_laws()
    ensures limit { (spec : SpecValue) (outcomes : List Outcome) → IsLegalSpec spec
        → AreOutcomes spec outcomes →
        slots_of spec outcomes ≤ spec.limit }
    ensures range { (spec : SpecValue) (outcomes : List Outcome) → IsLegalSpec spec
        → AreOutcomes spec outcomes →
        q_of spec outcomes ≤ 15 }
    ensures moves { (spec : SpecValue) (link : LinkValue) (outcome : Outcome)
        (before : List Outcome) → IsLegalSpec spec → AreOutcomes spec (outcome ∷ before) →
        MovesQ (next_command spec link (outcome ∷ before)) (q_of spec before)
        (q_of spec (outcome ∷ before)) }
    ensures quiet { (spec : SpecValue) (link : LinkValue) (outcome : Outcome)
        (before : List Outcome) → IsLegalSpec spec → AreOutcomes spec (outcome ∷ before) →
        next_command spec link (outcome ∷ before) ≡ Quiet
        → IsSilentFrame (q_of spec before) (outcome ∷ frame_of spec before) }
    ensures rep { (spec : SpecValue) (link : LinkValue) (session : ℕ) (outcomes : List Outcome)
        → IsLegalSpec spec → AreOutcomes spec outcomes →
        next_command spec link outcomes ≡ Send (QueryRep session)
        → length (frame_of spec outcomes) < 2 ^ q_of spec outcomes }
    ensures frame { (spec : SpecValue) (outcomes : List Outcome) →
        (earlier : List Outcome) × (outcomes ≡ frame_of spec outcomes ++ earlier) }
    ensures legal { (spec : SpecValue) (link : LinkValue) (outcomes : List Outcome)
        → IsLegalSpec spec →
        IsLegalNext (next_command spec link outcomes) }
    ensures begins { (spec : SpecValue) (link : LinkValue) →
        next_command spec link []
        ≡ Send (Query link.dr link.code link.trext spec.sel spec.session spec.target spec.q) }
    ensures underway { (spec : SpecValue) (outcomes : List Outcome) → AreOutcomes spec outcomes
        → is_over spec outcomes ≡ false →
        slots_of spec outcomes ≡ length outcomes + 1 }
    ensures over { (spec : SpecValue) (outcomes : List Outcome) → AreOutcomes spec outcomes
        → is_over spec outcomes ≡ true →
        slots_of spec outcomes ≡ length outcomes }
    ensures next_slot { (spec : SpecValue) (link : LinkValue) (outcomes : List Outcome)
        → is_over spec outcomes ≡ false →
        SendsSlotCommand spec.session (next_command spec link outcomes) }
    ensures next_end { (spec : SpecValue) (link : LinkValue) (outcomes : List Outcome)
        → is_over spec outcomes ≡ true →
        IsEnd (next_command spec link outcomes) }
{}

/// What an inventory goes by of a round: it begins with its Query and an empty frame; a QueryRep comes only where the frame has
/// fewer than 2 ^ Q slots; a QueryAdjust begins a frame, moves Q by what it says, and nothing else moves Q, which is from 0 to 15;
/// no Query comes behind an outcome; and the round ends quiet only behind a frame of 2 ^ Q silent slots.
pub fn round_facts()
    ensures { (spec : SpecValue) (link : LinkValue) → IsLegalSpec spec → RoundFacts spec link }
{}
