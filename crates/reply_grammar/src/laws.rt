//! The law of replies.
ghost use Rattle.std.specs.Prelude.{◌≡◌, ℕ, ◌≤◌, ◌⊎◌, ◌↔◌, List, Bool, true, length};
ghost use Rattle.reply_grammar.specs.Replies.{AnswersExpected, FitsBank, IsReply, Suits, longest_reply, spelling, suits};
ghost use Rattle.reply_grammar.specs.Refusals.{RefusesReply};
ghost use Rattle.reply_grammar.specs.declared.expected.Expect.{Expect};
ghost use Rattle.reply_grammar.specs.declared.expected.Reply.{Reply};
ghost use Rattle.reply_grammar.specs.declared.expected.ReplyRefusal.{ReplyRefusal};

/// For each expectation and each list of bits there is exactly one of the two: a reply that the bits
/// are, or a refusal that is the first to apply.
pub fn reply_laws()
    ensures some { (expect : Expect) (bits : List Bool)
        → ((reply : Reply) × AnswersExpected reply expect bits)
        ⊎ ((refusal : ReplyRefusal) × RefusesReply refusal expect bits) }
    ensures apart { (expect : Expect) (bits : List Bool) (reply : Reply) (refusal : ReplyRefusal)
        → AnswersExpected reply expect bits → RefusesReply refusal expect bits → ⊥ }
    ensures one_reply { (expect : Expect) (bits : List Bool) (r s : Reply)
        → AnswersExpected r expect bits → AnswersExpected s expect bits → r ≡ s }
    ensures one_refusal { (expect : Expect) (bits : List Bool) (f g : ReplyRefusal)
        → RefusesReply f expect bits → RefusesReply g expect bits → f ≡ g }
{}

/// A reply has from 16 to 8,225 bits: those of an RN16, and those of a Read of 512 words.
pub fn reply_length()
    ensures least { (reply : Reply) (handle : ℕ) → IsReply reply → FitsBank reply
        → 16 ≤ length (spelling reply handle) }
    ensures most { (reply : Reply) (handle : ℕ) → IsReply reply → FitsBank reply
        → length (spelling reply handle) ≤ longest_reply }
{}

/// What decides whether a reply suits what is expected.
pub fn suiting_law()
    ensures { (reply : Reply) (expect : Expect) → (suits reply expect ≡ true) ↔ Suits reply expect }
{}
