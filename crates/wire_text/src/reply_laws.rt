//! What holds of the texts of replies and of what is expected. Each function here states one law by its contract, and does
//! nothing.
ghost use Rattle.std.specs.Prelude.{◌≡◌, ℕ, List, All};
ghost use Rattle.text_fields.specs.Lines.{IsFieldText, fields_of};
ghost use Rattle.text_fields.specs.declared.fields_fault.FieldsFault.{FieldsFault};
ghost use Rattle.reply_grammar.specs.declared.expected.Expect.{Expect};
ghost use Rattle.reply_grammar.specs.declared.expected.Reply.{Reply};
ghost use Rattle.wire_text.specs.ReplyText.{IsExpect, IsFaultyReply, IsReplyText, expect_word, reply_fields, reply_line};

/// Each spelling of an expectation may stand as a field.
#[tactic(auto, using(crate::proofs::ExpectationFieldTexts::expect_word_is_field_text))]
pub fn expectations_are_field_texts()
    ensures { (expect : Expect) → IsExpect expect → IsFieldText (expect_word expect) }
{}

/// Two expectations are not spelled alike.
pub fn expectations_are_told_apart()
    ensures { (one other : Expect) → IsExpect one → IsExpect other
        → expect_word one ≡ expect_word other → one ≡ other }
{}

/// Fields spell at most one reply.
pub fn replies_are_told_apart()
    ensures { (fields : List (List ℕ)) (one other : Reply) → IsReplyText fields one
        → IsReplyText fields other → one ≡ other }
{}

/// Each field of a reply may stand as a field.
pub fn replies_are_field_texts()
    ensures { (reply : Reply) → All IsFieldText (reply_fields reply) }
{}

/// The fields of a reply's line are those of the reply.
pub fn reply_lines_come_back()
    ensures { (reply : Reply) → fields_of (reply_line reply) ≡ reply_fields reply }
{}

/// Fields that spell a reply are not faulty.
pub fn spelled_replies_are_not_faulty()
    ensures { (fields : List (List ℕ)) (reply : Reply) (fault : FieldsFault)
        → IsReplyText fields reply → IsFaultyReply fields fault → ⊥ }
{}

/// Fields are faulty as those of a reply for at most one reason.
pub fn replies_have_one_fault()
    ensures { (fields : List (List ℕ)) (one other : FieldsFault) → IsFaultyReply fields one
        → IsFaultyReply fields other → one ≡ other }
{}
