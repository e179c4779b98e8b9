//! What is received of what the channel gives.
ghost use Rattle.std.specs.Prelude.{◌≡◌, ◌≢◌, ◌↔◌, ◌≤◌, ◌||◌, ℕ, Bool, false, [], length};
ghost use Rattle.reply_wire.specs.Codes.{table_of};
ghost use Rattle.pie_line.specs.Link.{LinkValue};
ghost use Rattle.reply_grammar.specs.declared.expected.Expect.{Expect};
ghost use Rattle.reply_grammar.specs.declared.expected.Reply.{Reply};
ghost use Rattle.reply_grammar.specs.declared.expected.Received.{Received};
ghost use Rattle.reply_grammar.specs.declared.expected.Received.TheVariants.{Whole, Refused};
ghost use Rattle.air_events.specs.Streams.{longest_stream};
ghost use Rattle.air_model.specs.Channel.{Given, silence, whole, broken, heard_levels, got_of, IsOfStreamLength, IsReadBy};
ghost use Rattle.tag_machine.specs.TagsInExchange.{Replied};
ghost use Rattle.reply_wire.specs.Received.{IsReceived};
ghost use Rattle.air_model.specs.Reception.{HoldsOfSent, IsGiven, IsGivenFor, IsReplyFor, IsUnmistakable, reception_of, reception_with};
ghost use Rattle.reply_grammar.specs.Reception.{no_stream, whole_reply, reception_from};
ghost use Rattle.air_model.specs.declared.got.Got.TheVariants.{Silence};

/// What the interrogator makes of the levels that the channel gives it, where it expects what the tags
/// send in answer to its command: a reply that is given whole is received whole, and a broken one is
/// refused. So what is received is a function of the reply that was sent, or of the levels of a raw stream,
/// and what is taken for a whole reply is one by the levels that are heard.
/// Where a reply is awaited with the extended preamble, or by the link's TRext, one with the other preamble
/// is refused too, and so is one that is not expected, if its bits are no reply that is. Levels are heard
/// unless the channel is silent, and no more than the 131,968 of the longest stream.
pub fn reception_law()
    ensures whole { (link : LinkValue) (expect : Expect) (replied : Replied)
        → IsReplyFor expect replied.sent
        → IsReceived (table_of link.code) link.trext expect (heard_levels link (whole replied))
        (Whole replied.sent.reply) }
    ensures broken { (link : LinkValue) (expect : Expect) (replied : Replied) (place : ℕ)
        (received : Received) → replied.sent.extended ≡ false
        → IsReceived (table_of link.code) link.trext expect
        (heard_levels link (broken replied place)) received → (stop : ℕ)
        × (received ≡ Refused stop) }
    ensures stream { (link : LinkValue) (expect : Expect) (given : Given) (received : Received)
        → IsGivenFor expect given → IsReadBy link given → got_of link given ≢ Silence
        → IsReceived (table_of link.code) link.trext expect (heard_levels link given) received
        → reception_of expect given ≡ reception_from received }
    ensures silent { (link : LinkValue) (expect : Expect) (given : Given)
        → got_of link given ≡ Silence → reception_of expect given ≡ no_stream }
    ensures heard { (link : LinkValue) (expect : Expect) (given : Given) (reply : Reply)
        → IsGivenFor expect given → IsReadBy link given
        → reception_of expect given ≡ whole_reply reply
        → IsReceived (table_of link.code) link.trext expect (heard_levels link given)
        (Whole reply) }
    ensures with { (link : LinkValue) (extended : Bool) (expect : Expect) (given : Given)
        (received : Received) → HoldsOfSent (IsUnmistakable expect) given → IsReadBy link given
        → got_of link given ≢ Silence
        → IsReceived (table_of link.code) (extended || link.trext) expect
        (heard_levels link given) received
        → reception_with link.trext extended expect given ≡ reception_from received }
    ensures silent_with { (link : LinkValue) (trext extended : Bool) (expect : Expect)
        (given : Given) → got_of link given ≡ Silence
        → reception_with trext extended expect given ≡ no_stream }
    ensures by_link { (trext : Bool) (expect : Expect) (given : Given)
        → HoldsOfSent (λ sent. sent.extended ≡ false) given
        → reception_with trext false expect given ≡ reception_of expect given }
    ensures nothing { (link : LinkValue) (given : Given) → IsOfStreamLength given
        → (heard_levels link given ≡ []) ↔ (given ≡ silence) }
    ensures least { (link : LinkValue) (given : Given) → IsOfStreamLength given → given ≢ silence
        → 1 ≤ length (heard_levels link given) }
    ensures most { (link : LinkValue) (given : Given) → IsGiven given → IsOfStreamLength given
        → length (heard_levels link given) ≤ longest_stream }
{}
