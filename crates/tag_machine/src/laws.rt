//! The laws of what a tag draws, answers and becomes.
ghost use Rattle.std.specs.Prelude.{◌≡◌, ◌≢◌, ◌+◌, ◌%◌, ◌<◌, ◌≤◌, ℕ, Some, None, true, false, length, slice_index};
ghost use Rattle.std.specs.Option.{IsSomeAnd};
ghost use Rattle.air_events.specs.declared.Event.{Event};
ghost use Rattle.command_fields.specs.declared.choices.UpDn.{UpDn};
ghost use Rattle.command_grammar.specs.declared.commands.Command.{Command};
ghost use Rattle.command_grammar.specs.declared.commands.Command.TheVariants as commands;
ghost use Rattle.command_grammar.specs.Commands.{IsLegalCommand};
ghost use Rattle.reply_grammar.specs.declared.expected.Expect.{Expect};
ghost use Rattle.reply_grammar.specs.Replies.{AnswersExpected, Carries, Suits};
ghost use Rattle.tag_machine.specs.TagValue.{StateValue, ArbitrateState, BodyValue, IsLegalTag, is_present};
ghost use Rattle.tag_machine.specs.Answers.{Sent, IsSent, bits_sent, silent};
ghost use Rattle.tag_machine.specs.Draws.{draw_of, body_after_draws};
ghost use Rattle.tag_machine.specs.laws.DrawCounts.{draws_in};
ghost use Rattle.tag_machine.specs.Events.{tag_after_event};
ghost use Rattle.tag_machine.specs.laws.Extended.{is_extended};
ghost use Rattle.tag_machine.specs.Inventory.{slot_below};
ghost use Rattle.tag_machine.specs.laws.AnswersByCommand.{IsAnswerTo, expect_of};
ghost use Rattle.tag_machine.specs.Slots.{session_of, slot_of, is_beyond_arbitrate};
ghost use Rattle.tag_machine.specs.Step.{step};

/// A tag draws its words one after another, and then again: the draw with the number n, counted from 0, is the word n places
/// behind the tag's place, modulo the number of words, and a draw changes the place alone. When it hears a command, a legal
/// tag is as many draws further as the command lets it make, and keeps its words.
pub fn draw_laws()
    ensures word { (draws : ℕ) (body : BodyValue) → body.next_draw < length body.words
        → draw_of (body_after_draws draws body)
        ≡ slice_index body.words ((body.next_draw + draws) % length body.words) }
    ensures after { (draws : ℕ) (body : BodyValue) → body.next_draw < length body.words
        → body_after_draws draws body
        ≡ record body { next_draw = (body.next_draw + draws) % length body.words } }
    ensures place { (command : Command) (state : StateValue) (body : BodyValue)
        → (step command state body).tag.body.next_draw
        ≡ (body_after_draws (draws_in command state body) body).next_draw }
    ensures words { (command : Command) (state : StateValue) (body : BodyValue)
        → (step command state body).tag.body.words ≡ body.words }
{}

/// What a legal tag sends is the reply to the command that it heard, with the preamble of that reply, it is legal, and its bits
/// answer what the interrogator expects of that command.
pub fn answers_are_replies()
    ensures reply { (command : Command) (state : StateValue) (body : BodyValue) (sent : Sent)
        → IsLegalTag (record { state = state; body = body })
        → (step command state body).answer ≡ Some sent → IsAnswerTo command state body sent }
    ensures legal { (command : Command) (state : StateValue) (body : BodyValue) (sent : Sent)
        → IsLegalTag (record { state = state; body = body })
        → (step command state body).answer ≡ Some sent → IsSent (Some sent) }
    ensures preamble { (command : Command) (state : StateValue) (body : BodyValue) (sent : Sent)
        → (step command state body).answer ≡ Some sent → sent.extended ≡ is_extended command state }
    ensures expected { (command : Command) (state : StateValue) (body : BodyValue) (sent : Sent)
        → IsLegalTag (record { state = state; body = body })
        → (step command state body).answer ≡ Some sent
        → IsSomeAnd (expect_of command state)
        (λ expect. Carries expect sent.handle
        × AnswersExpected sent.reply expect (bits_sent (Some sent))) }
{}

/// Whatever is sent and legal answers some expectation, and its bits answer each one that suits the reply and names the handle
/// in it, where it names one.
pub fn answers_are_expected()
    ensures some { (sent : Sent) → IsSent (Some sent) → (expect : Expect)
        × AnswersExpected sent.reply expect (bits_sent (Some sent)) }
    ensures each { (sent : Sent) (expect : Expect) → IsSent (Some sent) → Suits sent.reply expect
        → Carries expect sent.handle → AnswersExpected sent.reply expect (bits_sent (Some sent)) }
{}

/// A QueryRep counts a tag of its session in arbitrate down, and changes nothing else in it until its slot comes. Only a tag of
/// its session whose counter was 1 answers it. Each tag outside the session stays as it is and is silent, at a QueryAdjust too.
pub fn query_rep_laws()
    ensures waits { (session q slot : ℕ) (body : BodyValue) → slot ≢ 1
        → step (commands.QueryRep session) (ArbitrateState session q slot) body
        ≡ silent (ArbitrateState session q (slot_below slot)) body }
    ensures in_slot { (session : ℕ) (state : StateValue) (body : BodyValue) (sent : Sent)
        → (step (commands.QueryRep session) state body).answer ≡ Some sent
        → (session_of state ≡ Some session) × (slot_of state ≡ Some 1) }
    ensures beyond { (session : ℕ) (state : StateValue) (body : BodyValue)
        → is_beyond_arbitrate state ≡ true
        → (step (commands.QueryRep session) state body).answer ≡ None }
    ensures other_rep { (session : ℕ) (state : StateValue) (body : BodyValue)
        → session_of state ≢ Some session
        → step (commands.QueryRep session) state body ≡ silent state body }
    ensures other_adjust { (session : ℕ) (updn : UpDn) (state : StateValue) (body : BodyValue)
        → session_of state ≢ Some session
        → step (commands.QueryAdjust session updn) state body ≡ silent state body }
{}

/// A killed tag and one without power stay as they are and are silent, whatever the command.
pub fn absent_tags_stay()
    ensures { (command : Command) (state : StateValue) (body : BodyValue) → is_present state ≡ false
        → step command state body ≡ silent state body }
{}

/// A legal tag that hears a command with its numbers in their ranges, or that an event befalls, is legal after it.
pub fn steps_keep_tags_legal()
    ensures heard { (command : Command) (state : StateValue) (body : BodyValue)
        → IsLegalCommand command → IsLegalTag (record { state = state; body = body })
        → IsLegalTag (step command state body).tag }
    ensures befallen { (event : Event) (state : StateValue) (body : BodyValue)
        → IsLegalTag (record { state = state; body = body })
        → IsLegalTag (tag_after_event event state body) }
{}
