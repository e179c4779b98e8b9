//! What holds of everything that is received.
ghost use Rattle.std.specs.Prelude.{◌≡◌, ◌^◌, ◌<◌, ℕ, List, Bool, length};
ghost use Rattle.bit_strings.specs.declared.code.Code.{Code};
ghost use Rattle.line_code.specs.Stream.{IsStream};
ghost use Rattle.reply_wire.specs.Codes.{table_of};
ghost use Rattle.reply_grammar.specs.Replies.{AnswersExpected, Carries, IsReply, Suits, spelling};
ghost use Rattle.reply_grammar.specs.declared.expected.Expect.{Expect};
ghost use Rattle.reply_grammar.specs.declared.expected.Expect.TheVariants.{Rn16 as OneRn16, Epc as OneEpc, Handle as OneHandle, Same};
ghost use Rattle.reply_grammar.specs.declared.expected.Reply.{Reply};
ghost use Rattle.reply_grammar.specs.declared.expected.Reply.TheVariants.{Rn16, Epc, Handle};
ghost use Rattle.reply_grammar.specs.declared.expected.Received.{Received};
ghost use Rattle.reply_grammar.specs.declared.expected.Received.TheVariants.{Whole, Refused};
ghost use Rattle.reply_wire.specs.Received.{IsReceived};
ghost use Rattle.reply_wire.specs.Receiving.{received_of};

/// What is received is one: in each code and for each expectation, levels have exactly one answer, which is
/// a function of them.
pub fn one_received()
    ensures one { (code : Code) (trext : Bool) (expect : Expect) (levels : List Bool)
        (left right : Received)
        → IsReceived (table_of code) trext expect levels left
        → IsReceived (table_of code) trext expect levels right → left ≡ right }
    ensures some { (code : Code) (trext : Bool) (expect : Expect) (levels : List Bool)
        → (answer : Received) × IsReceived (table_of code) trext expect levels answer }
    ensures function { (code : Code) (trext : Bool) (expect : Expect) (levels : List Bool)
        (received : Received)
        → IsReceived (table_of code) trext expect levels received
        → received_of code trext expect levels ≡ received }
{}

/// How the stream of a reply is received: whole, where the reply suits what is expected and carries the
/// handle that is expected; refused behind its last level, where its bits are no reply that is
/// expected.
pub fn reply_received()
    ensures whole { (code : Code) (trext : Bool) (expect : Expect) (reply : Reply) (handle : ℕ)
        (levels : List Bool)
        → IsStream (table_of code) trext (spelling reply handle) levels → IsReply reply
        → handle < 2 ^ 16 → Suits reply expect → Carries expect handle
        → IsReceived (table_of code) trext expect levels (Whole reply) }
    ensures unexpected { (code : Code) (trext : Bool) (expect : Expect) (bits levels : List Bool)
        → IsStream (table_of code) trext bits levels
        → ((reply : Reply) → ¬ AnswersExpected reply expect bits)
        → IsReceived (table_of code) trext expect levels (Refused (length levels)) }
{}

/// An RN16, an EPC and a handle are received whole where each is expected.
pub fn kinds_received()
    ensures rn16 { (code : Code) (trext : Bool) (rn handle : ℕ) (levels : List Bool)
        → IsStream (table_of code) trext (spelling (Rn16 rn) handle) levels → IsReply (Rn16 rn)
        → handle < 2 ^ 16
        → IsReceived (table_of code) trext OneRn16 levels (Whole (Rn16 rn)) }
    ensures epc { (code : Code) (trext : Bool) (pc : ℕ) (epc : List ℕ) (handle : ℕ)
        (levels : List Bool)
        → IsStream (table_of code) trext (spelling (Epc pc epc) handle) levels
        → IsReply (Epc pc epc) → handle < 2 ^ 16
        → IsReceived (table_of code) trext OneEpc levels (Whole (Epc pc epc)) }
    ensures new_handle { (code : Code) (trext : Bool) (rn handle : ℕ) (levels : List Bool)
        → IsStream (table_of code) trext (spelling (Handle rn) handle) levels → IsReply (Handle rn)
        → handle < 2 ^ 16
        → IsReceived (table_of code) trext OneHandle levels (Whole (Handle rn)) }
    ensures same_handle { (code : Code) (trext : Bool) (handle : ℕ) (levels : List Bool)
        → IsStream (table_of code) trext (spelling (Handle handle) handle) levels → handle < 2 ^ 16
        → IsReceived (table_of code) trext (Same handle) levels (Whole (Handle handle)) }
{}
