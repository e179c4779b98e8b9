//! What holds of every run of operations.
ghost use Rattle.std.specs.Prelude.{◌≡◌, ◌≢◌, ◌+◌, ◌*◌, ◌^◌, ◌≤◌, ◌⊎◌, ◌↔◌, ℕ, Bool, true, false, List, ◌∷◌, length, Some, slice_get, nat_lt, bit_xor, if◌then◌else◌};
ghost use Rattle.std.specs.List.{AllByRecursion};
ghost use Rattle.command_grammar.specs.Commands.{IsLegalCommand, IsWord, spelling_of};
ghost use Rattle.command_grammar.specs.declared.commands.Command.{Command};
ghost use Rattle.reply_grammar.specs.declared.expected.Expect.{Expect};
ghost use Rattle.access_ops.specs.Operations.{AreMoves, Move, is_for, lower_half, next_operation, told, upper_half};
ghost use Rattle.access_ops.specs.laws.OperationLaws.{EndsRun, Expects, IsLegalOp, Serves, commands_in, commands_sent, results_in, results_told};
ghost use Rattle.access_ops.specs.declared.Op.{Op};
ghost use Rattle.access_ops.specs.declared.OpList.{OpList};
ghost use Rattle.access_ops.specs.declared.op_next.OpNext.TheVariants.{Send, Result, End};
ghost use Rattle.access_ops.specs.declared.op_next.OpResult.{OpResult};
ghost use Rattle.access_ops.specs.declared.op_next.OpResult.TheVariants.{Denied};

use command_grammar::spelling_laws;

/// The operations of a list have their results in order, one each at most, and each command serves the
/// one whose result comes next. Four commands are sent for an operation at most, and one for the handle:
/// 129 for 32 operations. Nothing follows Silent and Broken, and nothing else ends a run before each
/// operation has its result. A list for another tag has a denial for each operation, and sends nothing.
pub fn operation_laws()
    ensures commands { (list : OpList) (epc : List ℕ) (rn : ℕ) (moves : List Move)
        → AreMoves list epc rn moves
        → commands_sent list epc rn moves + commands_in (next_operation list epc rn moves)
        ≤ 4 * length list.ops + 1 }
    ensures results { (list : OpList) (epc : List ℕ) (rn : ℕ) (moves : List Move)
        → AreMoves list epc rn moves
        → results_told list epc rn moves + results_in (next_operation list epc rn moves)
        ≤ length list.ops }
    ensures serves { (list : OpList) (epc : List ℕ) (rn : ℕ) (moves : List Move) (command : Command)
        (expect : Expect) (extended : Bool) → AreMoves list epc rn moves
        → next_operation list epc rn moves ≡ Send command expect extended → (op : Op)
        × (slice_get list.ops (results_told list epc rn moves) ≡ Some op) × Serves command op }
    ensures last { (list : OpList) (epc : List ℕ) (rn : ℕ) (moves : List Move)
        (last_result : OpResult) → AreMoves list epc rn moves
        → next_operation list epc rn moves ≡ Result last_result → EndsRun last_result
        → next_operation list epc rn (told ∷ moves) ≡ End }
    ensures whole { (list : OpList) (epc : List ℕ) (rn : ℕ) (moves : List Move)
        (last_result : OpResult) → AreMoves list epc rn moves
        → next_operation list epc rn moves ≡ Result last_result
        → next_operation list epc rn (told ∷ moves) ≡ End
        → EndsRun last_result ⊎ (results_told list epc rn (told ∷ moves) ≡ length list.ops) }
    ensures end { (list : OpList) (epc : List ℕ) (rn : ℕ) (moves : List Move) (move : Move)
        → next_operation list epc rn moves ≡ End → next_operation list epc rn (move ∷ moves) ≡ End }
    ensures denied { (list : OpList) (epc : List ℕ) (rn : ℕ) (moves : List Move)
        → is_for list.only epc ≡ false → AreMoves list epc rn moves
        → next_operation list epc rn moves
        ≡ (if nat_lt (results_told list epc rn moves)
        (length list.ops) then Result Denied else End) }
    ensures only { (list : OpList) (epc : List ℕ) (rn : ℕ) (moves : List Move)
        → is_for list.only epc ≡ true → AreMoves list epc rn moves
        → next_operation list epc rn moves ≢ Result Denied }
    ensures named { (only epc : List ℕ) → (is_for (Some only) epc ≡ true) ↔ (only ≡ epc) }
{}

/// Each command of a run is legal, so that its bits are 4,162 at most, where the numbers of the operations
/// and the RN16 are in their ranges. What is expected in reply, and with which preamble, goes by the
/// command. A tag that takes the cover off again has what was to be written, and both halves of the
/// password, whole.
pub fn operation_commands()
    ensures legal { (list : OpList) (epc : List ℕ) (rn : ℕ) (moves : List Move) (command : Command)
        (expect : Expect) (extended : Bool) → AllByRecursion IsLegalOp list.ops → IsWord rn
        → AreMoves list epc rn moves
        → next_operation list epc rn moves ≡ Send command expect extended → IsLegalCommand command }
    ensures short { (list : OpList) (epc : List ℕ) (rn : ℕ) (moves : List Move) (command : Command)
        (expect : Expect) (extended : Bool) → AllByRecursion IsLegalOp list.ops → IsWord rn
        → AreMoves list epc rn moves
        → next_operation list epc rn moves ≡ Send command expect extended
        → length (spelling_of command) ≤ 4162 }
    ensures expects { (list : OpList) (epc : List ℕ) (rn : ℕ) (moves : List Move)
        (command : Command) (expect : Expect) (extended : Bool) → AreMoves list epc rn moves
        → next_operation list epc rn moves ≡ Send command expect extended
        → Expects command expect extended }
    ensures uncovered { (word cover : ℕ) → bit_xor (bit_xor word cover) cover ≡ word }
    ensures halves { (password : ℕ)
        → upper_half password * 2 ^ 16 + lower_half password ≡ password }
{
    spelling_laws();
}
