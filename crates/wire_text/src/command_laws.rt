//! What holds of the texts of commands themselves. Each function here states one law by its contract, and does
//! nothing.
ghost use Rattle.std.specs.Prelude.{◌≡◌, ℕ, List, All};
ghost use Rattle.text_fields.specs.Lines.{IsFieldText, fields_of};
ghost use Rattle.text_fields.specs.declared.fields_fault.FieldsFault.{FieldsFault};
ghost use Rattle.command_grammar.specs.Commands.{IsLegalCommand};
ghost use Rattle.command_grammar.specs.declared.commands.Command.{Command};
ghost use Rattle.wire_text.specs.CommandText.{IsCommandText, IsFaultyCommand, command_fields, command_line};

/// Fields spell at most one command.
pub fn commands_are_told_apart()
    ensures { (fields : List (List ℕ)) (one other : Command) → IsCommandText fields one
        → IsCommandText fields other → one ≡ other }
{}

/// Each field of a command may stand as a field.
pub fn commands_are_field_texts()
    ensures { (command : Command) → IsLegalCommand command
        → All IsFieldText (command_fields command) }
{}

/// The fields of a command's line are those of the command.
pub fn command_lines_come_back()
    ensures { (command : Command) → IsLegalCommand command
        → fields_of (command_line command) ≡ command_fields command }
{}

/// Fields that spell a command are not faulty.
pub fn spelled_commands_are_not_faulty()
    ensures { (fields : List (List ℕ)) (command : Command) (fault : FieldsFault)
        → IsCommandText fields command → IsFaultyCommand fields fault → ⊥ }
{}

/// Fields are faulty as those of a command for at most one reason.
pub fn commands_have_one_fault()
    ensures { (fields : List (List ℕ)) (one other : FieldsFault) → IsFaultyCommand fields one
        → IsFaultyCommand fields other → one ≡ other }
{}
