//! Tag and copies lines, written.
ghost use Rattle.std.specs.Prelude.{◌≡◌, ◌++◌, [], ◌∷◌, OnOk};
ghost use Rattle.std.specs.String.{string_bytes};
ghost use Rattle.text_fields.specs.Hexadecimal.{hex_words};
ghost use Rattle.text_fields.specs.Lines.{line_feed, line_with, space};
ghost use Rattle.scenario_lines.specs.Spelling.{line_text, tag_spec_fields};
ghost use Rattle.wire_text.specs.PasswordsAndLocks.{locks_text, password_text};
ghost use Rattle.scenario_lines.specs.declared.line.Line.TheVariants as lines;

use crate::TagSpec;
use bit_strings::OutOfMemory;
use lock_rules::Locks;
use tag_memory::BankImage;
use text_fields::{push_named_number, push_next_words};
use wire_text::{push_locks, push_next_password};

/// Writes the passwords and the locks.
fn next_secrets(text: &mut String, image: &BankImage, locks: &Locks) -> Result<(), OutOfMemory>
    ensures { OnOk result (string_bytes text.new ≡ string_bytes text.old
        ++ space ∷ line_with
        (password_text image.now.kill ∷ password_text image.now.access ∷ locks_text
        locks.now ∷ [])) }
{
    push_next_password(text, image.kill)?;
    push_next_password(text, image.access)?;
    text.push_str(" ")?;
    push_locks(text, locks)
}

/// Writes the words of the banks from PC on.
fn next_banks(text: &mut String, image: &BankImage) -> Result<(), OutOfMemory>
    ensures { OnOk result (string_bytes text.new ≡ string_bytes text.old
        ++ space ∷ line_with
        (hex_words image.now.epc ∷ hex_words image.now.tid ∷ hex_words image.now.user ∷ [])) }
{
    push_next_words(text, image.epc.as_slice())?;
    push_next_words(text, image.tid.as_slice())?;
    push_next_words(text, image.user.as_slice())
}

/// Writes the fields of a tag, and the end of the line.
fn end_with_tag(text: &mut String, tag: &TagSpec) -> Result<(), OutOfMemory>
    ensures { OnOk result (string_bytes text.new ≡ string_bytes text.old
        ++ space ∷ (line_with (tag_spec_fields tag.now) ++ line_feed ∷ [])) }
{
    next_secrets(text, &tag.image, &tag.locks)?;
    next_banks(text, &tag.image)?;
    push_next_words(text, tag.words.words())?;
    text.push('\n')
}

/// Writes `tag KILL ACCESS LOCKS EPC TID USER WORDS`.
pub fn push_tag(text: &mut String, tag: &TagSpec) -> Result<(), OutOfMemory>
    ensures { OnOk result (string_bytes text.new ≡ string_bytes text.old
        ++ (line_text (lines.Tag tag.now) ++ line_feed ∷ [])) }
{
    text.push_str("tag")?;
    end_with_tag(text, tag)
}

/// Writes `copies N KILL ACCESS LOCKS EPC TID USER WORDS`: so many tags, which are copies of this one.
pub fn push_copies(text: &mut String, count: u32, tag: &TagSpec) -> Result<(), OutOfMemory>
    ensures { OnOk result (string_bytes text.new ≡ string_bytes text.old
        ++ (line_text (lines.Copies count tag.now) ++ line_feed ∷ [])) }
{
    push_named_number(text, "copies", count)?;
    end_with_tag(text, tag)
}
