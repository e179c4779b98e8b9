//! The laws of the objects of lines.
ghost use Rattle.std.specs.Prelude.{◌≡◌, ◌≢◌, ◌<◌, ◌^◌, ℕ, List, Option, Some, codes};
ghost use Rattle.std.specs.Fmt.{decimal};
ghost use Rattle.std.specs.Str.{IsUtf8};
ghost use Rattle.serde_json.specs.Data.{string};
ghost use Rattle.line_objects.specs.Objects.{AreObjectsOf};
ghost use Rattle.line_objects.specs.Values.{AreUris, number_in, text_value};
ghost use Rattle.line_objects.specs.declared.line_members.LineSet.{LineSet};

use epc_sgtin::sgtin_laws;

/// Each field has a URI or has none.
pub(crate) fn fields_have_uris()
    ensures { (uris : List ℕ → Option (List ℕ)) × AreUris uris }
{
    sgtin_laws();
}

/// Each text has its objects, and they are one text.
pub fn texts_have_objects()
    ensures some { (set : LineSet) (plain : List ℕ) → (text : List ℕ)
        × AreObjectsOf set plain text }
    ensures one { (set : LineSet) (plain one other : List ℕ) → AreObjectsOf set plain one
        → AreObjectsOf set plain other → one ≡ other }
{
    sgtin_laws();
}

/// A field that spells a number of 64 bits is told as this number, and any other text but a hyphen as this text.
pub fn fields_are_told()
    ensures numbers { (number : ℕ) → number < 2 ^ 64 → number_in (decimal number) ≡ Some number }
    ensures texts { (text : List ℕ) → IsUtf8 text → text ≢ codes "-"
        → text_value text ≡ string text }
{}
