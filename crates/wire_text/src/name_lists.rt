//! Values that have names in the texts, and the value of a name.
ghost use Rattle.std.specs.Prelude.{◌≡◌, ℕ, List, IfSome, Some};
ghost use Rattle.wire_text.specs.NameLists.{EachFound};

/// A type of few values, each of which has a name of its own in the texts.
pub trait Named: Copy + 'static {
    /// The name of a value, as bytes.
    ghost word: { Self → List ℕ };

    /// All the values, in the order in which they are looked through.
    ghost values: { List Self };

    /// All values of this kind that have a name in the texts, in the order in which they are looked through.
    fn all() -> &'static [Self]
        ensures { result.now ≡ values };

    /// The name of the value.
    fn name(self) -> &'static str
        ensures { result.now ≡ word self };

    /// Each value is the first of these that has its name.
    ghost finds: { EachFound word values };
}

/// The value of this name; none exactly where no value has it.
pub fn value_named<T: Named>(name: &[u8]) -> Option<T>
    ensures value { IfSome result (λ value. name.now ≡ T.word value) }
    ensures only { (value : T) → name.now ≡ T.word value → result ≡ Some value }
{
    let mut rest = T::all();
    while let [value, behind @ ..] = rest {
        if value.name().as_bytes() == name {
            return Some(*value);
        }
        rest = behind;
    }
    None
}
