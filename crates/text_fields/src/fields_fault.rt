//! Why the fields of a line spell nothing.

/// Why fields, of which the first names what they are, spell nothing: the first of these that applies.
#[derive(Clone, Copy, Debug, PartialEq, Eq)]
pub enum FieldsFault {
    /// The first field is there and is none of the names, also where it is empty.
    Word,
    /// The first field is missing, the number of fields is wrong, or a field is empty.
    Shape,
    /// A field isn't of its form or in its range.
    Number,
}
