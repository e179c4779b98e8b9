//! A list of numbers that the fields of a line spell.
ghost use Rattle.std.specs.Prelude.{◌≡◌, ◌≢◌, ◌≤◌, ◌↔◌, ℕ, List, [], length, map, All, IfErr, IsOk, IsTrue, OnErr};
ghost use Rattle.text_fields.specs.Lines.{fields_of};
ghost use Rattle.pie_text.specs.NumberLists.{AreFewFilled, RefusesNumbers, SpellsNumbers};
ghost use Rattle.pie_text.specs.Spelling.{IsNumberUpTo, decimal_value};

use crate::leading::{behind_field, leading_number};
use pie_line::Intervals;
use std::marker::Model;
use text_fields::Fields;
use thiserror::Error;

/// Why fields are no list of numbers, in the order in which the reasons are looked for.
#[derive(Clone, Copy, Debug, PartialEq, Eq, Error)]
pub enum NotNumbers {
    /// The number of fields is wrong, or a field is empty.
    #[error("the number of fields is wrong, or a field is empty")]
    Shape,
    /// A field is no number, or the number is too great.
    #[error("a field is no number, or the number is too great")]
    Number,
}

/// Numbers that were read into a list, as one value. A contract sees it as the list of these numbers.
#[derive(Drop)]
pub struct Numbers<'a> {
    list: &'a Intervals,
}

impl<'a> Model for Numbers<'a> {
    ghost use Rattle.std.specs.Prelude.{List, ℕ};

    ghost Value = { List ℕ };

    ghost view = { λ a. a.list.now.items };
}

impl<'a> Numbers<'a> {
    /// The numbers of a list.
    pub fn new(list: &'a Intervals) -> Numbers<'a>
        ensures { result ≡ list.now.items }
    {
        Numbers { list }
    }

    /// The list that has the numbers.
    pub fn list(&self) -> &Intervals
        ensures { result.now.items ≡ self.now }
    {
        self.list
    }
}

/// How many fields a line of numbers has.
fn field_count(line: &[u8]) -> usize
    ensures { result ≡ length (fields_of line.now) }
{
    Fields::new(line).count()
}

/// Whether a field that is to spell a number is not empty.
fn is_filled(field: &[u8]) -> bool
    ensures { IsTrue result ↔ (field.now ≢ []) }
{
    !field.is_empty()
}

/// Whether no field of a line is empty.
fn are_filled(line: &[u8]) -> bool
    ensures { IsTrue result ↔ All (λ field. field ≢ []) (fields_of line.now) }
{
    Fields::new(line).all(|field| is_filled(field))
}

/// Whether a line has from 1 to `most_items` fields, and none is empty.
fn has_shape(line: &[u8], most_items: u32) -> bool
    ensures { IsTrue result ↔ AreFewFilled most_items (fields_of line.now) }
{
    let count = field_count(line);
    1 <= count && count <= most_items as usize && are_filled(line)
}

/// Why fields of a line that are no numbers are no list of numbers, where at most `most_items` numbers may stand there.
fn reason_of(line: &[u8], most_items: u32) -> NotNumbers
    ensures shape { result ≡ NotNumbers.Shape → ¬ AreFewFilled most_items (fields_of line.now) }
    ensures number { result ≡ NotNumbers.Number → AreFewFilled most_items (fields_of line.now) }
{
    if has_shape(line, most_items) {
        NotNumbers::Number
    } else {
        NotNumbers::Shape
    }
}

/// Adds the numbers that the fields of a line spell to an empty list, from 1 to `most_items` numbers, none of them greater
/// than `most`. At the first field for which there is no room or which spells no such number, what is left of the line
/// tells why.
fn push_numbers(
    line: &[u8],
    most_items: u32,
    most: u32,
    out: &mut Intervals,
) -> Result<(), NotNumbers>
    requires empty { out.old.items ≡ [] }
    requires room { most_items ≤ out.old.capacity }
    ensures all { IsOk result
        ↔ ((length (fields_of line.now) ≤ most_items)
        × All (IsNumberUpTo most) (fields_of line.now)) }
    ensures values { IsOk result → out.new.items ≡ map decimal_value (fields_of line.now) }
    ensures refused { IfErr result
        (λ reason. RefusesNumbers reason most_items most (fields_of line.now)) }
    ensures capacity { out.new.capacity ≡ out.old.capacity }
{
    let mut rest = Some(line);
    while let Some(text) = rest {
        if out.len() == most_items {
            return Err(NotNumbers::Shape);
        }
        let Some((number, end)) = leading_number(text, most) else {
            return Err(reason_of(text, most_items - out.len()));
        };
        out.push_reserved(number);
        rest = behind_field(text, end);
    }
    Ok(())
}

/// Reads the numbers that all the fields that are left spell, from 1 to `most_items` numbers, none of them
/// greater than `most`, in place of what the list holds. After a refusal the list is empty.
///
/// `Shape` comes exactly where the number of fields isn't from 1 to `most_items` or a field is empty,
/// and `Number` exactly where they have this shape and a field is no number up to `most`.
pub fn read_numbers(
    fields: Fields,
    most_items: u32,
    most: u32,
    out: &mut Intervals,
) -> Result<(), NotNumbers>
    requires { most_items ≤ out.old.capacity }
    ensures ok { IsOk result → SpellsNumbers most_items most fields.entry out.new.items }
    ensures refused { IfErr result (λ reason. RefusesNumbers reason most_items most fields.entry) }
    ensures only { (numbers : List ℕ) → SpellsNumbers most_items most fields.entry numbers
        → IsOk result × (out.new.items ≡ numbers) }
    ensures err { OnErr result (out.new.items ≡ []) }
    ensures capacity { out.new.capacity ≡ out.old.capacity }
{
    match fill_with_numbers(fields, most_items, most, out) {
        Ok(()) => Ok(()),
        Err(reason) => {
            out.clear();
            Err(reason)
        }
    }
}

/// The same, but for what a refusal leaves: some of the numbers.
fn fill_with_numbers(
    fields: Fields,
    most_items: u32,
    most: u32,
    out: &mut Intervals,
) -> Result<(), NotNumbers>
    requires { most_items ≤ out.old.capacity }
    ensures ok { IsOk result → SpellsNumbers most_items most fields.entry out.new.items }
    ensures refused { IfErr result (λ reason. RefusesNumbers reason most_items most fields.entry) }
    ensures only { (numbers : List ℕ) → SpellsNumbers most_items most fields.entry numbers
        → IsOk result × (out.new.items ≡ numbers) }
    ensures capacity { out.new.capacity ≡ out.old.capacity }
{
    out.clear();
    match fields.into_rest() {
        Some(line) => push_numbers(line, most_items, most, out),
        None => Err(NotNumbers::Shape),
    }
}
