//! Lines with an exact number of fields, none of them empty.
ghost use Rattle.std.specs.Prelude.{◌≡◌, ◌≢◌, ◌↔◌, ℕ, List, [], ◌∷◌, IfSome, IsSomeAnd, IsTrue};
ghost use Rattle.text_fields.specs.NamedFields.{AreFilled};

use crate::fields::Fields;

/// The next field, where one is left and it is not empty. After none no more is known of what is left.
fn filled_field<'a>(fields: &mut Fields<'a>) -> Option<&'a [u8]>
    ensures value { IfSome result
        (λ field. (fields.old ≡ field.now ∷ fields.new) × (field.now ≢ [])) }
    ensures only { (field : List ℕ) → (rest : List (List ℕ)) → fields.old ≡ field ∷ rest
        → field ≢ []
        → IsSomeAnd result (λ it. it.now ≡ field) × (fields.new ≡ rest) }
{
    let field = fields.next()?;
    if field.is_empty() { None } else { Some(field) }
}

/// Whether no field is left.
pub fn is_at_end(mut fields: Fields) -> bool
    ensures { IsTrue result ↔ (fields.entry ≡ []) }
{
    fields.next().is_none()
}

/// Whether exactly so many fields are left, and none of them is empty.
pub fn are_filled(fields: &Fields, count: u32) -> bool
    ensures { IsTrue result ↔ AreFilled count fields.now }
{
    let mut left = fields.again();
    for _ in 0..count {
        if filled_field(&mut left).is_none() {
            return false;
        }
    }
    is_at_end(left)
}

/// The field that is left; none exactly where not one field is left, or it is empty.
pub fn one_field(mut fields: Fields<'_>) -> Option<&[u8]>
    ensures value { IfSome result (λ it. (fields.entry ≡ it.now ∷ []) × (it.now ≢ [])) }
    ensures only { (a : List ℕ) → fields.entry ≡ a ∷ [] → a ≢ []
        → IsSomeAnd result (λ it. it.now ≡ a) }
{
    let first = filled_field(&mut fields)?;
    if is_at_end(fields) { Some(first) } else { None }
}

/// The two fields that are left; none exactly where not two are left, or one of them is empty.
pub fn two_fields(mut fields: Fields<'_>) -> Option<(&[u8], &[u8])>
    ensures value { IfSome result
        (λ it. (fields.entry ≡ it.0.now ∷ it.1.now ∷ []) × (it.0.now ≢ []) × (it.1.now ≢ [])) }
    ensures only { (a b : List ℕ) → fields.entry ≡ a ∷ b ∷ [] → a ≢ [] → b ≢ []
        → IsSomeAnd result (λ it. (it.0.now ≡ a) × (it.1.now ≡ b)) }
{
    let first = filled_field(&mut fields)?;
    let second = one_field(fields)?;
    Some((first, second))
}

/// The three fields that are left; none exactly where not three are left, or one of them is empty.
pub fn three_fields(mut fields: Fields<'_>) -> Option<(&[u8], &[u8], &[u8])>
    ensures value { IfSome result (λ it. (fields.entry ≡ it.0.now ∷ it.1.now ∷ it.2.now ∷ [])
        × (it.0.now ≢ []) × (it.1.now ≢ []) × (it.2.now ≢ [])) }
    ensures only { (a b c : List ℕ) → fields.entry ≡ a ∷ b ∷ c ∷ [] → a ≢ [] → b ≢ [] → c ≢ []
        → IsSomeAnd result (λ it. (it.0.now ≡ a) × (it.1.now ≡ b) × (it.2.now ≡ c)) }
{
    let first = filled_field(&mut fields)?;
    let (second, third) = two_fields(fields)?;
    Some((first, second, third))
}

/// The four fields that are left; none exactly where not four are left, or one of them is empty.
pub fn four_fields(mut fields: Fields<'_>) -> Option<(&[u8], &[u8], &[u8], &[u8])>
    ensures value { IfSome result
        (λ it. (fields.entry ≡ it.0.now ∷ it.1.now ∷ it.2.now ∷ it.3.now ∷ [])
        × (it.0.now ≢ []) × (it.1.now ≢ []) × (it.2.now ≢ []) × (it.3.now ≢ [])) }
    ensures only { (a b c d : List ℕ) → fields.entry ≡ a ∷ b ∷ c ∷ d ∷ [] → a ≢ [] → b ≢ [] → c ≢ []
        → d ≢ []
        → IsSomeAnd result
        (λ it. (it.0.now ≡ a) × (it.1.now ≡ b) × (it.2.now ≡ c) × (it.3.now ≡ d)) }
{
    let first = filled_field(&mut fields)?;
    let (second, third, fourth) = three_fields(fields)?;
    Some((first, second, third, fourth))
}

/// The five fields that are left; none exactly where not five are left, or one of them is empty.
pub fn five_fields(mut fields: Fields<'_>) -> Option<(&[u8], &[u8], &[u8], &[u8], &[u8])>
    ensures value { IfSome result
        (λ it. (fields.entry ≡ it.0.now ∷ it.1.now ∷ it.2.now ∷ it.3.now ∷ it.4.now ∷ [])
        × (it.0.now ≢ []) × (it.1.now ≢ []) × (it.2.now ≢ []) × (it.3.now ≢ []) × (it.4.now ≢ [])) }
    ensures only { (a b c d e : List ℕ) → fields.entry ≡ a ∷ b ∷ c ∷ d ∷ e ∷ [] → a ≢ [] → b ≢ []
        → c ≢ [] → d ≢ [] → e ≢ []
        → IsSomeAnd result
        (λ it. (it.0.now ≡ a) × (it.1.now ≡ b) × (it.2.now ≡ c) × (it.3.now ≡ d) × (it.4.now ≡ e)) }
{
    let first = filled_field(&mut fields)?;
    let (second, third, fourth, fifth) = four_fields(fields)?;
    Some((first, second, third, fourth, fifth))
}

/// The six fields that are left; none exactly where not six are left, or one of them is empty.
pub fn six_fields(mut fields: Fields<'_>) -> Option<(&[u8], &[u8], &[u8], &[u8], &[u8], &[u8])>
    ensures value { IfSome result
        (λ it. (fields.entry ≡ it.0.now ∷ it.1.now ∷ it.2.now ∷ it.3.now ∷ it.4.now ∷ it.5.now ∷ [])
        × (it.0.now ≢ []) × (it.1.now ≢ []) × (it.2.now ≢ []) × (it.3.now ≢ []) × (it.4.now ≢ [])
        × (it.5.now ≢ [])) }
    ensures only { (a b c d e f : List ℕ) → fields.entry ≡ a ∷ b ∷ c ∷ d ∷ e ∷ f ∷ []
        → a ≢ [] → b ≢ [] → c ≢ [] → d ≢ [] → e ≢ [] → f ≢ []
        → IsSomeAnd result
        (λ it. (it.0.now ≡ a) × (it.1.now ≡ b) × (it.2.now ≡ c) × (it.3.now ≡ d) × (it.4.now ≡ e)
        × (it.5.now ≡ f)) }
{
    let first = filled_field(&mut fields)?;
    let (second, third, fourth, fifth, sixth) = five_fields(fields)?;
    Some((first, second, third, fourth, fifth, sixth))
}

/// The seven fields that are left; none exactly where not seven are left, or one of them is empty.
pub fn seven_fields(
    mut fields: Fields<'_>,
) -> Option<(&[u8], &[u8], &[u8], &[u8], &[u8], &[u8], &[u8])>
    ensures value { IfSome result
        (λ it. (fields.entry
        ≡ it.0.now ∷ it.1.now ∷ it.2.now ∷ it.3.now ∷ it.4.now ∷ it.5.now ∷ it.6.now ∷ [])
        × (it.0.now ≢ []) × (it.1.now ≢ []) × (it.2.now ≢ []) × (it.3.now ≢ []) × (it.4.now ≢ [])
        × (it.5.now ≢ []) × (it.6.now ≢ [])) }
    ensures only { (a b c d e f g : List ℕ) → fields.entry ≡ a ∷ b ∷ c ∷ d ∷ e ∷ f ∷ g ∷ []
        → a ≢ [] → b ≢ [] → c ≢ [] → d ≢ [] → e ≢ [] → f ≢ [] → g ≢ []
        → IsSomeAnd result
        (λ it. (it.0.now ≡ a) × (it.1.now ≡ b) × (it.2.now ≡ c) × (it.3.now ≡ d) × (it.4.now ≡ e)
        × (it.5.now ≡ f)
        × (it.6.now ≡ g)) }
{
    let first = filled_field(&mut fields)?;
    let (second, third, fourth, fifth, sixth, seventh) = six_fields(fields)?;
    Some((first, second, third, fourth, fifth, sixth, seventh))
}
