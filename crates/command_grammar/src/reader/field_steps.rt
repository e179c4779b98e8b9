//! What comes of a bit of each kind of field, and of the number that the bits of a field are.
ghost use Rattle.std.specs.Prelude.{◌≡◌, ◌+◌, ◌≤◌, ◌<◌, ◌^◌, ◌∷◌, List, Bool, Some, length};
ghost use Rattle.command_grammar.specs.reading.FieldStages.{stage_from, next_from, pair_from, triple_from, bit_from, number_then, words_then, width_of};
ghost use Rattle.command_grammar.specs.reading.FieldRanges.{IsSoundNumber, IsSoundNext};
ghost use Rattle.command_grammar.specs.declared.reader.fields.Fields.{Fields};
ghost use Rattle.command_grammar.specs.declared.reader.field_in_progress.Stage.TheVariants as stages;
ghost use Rattle.command_grammar.specs.declared.reader.field_in_progress.TripleFront.TheVariants.{One, Two};

use crate::choices::{
    BANK_VALUES, M_VALUES, MASK_BANK_VALUES, SEL_VALUES, query_target, select_target, updn,
};
use crate::reader::field_in_progress::{
    BitField, Next, NumberField, PairField, Stage, TripleField, TripleFront,
};
use crate::reader::fields::{
    Fields, action_of, count_of, payload_of, pointer_of, q_of, session_of,
};
use crate::refusal::Reason;
use bit_strings::{EbvFront, EbvStep};
use command_fields::{BlockWords, Mask};

/// Takes the bit of a field of one bit, and sets the value of this field of the command.
pub(crate) fn take_bit(field: BitField, bit: bool, fields: &mut Fields) -> Next
    ensures reads { (rest : List Bool)
        → bit_from field fields.old (bit ∷ rest) ≡ next_from result fields.new rest }
    ensures sound { IsSoundNext result fields.new }
{
    match field {
        BitField::Dr => fields.dr = bit,
        BitField::TRext => fields.trext = bit,
        BitField::QueryTarget => fields.query_target = query_target(bit),
    }
    Next::Done
}

/// The last bit of a field of two.
pub(crate) fn take_pair(field: PairField, first: bool, bit: bool, fields: &mut Fields) -> Next
    ensures reads { (rest : List Bool)
        → pair_from field (Some first) fields.old (bit ∷ rest) ≡ next_from result fields.new rest }
    ensures sound { IsSoundNext result fields.new }
{
    // The number that the two bits are.
    let number = 2 * usize::from(first) + usize::from(bit);
    match field {
        PairField::M => fields.m = M_VALUES[number],
        PairField::Sel => fields.sel = SEL_VALUES[number],
        PairField::Bank => fields.bank = BANK_VALUES[number],
        PairField::MaskBank => match MASK_BANK_VALUES[number] {
            Some(bank) => fields.mask_bank = bank,
            None => return Next::Refused(Reason::Bank),
        },
    }
    Next::Done
}

/// The second bit of a field of three.
pub(crate) fn take_second(field: TripleField, first: bool, bit: bool) -> Next
    ensures reads { (fields : Fields) (rest : List Bool)
        → triple_from field (One first) fields (bit ∷ rest) ≡ next_from result fields rest }
    ensures sound { (fields : Fields) → IsSoundNext result fields }
{
    match (field, first, bit) {
        (TripleField::UpDn, true, false) => Next::Refused(Reason::UpDn),
        (TripleField::SelectTarget, true, true) => Next::Refused(Reason::Target),
        _ => Next::Stay(Stage::Triple(field, TripleFront::Two(first, bit))),
    }
}

/// The last bit of a field of three.
pub(crate) fn take_third(
    field: TripleField,
    first: bool,
    second: bool,
    bit: bool,
    fields: &mut Fields,
) -> Next
    ensures reads { (rest : List Bool)
        → triple_from field (Two first second) fields.old (bit ∷ rest)
        ≡ next_from result fields.new rest }
    ensures sound { IsSoundNext result fields.new }
{
    match field {
        TripleField::UpDn => match updn(first, second, bit) {
            Some(updn) => fields.updn = updn,
            None => return Next::Refused(Reason::UpDn),
        },
        TripleField::SelectTarget => match select_target(first, second, bit) {
            Some(target) => fields.select_target = target,
            None => return Next::Refused(Reason::Target),
        },
    }
    Next::Done
}

/// The whole number of a field.
pub(crate) fn take_number(field: NumberField, value: u32, fields: &mut Fields) -> Next
    requires small { value < 2 ^ width_of field }
    requires sound { IsSoundNumber field fields.old }
    ensures reads { (rest : List Bool)
        → number_then field value fields.old rest ≡ next_from result fields.new rest }
    ensures sound { IsSoundNext result fields.new }
{
    match field {
        NumberField::Session => fields.session = session_of(value),
        NumberField::Q => fields.q = q_of(value),
        NumberField::Action => fields.action = action_of(value),
        NumberField::Count => fields.count = value as u8,
        NumberField::Covered => fields.covered = value as u16,
        NumberField::Payload => fields.payload = payload_of(value),
        NumberField::Rn => fields.rn = value as u16,
        NumberField::WordCount => {
            if value == 0 {
                return Next::Refused(Reason::Count);
            }
            fields.word_count = count_of(value);
        }
        NumberField::MaskLength => {
            fields.mask = Mask::new();
            if value > 0 {
                return Next::Stay(Stage::Mask(value - 1));
            }
        }
        NumberField::WordsLength => {
            if value == 0 {
                return Next::Refused(Reason::Count);
            }
            return Next::Stay(Stage::Number(NumberField::FirstWord(value - 1)));
        }
        NumberField::FirstWord(left) => {
            fields.words = BlockWords::first(value as u16);
            return next_word(left);
        }
        NumberField::Word(left) => {
            fields.words.push_reserved(value as u16);
            return next_word(left);
        }
    }
    Next::Done
}

/// What follows a word of a BlockWrite: its next word, or the end of the block where no word is left.
fn next_word(left: u32) -> Next
    ensures reads { (fields : Fields) (rest : List Bool)
        → words_then left fields rest ≡ next_from result fields rest }
    ensures sound { (fields : Fields) → length fields.words + left ≤ 255
        → IsSoundNext result fields }
{
    if left == 0 {
        return Next::Done;
    }
    Next::Stay(Stage::Number(NumberField::Word(left - 1)))
}

/// A bit of an extensible bit vector, behind those read.
pub(crate) fn take_ebv(front: EbvFront, bit: bool, fields: &mut Fields) -> Next
    ensures reads { (rest : List Bool)
        → stage_from (stages.Ebv front) fields.old (bit ∷ rest) ≡ next_from result fields.new rest }
    ensures sound { IsSoundNext result fields.new }
{
    match front.take(bit) {
        EbvStep::More(more) => Next::Stay(Stage::Ebv(more)),
        EbvStep::Value(number) => {
            fields.pointer = pointer_of(number);
            Next::Done
        }
        EbvStep::NotShortest | EbvStep::TooLong => Next::Refused(Reason::Ebv),
    }
}
