//! The field of a command that is being read.
ghost use Rattle.std.specs.Prelude.{◌≡◌, ◌+◌, ◌≤◌, ◌∷◌, List, Bool, IsTrue, IsFalse, length};
ghost use Rattle.command_grammar.specs.reading.FieldStages.{width_of, stage_from, next_from};
ghost use Rattle.command_grammar.specs.reading.FieldRanges.{AreFieldsInRange, IsSoundNext, IsEdge, number_bits};
ghost use Rattle.command_grammar.specs.declared.reader.fields.Fields.{Fields};
ghost use Rattle.command_grammar.specs.declared.reader.field_in_progress.Stage.TheVariants as stages;
ghost use Rattle.command_grammar.specs.declared.refusal.Reason.{Reason};

use crate::reader::field_steps::{take_bit, take_ebv, take_pair, take_second, take_third};
use crate::reader::fields::Fields;
use crate::refusal::Reason;
use bit_strings::{EbvFront, EbvStep};

/// A field of one bit whose value is kept: DR, TRext or Target of a Query (6.3.2.11.2.1).
#[derive(Clone, Copy)]
pub(crate) enum BitField {
    Dr,
    TRext,
    QueryTarget,
}

/// A field of two bits whose values have names.
#[derive(Clone, Copy)]
pub(crate) enum PairField {
    M,
    Sel,
    Bank,
    MaskBank,
}

/// A field of three bits whose values have names.
#[derive(Clone, Copy)]
pub(crate) enum TripleField {
    UpDn,
    SelectTarget,
}

/// The bits of a field of three that were read.
#[derive(Clone, Copy)]
pub(crate) enum TripleFront {
    Nothing,
    One(bool),
    Two(bool, bool),
}

/// What a number of some bits is for.
#[derive(Clone, Copy)]
pub(crate) enum NumberField {
    Session,
    Q,
    Action,
    Count,
    WordCount,
    Covered,
    Payload,
    Rn,
    /// Length of a Select: how many bits of mask follow.
    MaskLength,
    /// WordCount of a BlockWrite: how many words follow.
    WordsLength,
    /// The first word of a BlockWrite, and how many others follow.
    FirstWord(u32),
    /// Another word, and how many others follow.
    Word(u32),
}

impl NumberField {
    /// How many bits the number has.
    pub(crate) fn width(self) -> u32
        ensures { result ≡ width_of self }
    {
        match self {
            NumberField::Session => 2,
            NumberField::Action => 3,
            NumberField::Q => 4,
            NumberField::Count
            | NumberField::WordCount
            | NumberField::MaskLength
            | NumberField::WordsLength => 8,
            NumberField::Covered
            | NumberField::Rn
            | NumberField::FirstWord(_)
            | NumberField::Word(_) => 16,
            NumberField::Payload => 20,
        }
    }
}

/// What is being read: a field, or a part of one.
#[derive(Clone, Copy)]
pub(crate) enum Stage {
    Bit(BitField),
    /// The first bit, where it was read.
    Pair(PairField, Option<bool>),
    Triple(TripleField, TripleFront),
    /// A number, of which no bit was read.
    Number(NumberField),
    /// An extensible bit vector (Annex A), of which some bits were read.
    Ebv(EbvFront),
    /// The bits of a mask: how many come behind the next one.
    Mask(u32),
}

/// What comes of a bit.
#[derive(Clone, Copy)]
pub(crate) enum Next {
    /// The field goes on.
    Stay(Stage),
    /// The field has ended.
    Done,
    /// No command goes on so.
    Refused(Reason),
}

impl Stage {
    /// How many bits the number has that is read, or 0 where a field of another kind is.
    pub(crate) fn number_bits(&self) -> u32
        ensures { result ≡ number_bits self.now }
    {
        match self {
            Stage::Number(field) => field.width(),
            Stage::Bit(_) | Stage::Pair(..) | Stage::Triple(..) | Stage::Ebv(_) | Stage::Mask(_) =>
                0,
        }
    }

    /// Takes a bit inside a mask or an extensible bit vector, or the first one of two or three, and gives whether it did. The last bit of these isn't taken, nor one that is refused, nor one elsewhere, as in a number.
    #[inline(always)]
    pub(crate) fn take_inside(&mut self, bit: bool, fields: &mut Fields) -> bool
        requires sound { AreFieldsInRange self.old fields.old }
        ensures reads { IsTrue result → (rest : List Bool)
            → stage_from self.old fields.old (bit ∷ rest) ≡ stage_from self.new fields.new rest }
        ensures sound { IsTrue result → AreFieldsInRange self.new fields.new }
        ensures other { IsTrue result → number_bits self.old ≡ 0 }
        ensures none { IsTrue result → number_bits self.new ≡ 0 }
        ensures edge { IsFalse result → number_bits self.old ≡ 0 → IsEdge self.old bit }
        ensures same { IsFalse result → self.new ≡ self.old }
        ensures fields { IsFalse result → fields.new ≡ fields.old }
    {
        match self {
            Stage::Mask(behind) => take_mask_inside(behind, bit, fields),
            Stage::Pair(_, first @ None) => {
                *first = Some(bit);
                true
            }
            Stage::Triple(_, front @ TripleFront::Nothing) => {
                *front = TripleFront::One(bit);
                true
            }
            Stage::Ebv(front) => take_ebv_inside(front, bit),
            Stage::Bit(_) | Stage::Pair(..) | Stage::Triple(..) | Stage::Number(_) => false,
        }
    }

    /// One bit more, of those that `take_inside` doesn't take.
    pub(crate) fn take(self, bit: bool, fields: &mut Fields) -> Next
        requires sound { AreFieldsInRange self fields.old }
        requires edge { IsEdge self bit }
        ensures reads { (rest : List Bool)
            → stage_from self fields.old (bit ∷ rest) ≡ next_from result fields.new rest }
        ensures sound { IsSoundNext result fields.new }
    {
        match self {
            Stage::Bit(field) => take_bit(field, bit, fields),
            Stage::Pair(field, first) => match first {
                Some(first) => take_pair(field, first, bit, fields),
                None => unreachable!(),
            },
            Stage::Triple(field, front) => match front {
                TripleFront::Nothing => unreachable!(),
                TripleFront::One(first) => take_second(field, first, bit),
                TripleFront::Two(first, second) => take_third(field, first, second, bit, fields),
            },
            Stage::Number(_) => unreachable!(),
            Stage::Ebv(front) => take_ebv(front, bit, fields),
            Stage::Mask(_) => {
                fields.mask.push_reserved(bit);
                Next::Done
            }
        }
    }
}

/// Takes the next bit of a mask, behind which so many come, where it isn't the last one, and gives whether it did.
fn take_mask_inside(behind: &mut u32, bit: bool, fields: &mut Fields) -> bool
    requires { length fields.old.mask + behind.old + 1 ≤ 255 }
    ensures reads { IsTrue result → (rest : List Bool)
        → stage_from (stages.Mask behind.old) fields.old (bit ∷ rest)
        ≡ stage_from (stages.Mask behind.new) fields.new rest }
    ensures sound { IsTrue result → length fields.new.mask + behind.new + 1 ≤ 255 }
    ensures last { IsFalse result → behind.old ≡ 0 }
    ensures same { IsFalse result → behind.new ≡ behind.old }
    ensures fields { IsFalse result → fields.new ≡ fields.old }
{
    if *behind == 0 {
        return false;
    }
    fields.mask.push_reserved(bit);
    *behind -= 1;
    true
}

/// Takes the next bit of an extensible bit vector where it goes on behind it, and gives whether it did.
fn take_ebv_inside(front: &mut EbvFront, bit: bool) -> bool
    ensures reads { IsTrue result → (fields : Fields) (rest : List Bool)
        → stage_from (stages.Ebv front.old) fields (bit ∷ rest)
        ≡ stage_from (stages.Ebv front.new) fields rest }
    ensures same { IsFalse result → front.new ≡ front.old }
{
    match front.take(bit) {
        EbvStep::More(more) => {
            *front = more;
            true
        }
        EbvStep::Value(_) | EbvStep::NotShortest | EbvStep::TooLong => false,
    }
}
