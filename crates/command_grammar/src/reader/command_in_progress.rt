//! What was read of a command.
ghost use Rattle.std.specs.Prelude.{◌≡◌, ◌≢◌, ◌+◌, ◌-◌, ◌*◌, ◌^◌, ◌<◌, ◌≤◌, ◌++◌, ◌∷◌, [], List, Bool, IsTrue, IsFalse, IsSome, Ok, None};
ghost use Rattle.bit_strings.specs.NumbersInBits.{digit_of};
ghost use Rattle.command_grammar.specs.Commands.{Judges, IsFinishAnswer, SpellsCommand, code_of, command_fields_of};
ghost use Rattle.command_grammar.specs.reading.CommandFields.{run};
ghost use Rattle.command_grammar.specs.reading.CheckNumbers.{IsRegisterOf, IsAsked, AreServed, check_kept, kept_behind};
ghost use Rattle.command_grammar.specs.reading.FieldRanges.{number_bits};
ghost use Rattle.command_grammar.specs.reading.Framing.{StateStandsFor, bits_of_number, HasDigits, Keeps, CheckGoesAlong, IsServed, IsAtEdge, IsSoundPosition, TakesBit, refusal_in, resume};
ghost use Rattle.command_grammar.specs.declared.reader.command_in_progress.Position.TheVariants as positions;
ghost use Rattle.command_grammar.specs.declared.commands.Command.{Command};
ghost use Rattle.command_grammar.specs.declared.kinds.CommandKind.{CommandKind};
ghost use Rattle.command_grammar.specs.declared.fields.Field.{Field};
ghost use Rattle.command_grammar.specs.declared.reader.fields.Fields.{Fields};

use crate::commands::Command;
use crate::fields::Field;
use crate::kinds::{CodeFront, CodeStep, CommandKind, code_step};
use crate::reader::check::Check;
use crate::reader::field_in_progress::{
    BitField, Next, NumberField, PairField, Stage, TripleField, TripleFront,
};
use crate::reader::field_steps::take_number;
use crate::reader::fields::Fields;
use crate::reader::known_bits::KnownBits;
use crate::refusal::{CommandRefusal, Pushed, Reason};
use bit_strings::EbvFront;

/// Where the next bit stands.
#[derive(Clone, Copy)]
pub(crate) enum Position {
    /// In the command code.
    Code(CodeFront),
    /// Behind the command.
    Whole,
    /// In a field.
    Within(Stage),
    /// In bits that are known before they come. Another bit is refused for the reason.
    Known(Reason, KnownBits),
}

impl Position {
    /// The beginning of a field, behind bits with this check number. Bits that are known go into it before they come, and with its own
    /// bits it is over.
    fn start(field: Field, check: &mut Check) -> Position
        requires { IsAsked (check_kept check.old) field }
        ensures reads { (kind : CommandKind) (behind : List Field) (fields : Fields) (bits rest : List Bool)
            → IsRegisterOf check.old bits
            → run (field ∷ behind) kind fields (bits ++ rest) rest
            ≡ resume kind result behind fields (bits ++ rest) rest }
        ensures counts { (bits : List Bool) → IsRegisterOf check.old bits
            → CheckGoesAlong result check.new bits }
        ensures kept { check_kept check.new ≡ kept_behind (check_kept check.old) field }
        ensures sound { (fields : Fields) → IsSoundPosition result fields }
    {
        match field {
            Field::Dr => Position::Within(Stage::Bit(BitField::Dr)),
            Field::M => Position::Within(Stage::Pair(PairField::M, None)),
            Field::TRext => Position::Within(Stage::Bit(BitField::TRext)),
            Field::Sel => Position::Within(Stage::Pair(PairField::Sel, None)),
            Field::Session => Position::Within(Stage::Number(NumberField::Session)),
            Field::QueryTarget => Position::Within(Stage::Bit(BitField::QueryTarget)),
            Field::Q => Position::Within(Stage::Number(NumberField::Q)),
            Field::Crc5 => {
                let value = check.crc5();
                *check = Check::Over;
                Position::Known(Reason::Crc5, KnownBits { behind: 4, value })
            }
            Field::UpDn => Position::Within(Stage::Triple(TripleField::UpDn, TripleFront::Nothing)),
            Field::SelectTarget => Position::Within(Stage::Triple(
                TripleField::SelectTarget,
                TripleFront::Nothing,
            )),
            Field::Action => Position::Within(Stage::Number(NumberField::Action)),
            Field::MaskBank => Position::Within(Stage::Pair(PairField::MaskBank, None)),
            Field::Pointer => Position::Within(Stage::Ebv(EbvFront::new())),
            Field::Mask => Position::Within(Stage::Number(NumberField::MaskLength)),
            Field::Truncate => {
                check.push_number(0, 1);
                Position::Known(
                    Reason::Truncate,
                    KnownBits {
                        behind: 0,
                        value: 0,
                    },
                )
            }
            Field::Bank => Position::Within(Stage::Pair(PairField::Bank, None)),
            Field::Count => Position::Within(Stage::Number(NumberField::Count)),
            Field::Words => Position::Within(Stage::Number(NumberField::WordsLength)),
            Field::WordCount => Position::Within(Stage::Number(NumberField::WordCount)),
            Field::Covered => Position::Within(Stage::Number(NumberField::Covered)),
            Field::KillBits => {
                check.push_number(0, 3);
                Position::Known(
                    Reason::KillBits,
                    KnownBits {
                        behind: 2,
                        value: 0,
                    },
                )
            }
            Field::Payload => Position::Within(Stage::Number(NumberField::Payload)),
            Field::Rn => Position::Within(Stage::Number(NumberField::Rn)),
            Field::Crc16 => {
                let value = check.crc16();
                *check = Check::Over;
                Position::Known(Reason::Crc16, KnownBits { behind: 15, value })
            }
        }
    }

    /// How many bits the number has that is read, or 0 where none is.
    fn number_bits(&self) -> u32
        ensures { result ≡ bits_of_number self.now }
    {
        match self {
            Position::Within(stage) => stage.number_bits(),
            Position::Code(_) | Position::Whole | Position::Known(..) => 0,
        }
    }
}

/// What was read of a command, where no bit was refused. It keeps no bits but those of a mask and of
/// words.
#[derive(Drop)]
pub(crate) struct State {
    /// The command, once its code was read.
    kind: CommandKind,
    /// Its check number, from the code on.
    check: Check,
    position: Position,
    /// How many bits are still to come of the number that is being read, or 0.
    left: u32,
    /// What the bits read of this number are.
    value: u32,
    /// The fields behind the one that is being read.
    behind: &'static [Field],
    fields: Fields,
}

impl State {
    /// The state before the first bit of a command.
    pub(crate) fn new() -> State
        ensures stands { StateStandsFor result [] }
        ensures digits { HasDigits result [] }
        ensures sound { IsSoundPosition result.position result.fields }
    {
        State {
            kind: CommandKind::Nak,
            check: Check::Over,
            position: Position::Code(CodeFront::Nothing),
            left: 0,
            value: 0,
            behind: &[],
            fields: Fields::new(),
        }
    }

    /// Takes a bit of a number but the last one, as most bits are, and gives whether it did.
    #[inline(always)]
    pub(crate) fn take_digit(&mut self, bit: bool) -> bool
        requires { 2 ≤ self.old.left → self.old.value < 2 ^ 30 }
        ensures taken { IsTrue result → self.new
            ≡ record self.old { left = self.old.left - 1; value = 2 * self.old.value + digit_of bit } }
        ensures left { IsTrue result → 2 ≤ self.old.left }
        ensures last { IsFalse result → self.old.left ≤ 1 }
        ensures same { IsFalse result → self.new ≡ self.old }
    {
        if self.left <= 1 {
            return false;
        }
        self.value = self.with(bit);
        self.left -= 1;
        true
    }

    /// Takes a bit inside another field or bits that are known, or of the code, and gives whether it did. Behind a command it takes none.
    #[inline(always)]
    pub(crate) fn take_inside(&mut self, bit: bool) -> bool
        requires sound { IsSoundPosition self.old.position self.old.fields }
        requires digits { (read : List Bool) × HasDigits self.old read }
        ensures stands { IsTrue result → (front : List Bool) → StateStandsFor self.old front
            → StateStandsFor self.new (front ++ bit ∷ []) }
        ensures none { IsTrue result → self.old.left ≡ 0 }
        ensures ongoing { IsTrue result → self.old.position ≢ positions.Whole }
        ensures digits { IsTrue result → HasDigits self.new [] }
        ensures sound { IsTrue result → IsSoundPosition self.new.position self.new.fields }
        ensures edge { IsFalse result → self.old.left ≡ 0 → IsAtEdge self.old.position bit }
        ensures same { IsFalse result → self.new ≡ self.old }
    {
        match &mut self.position {
            Position::Within(stage) => {
                if !stage.take_inside(bit, &mut self.fields) {
                    return false;
                }
                self.check.push(bit);
                true
            }
            Position::Known(_, wanted) => wanted.take_inside(bit),
            Position::Code(front) => match code_step(*front, bit) {
                CodeStep::More(more) => {
                    *front = more;
                    true
                }
                CodeStep::Is(kind) => {
                    self.begin_command(kind);
                    true
                }
                CodeStep::Refused => false,
            },
            Position::Whole => false,
        }
    }

    /// Takes one bit more, of those that `take_digit` and `take_inside` don't take, or says why no command goes on with it.
    pub(crate) fn take_edge(&mut self, bit: bool) -> Option<Reason>
        requires sound { IsSoundPosition self.old.position self.old.fields }
        requires digits { (read : List Bool) × HasDigits self.old read }
        requires open { (bits : List Bool) × StateStandsFor self.old bits }
        requires last { self.old.left ≤ 1 }
        requires edge { self.old.left ≡ 0 → IsAtEdge self.old.position bit }
        ensures goes { (before read : List Bool) → StateStandsFor self.old before
            → HasDigits self.old read → TakesBit result self.new (before ++ read) bit }
        ensures digits { result ≡ None → HasDigits self.new [] }
        ensures stopped { IsSome result → self.new.left ≡ 0 }
        ensures sound { result ≡ None → IsSoundPosition self.new.position self.new.fields }
    {
        if self.left > 0 {
            return self.take_last(bit);
        }
        self.take_other(bit)
    }

    /// Takes a bit of no number that `take_inside` doesn't take.
    fn take_other(&mut self, bit: bool) -> Option<Reason>
        requires sound { IsSoundPosition self.old.position self.old.fields }
        requires open { (bits : List Bool) × StateStandsFor self.old bits }
        requires none { (self.old.left ≡ 0) × (self.old.value ≡ 0) }
        requires edge { IsAtEdge self.old.position bit }
        ensures goes { (bits : List Bool) → StateStandsFor self.old bits
            → TakesBit result self.new bits bit }
        ensures digits { result ≡ None → HasDigits self.new [] }
        ensures stopped { IsSome result → self.new.left ≡ 0 }
        ensures sound { result ≡ None → IsSoundPosition self.new.position self.new.fields }
    {
        match self.position {
            Position::Within(stage) => {
                self.check.push(bit);
                match stage.take(bit, &mut self.fields) {
                    Next::Stay(next) => self.stay(next),
                    Next::Done => self.begin(),
                    Next::Refused(reason) => return Some(reason),
                }
                None
            }
            Position::Known(reason, wanted) => {
                if bit != wanted.next() {
                    return Some(reason);
                }
                self.begin();
                None
            }
            Position::Code(_) => Some(Reason::Code),
            Position::Whole => Some(Reason::Extra),
        }
    }

    /// Takes the last bit of a number, or says why no command goes on with it.
    fn take_last(&mut self, bit: bool) -> Option<Reason>
        requires sound { IsSoundPosition self.old.position self.old.fields }
        requires digits { (read : List Bool) × HasDigits self.old read }
        requires open { (bits : List Bool) × StateStandsFor self.old bits }
        requires last { self.old.left ≡ 1 }
        requires small { self.old.value < 2 ^ 30 }
        ensures goes { (before read : List Bool) → StateStandsFor self.old before
            → HasDigits self.old read → TakesBit result self.new (before ++ read) bit }
        ensures digits { result ≡ None → HasDigits self.new [] }
        ensures stopped { IsSome result → self.new.left ≡ 0 }
        ensures sound { result ≡ None → IsSoundPosition self.new.position self.new.fields }
    {
        match self.position {
            Position::Within(stage) => match stage {
                Stage::Number(field) => {
                    let value = self.with(bit);
                    self.left = 0;
                    self.value = 0;
                    self.check.push_number(value, field.width());
                    match take_number(field, value, &mut self.fields) {
                        Next::Stay(next) => self.stay(next),
                        Next::Done => self.begin(),
                        Next::Refused(reason) => return Some(reason),
                    }
                    None
                }
                Stage::Bit(_)
                | Stage::Pair(..)
                | Stage::Triple(..)
                | Stage::Ebv(_)
                | Stage::Mask(_) => unreachable!(),
            },
            Position::Code(_) | Position::Whole | Position::Known(..) => unreachable!(),
        }
    }

    /// Behind a refusal nothing is read, as behind a command. It stays a function of its own, so that what the compiler makes of each bit is
    /// short.
    #[inline(never)]
    pub(crate) fn stop(&mut self)
        ensures stopped { self.new.position ≡ positions.Whole }
        ensures digits { HasDigits self.new [] }
    {
        self.position = Position::Whole;
        self.left = 0;
        self.value = 0;
    }

    /// The number with one bit more behind those read.
    fn with(&self, bit: bool) -> u32
        requires { self.now.value < 2 ^ 30 }
        ensures { result ≡ 2 * self.now.value + digit_of bit }
    {
        2 * self.value + u32::from(bit)
    }

    /// This is read next.
    fn stay(&mut self, next: Stage)
        ensures { self.new
            ≡ record self.old { left = number_bits next; position = positions.Within next } }
    {
        self.left = next.number_bits();
        self.position = Position::Within(next);
    }

    /// The code of this command was read: its first field begins, or it is whole.
    #[cold]
    fn begin_command(&mut self, kind: CommandKind)
        requires none { (self.old.left ≡ 0) × (self.old.value ≡ 0) }
        ensures reads { (rest : List Bool)
            → run (command_fields_of kind) kind self.old.fields (code_of kind ++ rest) rest
            ≡ resume self.new.kind self.new.position self.new.behind.now self.new.fields
            (code_of kind ++ rest) rest }
        ensures counts { CheckGoesAlong self.new.position self.new.check (code_of kind) }
        ensures serves { IsServed self.new.position self.new.check self.new.behind.now }
        ensures digits { HasDigits self.new [] }
        ensures sound { IsSoundPosition self.new.position self.new.fields }
    {
        let layout = kind.layout();
        self.kind = kind;
        self.check = Check::of(layout.check, layout.code);
        self.behind = layout.fields;
        self.begin();
    }

    /// The next field begins, or the command is whole.
    fn begin(&mut self)
        requires served { AreServed (check_kept self.old.check) self.old.behind.now }
        requires none { (self.old.left ≡ 0) × (self.old.value ≡ 0) }
        ensures reads { (bits rest : List Bool) → IsRegisterOf self.old.check bits
            → run self.old.behind.now self.old.kind self.old.fields (bits ++ rest) rest
            ≡ resume self.new.kind self.new.position self.new.behind.now self.new.fields
            (bits ++ rest) rest }
        ensures counts { (bits : List Bool) → IsRegisterOf self.old.check bits
            → CheckGoesAlong self.new.position self.new.check bits }
        ensures serves { IsServed self.new.position self.new.check self.new.behind.now }
        ensures digits { HasDigits self.new [] }
        ensures sound { IsSoundPosition self.new.position self.new.fields }
    {
        match self.behind {
            [] => self.position = Position::Whole,
            [field, behind @ ..] => {
                self.behind = behind;
                let position = Position::start(*field, &mut self.check);
                self.left = position.number_bits();
                self.position = position;
            }
        }
    }

    /// What the bits are.
    pub(crate) fn judge(&self) -> Pushed
        ensures judges { (bits : List Bool) → StateStandsFor self.now bits → Judges result bits }
        ensures taken { refusal_in result ≡ None }
    {
        match self.position {
            Position::Whole => Pushed::Whole,
            Position::Code(_) | Position::Within(_) | Position::Known(..) => Pushed::More,
        }
    }

    /// Stands for no bits from now on, whatever it stood for.
    pub(crate) fn begin_anew(&mut self)
        ensures stands { StateStandsFor self.new [] }
        ensures digits { HasDigits self.new [] }
        ensures sound { IsSoundPosition self.new.position self.new.fields }
    {
        self.position = Position::Code(CodeFront::Nothing);
        self.left = 0;
        self.value = 0;
    }

    /// Answers with the command that the bits are, or with `refused`, or with `Short`. A mask or words are taken out of
    /// what was read.
    pub(crate) fn finish(
        &mut self,
        pushed: u32,
        refused: Option<(u32, Reason)>,
        answer: &mut Result<Command, CommandRefusal>,
    )
        ensures finishes { (bits : List Bool) → Keeps self.old pushed refused bits
            → IsFinishAnswer answer.new bits }
        ensures only { (bits : List Bool) (command : Command) → Keeps self.old pushed refused bits
            → SpellsCommand command bits → answer.new ≡ Ok command }
    {
        match refused {
            Some((place, reason)) => *answer = Err(CommandRefusal::At(place, reason)),
            None => match self.position {
                Position::Whole => self.fields.answer(self.kind, answer),
                Position::Code(_) | Position::Within(_) | Position::Known(..) => {
                    *answer = Err(CommandRefusal::Short(pushed));
                }
            },
        }
    }
}
