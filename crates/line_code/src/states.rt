//! The decoder as three typed states, which take one level at a time: [`Seeking`] before the
//! data, [`Inside`] in the data, and [`Ended`] behind a whole stream. None of them keeps the levels.
ghost use Rattle.std.specs.Prelude.{◌≡◌, ◌<◌, ◌≤◌, List, Bool, true, [], ◌∷◌, ◌++◌, length, take, IfErr, OnErr, IsSome, IsTrue, ◌↔◌, slice_get};
ghost use Rattle.line_code.specs.States.{Seeks, Reads, Ends};
ghost use Rattle.line_code.specs.laws.Reading.{between};
ghost use Rattle.line_code.specs.Stream.{Streams};
ghost use Rattle.line_code.specs.Refusal.{RefusesStream};
ghost use Rattle.line_code.specs.AfterSeeking.{AfterSeeking};
ghost use Rattle.line_code.specs.AfterInside.{AfterInside};
ghost use Rattle.line_code.specs.AfterEnd.{AfterEnd};
ghost use Rattle.bit_strings.specs.BitString.{most_counted};

use crate::code::LineCode;
use crate::refusal::LineRefusal;
use bit_strings::Bits;
use std::marker::{Model, PhantomData};

/// The decoder before the data, while the pilot and the preamble come (6.3.1.3.2 of the standard).
///
/// A contract sees it as the TRext and the number of levels taken.
#[derive(Drop)]
pub struct Seeking<C: LineCode> {
    trext: bool,
    taken: u32,
    code: PhantomData<C>,
}

impl<C: LineCode> Model for Seeking<C> {
    ghost use Rattle.std.specs.Prelude.{◌<◌, length};
    ghost use Rattle.line_code.specs.States.{SeekingValue};

    ghost Value = { SeekingValue };

    ghost view = { λ a. record { trext = a.trext; taken = a.taken } };

    ghost invariant = { λ a. a.taken < length (C.table.lead a.trext) };
}

/// The decoder in the data, where each bit has a block of [`LineCode::CHIPS`] levels.
///
/// A contract sees it as the context of the block that is begun, how many of its levels were taken,
/// whether it may still be the block of a 0 and of a 1, how many levels were taken in all, how many
/// bits were put into the buffer, and the last of them.
#[derive(Drop)]
pub struct Inside<C: LineCode> {
    mark: C::Mark,
    place: u32,
    zero_fits: bool,
    one_fits: bool,
    taken: u32,
    put: u32,
    last: Option<bool>,
}

impl<C: LineCode> Model for Inside<C> {
    ghost use Rattle.std.specs.Prelude.{◌<◌, ◌≤◌, IsSome};
    ghost use Rattle.line_code.specs.States.{InsideValue};

    ghost Value = { InsideValue };

    ghost view = { λ a. record {
      context = C.context_of a.mark;
      place = a.place;
      zero_fits = a.zero_fits;
      one_fits = a.one_fits;
      taken = a.taken;
      put = a.put;
      last = a.last;
    } };

    ghost invariant = { λ a. (a.place < C.CHIPS) × (a.put ≤ a.taken)
        × (IsSome a.last → 0 < a.put) };
}

/// The decoder behind a whole stream. A contract sees it as the number of its bits.
#[derive(Drop)]
pub struct Ended<C: LineCode> {
    bits: u32,
    code: PhantomData<C>,
}

impl<C: LineCode> Model for Ended<C> {
    ghost use Rattle.line_code.specs.States.{EndedValue};

    ghost Value = { EndedValue };

    ghost view = { λ a. record { bits = a.bits } };
}

/// What a level before the data gives.
pub enum Sought<C: LineCode> {
    /// The level belongs to the lead, and is not its last.
    Seeking(Seeking<C>),
    /// The level is the last of the lead.
    Inside(Inside<C>),
    /// No stream has this level here. This many levels were taken before it.
    Refused(u32),
}

/// What a level in the data gives.
pub enum Within<C: LineCode> {
    /// Some stream begins with the levels so far.
    Inside(Inside<C>),
    /// No stream has this level here. This many levels were taken before it.
    Refused(u32),
}

impl<C: LineCode> Seeking<C> {
    /// The decoder of a stream with this TRext, before the first level.
    pub fn new(trext: bool) -> Seeking<C>
        ensures { Seeks C.table trext result [] }
    {
        Seeking {
            trext,
            taken: 0,
            code: PhantomData,
        }
    }

    /// Takes one more level. A level is refused exactly where no stream begins with the levels
    /// before it and this one.
    pub fn push(self, level: bool) -> Sought<C>
        ensures { (trext : Bool) (levels : List Bool) → Seeks C.table trext self levels
            → AfterSeeking C.table trext levels level result }
    {
        let Seeking { trext, taken, code } = self;
        let lead_len = C::lead_len(trext);
        if C::lead(trext, taken) != level {
            return Sought::Refused(taken);
        }
        let taken = taken + 1;
        if taken < lead_len {
            Sought::Seeking(Seeking { trext, taken, code })
        } else {
            Sought::Inside(Inside::between_blocks(C::after_lead(), taken, 0, None))
        }
    }

    /// Ends the levels. They are no whole stream, since the data is missing, and the answer is
    /// `Unfinished` with their number.
    pub fn end(self) -> LineRefusal
        ensures count { result ≡ LineRefusal.Unfinished self.taken }
        ensures refused { (trext : Bool) (levels : List Bool) → Seeks C.table trext self levels
            → RefusesStream (Streams C.table trext) levels result }
    {
        LineRefusal::Unfinished(self.taken)
    }
}

impl<C: LineCode> Inside<C> {
    /// Takes one more level. A level is refused exactly where no stream begins with the levels before
    /// it and this one, and nothing is put then. With the last level of a block its bit goes to the
    /// end of `out`, which is not cleared, and which is to be the buffer of the pushes before.
    pub fn push(self, level: bool, out: &mut Bits) -> Within<C>
        requires room { length out.old.items < out.old.capacity }
        requires few { self.taken < most_counted }
        ensures answer { (trext : Bool) (levels bits stood : List Bool)
            → Reads C.table trext self levels bits → out.old.items ≡ stood ++ bits
            → AfterInside C.table trext levels level
            (record { stood = stood; old = out.old.items; new = out.new.items }) result }
        ensures capacity { out.new.capacity ≡ out.old.capacity }
    {
        let zero_fits = still_fits::<C>(self.mark, false, self.place, self.zero_fits, level);
        let one_fits = still_fits::<C>(self.mark, true, self.place, self.one_fits, level);
        if !zero_fits && !one_fits {
            return Within::Refused(self.taken);
        }
        let taken = self.taken + 1;
        let place = self.place + 1;
        if place < C::CHIPS {
            return Within::Inside(Inside {
                place,
                zero_fits,
                one_fits,
                taken,
                ..self
            });
        }
        out.push_reserved(one_fits);
        let mark = C::after(self.mark, one_fits);
        Within::Inside(Inside::between_blocks(mark, taken, self.put + 1, Some(one_fits)))
    }

    /// The decoder between two blocks, or between the lead and the first block, where this many levels were taken and this many bits put, of which
    /// this is the last.
    pub(crate) fn between_blocks(
        mark: C::Mark,
        taken: u32,
        put: u32,
        last: Option<bool>,
    ) -> Inside<C>
        requires few { put ≤ taken }
        requires some { IsSome last → 0 < put }
        ensures { result ≡ between (C.context_of mark) taken put last }
    {
        Inside {
            mark,
            place: 0,
            zero_fits: true,
            one_fits: true,
            taken,
            put,
            last,
        }
    }

    /// Ends the levels, and takes the dummy bit off `out`, which is to be the buffer of the pushes.
    /// `Unfinished`, with the number of levels, comes exactly where they are no whole stream, and
    /// `out` is then as before.
    pub fn end(self, out: &mut Bits) -> Result<Ended<C>, LineRefusal>
        ensures answer { (trext : Bool) (levels bits stood : List Bool)
            → Reads C.table trext self levels bits → out.old.items ≡ stood ++ bits
            → AfterEnd C.table trext levels
            (record { stood = stood; old = out.old.items; new = out.new.items }) result }
        ensures count { IfErr result (λ refusal. refusal ≡ LineRefusal.Unfinished self.taken) }
        ensures err { OnErr result (out.new ≡ out.old) }
        ensures capacity { out.new.capacity ≡ out.old.capacity }
    {
        if !is_whole(self.place, self.last) {
            return Err(LineRefusal::Unfinished(self.taken));
        }
        let _dummy = out.pop();
        Ok(Ended {
            bits: self.put - 1,
            code: PhantomData,
        })
    }
}

/// Whether the levels of a block, which were those of this bit up to the place, still are with
/// this level there.
fn still_fits<C: LineCode>(mark: C::Mark, bit: bool, place: u32, fits: bool, level: bool) -> bool
    requires { place < C.CHIPS }
    ensures { IsTrue result
        ↔ (IsTrue fits × (slice_get (C.table.block (C.context_of mark) bit) place ≡ Some level)) }
{
    fits & (C::level(mark, bit, place) == level)
}

/// Whether no block is begun, and the last bit is a dummy's.
fn is_whole(place: u32, last: Option<bool>) -> bool
    ensures { IsTrue result ↔ ((place ≡ 0) × (last ≡ Some true)) }
{
    place == 0 && last == Some(true)
}

impl<C: LineCode> Ended<C> {
    /// How many bits the stream has, without the dummy.
    pub fn bits(&self) -> u32
        ensures { result ≡ self.now.bits }
    {
        self.bits
    }
}
