//! The pairs of lock bits, what they allow, and how a Lock payload changes them.
ghost use Rattle.std.specs.Prelude.{◌≡◌, ◌<◌, ◌≤◌, ◌↔◌, IsNone, IfSome};
ghost use Rattle.lock_rules.specs.Permissions.{lock_pair_of, pair_allows, may, Reading, Writing};
ghost use Rattle.lock_rules.specs.Lock.{bit_at_place, pair_at, pair_number, locks_number, locks_of, takes_permalock_off, pair_after, pair_after_lock, masks_user, takes_any_permalock_off, locks_after};

use crate::fields_and_levels::{ErrorCode, Field, Level};
use bit_strings::Payload;

/// The two lock bits of a field (6.3.2.11.3.5 Lock). The standard calls the first one pwd-write or
/// pwd-read/write.
///
/// With the write bit 1 the field wants the secured state, and with both bits 1 it may never be written.
/// With the permalock 1 the pair never changes again.
#[derive(Clone, Copy, Debug, PartialEq, Eq)]
pub struct Pair {
    /// The first bit of the pair: the field wants the secured state.
    pub write_bit: bool,
    /// The second bit: the pair never changes again.
    pub permalock: bool,
}

/// The pairs of lock bits of a tag's fields.
#[derive(Clone, Copy, Debug, PartialEq, Eq)]
pub struct Locks {
    /// The pair of the kill password, words 0 and 1 of the Reserved bank.
    pub kill_word: Pair,
    /// The pair of the access password, words 2 and 3 of the Reserved bank.
    pub access_word: Pair,
    /// The pair of the EPC bank.
    pub epc: Pair,
    /// The pair of the TID bank.
    pub tid: Pair,
    /// The pair of the User bank.
    pub user: Pair,
}

/// The fields in the order in which their pairs stand in a payload.
const FIELDS: [Field; 5] = [
    Field::KillWord,
    Field::AccessWord,
    Field::Epc,
    Field::Tid,
    Field::User,
];

/// The bit of `bits` at a place, counted from the last bit as 0.
fn is_set(bits: u32, place: u32) -> bool
    requires { place < 32 }
    ensures { result ≡ bit_at_place bits place }
{
    (bits >> place) % 2 == 1
}

/// Whether a payload names the pair of the User bank.
fn masks_user(payload: u32) -> bool
    ensures { result ≡ masks_user payload }
{
    let mask = Pair::at(payload >> 10, Field::User);
    mask.write_bit || mask.permalock
}

impl Pair {
    /// The pair of a field among ten bits, which stand in the order of a Lock payload.
    fn at(bits: u32, field: Field) -> Pair
        ensures { result ≡ pair_at bits field }
    {
        let place = match field {
            Field::KillWord => 8,
            Field::AccessWord => 6,
            Field::Epc => 4,
            Field::Tid => 2,
            Field::User => 0,
        };
        Pair {
            write_bit: is_set(bits, place + 1),
            permalock: is_set(bits, place),
        }
    }

    /// The pair as a number from 0 to 3.
    fn number(self) -> u16
        ensures number { result ≡ pair_number self }
        ensures small { result < 4 }
    {
        2 * u16::from(self.write_bit) + u16::from(self.permalock)
    }

    /// Whether the pair lets a tag of this level write, or read a password.
    fn allows(self, level: Level) -> bool
        ensures { result ≡ pair_allows self level }
    {
        match (self.write_bit, self.permalock) {
            (false, _) => true,
            (true, false) => level == Level::Secured,
            (true, true) => false,
        }
    }

    /// The pair after a Lock payload with this mask and action.
    fn changed(self, mask: Pair, action: Pair) -> Pair
        ensures { result ≡ pair_after self mask action }
    {
        if self.permalock {
            return self;
        }
        Pair {
            write_bit: if mask.write_bit {
                action.write_bit
            } else {
                self.write_bit
            },
            permalock: if mask.permalock {
                action.permalock
            } else {
                self.permalock
            },
        }
    }
}

impl Locks {
    /// The pairs from ten bits: kill password, access password, EPC, TID and User, the write bit of
    /// each before its permalock. None exactly where `pairs` has more than ten bits.
    pub fn from_bits(pairs: u16) -> Option<Locks>
        ensures none { IsNone result ↔ (1024 ≤ pairs) }
        ensures pairs { IfSome result (λ locks. locks ≡ locks_of pairs) }
        ensures number { IfSome result (λ locks. locks_number locks ≡ pairs) }
    {
        if pairs >= 1024 {
            return None;
        }
        let bits = u32::from(pairs);
        Some(Locks {
            kill_word: Pair::at(bits, Field::KillWord),
            access_word: Pair::at(bits, Field::AccessWord),
            epc: Pair::at(bits, Field::Epc),
            tid: Pair::at(bits, Field::Tid),
            user: Pair::at(bits, Field::User),
        })
    }

    /// The pairs as ten bits, in the order of [`Locks::from_bits`].
    pub fn bits(&self) -> u16
        ensures number { result ≡ locks_number self.now }
        ensures pairs { locks_of result ≡ self.now }
        ensures ten { result < 1024 }
    {
        256 * self.kill_word.number()
            + 64 * self.access_word.number()
            + 16 * self.epc.number()
            + 4 * self.tid.number()
            + self.user.number()
    }

    /// The pair of lock bits of this field (6.3.2.11.3.5 Lock).
    fn pair(&self, field: Field) -> Pair
        ensures { result ≡ lock_pair_of self.now field }
    {
        match field {
            Field::KillWord => self.kill_word,
            Field::AccessWord => self.access_word,
            Field::Epc => self.epc,
            Field::Tid => self.tid,
            Field::User => self.user,
        }
    }

    /// Whether a field may be read at this level. A password is readable where it is writable; the
    /// banks EPC, TID and User are always readable.
    pub fn may_read(&self, field: Field, level: Level) -> bool
        ensures { result ≡ may self.now field level Reading }
    {
        match field {
            Field::KillWord | Field::AccessWord => self.pair(field).allows(level),
            Field::Epc | Field::Tid | Field::User => true,
        }
    }

    /// Whether a field may be written at this level.
    pub fn may_write(&self, field: Field, level: Level) -> bool
        ensures { result ≡ may self.now field level Writing }
    {
        self.pair(field).allows(level)
    }

    /// Whether the payload would take the permalock of a field off.
    fn takes_permalock_off(&self, payload: u32, field: Field) -> bool
        ensures { result ≡ takes_permalock_off self.now payload field }
    {
        Pair::at(payload >> 10, field).permalock
            && !Pair::at(payload, field).permalock
            && self.pair(field).permalock
    }

    /// Whether the payload would take any permalock off.
    fn takes_any_permalock_off(&self, payload: u32) -> bool
        ensures { result ≡ takes_any_permalock_off self.now payload }
    {
        FIELDS
            .iter()
            .any(|field| self.takes_permalock_off(payload, *field))
    }

    /// The pair of a field after the payload.
    fn changed_field(&self, payload: u32, field: Field) -> Pair
        ensures { result ≡ pair_after_lock self.now payload field }
    {
        self.pair(field)
            .changed(Pair::at(payload >> 10, field), Pair::at(payload, field))
    }

    /// The pairs after a Lock with this payload, on a tag that has a User bank or has none. The first
    /// of these that applies (6.3.2.11.3.5 Lock; the codes are profile):
    ///
    /// 1. `Overrun` where the tag has no User bank and the payload's mask names it.
    /// 2. `Locked` where the payload would take the permalock of a field off.
    /// 3. Each permalocked field stays (profile, but for a payload that asserts the permalock again), and in
    ///    each other field each masked bit becomes its action bit.
    pub fn apply(&self, payload: Payload, has_user: bool) -> Result<Locks, ErrorCode>
        ensures { result ≡ locks_after self.now payload has_user }
    {
        let payload = payload.get();
        if !has_user && masks_user(payload) {
            return Err(ErrorCode::Overrun);
        }
        if self.takes_any_permalock_off(payload) {
            return Err(ErrorCode::Locked);
        }
        Ok(Locks {
            kill_word: self.changed_field(payload, Field::KillWord),
            access_word: self.changed_field(payload, Field::AccessWord),
            epc: self.changed_field(payload, Field::Epc),
            tid: self.changed_field(payload, Field::Tid),
            user: self.changed_field(payload, Field::User),
        })
    }
}
