//! Lock bits, read and written.
ghost use Rattle.std.specs.Prelude.{◌≡◌, ◌++◌, [], ◌∷◌, Bool, IfSome, OnOk};
ghost use Rattle.std.specs.String.{string_bytes};
ghost use Rattle.text_fields.specs.Binary.{binary_digit};
ghost use Rattle.lock_rules.specs.declared.locks.Pair.{Pair};
ghost use Rattle.lock_rules.specs.declared.locks.Locks.{Locks};
ghost use Rattle.wire_text.specs.PasswordsAndLocks.{locks_text, pair_text};

use bit_strings::OutOfMemory;
use lock_rules::{Locks, Pair};

/// The bit of a binary digit.
fn bit_of(digit: u8) -> Option<bool>
    ensures value { IfSome result (λ bit. digit ≡ binary_digit bit) }
    ensures only { (bit : Bool) → digit ≡ binary_digit bit → result ≡ Some bit }
{
    match digit {
        b'0' => Some(false),
        b'1' => Some(true),
        _ => None,
    }
}

/// The pair of lock bits of two digits.
fn pair_of(first: u8, second: u8) -> Option<Pair>
    ensures value { IfSome result (λ pair. first ∷ second ∷ [] ≡ pair_text pair) }
    ensures only { (pair : Pair) → first ∷ second ∷ [] ≡ pair_text pair → result ≡ Some pair }
{
    let write_bit = bit_of(first)?;
    let permalock = bit_of(second)?;
    Some(Pair {
        write_bit,
        permalock,
    })
}

/// The lock bits that a field spells in ten digits.
pub fn locks_of(field: &[u8]) -> Option<Locks>
    ensures value { IfSome result (λ locks. field.now ≡ locks_text locks) }
    ensures only { (locks : Locks) → field.now ≡ locks_text locks → result ≡ Some locks }
{
    let [k0, k1, a0, a1, e0, e1, t0, t1, u0, u1] = field else {
        return None;
    };
    let kill_word = pair_of(*k0, *k1)?;
    let access_word = pair_of(*a0, *a1)?;
    let epc = pair_of(*e0, *e1)?;
    let tid = pair_of(*t0, *t1)?;
    let user = pair_of(*u0, *u1)?;
    Some(Locks {
        kill_word,
        access_word,
        epc,
        tid,
        user,
    })
}

/// The digits of a pair of lock bits, the write bit first.
fn pair_digits(pair: Pair) -> &'static str
    ensures { result.now ≡ pair_text pair }
{
    match (pair.write_bit, pair.permalock) {
        (false, false) => "00",
        (false, true) => "01",
        (true, false) => "10",
        (true, true) => "11",
    }
}

/// Writes the ten lock bits at the end of the text. After an error the text may hold a part of them.
pub fn push_locks(text: &mut String, locks: &Locks) -> Result<(), OutOfMemory>
    ensures { OnOk result (string_bytes text.new ≡ string_bytes text.old ++ locks_text locks.now) }
{
    text.push_str(pair_digits(locks.kill_word))?;
    text.push_str(pair_digits(locks.access_word))?;
    text.push_str(pair_digits(locks.epc))?;
    text.push_str(pair_digits(locks.tid))?;
    text.push_str(pair_digits(locks.user))
}
