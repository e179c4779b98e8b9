//! Decimal digits with leading zeros.
ghost use Rattle.std.specs.Prelude.{◌≡◌, ◌+◌, ◌^◌, ◌<◌, ◌≤◌, length, IfSome, IfNone};
ghost use Rattle.std.specs.Fmt.{decimal};
ghost use Rattle.epc_sgtin.specs.Uri.{padded};
ghost use Rattle.epc_sgtin.specs.UriFaults.{AreDigits, is_digit};

/// Writes the last digits of a value, as many as there is room for.
pub(crate) fn write_digits(value: u64, digits: &mut [u8])
    ensures { digits.new ≡ padded value (length digits.old) }
{
    let mut rest = value;
    let mut place = digits.len();
    while place > 0 {
        place -= 1;
        digits[place] = b'0' + (rest % 10) as u8;
        rest /= 10;
    }
}

/// How many digits a value below 10 to the power of 12 has.
pub(crate) fn digit_count(value: u64) -> usize
    requires { value < 10 ^ 12 }
    ensures some { 1 ≤ result }
    ensures most { result ≤ 12 }
    ensures spelled { padded value result ≡ decimal value }
{
    let mut count = 1;
    let mut limit = 10;
    while limit <= value {
        count += 1;
        limit *= 10;
    }
    count
}

/// Whether a byte of a part of a URI is a decimal digit.
fn is_digit(byte: u8) -> bool
    ensures { result ≡ is_digit byte }
{
    matches!(byte, b'0'..=b'9')
}

/// The number that 1 to 12 digits write; none exactly where the bytes are no digits.
pub(crate) fn number_of(part: &[u8]) -> Option<u64>
    requires some { 1 ≤ length part.now }
    requires few { length part.now ≤ 12 }
    ensures digits { IfSome result (λ _. AreDigits part.now) }
    ensures below { IfSome result (λ number. number < 10 ^ length part.now) }
    ensures spelled { IfSome result (λ number. part.now ≡ padded number (length part.now)) }
    ensures none { IfNone result (¬ AreDigits part.now) }
{
    let mut number = 0;
    for byte in part {
        if !is_digit(*byte) {
            return None;
        }
        number = 10 * number + u64::from(*byte - b'0');
    }
    Some(number)
}
