// Numbers in decimal digits.
ghost use Rattle.nm_session.specs.Digits as spec;
ghost use Rattle.std.specs.Prelude.{◌≡◌, ◌≤◌, IfSome};

/// The number that decimal digits without a leading zero spell. `None` where there is no digit or
/// another byte, or the number is larger than `most`.
pub fn numeral_within(most: u64, digits: &[u8]) -> Option<u64>
    requires { most ≤ u32.MAX }
    ensures number { result ≡ spec.numeral_within most digits.now }
    ensures bound { IfSome result (λ number. number ≤ most) }
{
    if digits.is_empty() || (digits[0] == b'0' && digits.len() > 1) {
        return None;
    }
    number_within(most, digits)
}

/// The number that decimal digits spell. `None` where a byte is no digit, or the number is larger
/// than `most`.
fn number_within(most: u64, digits: &[u8]) -> Option<u64>
    requires { most ≤ u32.MAX }
    ensures { result ≡ spec.number_within most digits.now }
{
    let mut number = 0;
    for digit in digits {
        if !digit.is_ascii_digit() {
            return None;
        }
        number = number * 10 + u64::from(*digit - b'0');
        if number > most {
            return None;
        }
    }
    Some(number)
}
