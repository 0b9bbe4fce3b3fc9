//! Numbers in words.
ghost use Rattle.std.specs.Prelude.{◌≡◌, ◌≤◌, IfSome};
ghost use Rattle.command_line.specs.Number as spec;

// The number with one more digit. None where the byte is no digit, and where the number is more than `most`.
fn with_digit(number: u64, byte: u8, most: u64) -> Option<u64>
    ensures { result ≡ spec.with_digit most number byte }
{
    if !byte.is_ascii_digit() {
        return None;
    }
    let number = number.checked_mul(10)?.checked_add(u64::from(byte - b'0'))?;
    if number <= most { Some(number) } else { None }
}

// The number of these digits, where it is not more than `most`.
fn number_from(digits: &[u8], most: u64) -> Option<u64>
    ensures number { result ≡ spec.at_most most (spec.number_from 0 digits.now) }
    ensures few { IfSome result (λ number. number ≤ most) }
{
    let mut number = 0;
    for byte in digits {
        number = with_digit(number, *byte, most)?;
    }
    Some(number)
}

// The number of a text, where it is not more than `most`.
fn number_of(text: &[u8], most: u64) -> Option<u64>
    ensures number { result ≡ spec.at_most most (spec.number_of text.now) }
    ensures few { IfSome result (λ number. number ≤ most) }
{
    match text {
        [] | [b'0', _, ..] => None,
        digits => number_from(digits, most),
    }
}

/// The number of a text of decimal digits without sign or leading zero, where it lies between these. None for every other text.
pub fn number_in(text: &[u8], least: u64, most: u64) -> Option<u64>
    ensures number { result ≡ spec.number_in least most text.now }
    ensures few { IfSome result (λ number. number ≤ most) }
{
    let number = number_of(text, most)?;
    if least <= number { Some(number) } else { None }
}
