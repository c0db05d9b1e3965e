//! Decimal numbers.

ghost use Rattle.std.specs.Prelude.{◌≡◌, ◌+◌, ◌-◌, ◌*◌, nat_le, if◌then◌else◌, Some, None};
ghost use Rattle.std.specs.List.{list_all};
ghost use Rattle.plan_text.specs.Numerals as numerals;

/// Returns whether each byte is a digit. An empty text passes.
fn is_all_digits(text: &[u8]) -> bool
    ensures { result ≡ list_all numerals.is_digit text.now }
{
    text.iter().all(|b| matches!(*b, b'0'..=b'9'))
}

/// Returns whether a text consists of one digit or more.
fn is_numeral(text: &[u8]) -> bool
    ensures { result ≡ numerals.is_numeral text.now }
{
    !text.is_empty() && is_all_digits(text)
}

/// Appends a decimal digit to a number. Returns None if the new number is greater than `most`.
fn with_digit(number: u64, digit: u8, most: u64) -> Option<u64>
    ensures { result ≡ (if nat_le (number * 10 + (digit - 48)) most then Some (number * 10 + (digit - 48)) else None) }
{
    let next = u128::from(number) * 10 + u128::from(digit.saturating_sub(b'0'));
    if next <= u128::from(most) {
        Some(next as u64)
    } else {
        None
    }
}

/// Returns the number that digits represent. Returns None if it is greater than `most`.
fn at_most(digits: &[u8], most: u64) -> Option<u64>
    ensures { result ≡ numerals.at_most most digits.now }
{
    let mut number = 0;
    for digit in digits {
        match with_digit(number, *digit, most) {
            Some(next) => number = next,
            None => return None,
        }
    }
    Some(number)
}

/// Returns the number that a text represents in decimal digits. Returns None if the text is empty, if it has
/// another byte than a digit, or if the number is greater than `most`. Leading zeros are allowed.
pub fn number_in(text: &[u8], most: u64) -> Option<u64>
    ensures { result ≡ numerals.number_in most text.now }
{
    if !is_numeral(text) {
        return None;
    }
    at_most(text, most)
}
