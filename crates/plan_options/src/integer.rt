//! Numbers in values of options.

ghost use Rattle.std.specs.Prelude.{◌≡◌, ◌≤◌, length, option_map};
ghost use Rattle.std.specs.List.{list_all, prefix_len};
ghost use Rattle.plan_text.specs.Numerals as numerals;
ghost use Rattle.plan_options.specs.Integers as defined;

use plan_text::number_in;

/// A number in a value.
#[derive(Clone, Copy, PartialEq, Eq)]
pub enum Integer {
    /// It is below 0.
    Negative,
    /// It is this number. A number above the given maximum is replaced by the maximum.
    AtLeastZero(u32),
}

/// Checks whether C counts a byte as white space.
fn is_white(b: u8) -> bool
    ensures { result ≡ defined.is_white b }
{
    b == b' ' || (9 <= b && b <= 13)
}

/// Returns the number of bytes of white space that a text begins with.
fn white_len(text: &[u8]) -> usize
    ensures len { result ≡ prefix_len defined.is_white text.now }
    ensures within { result ≤ length text.now }
{
    text.iter().take_while(|b| is_white(**b)).count()
}

/// Returns a text after the white space that it begins with.
pub(crate) fn past_white(text: &[u8]) -> &[u8]
    ensures { result.now ≡ defined.past_white text.now }
{
    &text[white_len(text)..]
}

/// Checks whether each byte of a text is a digit.
fn is_all_digits(text: &[u8]) -> bool
    ensures { result ≡ list_all numerals.is_digit text.now }
{
    text.iter().all(|b| matches!(*b, b'0'..=b'9'))
}

/// Checks whether a text is one or more digits.
fn is_numeral(text: &[u8]) -> bool
    ensures { result ≡ numerals.is_numeral text.now }
{
    !text.is_empty() && is_all_digits(text)
}

/// Returns the number that digits mean, or `most` if the number is greater. Returns `None` if the text isn't digits.
fn magnitude(digits: &[u8], most: u32) -> Option<u32>
    ensures { result ≡ defined.magnitude most digits.now }
{
    if !is_numeral(digits) {
        return None;
    }
    match number_in(digits, u64::from(most)) {
        Some(number) => Some(number as u32),
        None => Some(most),
    }
}

/// Returns a number with a minus before it. Minus 0 is 0.
fn negative(number: Option<u32>) -> Option<Integer>
    ensures { result ≡ option_map defined.negative number }
{
    match number {
        Some(0) => Some(Integer::AtLeastZero(0)),
        Some(_) => Some(Integer::Negative),
        None => None,
    }
}

/// Returns a number without a minus.
fn at_least_zero(number: Option<u32>) -> Option<Integer>
    ensures { result ≡ option_map (λ n. Integer.AtLeastZero n) number }
{
    match number {
        Some(number) => Some(Integer::AtLeastZero(number)),
        None => None,
    }
}

/// Returns the number of digits that may have a sign before them.
fn signed_integer(text: &[u8], most: u32) -> Option<Integer>
    ensures { result ≡ defined.signed most text.now }
{
    match text {
        [] => None,
        [b'-', digits @ ..] => negative(magnitude(digits, most)),
        [b'+', digits @ ..] => at_least_zero(magnitude(digits, most)),
        _ => at_least_zero(magnitude(text, most)),
    }
}

/// Returns the decimal number in a text, as C's strtol reads it: white space and a sign may come before the digits.
/// Returns `most` if the number is greater, and 0 for an empty text. Returns `None` for any other text.
pub fn integer_in(text: &[u8], most: u32) -> Option<Integer>
    ensures { result ≡ defined.integer_in most text.now }
{
    match text {
        [] => Some(Integer::AtLeastZero(0)),
        _ => signed_integer(past_white(text), most),
    }
}
