//! Reads numbers in the form that a trace has.

ghost use Rattle.std.specs.Prelude.{◌≡◌};
ghost use Rattle.plan_trace.specs.Words as defined;

use plan_text::number_in;

/// Returns the number of a word in decimal digits without leading zeros. Returns None if the word has another
/// form, or the number is greater than `most`.
pub(crate) fn number_of(word: &[u8], most: u64) -> Option<u64>
    ensures { result ≡ defined.number_of most word.now }
{
    let number = number_in(word, most)?;
    let mut digits = itoa::Buffer::new();
    if word == digits.format(number).as_bytes() {
        Some(number)
    } else {
        None
    }
}

/// Returns a number of 32 bits, such as that of an edge.
pub(crate) fn short_number_of(word: &[u8]) -> Option<u32>
    ensures { result ≡ defined.number_of 4294967295 word.now }
{
    match number_of(word, 4_294_967_295) {
        Some(number) => Some(number as u32),
        None => None,
    }
}
