//! A hash of a text that reads eight bytes at a time.

ghost use Rattle.std.specs.Prelude.{◌≡◌, ◌/◌, fold, length};
ghost use Rattle.plan_text.specs.HashWords.{first_words, words};

use std::hash::Hasher;

/// The number of bytes that are passed to a hasher at once.
const WORD: usize = 8;

/// Feeds the whole eight-byte words of a text to a hasher.
fn feed_whole_words<H: Hasher>(text: &[u8], state: &mut H)
    ensures { state.new ≡ fold H.write state.old (first_words text.now (length text.now / 8)) }
{
    for number in 0..text.len() / WORD {
        let start = number * WORD;
        state.write(&text[start..start + WORD]);
    }
}

/// Feeds a text to a hasher, eight bytes at a time. The last write has the remaining 0 to 7 bytes.
///
/// The hasher of the standard library multiplies the bytes of a longer text by one another. If certain bytes
/// make such a product zero, all earlier bytes lose their effect on the hash. The hasher multiplies a single
/// word by a number that is never zero.
pub fn feed_words<H: Hasher>(text: &[u8], state: &mut H)
    ensures { state.new ≡ fold H.write state.old (words text.now) }
{
    feed_whole_words(text, state);
    state.write(&text[text.len() / WORD * WORD..]);
}
