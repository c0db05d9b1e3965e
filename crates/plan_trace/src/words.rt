//! Splits texts into lines and words.

ghost use Rattle.std.specs.Prelude.{◌≡◌, ◌<◌, ◌==◌, [], ◌∷◌, IfOk, IfSome, length, map};
ghost use Rattle.std.specs.List.{position_or_len};
ghost use Rattle.std.specs.Option.{IfNone};
ghost use Rattle.plan_trace.specs.Words.{parts_at};

use std::alloc::{AllocError, Global};

/// Returns the index of the first byte with this value. If the text has none, returns its length.
fn position_of(text: &[u8], at: u8) -> usize
    ensures { result ≡ position_or_len (λ b. b == at) text.now }
{
    text.iter().take_while(|b| **b != at).count()
}

/// Returns the text before the first byte with this value, and the text after it. Returns None if there is no
/// such byte.
pub(crate) fn cut_at(text: &[u8], at: u8) -> Option<(&[u8], &[u8])>
    ensures cut { IfSome result (λ x. parts_at at text.now ≡ x.0.now ∷ parts_at at x.1.now) }
    ensures shorter { IfSome result (λ x. length x.1.now < length text.now) }
    ensures whole { IfNone result (parts_at at text.now ≡ text.now ∷ []) }
{
    let len = position_of(text, at);
    if len >= text.len() {
        return None;
    }
    Some((&text[..len], &text[len + 1..]))
}

/// Returns the words of a line.
#[tactic(auto, using(crate::proofs::WordsLemmas::goes_on))]
pub(crate) fn words_of<'a>(alloc: Global, line: &'a [u8]) -> Result<Vec<&'a [u8]>, AllocError>
    ensures { IfOk result (λ words. map (λ word. word.now) words.items ≡ parts_at 32 line.now) }
{
    let mut words = Vec::new(alloc);
    let mut rest = line;
    while let Some((word, behind)) = cut_at(rest, b' ') {
        words.push(word)?;
        rest = behind;
    }
    words.push(rest)?;
    Ok(words)
}
