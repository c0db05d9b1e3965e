//! The words of a tool.

ghost use Rattle.std.specs.Prelude.{◌≡◌, IfOk, map};
ghost use Rattle.plan_options.specs.ToolWords as defined;

use crate::form::{Form, form_of};
use crate::reader::past_hyphen;
use plan_text::Memory;
use std::alloc::Global;

/// Returns the letters of the options among the words of a tool, in their order. The word `--` ends the options.
///
/// # Errors
///
/// `Memory` if memory runs out.
pub fn option_letters(alloc: Global, words: &[&[u8]]) -> Result<Vec<u8>, Memory>
    ensures { IfOk result (λ letters. letters.items ≡ defined.option_letters (map (λ w. w.now) words.now)) }
{
    let mut letters = Vec::new(alloc);
    for at in 0..words.len() {
        match form_of(words[at]) {
            Form::Name => {}
            Form::Dashes => return Ok(letters),
            Form::Long | Form::Letters => letters.extend_from_slice(past_hyphen(words[at]))?,
        }
    }
    Ok(letters)
}

/// Returns the words of a tool that aren't options, in their order.
///
/// # Errors
///
/// `Memory` if memory runs out.
pub fn operands<'a>(alloc: Global, words: &[&'a [u8]]) -> Result<Vec<&'a [u8]>, Memory>
    ensures { IfOk result (λ names. map (λ n. n.now) names.items ≡ defined.operands (map (λ w. w.now) words.now)) }
{
    let mut names = Vec::new(alloc);
    for at in 0..words.len() {
        match form_of(words[at]) {
            Form::Name => names.push(words[at])?,
            Form::Dashes => {
                names.extend_from_slice(&words[at + 1..])?;
                return Ok(names);
            }
            Form::Long | Form::Letters => {}
        }
    }
    Ok(names)
}
