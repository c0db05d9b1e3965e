//! Reads words one after another.

ghost use Rattle.std.specs.Prelude.{◌≡◌, ◌++◌, ◌∷◌, [], IfOk, OnOk, drop, map};
ghost use Rattle.plan_options.specs.Reading as defined;

use crate::argument::{Argument, Misuse};
use crate::expected::{Expected, after, after_value};
use crate::form::{Form, form_of};
use crate::letters::{copy_text, read_letters};
use crate::long_option::long_argument;
use plan_text::Memory;
use std::alloc::Global;

/// Appends the argument of a word that begins with two hyphens, and returns the kind of the next word.
fn read_long(alloc: Global, word: &[u8], read: &mut Vec<Argument>) -> Result<Expected, Memory>
    ensures read { IfOk result (λ e. (read.new.items ≡ read.old.items ++ defined.long_argument word.now ∷ []) × (e ≡ defined.after (defined.long_argument word.now))) }
{
    let argument = long_argument(alloc, word)?;
    let next = after(&argument);
    read.push(argument)?;
    Ok(next)
}

/// Returns a word without its first byte.
pub(crate) fn past_hyphen(word: &[u8]) -> &[u8]
    ensures { result.now ≡ drop 1 word.now }
{
    match word {
        [_, letters @ ..] => letters,
        [] => word,
    }
}

/// Appends the arguments of a word that is an option or a target, and returns the kind of the next word.
fn read_any(alloc: Global, word: &[u8], read: &mut Vec<Argument>) -> Result<Expected, Memory>
    ensures read { IfOk result (λ e. (read.new.items ≡ read.old.items ++ defined.of_form (defined.form_of word.now) word.now) × (e ≡ defined.after_form (defined.form_of word.now) word.now)) }
{
    match form_of(word) {
        Form::Name => {
            read.push(Argument::Target(copy_text(alloc, word)?))?;
            Ok(Expected::Any)
        }
        Form::Dashes => Ok(Expected::Target),
        Form::Long => read_long(alloc, word, read),
        Form::Letters => read_letters(alloc, past_hyphen(word), read),
    }
}

/// Appends the arguments of a word of this kind, and returns the kind of the next word.
fn read_word(
    alloc: Global,
    expected: Expected,
    word: &[u8],
    read: &mut Vec<Argument>,
) -> Result<Expected, Memory>
    ensures read { IfOk result (λ e. (read.new.items ≡ read.old.items ++ defined.given expected word.now) × (e ≡ defined.next expected word.now)) }
{
    match expected {
        Expected::Any => read_any(alloc, word, read),
        Expected::Value(setting) => {
            read.push(Argument::Setting(setting, copy_text(alloc, word)?))?;
            Ok(after_value(setting))
        }
        Expected::Target => {
            read.push(Argument::Target(copy_text(alloc, word)?))?;
            Ok(Expected::Target)
        }
        Expected::ToolWord => {
            read.push(Argument::ToolWord(copy_text(alloc, word)?))?;
            Ok(Expected::ToolWord)
        }
        Expected::Nothing => Ok(Expected::Nothing),
    }
}

/// Appends a misuse if the value of an option is still expected at the end.
fn read_end(expected: Expected, read: &mut Vec<Argument>) -> Result<(), Memory>
    ensures read { OnOk result (read.new.items ≡ read.old.items ++ defined.at_end expected) }
{
    match expected {
        Expected::Value(setting) => {
            read.push(Argument::Misuse(Misuse::NeedsValue(setting)))?;
            Ok(())
        }
        _ => Ok(()),
    }
}

/// Returns the arguments in words.
pub(crate) fn arguments(alloc: Global, words: &[&[u8]]) -> Result<Vec<Argument>, Memory>
    ensures { IfOk result (λ read. read.items ≡ defined.reading (map (λ w. w.now) words.now)) }
{
    let mut read = Vec::new(alloc);
    let mut expected = Expected::Any;
    for at in 0..words.len() {
        expected = read_word(alloc, expected, words[at], &mut read)?;
    }
    read_end(expected, &mut read)?;
    Ok(read)
}
