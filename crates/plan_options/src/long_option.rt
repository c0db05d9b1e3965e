//! Options that begin with `--`.

ghost use Rattle.std.specs.Prelude.{◌≡◌, ◌≤◌, IfOk, drop, length};
ghost use Rattle.std.specs.List.{prefix_len};
ghost use Rattle.plan_options.specs.LongOptions as defined;
ghost use Rattle.plan_options.specs.Reading as reading;

use crate::argument::{Argument, Flag, Misuse};
use crate::letters::copy_text;
use plan_text::Memory;
use std::alloc::Global;

/// The options that have a long name, in the order of ninja's table. `--about` is this program's own.
const NAMED: [Flag; 5] = [
    Flag::Help,
    Flag::Version,
    Flag::Verbose,
    Flag::Quiet,
    Flag::About,
];

/// Returns the long name of an option without the hyphens. It is empty if the option has none.
pub fn name_of(flag: Flag) -> &'static [u8]
    ensures { result.now ≡ defined.name_of flag }
{
    match flag {
        Flag::Help => b"help",
        Flag::Version => b"version",
        Flag::Verbose => b"verbose",
        Flag::Quiet => b"quiet",
        Flag::About => b"about",
        Flag::DryRun => b"",
    }
}

/// Returns the options whose long names begin with this text.
///
/// # Errors
///
/// `Memory` if memory runs out.
pub fn flags_named(alloc: Global, front: &[u8]) -> Result<Vec<Flag>, Memory>
    ensures { IfOk result (λ flags. flags.items ≡ defined.flags_named front.now) }
{
    let mut found = Vec::new(alloc);
    for at in 0..NAMED.len() {
        if name_of(NAMED[at]).starts_with(front) {
            found.push(NAMED[at])?;
        }
    }
    Ok(found)
}

/// Returns the number of bytes of a long option before a `=`.
fn name_len(option: &[u8]) -> usize
    ensures len { result ≡ prefix_len defined.is_in_name option.now }
    ensures within { result ≤ length option.now }
{
    option.iter().take_while(|b| **b != b'=').count()
}

/// Returns the part of a long option before a `=`.
fn name_in(option: &[u8]) -> &[u8]
    ensures { result.now ≡ defined.name_in option.now }
{
    &option[..name_len(option)]
}

/// Returns the rest of a long option: `=` and a value, or an empty text if it gives none.
fn value_in(option: &[u8]) -> &[u8]
    ensures { result.now ≡ defined.value_in option.now }
{
    &option[name_len(option)..]
}

/// Returns a word without its first two bytes.
fn past_hyphens(word: &[u8]) -> &[u8]
    ensures { result.now ≡ drop 2 word.now }
{
    match word {
        [_, _, option @ ..] => option,
        _ => b"",
    }
}

/// Returns the name in a word that begins with two hyphens: the bytes after them, up to a `=`. Any other word has an
/// empty name.
pub fn long_name_in(word: &[u8]) -> &[u8]
    ensures { result.now ≡ defined.name_in (drop 2 word.now) }
{
    name_in(past_hyphens(word))
}

/// Returns the argument of a word that names an option without a value. `value` is the text after the name. If it isn't
/// empty, the word is misused.
fn without_value(flag: Flag, value: &[u8]) -> Argument
    ensures { result ≡ reading.without_value flag value.now }
{
    match value {
        [] => Argument::Flag(flag),
        [_, ..] => Argument::Misuse(Misuse::TakesNoValue(flag)),
    }
}

/// Returns the argument of a word whose name may mean these options. `value` is the text after the name.
fn only(alloc: Global, flags: &[Flag], word: &[u8], value: &[u8]) -> Result<Argument, Memory>
    ensures { IfOk result (λ a. a ≡ reading.only flags.now word.now value.now) }
{
    match flags {
        [] => Ok(Argument::Misuse(Misuse::UnknownName(copy_text(alloc, word)?))),
        [flag] => Ok(without_value(*flag, value)),
        _ => Ok(Argument::Misuse(Misuse::Ambiguous(copy_text(alloc, word)?))),
    }
}

/// Returns the argument of a word that begins with two hyphens.
pub(crate) fn long_argument(alloc: Global, word: &[u8]) -> Result<Argument, Memory>
    ensures { IfOk result (λ a. a ≡ reading.long_argument word.now) }
{
    let flags = flags_named(alloc, long_name_in(word))?;
    only(alloc, &flags, word, value_in(past_hyphens(word)))
}
