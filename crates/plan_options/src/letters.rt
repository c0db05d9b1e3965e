//! Options of one letter.

ghost use Rattle.std.specs.Prelude.{◌≡◌, ◌++◌, IfOk, drop};
ghost use Rattle.plan_options.specs.Letters as defined;
ghost use Rattle.plan_options.specs.Reading as reading;

use crate::argument::{Argument, Flag, Misuse, Setting};
use crate::expected::{Expected, after_value};
use plan_text::{Items, Memory};
use std::alloc::Global;

/// An option of one letter.
#[derive(Clone, Copy, PartialEq, Eq)]
pub(crate) enum Letter {
    /// It has no value.
    Flag(Flag),
    /// It has a value.
    Setting(Setting),
    /// No option has this letter.
    Unknown,
}

/// Returns the option with a letter.
pub(crate) fn letter_of(letter: u8) -> Letter
    ensures { result ≡ defined.letter_of letter }
{
    match letter {
        b'h' => Letter::Flag(Flag::Help),
        b'n' => Letter::Flag(Flag::DryRun),
        b'v' => Letter::Flag(Flag::Verbose),
        b'C' => Letter::Setting(Setting::Folder),
        b'd' => Letter::Setting(Setting::Mode),
        b'f' => Letter::Setting(Setting::Manifest),
        b'j' => Letter::Setting(Setting::Jobs),
        b'k' => Letter::Setting(Setting::Failures),
        b'l' => Letter::Setting(Setting::Load),
        b't' => Letter::Setting(Setting::Tool),
        b'w' => Letter::Setting(Setting::Warning),
        _ => Letter::Unknown,
    }
}

impl Setting {
    /// Returns the letter of the option.
    pub fn letter(self) -> u8
        ensures { result ≡ defined.letter_for self }
    {
        match self {
            Setting::Folder => b'C',
            Setting::Mode => b'd',
            Setting::Manifest => b'f',
            Setting::Jobs => b'j',
            Setting::Failures => b'k',
            Setting::Load => b'l',
            Setting::Tool => b't',
            Setting::Warning => b'w',
        }
    }
}

/// Copies a text.
pub(crate) fn copy_text(alloc: Global, bytes: &[u8]) -> Result<Items<u8>, Memory>
    ensures { IfOk result (λ text. text ≡ bytes.now) }
{
    Ok(Items::new(Vec::from_slice(alloc, bytes)?))
}

/// Reads the letters after an option with a value. If there are any, they are its value, and its argument is appended.
/// Returns the kind of the next word.
fn read_joined(
    alloc: Global,
    setting: Setting,
    value: &[u8],
    read: &mut Vec<Argument>,
) -> Result<Expected, Memory>
    ensures read { IfOk result (λ e. (read.new.items ≡ read.old.items ++ reading.joined setting value.now) × (e ≡ reading.after_joined setting value.now)) }
{
    match value {
        [] => Ok(Expected::Value(setting)),
        [_, ..] => {
            read.push(Argument::Setting(setting, copy_text(alloc, value)?))?;
            Ok(after_value(setting))
        }
    }
}

/// Appends the arguments of letters, and returns the kind of the next word.
pub(crate) fn read_letters(
    alloc: Global,
    letters: &[u8],
    read: &mut Vec<Argument>,
) -> Result<Expected, Memory>
    ensures read { IfOk result (λ e. (read.new.items ≡ read.old.items ++ reading.letters letters.now) × (e ≡ reading.after_letters letters.now)) }
{
    for at in 0..letters.len() {
        match letter_of(letters[at]) {
            Letter::Flag(flag) => read.push(Argument::Flag(flag))?,
            Letter::Setting(setting) => {
                return read_joined(alloc, setting, &letters[at + 1..], read);
            }
            Letter::Unknown => {
                read.push(Argument::Misuse(Misuse::UnknownLetter(letters[at])))?;
                return Ok(Expected::Nothing);
            }
        }
    }
    Ok(Expected::Any)
}
