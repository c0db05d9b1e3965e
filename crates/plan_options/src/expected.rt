//! The kinds of words that a command line may have next.

ghost use Rattle.std.specs.Prelude.{◌≡◌};
ghost use Rattle.plan_options.specs.Reading as reading;

use crate::argument::{Argument, Setting};

/// The kind of the next word.
#[derive(Clone, Copy, PartialEq, Eq)]
pub(crate) enum Expected {
    /// An option or a target.
    Any,
    /// The value of this option.
    Value(Setting),
    /// A target, because `--` was read.
    Target,
    /// A word of the tool.
    ToolWord,
    /// The word isn't read.
    Nothing,
}

/// Returns the kind of the word after the value of an option.
pub(crate) fn after_value(setting: Setting) -> Expected
    ensures { result ≡ reading.after_value setting }
{
    match setting {
        Setting::Tool => Expected::ToolWord,
        _ => Expected::Any,
    }
}

/// Returns the kind of the word after an argument.
pub(crate) fn after(argument: &Argument) -> Expected
    ensures { result ≡ reading.after argument.now }
{
    match argument {
        Argument::Misuse(_) => Expected::Nothing,
        _ => Expected::Any,
    }
}
