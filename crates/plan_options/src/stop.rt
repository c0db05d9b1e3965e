//! Arguments at which ninja ends before it does anything else.

ghost use Rattle.std.specs.Prelude.{◌≡◌, bytes_eq, map};
ghost use Rattle.plan_text.specs.Numerals.{is_digit};
ghost use Rattle.plan_options.specs.Integers.{integer_in};
ghost use Rattle.plan_options.specs.Stops as defined;

use crate::argument::{Argument, Flag, Setting};
use crate::integer::{Integer, integer_in, past_white};

/// The reason why ninja ends at an argument.
#[derive(Clone, Copy, PartialEq, Eq)]
pub enum Stop {
    /// The version is requested.
    Version,
    /// The list of options is requested.
    Help,
    /// The description of this program is requested.
    About,
    /// A word isn't understood.
    Misuse,
    /// The value of `-j` isn't a number, or is below 0.
    InvalidJobs,
    /// The value of `-k` isn't a number.
    InvalidFailures,
    /// The value of `-l` isn't a number.
    InvalidLoad,
    /// The list of debugging modes is requested.
    ModeList,
    /// There is no such debugging mode.
    UnknownMode,
    /// The list of warnings is requested.
    WarningList,
    /// There is no such warning.
    UnknownWarning,
}

/// The debugging modes of ninja 1.11.
const MODES: [&[u8]; 5] = [
    b"stats",
    b"explain",
    b"keepdepfile",
    b"keeprsp",
    b"nostatcache",
];

/// The warnings of ninja 1.11, each with its treatment.
const WARNINGS: [&[u8]; 6] = [
    b"dupbuild=err",
    b"dupbuild=warn",
    b"phonycycle=err",
    b"phonycycle=warn",
    b"depfilemulti=err",
    b"depfilemulti=warn",
];

/// Checks whether a text is one of these.
fn is_one_of(text: &[u8], names: &[&[u8]]) -> bool
    ensures { result ≡ defined.is_one_of text.now (map (λ n. n.now) names.now) }
{
    for at in 0..names.len() {
        if text == names[at] {
            return true;
        }
    }
    false
}

/// Checks whether a byte is a digit.
fn is_digit(b: u8) -> bool
    ensures { result ≡ is_digit b }
{
    matches!(b, b'0'..=b'9')
}

/// Returns a text after a sign, if it begins with one.
fn past_sign(text: &[u8]) -> &[u8]
    ensures { result.now ≡ defined.past_sign text.now }
{
    match text {
        [b'-' | b'+', rest @ ..] => rest,
        _ => text,
    }
}

/// Checks whether a text begins with a digit.
fn begins_with_digit(text: &[u8]) -> bool
    ensures { result ≡ defined.begins_with_digit text.now }
{
    match text {
        [first, ..] => is_digit(*first),
        [] => false,
    }
}

/// Checks whether a text begins with a digit, or with a point and a digit.
fn begins_with_decimal(text: &[u8]) -> bool
    ensures { result ≡ defined.begins_with_decimal text.now }
{
    match text {
        [b'.', rest @ ..] => begins_with_digit(rest),
        _ => begins_with_digit(text),
    }
}

/// Returns the reason why ninja ends at a flag, or `None` if it goes on.
fn stop_of_flag(flag: Flag) -> Option<Stop>
    ensures { result ≡ defined.stop_of_flag flag }
{
    match flag {
        Flag::Help => Some(Stop::Help),
        Flag::Version => Some(Stop::Version),
        Flag::About => Some(Stop::About),
        Flag::DryRun => None,
        Flag::Verbose => None,
        Flag::Quiet => None,
    }
}

/// Returns the reason why ninja ends at a value of `-j`, or `None` if it goes on.
fn stop_of_jobs(value: &[u8]) -> Option<Stop>
    ensures { result ≡ defined.stop_of_jobs (integer_in 64 value.now) }
{
    match integer_in(value, 64) {
        Some(Integer::AtLeastZero(_)) => None,
        _ => Some(Stop::InvalidJobs),
    }
}

/// Returns the reason why ninja ends at a value of `-k`, or `None` if it goes on.
fn stop_of_failures(value: &[u8]) -> Option<Stop>
    ensures { result ≡ defined.stop_of_failures (integer_in 64 value.now) }
{
    match integer_in(value, 64) {
        Some(_) => None,
        None => Some(Stop::InvalidFailures),
    }
}

/// Returns the reason why ninja ends at a value of `-l`, or `None` if it goes on.
fn stop_of_load(value: &[u8]) -> Option<Stop>
    ensures { result ≡ defined.stop_of_load value.now }
{
    if begins_with_decimal(past_sign(past_white(value))) {
        None
    } else {
        Some(Stop::InvalidLoad)
    }
}

/// Returns the reason why ninja ends at a value of `-d`, or `None` if it goes on.
fn stop_of_mode(value: &[u8]) -> Option<Stop>
    ensures { result ≡ defined.stop_of_mode value.now }
{
    if value == b"list".as_slice() {
        return Some(Stop::ModeList);
    }
    if is_one_of(value, &MODES) {
        None
    } else {
        Some(Stop::UnknownMode)
    }
}

/// Returns the reason why ninja ends at a value of `-w`, or `None` if it goes on.
fn stop_of_warning(value: &[u8]) -> Option<Stop>
    ensures { result ≡ defined.stop_of_warning value.now }
{
    if value == b"list".as_slice() {
        return Some(Stop::WarningList);
    }
    if is_one_of(value, &WARNINGS) {
        None
    } else {
        Some(Stop::UnknownWarning)
    }
}

/// Returns the reason why ninja ends at an option with a value, or `None` if it goes on.
fn stop_of_setting(setting: Setting, value: &[u8]) -> Option<Stop>
    ensures { result ≡ defined.stop_of_setting setting value.now }
{
    match setting {
        Setting::Jobs => stop_of_jobs(value),
        Setting::Failures => stop_of_failures(value),
        Setting::Load => stop_of_load(value),
        Setting::Mode => stop_of_mode(value),
        Setting::Warning => stop_of_warning(value),
        Setting::Folder => None,
        Setting::Manifest => None,
        Setting::Tool => None,
    }
}

/// Returns the reason why ninja ends at an argument, or `None` if it goes on.
pub fn stop_of(argument: &Argument) -> Option<Stop>
    ensures { result ≡ defined.stop_of argument.now }
{
    match argument {
        Argument::Flag(flag) => stop_of_flag(*flag),
        Argument::Setting(setting, value) => stop_of_setting(*setting, value.as_slice()),
        Argument::Target(_) => None,
        Argument::ToolWord(_) => None,
        Argument::Misuse(_) => Some(Stop::Misuse),
    }
}
