//! The template of the text before a label, as ninja's `NINJA_STATUS`.

ghost use Rattle.std.specs.Prelude.{◌≡◌, IfOk, IfSome};
ghost use Rattle.std.specs.Fmt.{decimal};
ghost use Rattle.plan_progress.specs.Template as defined;

use crate::counts::Counts;
use crate::lines::concatenate;
use crate::numbers::Numbers;
use crate::pace::{Pace, per_ten_seconds};
use std::alloc::{AllocError, Global};

/// What a placeholder of a template stands for.
#[derive(Clone, Copy, PartialEq, Eq)]
pub enum Placeholder {
    /// A percent sign.
    Percent,
    /// The number of commands that have started.
    Started,
    /// The number of commands of the build.
    Total,
    /// The percentage of commands that have finished.
    Percentage,
    /// The number of commands that run.
    Running,
    /// The number of commands that have not started.
    Remaining,
    /// The number of commands that have finished.
    Finished,
    /// The seconds since the build began.
    Elapsed,
    /// The minutes and seconds since the build began.
    ElapsedClock,
    /// The seconds until the build ends, as predicted.
    Eta,
    /// The minutes and seconds until the build ends, as predicted.
    EtaClock,
    /// The number of commands that have finished in a second.
    Rate,
    /// The number of commands that finish in a second, by the last ones that did.
    Recent,
}

/// Returns the numbers of a line. `before` is the number of commands that had finished before the command of the line.
fn line_numbers(total: u64, pace: Pace, counts: Counts, before: u64) -> Numbers
    ensures { result ≡ defined.line_numbers total pace counts before }
{
    Numbers {
        started: counts.started,
        total: total.saturating_sub(counts.clean),
        running: counts.started.saturating_sub(before),
        finished: counts.finished,
        elapsed: pace.elapsed,
        recent: pace.rate,
    }
}

/// Returns the numbers when a command starts.
pub(crate) fn at_start(total: u64, pace: Pace, counts: Counts) -> Numbers
    ensures { result ≡ defined.at_start total pace counts }
{
    line_numbers(total, pace, counts, counts.finished)
}

/// Returns the numbers when a command has ended.
pub(crate) fn at_end(total: u64, pace: Pace, counts: Counts) -> Numbers
    ensures { result ≡ defined.at_end total pace counts }
{
    line_numbers(total, pace, counts, counts.finished.saturating_sub(1))
}

/// Returns the percentage of commands that have finished. None if a number is too large for a `u64`.
fn percentage(numbers: Numbers) -> Option<u64>
    ensures { IfSome result (λ n. n ≡ defined.percentage numbers) }
{
    if numbers.total == 0 {
        Some(0)
    } else {
        Some(numbers.finished.checked_mul(100)? / numbers.total)
    }
}

/// Returns the spaces before a number that is shown with three characters.
fn margin(number: u64) -> &'static [u8]
    ensures { result.now ≡ defined.margin number }
{
    if number < 10 {
        b"  "
    } else if number < 100 {
        b" "
    } else {
        &[]
    }
}

/// Returns a percentage with three characters and a percent sign.
fn percentage_text(alloc: Global, number: u64) -> Result<Vec<u8>, AllocError>
    ensures { IfOk result (λ text. text.items ≡ defined.percentage_text number) }
{
    let digits = number.to_string(alloc)?;
    concatenate(alloc, &[margin(number), digits.as_bytes(), b"%"])
}

/// Returns a number in decimal digits.
fn decimal(alloc: Global, number: u64) -> Result<Vec<u8>, AllocError>
    ensures { IfOk result (λ text. text.items ≡ decimal number) }
{
    let digits = number.to_string(alloc)?;
    Ok(Vec::from_slice(alloc, digits.as_bytes())?)
}

/// Returns the zeros before a number that is shown with three digits.
fn zeros(number: u64) -> &'static [u8]
    ensures { result.now ≡ defined.zeros number }
{
    if number < 10 {
        b"00"
    } else if number < 100 {
        b"0"
    } else {
        &[]
    }
}

/// Returns milliseconds as seconds.
fn seconds_text(alloc: Global, number: u64) -> Result<Vec<u8>, AllocError>
    ensures { IfOk result (λ text. text.items ≡ defined.seconds_text number) }
{
    let seconds = (number / 1000).to_string(alloc)?;
    let rest = number % 1000;
    let digits = rest.to_string(alloc)?;
    concatenate(
        alloc,
        &[seconds.as_bytes(), b".", zeros(rest), digits.as_bytes()],
    )
}

/// Returns the milliseconds until the build ends, if commands go on as they did. None before a command has finished,
/// and if the number is too large for a `u64`.
fn eta(numbers: Numbers) -> Option<u64>
    ensures { result ≡ defined.eta numbers }
{
    if numbers.finished == 0 {
        return None;
    }
    let left = numbers.total.saturating_sub(numbers.finished);
    let time = u128::from(numbers.elapsed) * u128::from(left) / u128::from(numbers.finished);
    if time <= u128::from(u64::MAX) {
        Some(time as u64)
    } else {
        None
    }
}

/// Returns a predicted time as seconds, or `?` if it isn't known.
fn eta_text(alloc: Global, eta: Option<u64>) -> Result<Vec<u8>, AllocError>
    ensures { IfOk result (λ text. text.items ≡ defined.eta_text eta) }
{
    match eta {
        Some(time) => seconds_text(alloc, time),
        None => Ok(Vec::from_slice(alloc, b"?".as_slice())?),
    }
}

/// Returns the zero before a number that is shown with two digits.
fn zero(number: u64) -> &'static [u8]
    ensures { result.now ≡ defined.zero number }
{
    if number < 10 { b"0" } else { &[] }
}

/// Returns seconds as `MINUTES:SECONDS`.
fn minutes_text(alloc: Global, number: u64) -> Result<Vec<u8>, AllocError>
    ensures { IfOk result (λ text. text.items ≡ defined.minutes_text number) }
{
    let (minutes, seconds) = (number / 60, number % 60);
    let before = minutes.to_string(alloc)?;
    let after = seconds.to_string(alloc)?;
    concatenate(
        alloc,
        &[
            zero(minutes),
            before.as_bytes(),
            b":",
            zero(seconds),
            after.as_bytes(),
        ],
    )
}

/// Returns seconds as `HOURS:MINUTES:SECONDS`.
fn hours_text(alloc: Global, number: u64) -> Result<Vec<u8>, AllocError>
    ensures { IfOk result (λ text. text.items ≡ defined.hours_text number) }
{
    let hours = (number / 3600).to_string(alloc)?;
    let rest = minutes_text(alloc, number % 3600)?;
    concatenate(alloc, &[hours.as_bytes(), b":", rest.as_slice()])
}

/// Returns milliseconds as a clock shows them, with hours or without.
fn clock_text(alloc: Global, hours: bool, number: u64) -> Result<Vec<u8>, AllocError>
    ensures { IfOk result (λ text. text.items ≡ defined.clock_text hours number) }
{
    if hours {
        hours_text(alloc, number / 1000)
    } else {
        minutes_text(alloc, number / 1000)
    }
}

/// Checks whether a predicted time is an hour or more.
fn is_long_eta(eta: Option<u64>) -> bool
    ensures { result ≡ defined.is_long_eta eta }
{
    match eta {
        Some(time) => time >= 3600000,
        None => false,
    }
}

/// Checks whether clocks show hours.
fn has_hours(numbers: Numbers) -> bool
    ensures { result ≡ defined.has_hours numbers }
{
    (numbers.elapsed >= 3600000) | is_long_eta(eta(numbers))
}

/// Returns a predicted time as a clock shows it, or `?` if it isn't known.
fn eta_clock_text(alloc: Global, hours: bool, eta: Option<u64>) -> Result<Vec<u8>, AllocError>
    ensures { IfOk result (λ text. text.items ≡ defined.eta_clock_text hours eta) }
{
    match eta {
        Some(time) => clock_text(alloc, hours, time),
        None => Ok(Vec::from_slice(alloc, b"?".as_slice())?),
    }
}

/// Returns tenths with one digit after the point.
fn tenths_text(alloc: Global, number: u64) -> Result<Vec<u8>, AllocError>
    ensures { IfOk result (λ text. text.items ≡ defined.tenths_text number) }
{
    let whole = (number / 10).to_string(alloc)?;
    let tenth = (number % 10).to_string(alloc)?;
    concatenate(alloc, &[whole.as_bytes(), b".", tenth.as_bytes()])
}

/// Returns the number of commands that have finished in a second, or `?` in the first millisecond.
fn rate_text(alloc: Global, numbers: Numbers) -> Result<Vec<u8>, AllocError>
    ensures { IfOk result (λ text. text.items ≡ defined.rate_text numbers) }
{
    if numbers.elapsed == 0 {
        return Ok(Vec::from_slice(alloc, b"?".as_slice())?);
    }
    match per_ten_seconds(numbers.finished, numbers.elapsed) {
        Some(number) => tenths_text(alloc, number),
        None => Err(AllocError),
    }
}

/// Returns the rate of the last commands, or `?` if it isn't known.
fn recent_text(alloc: Global, rate: Option<u64>) -> Result<Vec<u8>, AllocError>
    ensures { IfOk result (λ text. text.items ≡ defined.recent_text rate) }
{
    match rate {
        Some(rate) => tenths_text(alloc, rate),
        None => Ok(Vec::from_slice(alloc, b"?".as_slice())?),
    }
}

/// Checks whether this byte after a percent sign stands for the percentage.
fn is_percentage(byte: u8) -> bool
    ensures { result ≡ defined.is_percentage byte }
{
    (byte == b'p') | (byte == b'P')
}

/// Returns the placeholder of the byte after a percent sign. None if it is unknown.
fn placeholder_of(byte: u8) -> Option<Placeholder>
    ensures { result ≡ defined.placeholder_of byte }
{
    if byte == b'%' {
        Some(Placeholder::Percent)
    } else if byte == b's' {
        Some(Placeholder::Started)
    } else if byte == b't' {
        Some(Placeholder::Total)
    } else if is_percentage(byte) {
        Some(Placeholder::Percentage)
    } else if byte == b'r' {
        Some(Placeholder::Running)
    } else if byte == b'u' {
        Some(Placeholder::Remaining)
    } else if byte == b'f' {
        Some(Placeholder::Finished)
    } else if byte == b'e' {
        Some(Placeholder::Elapsed)
    } else if byte == b'w' {
        Some(Placeholder::ElapsedClock)
    } else if byte == b'E' {
        Some(Placeholder::Eta)
    } else if byte == b'W' {
        Some(Placeholder::EtaClock)
    } else if byte == b'o' {
        Some(Placeholder::Rate)
    } else if byte == b'c' {
        Some(Placeholder::Recent)
    } else {
        None
    }
}

/// Returns the text of the percentage of commands that have finished.
fn finished_part(alloc: Global, numbers: Numbers) -> Result<Vec<u8>, AllocError>
    ensures { IfOk result (λ text. text.items ≡ defined.percentage_text (defined.percentage numbers)) }
{
    match percentage(numbers) {
        Some(number) => percentage_text(alloc, number),
        None => Err(AllocError),
    }
}

/// Returns the text of a placeholder.
fn placeholder_text(
    alloc: Global,
    placeholder: Placeholder,
    numbers: Numbers,
) -> Result<Vec<u8>, AllocError>
    ensures { IfOk result (λ text. text.items ≡ defined.placeholder_text placeholder numbers) }
{
    match placeholder {
        Placeholder::Percent => Ok(Vec::from_slice(alloc, b"%".as_slice())?),
        Placeholder::Started => decimal(alloc, numbers.started),
        Placeholder::Total => decimal(alloc, numbers.total),
        Placeholder::Percentage => finished_part(alloc, numbers),
        Placeholder::Running => decimal(alloc, numbers.running),
        Placeholder::Remaining => decimal(alloc, numbers.total.saturating_sub(numbers.started)),
        Placeholder::Finished => decimal(alloc, numbers.finished),
        Placeholder::Elapsed => seconds_text(alloc, numbers.elapsed),
        Placeholder::ElapsedClock => clock_text(alloc, has_hours(numbers), numbers.elapsed),
        Placeholder::Eta => eta_text(alloc, eta(numbers)),
        Placeholder::EtaClock => eta_clock_text(alloc, has_hours(numbers), eta(numbers)),
        Placeholder::Rate => rate_text(alloc, numbers),
        Placeholder::Recent => recent_text(alloc, numbers.recent),
    }
}

/// Returns the text of the byte after a percent sign. Empty if it is an unknown placeholder.
fn escaped_text(alloc: Global, byte: u8, numbers: Numbers) -> Result<Vec<u8>, AllocError>
    ensures { IfOk result (λ text. text.items ≡ defined.text_if_known (defined.placeholder_of byte) numbers) }
{
    match placeholder_of(byte) {
        Some(placeholder) => placeholder_text(alloc, placeholder, numbers),
        None => Ok(Vec::new(alloc)),
    }
}

/// Returns the text of a byte of a template.
fn byte_text(
    alloc: Global,
    escaped: bool,
    byte: u8,
    numbers: Numbers,
) -> Result<Vec<u8>, AllocError>
    ensures { IfOk result (λ text. text.items ≡ defined.byte_text escaped byte numbers) }
{
    if escaped {
        escaped_text(alloc, byte, numbers)
    } else if byte == b'%' {
        Ok(Vec::new(alloc))
    } else {
        let mut text = Vec::new(alloc);
        text.push(byte)?;
        Ok(text)
    }
}

/// Checks whether the byte after this one is escaped.
fn escapes(escaped: bool, byte: u8) -> bool
    ensures { result ≡ defined.escapes escaped byte }
{
    !escaped & (byte == b'%')
}

/// Returns the text that a template gives for numbers.
pub(crate) fn template_text(
    alloc: Global,
    template: &[u8],
    numbers: Numbers,
) -> Result<Vec<u8>, AllocError>
    ensures { IfOk result (λ text. text.items ≡ defined.template_text template.now numbers) }
{
    let mut text = Vec::new(alloc);
    let mut escaped = false;
    for byte in template {
        let part = byte_text(alloc, escaped, *byte, numbers)?;
        text.extend_from_slice(&part)?;
        escaped = escapes(escaped, *byte);
    }
    Ok(text)
}

/// Checks whether a byte of a template is an unknown placeholder.
fn is_unknown(escaped: bool, byte: u8) -> bool
    ensures { result ≡ defined.is_unknown escaped byte }
{
    escaped & placeholder_of(byte).is_none()
}

/// Returns the first byte of a template that comes after a percent sign and is no placeholder. If the template ends
/// with a percent sign, the byte is 0. Returns None if all placeholders are known.
pub fn unknown_placeholder(template: &[u8]) -> Option<u8>
    ensures { result ≡ defined.unknown_placeholder template.now }
{
    let mut escaped = false;
    for byte in template {
        if is_unknown(escaped, *byte) {
            return Some(*byte);
        }
        escaped = escapes(escaped, *byte);
    }
    if escaped { Some(0) } else { None }
}
