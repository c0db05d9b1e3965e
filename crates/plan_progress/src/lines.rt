//! The lines of a build.

ghost use Rattle.std.specs.Prelude.{◌≡◌, IfOk, map};
ghost use Rattle.std.specs.List.{concat};
ghost use Rattle.plan_status.specs.Outcomes.{or_empty};
ghost use Rattle.plan_progress.specs.BuildLines as defined;
ghost use Rattle.plan_progress.specs.BuildLines.{look_of};

use crate::counts::Counts;
use crate::display::Display;
use crate::edge_command::command_of;
use crate::eliding::elided;
use crate::names::{has_command, is_console, label_of};
use crate::numbers::Numbers;
use crate::pace::Pace;
use crate::style::Style;
use crate::template::{at_end, at_start, template_text};
use plan_image::Image;
use plan_machine::{Cause, Mark};
use std::alloc::{AllocError, Global};

/// Joins texts.
pub(crate) fn concatenate(alloc: Global, texts: &[&[u8]]) -> Result<Vec<u8>, AllocError>
    ensures { IfOk result (λ text. text.items ≡ concat (map (λ t. t.now) texts.now)) }
{
    let mut text = Vec::new(alloc);
    for part in texts {
        text.extend_from_slice(part)?;
    }
    Ok(text)
}

/// Returns a label after the text of a template.
fn progress(
    alloc: Global,
    template: &[u8],
    numbers: Numbers,
    label: &[u8],
) -> Result<Vec<u8>, AllocError>
    ensures { IfOk result (λ text. text.items ≡ defined.progress template.now numbers label.now) }
{
    let mut text = template_text(alloc, template, numbers)?;
    text.extend_from_slice(label)?;
    Ok(text)
}

/// Returns the line that is shown if the text isn't on a terminal.
fn progress_line(
    alloc: Global,
    template: &[u8],
    numbers: Numbers,
    label: &[u8],
) -> Result<Vec<u8>, AllocError>
    ensures { IfOk result (λ line. line.items ≡ defined.progress_line template.now numbers label.now) }
{
    let text = progress(alloc, template, numbers, label)?;
    concatenate(alloc, &[text.as_slice(), b"\n"])
}

/// Returns a text up to its first line feed.
fn first_line(alloc: Global, text: &[u8]) -> Result<Vec<u8>, AllocError>
    ensures { IfOk result (λ line. line.items ≡ defined.first_line text.now) }
{
    let mut line = Vec::new(alloc);
    for byte in text {
        if *byte == b'\n' {
            return Ok(line);
        }
        line.push(*byte)?;
    }
    Ok(line)
}

/// Returns the line that a terminal shows in place of the one before it.
fn terminal_line(
    alloc: Global,
    width: usize,
    template: &[u8],
    numbers: Numbers,
    label: &[u8],
) -> Result<Vec<u8>, AllocError>
    ensures { IfOk result (λ line. line.items ≡ defined.terminal_line width template.now numbers label.now) }
{
    let label = first_line(alloc, label)?;
    let text = progress(alloc, template, numbers, &label)?;
    let text = elided(alloc, width, &text)?;
    concatenate(
        alloc,
        &[b"\r\x1b[K\x1b[?7l".as_slice(), text.as_slice(), b"\x1b[?7h"],
    )
}

/// Returns the line with this label.
fn shown_line(
    alloc: Global,
    display: &Display<'_>,
    numbers: Numbers,
    label: &[u8],
) -> Result<Vec<u8>, AllocError>
    ensures { IfOk result (λ line. line.items ≡ defined.shown_line (look_of display.now) numbers label.now) }
{
    if display.on_terminal {
        terminal_line(alloc, display.width, display.template, numbers, label)
    } else {
        progress_line(alloc, display.template, numbers, label)
    }
}

/// Returns the line with the command of an edge.
fn line_by_command(
    alloc: Global,
    image: &Image,
    display: &Display<'_>,
    numbers: Numbers,
    edge: u32,
) -> Result<Vec<u8>, AllocError>
    ensures { IfOk result (λ line. line.items ≡ defined.styled_line Style.Commands (look_of display.now) image.now numbers edge) }
{
    match command_of(image, edge) {
        Ok(command) => shown_line(alloc, display, numbers, command),
        Err(fault) => Err(fault),
    }
}

/// Returns the line that a style has for a command edge.
fn styled_line(
    alloc: Global,
    image: &Image,
    style: Style,
    display: &Display<'_>,
    numbers: Numbers,
    edge: u32,
) -> Result<Vec<u8>, AllocError>
    ensures { IfOk result (λ line. line.items ≡ defined.styled_line style (look_of display.now) image.now numbers edge) }
{
    match style {
        Style::Labels => shown_line(alloc, display, numbers, label_of(image, edge)),
        Style::Commands => line_by_command(alloc, image, display, numbers, edge),
        Style::Failures => Ok(Vec::new(alloc)),
    }
}

/// Returns the line of an edge. Empty if the edge has no command.
fn edge_line(
    alloc: Global,
    image: &Image,
    display: &Display<'_>,
    numbers: Numbers,
    edge: u32,
) -> Result<Vec<u8>, AllocError>
    ensures { IfOk result (λ line. line.items ≡ defined.edge_line (look_of display.now) image.now numbers edge) }
{
    if has_command(image, edge) {
        styled_line(alloc, image, display.style, display, numbers, edge)
    } else {
        Ok(Vec::new(alloc))
    }
}

/// Returns the line of a command that starts to run. Empty if it isn't shown yet.
fn start_line(
    alloc: Global,
    image: &Image,
    display: &Display<'_>,
    numbers: Numbers,
    edge: u32,
) -> Result<Vec<u8>, AllocError>
    ensures { IfOk result (λ line. line.items ≡ defined.start_line (look_of display.now) image.now numbers edge) }
{
    if display.on_terminal | is_console(image, edge) {
        edge_line(alloc, image, display, numbers, edge)
    } else {
        Ok(Vec::new(alloc))
    }
}

/// Returns the line of a command that has ended. Empty for a console command, which had its line when it started.
fn ended_line(
    alloc: Global,
    image: &Image,
    display: &Display<'_>,
    numbers: Numbers,
    edge: u32,
) -> Result<Vec<u8>, AllocError>
    ensures { IfOk result (λ line. line.items ≡ defined.ended_line (look_of display.now) image.now numbers edge) }
{
    if is_console(image, edge) {
        Ok(Vec::new(alloc))
    } else {
        edge_line(alloc, image, display, numbers, edge)
    }
}

/// Returns the line of an edge that failed. Empty if an input is missing.
fn failure_line(
    alloc: Global,
    image: &Image,
    display: &Display<'_>,
    numbers: Numbers,
    edge: u32,
    cause: Cause,
) -> Result<Vec<u8>, AllocError>
    ensures { IfOk result (λ line. line.items ≡ defined.failure_line (look_of display.now) image.now numbers edge cause) }
{
    match cause {
        Cause::MissingInput(_) => Ok(Vec::new(alloc)),
        _ => ended_line(alloc, image, display, numbers, edge),
    }
}

/// Returns the line of a mark.
pub(crate) fn mark_line(
    alloc: Global,
    image: &Image,
    display: &Display<'_>,
    total: u64,
    pace: Pace,
    counts: Counts,
    mark: Mark,
) -> Result<Vec<u8>, AllocError>
    ensures { IfOk result (λ line. line.items ≡ defined.mark_line (look_of display.now) image.now total pace counts mark) }
{
    match mark {
        Mark::Took(edge) => start_line(alloc, image, display, at_start(total, pace, counts), edge),
        Mark::Ended(edge, true) => ended_line(
            alloc,
            image,
            display,
            at_end(total, pace, counts),
            edge,
        ),
        Mark::Failed(edge, cause) => {
            let numbers = at_end(total, pace, counts);
            failure_line(alloc, image, display, numbers, edge, cause)
        }
        _ => Ok(Vec::new(alloc)),
    }
}

/// Returns the line of the only command that still runs, on a terminal. Empty if others run or none, and for a console
/// command.
fn only_line(
    alloc: Global,
    image: &Image,
    display: &Display<'_>,
    numbers: Numbers,
    running: &[u32],
) -> Result<Vec<u8>, AllocError>
    ensures { IfOk result (λ line. line.items ≡ defined.only_line (look_of display.now) image.now numbers running.now) }
{
    match running {
        [] => Ok(Vec::new(alloc)),
        [edge] => {
            if display.on_terminal {
                ended_line(alloc, image, display, numbers, *edge)
            } else {
                Ok(Vec::new(alloc))
            }
        }
        [_, _, ..] => Ok(Vec::new(alloc)),
    }
}

/// Returns the line that is shown after the text of a mark, if a command ended and only one still runs.
pub(crate) fn still_line(
    alloc: Global,
    image: &Image,
    display: &Display<'_>,
    numbers: Numbers,
    mark: Mark,
    running: &[u32],
) -> Result<Vec<u8>, AllocError>
    ensures { IfOk result (λ line. line.items ≡ defined.still_line (look_of display.now) image.now numbers mark running.now) }
{
    match mark {
        Mark::Ended(_, true) => only_line(alloc, image, display, numbers, running),
        Mark::Failed(_, _) => only_line(alloc, image, display, numbers, running),
        _ => Ok(Vec::new(alloc)),
    }
}

/// Returns the output of a command that succeeded, as far as a style shows it.
fn styled_output(style: Style, output: &[u8]) -> &[u8]
    ensures { result.now ≡ defined.styled_output style output.now }
{
    match style {
        Style::Labels => output,
        Style::Commands => output,
        Style::Failures => &[],
    }
}

/// Returns the output of an edge that succeeded, as far as it is shown.
pub(crate) fn success_output<'a>(
    image: &Image,
    style: Style,
    edge: u32,
    output: &'a [u8],
) -> &'a [u8]
    ensures { result.now ≡ defined.success_output style image.now edge output.now }
{
    if has_command(image, edge) {
        styled_output(style, output)
    } else {
        &[]
    }
}

/// Returns the line with the command of an edge. Empty if the edge has none.
pub(crate) fn command_line(alloc: Global, image: &Image, edge: u32) -> Result<Vec<u8>, AllocError>
    ensures { IfOk result (λ line. line.items ≡ defined.command_line image.now edge) }
{
    if !has_command(image, edge) {
        return Ok(Vec::new(alloc));
    }
    match command_of(image, edge) {
        Ok(command) => concatenate(alloc, &[command, b"\n"]),
        Err(fault) => Err(fault),
    }
}
