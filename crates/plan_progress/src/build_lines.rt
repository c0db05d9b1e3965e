//! The format of a build's text.

ghost use Rattle.std.specs.Prelude.{◌≡◌, ◌++◌, ◌∷◌, [], ℕ, List, IfOk, IfSome, OnErr, option_map};
ghost use Rattle.plan_verify.specs.Tables.{first_output};
ghost use Rattle.plan_status.specs.Outcomes.{or_empty};
ghost use Rattle.plan_image.specs.declared.image.Parts.{Parts as Tables};
ghost use Rattle.plan_machine.specs.declared.event.Mark.{Mark as Told};
ghost use Rattle.plan_progress.specs.BuildLines as defined;
ghost use Rattle.plan_progress.specs.BuildLines.{look_of};

use crate::counting::{counted, ended, is_end, no_counts};
use crate::counts::Counts;
use crate::display::Display;
use crate::failures::failure_text;
use crate::line_feeds::{is_open, joined, stays_open};
use crate::lines::{concatenate, mark_line, still_line, success_output};
use crate::names::{first_output, is_console};
use crate::outputs::Outputs;
use crate::pace::{Pace, recent_rate, times_then};
use crate::running::running_then;
use crate::stopwatch::Stopwatch;
use crate::template::at_start;
use plan_image::Image;
use plan_machine::Mark;
use plan_status::Format;
use plan_verify::Verified;
use std::alloc::{AllocError, Global};

/// The text of a build: a line for each command that ended, with its output, and a line of counts at the end. On a
/// terminal also a line for each command that starts. A console command has its line only when it starts.
#[derive(Drop)]
pub struct BuildLines<'a, O> {
    outputs: &'a O,
    display: Display<'a>,
    /// The counts of the marks so far.
    counts: Counts,
    /// A progress line has no line feed after it yet.
    line_open: bool,
    /// The edges whose commands run.
    running: Vec<u32>,
    /// The times of the last commands that finished, in milliseconds.
    times: Vec<u64>,
}

impl<'a, O: Outputs + Stopwatch> BuildLines<'a, O> {
    /// Creates the format. When marks come, it takes the outputs of commands from `outputs`, and the time.
    pub fn new(alloc: Global, outputs: &'a O, display: Display<'a>) -> BuildLines<'a, O>
        ensures { look_of result.display ≡ look_of display.entry }
    {
        BuildLines {
            outputs,
            display,
            counts: no_counts(),
            line_open: false,
            running: Vec::new(alloc),
            times: Vec::new(alloc),
        }
    }

    /// Returns the counts of the marks so far.
    pub fn counts(&self) -> Counts
        ensures { result ≡ self.now.counts }
    {
        self.counts
    }
}

/// Takes the output of an edge. Returns None if nothing waits for the edge.
fn output_of<O: Outputs>(image: &Image, outputs: &O, edge: u32) -> Option<Vec<u8>>
    ensures { O.taken outputs.now (or_empty (first_output image.now edge)) (option_map (λ text. text.items) result) }
{
    outputs.take(first_output(image, edge))
}

/// Takes the output that belongs to a mark.
fn output_with<O: Outputs>(image: &Image, outputs: &O, mark: Mark) -> Option<Vec<u8>>
    ensures { defined.IsTaken (O.taken outputs.now) image.now mark (option_map (λ text. text.items) result) }
{
    match mark {
        Mark::Ended(edge, true) => output_of(image, outputs, edge),
        Mark::Failed(edge, _) => output_of(image, outputs, edge),
        _ => None,
    }
}

/// Tells whoever waits for it which text is printed before the console command of a mark begins.
fn announce<O: Outputs>(image: &Image, outputs: &O, mark: Mark, text: &[u8]) {
    match mark {
        Mark::Took(edge) if is_console(image, edge) => {
            outputs.begin_console(first_output(image, edge), text);
        }
        _ => {}
    }
}

/// Returns how many milliseconds have passed, if a mark may have a line, and otherwise 0.
fn elapsed_with<O: Stopwatch>(outputs: &O, mark: Mark) -> u64
    ensures { defined.IsTimed (O.showed outputs.now) mark result }
{
    match mark {
        Mark::Took(_) => outputs.elapsed(),
        Mark::Ended(_, true) => outputs.elapsed(),
        Mark::Failed(_, _) => outputs.elapsed(),
        _ => 0,
    }
}

/// Returns an output. Empty if there is none.
fn output_or_empty(alloc: Global, output: Option<Vec<u8>>) -> Vec<u8>
    ensures { result.items ≡ or_empty (option_map (λ text. text.items) output) }
{
    match output {
        Some(output) => output,
        None => Vec::new(alloc),
    }
}

/// Returns `n skipped`.
fn skipped_line(alloc: Global, n: u64) -> Result<Vec<u8>, AllocError>
    ensures { IfOk result (λ line. line.items ≡ defined.skipped_line n) }
{
    let n = n.to_string(alloc)?;
    concatenate(alloc, &[n.as_bytes(), b" skipped", b"\n"])
}

/// Returns `m not started`.
fn not_started_line(alloc: Global, m: u64) -> Result<Vec<u8>, AllocError>
    ensures { IfOk result (λ line. line.items ≡ defined.not_started_line m) }
{
    let m = m.to_string(alloc)?;
    concatenate(alloc, &[m.as_bytes(), b" not started", b"\n"])
}

/// Returns `n skipped, m not started`.
fn both_line(alloc: Global, n: u64, m: u64) -> Result<Vec<u8>, AllocError>
    ensures { IfOk result (λ line. line.items ≡ defined.both_line n m) }
{
    let n = n.to_string(alloc)?;
    let m = m.to_string(alloc)?;
    concatenate(
        alloc,
        &[
            n.as_bytes(),
            b" skipped, ",
            m.as_bytes(),
            b" not started",
            b"\n",
        ],
    )
}

/// Returns `n skipped, m not started`, without a part that is 0.
fn counts_line(alloc: Global, n: u64, m: u64) -> Result<Vec<u8>, AllocError>
    ensures { IfOk result (λ line. line.items ≡ defined.counts_line n m) }
{
    if n == 0 {
        if m == 0 {
            Ok(Vec::new(alloc))
        } else {
            not_started_line(alloc, m)
        }
    } else if m == 0 {
        skipped_line(alloc, n)
    } else {
        both_line(alloc, n, m)
    }
}

/// Checks whether all command edges have ended with this mark. Returns None if their number is too large for a `u64`.
fn is_last(image: &Image, total: u64, counts: Counts, mark: Mark) -> Option<bool>
    ensures { IfSome result (λ last. last ≡ defined.is_last image.now total counts mark) }
{
    match ended(counts) {
        Some(ended) => Some(is_end(image, mark) & (ended == total)),
        None => None,
    }
}

/// Returns the line of counts if the build ends. Empty if nothing ran, because only inputs are missing.
fn end_line(alloc: Global, last: bool, counts: Counts) -> Result<Vec<u8>, AllocError>
    ensures { IfOk result (λ line. line.items ≡ defined.end_line last counts) }
{
    if last & (0 < counts.tried) {
        counts_line(alloc, counts.skipped, counts.not_started)
    } else {
        Ok(Vec::new(alloc))
    }
}

/// Checks whether a console command begins with this mark.
fn begins_console(image: &Image, mark: Mark) -> bool
    ensures { result ≡ defined.begins_console image.now mark }
{
    match mark {
        Mark::Took(edge) => is_console(image, edge),
        _ => false,
    }
}

/// Returns the text of a mark below its line. An output may be long, so it is freed as soon as it was copied.
fn mark_text(
    alloc: Global,
    image: &Image,
    display: &Display<'_>,
    mark: Mark,
    output: Vec<u8>,
) -> Result<Vec<u8>, AllocError>
    ensures { IfOk result (λ text. text.items ≡ defined.mark_text (look_of display.now) image.now mark output.items) }
{
    match mark {
        Mark::Ended(edge, true) => {
            let shown = success_output(image, display.style, edge, &output);
            Ok(Vec::from_slice(alloc, shown)?)
        }
        Mark::Failed(edge, cause) => {
            failure_text(alloc, image, display.colours, edge, cause, &output)
        }
        _ => Ok(Vec::new(alloc)),
    }
}

/// Returns the text below a mark's line: its own, and that of the build's end.
fn text_below(
    alloc: Global,
    image: &Image,
    display: &Display<'_>,
    counts: Counts,
    last: bool,
    mark: Mark,
    output: Vec<u8>,
) -> Result<Vec<u8>, AllocError>
    ensures { IfOk result (λ text. text.items ≡ defined.text_below (look_of display.now) image.now counts last mark output.items) }
{
    let mut text = mark_text(alloc, image, display, mark, output)?;
    let end = end_line(alloc, last, counts)?;
    text.extend_from_slice(&end)?;
    Ok(text)
}

/// A text, and whether a progress line is open after it.
#[derive(Drop)]
struct Shown {
    text: Vec<u8>,
    line_open: bool,
}

/// Returns the own text of a mark that is shown at this pace. `line_open` says whether a progress
/// line is open before it.
fn own_text(
    alloc: Global,
    image: &Image,
    display: &Display<'_>,
    total: u64,
    pace: Pace,
    line_open: bool,
    counts: Counts,
    mark: Mark,
    output: Vec<u8>,
) -> Result<Shown, AllocError>
    ensures text { IfOk result (λ shown. shown.text.items ≡ defined.own_text (look_of display.now) image.now total pace line_open counts mark output.items) }
    ensures left { IfOk result (λ shown. shown.line_open ≡ defined.own_open (look_of display.now) image.now total pace line_open counts mark output.items) }
{
    let Some(last) = is_last(image, total, counts, mark) else {
        return Err(AllocError);
    };
    let line = mark_line(alloc, image, display, total, pace, counts, mark)?;
    let below = text_below(alloc, image, display, counts, last, mark, output)?;
    let now_open = is_open(display.on_terminal, line_open, &line);
    let closes = last | begins_console(image, mark);
    let text = joined(alloc, now_open, closes, &line, &below)?;
    let line_open = stays_open(now_open, closes, &below);
    Ok(Shown { text, line_open })
}

/// Returns the text of a mark after which these commands run.
fn text_with(
    alloc: Global,
    image: &Image,
    display: &Display<'_>,
    total: u64,
    pace: Pace,
    line_open: bool,
    counts: Counts,
    running: &[u32],
    mark: Mark,
    output: Vec<u8>,
) -> Result<Shown, AllocError>
    ensures text { IfOk result (λ shown. shown.text.items ≡ defined.text_with (look_of display.now) image.now total pace line_open counts running.now mark output.items) }
    ensures left { IfOk result (λ shown. shown.line_open ≡ defined.open_with (look_of display.now) image.now total pace line_open counts running.now mark output.items) }
{
    let own = own_text(
        alloc, image, display, total, pace, line_open, counts, mark, output,
    )?;
    let numbers = at_start(total, pace, counts);
    let still = still_line(alloc, image, display, numbers, mark, running)?;
    let line_open = is_open(display.on_terminal, own.line_open, &still);
    let mut text = own.text;
    text.extend_from_slice(&still)?;
    Ok(Shown { text, line_open })
}

impl<O: Outputs + Stopwatch> Format for BuildLines<'_, O> {
    ghost use Rattle.plan_progress.specs.BuildLines.{Look, TellsBuild, look_of};

    ghost Kept = { Look };

    ghost kept = { λ f. look_of f.display };

    ghost tells = { λ f. TellsBuild (O.taken f.outputs.now) (O.showed f.outputs.now) (look_of f.display) f.counts f.line_open f.running.items f.times.items };

    fn begin(&mut self) {
        self.counts = no_counts();
        self.line_open = false;
        self.running.clear();
        self.times.clear();
    }

    fn line(
        &mut self,
        alloc: Global,
        image: &Verified,
        total: u64,
        mark: Mark,
    ) -> Result<Vec<u8>, AllocError> {
        let image = image.image();
        let Some(counts) = counted(image, self.counts, mark) else {
            return Err(AllocError);
        };
        let running = running_then(alloc, &self.running, mark)?;
        let elapsed = elapsed_with(self.outputs, mark);
        let times = times_then(alloc, image, &self.times, mark, elapsed)?;
        let rate = recent_rate(&times)?;
        let pace = Pace { elapsed, rate };
        let output = output_with(image, self.outputs, mark);
        let output = output_or_empty(alloc, output);
        let (display, was_open) = (self.display, self.line_open);
        let shown = text_with(
            alloc, image, &display, total, pace, was_open, counts, &running, mark, output,
        )?;
        announce(image, self.outputs, mark, &shown.text);
        self.counts = counts;
        self.line_open = shown.line_open;
        self.running = running;
        self.times = times;
        Ok(shown.text)
    }
}
