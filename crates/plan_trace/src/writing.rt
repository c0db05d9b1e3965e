//! Writes traces. No function here takes memory.

ghost use Rattle.std.specs.Prelude.{◌++◌, is_ok};
ghost use Rattle.std.specs.List.{flat_map};
ghost use Rattle.plan_text.specs.Sinks.{Writes};
ghost use Rattle.plan_trace.specs.Spelling as defined;

use crate::line_writer::{write_event, write_options, write_target};
use crate::trace::Trace;
use plan_journal::{KeptJournal, ReadEvent};
use plan_machine::{Event, Options};
use plan_text::{Sink, SinkFault, writes_join};

/// Writes the lines of targets.
fn write_targets<W: Sink>(targets: &[u32], out: &mut W) -> Result<(), SinkFault>
    ensures { Writes (is_ok result) (W.failures out.old, W.taken out.old) (W.failures out.new, W.taken out.new) (flat_map defined.target_line targets.now) }
{
    writes_join();
    for target in targets {
        match write_target(*target, out) {
            Ok(()) => {}
            Err(fault) => return Err(fault),
        }
    }
    Ok(())
}

/// Writes the lines of events.
fn write_events<W: Sink>(events: &[Event], out: &mut W) -> Result<(), SinkFault>
    ensures { Writes (is_ok result) (W.failures out.old, W.taken out.old) (W.failures out.new, W.taken out.new) (flat_map defined.event_line events.now) }
{
    writes_join();
    for event in events {
        match write_event(event, out) {
            Ok(()) => {}
            Err(fault) => return Err(fault),
        }
    }
    Ok(())
}

/// Writes the line of an event that was read from a journal.
fn write_read<W: Sink>(event: ReadEvent<'_>, out: &mut W) -> Result<(), SinkFault>
    ensures { Writes (is_ok result) (W.failures out.old, W.taken out.old) (W.failures out.new, W.taken out.new) (defined.event_line event.entry) }
{
    write_event(event.event(), out)
}

/// Writes the lines of a journal's events.
fn write_journal<W: Sink>(journal: &KeptJournal, out: &mut W) -> Result<(), SinkFault>
    ensures { Writes (is_ok result) (W.failures out.old, W.taken out.old) (W.failures out.new, W.taken out.new) (flat_map defined.event_line journal.now) }
{
    writes_join();
    let mut rest = journal.events();
    while let Some((event, behind)) = rest.split_first() {
        match write_read(event, out) {
            Ok(()) => rest = behind,
            Err(fault) => return Err(fault),
        }
    }
    Ok(())
}

/// Writes the lines before those of the events.
fn write_head<W: Sink>(options: Options, targets: &[u32], out: &mut W) -> Result<(), SinkFault>
    ensures { Writes (is_ok result) (W.failures out.old, W.taken out.old) (W.failures out.new, W.taken out.new) (defined.line (defined.options_words options) ++ flat_map defined.target_line targets.now) }
{
    writes_join();
    match write_options(options, out) {
        Ok(()) => write_targets(targets, out),
        Err(fault) => Err(fault),
    }
}

/// Writes the text of the trace of a run with these options, targets and events. It takes no memory.
///
/// # Errors
///
/// A write failed. The sink then has taken some bytes from the front of the text.
pub fn write_run<W: Sink>(
    options: Options,
    targets: &[u32],
    journal: &KeptJournal,
    out: &mut W,
) -> Result<(), SinkFault>
    ensures { Writes (is_ok result) (W.failures out.old, W.taken out.old) (W.failures out.new, W.taken out.new) (defined.run_text options targets.now journal.now) }
{
    writes_join();
    match write_head(options, targets, out) {
        Ok(()) => write_journal(journal, out),
        Err(fault) => Err(fault),
    }
}

/// Writes the text of a trace, given its parts.
fn write_parts<W: Sink>(
    options: Options,
    targets: &[u32],
    events: &[Event],
    out: &mut W,
) -> Result<(), SinkFault>
    ensures { Writes (is_ok result) (W.failures out.old, W.taken out.old) (W.failures out.new, W.taken out.new) (defined.run_text options targets.now events.now) }
{
    writes_join();
    match write_head(options, targets, out) {
        Ok(()) => write_events(events, out),
        Err(fault) => Err(fault),
    }
}

/// Writes the text of a trace. It takes no memory.
///
/// # Errors
///
/// A write failed. The sink then has taken some bytes from the front of the text.
pub fn write_trace<W: Sink>(trace: &Trace, out: &mut W) -> Result<(), SinkFault>
    ensures { Writes (is_ok result) (W.failures out.old, W.taken out.old) (W.failures out.new, W.taken out.new) (defined.text_of trace.now) }
{
    write_parts(
        trace.options,
        trace.targets.as_slice(),
        trace.events.as_slice(),
        out,
    )
}
