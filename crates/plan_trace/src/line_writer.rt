//! Writes lines of a trace. No function here takes memory.

ghost use Rattle.std.specs.Prelude.{◌∷◌, ◌++◌, [], codes, is_ok};
ghost use Rattle.std.specs.Fmt.{decimal};
ghost use Rattle.plan_text.specs.Sinks.{Writes};
ghost use Rattle.plan_machine.specs.declared.event.Event.TheVariants.{Reply as Hear, Skip};
ghost use Rattle.plan_trace.specs.Spelling as defined;

use crate::word_writer::{write_number, write_reply};
use plan_machine::{Event, Options, Reply};
use plan_text::{Sink, SinkFault, write_all, writes_join};

/// Writes a word, which begins a line, and a number after a space.
fn write_begun<W: Sink>(word: &[u8], number: u64, out: &mut W) -> Result<(), SinkFault>
    ensures { Writes (is_ok result) (W.failures out.old, W.taken out.old) (W.failures out.new, W.taken out.new) (word.now ++ 32 ∷ decimal number) }
{
    writes_join();
    match write_all(out, word) {
        Ok(()) => write_number(number, out),
        Err(fault) => Err(fault),
    }
}

/// Writes a number after a space, and the end of the line.
fn write_last_number<W: Sink>(number: u64, out: &mut W) -> Result<(), SinkFault>
    ensures { Writes (is_ok result) (W.failures out.old, W.taken out.old) (W.failures out.new, W.taken out.new) (defined.behind (decimal number ∷ []) ++ 10 ∷ []) }
{
    writes_join();
    match write_number(number, out) {
        Ok(()) => write_all(out, b"\n"),
        Err(fault) => Err(fault),
    }
}

/// Writes a reply, each word after a space, and the end of the line.
fn write_last_reply<W: Sink>(reply: &Reply, out: &mut W) -> Result<(), SinkFault>
    ensures { Writes (is_ok result) (W.failures out.old, W.taken out.old) (W.failures out.new, W.taken out.new) (defined.behind (defined.reply_words reply.now) ++ 10 ∷ []) }
{
    writes_join();
    match write_reply(reply, out) {
        Ok(()) => write_all(out, b"\n"),
        Err(fault) => Err(fault),
    }
}

/// Writes a line of a word and a number.
fn write_short<W: Sink>(word: &[u8], number: u32, out: &mut W) -> Result<(), SinkFault>
    ensures { Writes (is_ok result) (W.failures out.old, W.taken out.old) (W.failures out.new, W.taken out.new) (defined.line (word.now ∷ decimal number ∷ [])) }
{
    writes_join();
    match write_all(out, word) {
        Ok(()) => write_last_number(u64::from(number), out),
        Err(fault) => Err(fault),
    }
}

/// Writes the line of an edge that is skipped because of another one.
fn write_skip<W: Sink>(edge: u32, wait: u32, out: &mut W) -> Result<(), SinkFault>
    ensures { Writes (is_ok result) (W.failures out.old, W.taken out.old) (W.failures out.new, W.taken out.new) (defined.event_line (Skip edge wait)) }
{
    writes_join();
    match write_begun(b"skip", u64::from(edge), out) {
        Ok(()) => write_last_number(u64::from(wait), out),
        Err(fault) => Err(fault),
    }
}

/// Writes the line of an edge that receives a reply.
fn write_heard<W: Sink>(edge: u32, reply: &Reply, out: &mut W) -> Result<(), SinkFault>
    ensures { Writes (is_ok result) (W.failures out.old, W.taken out.old) (W.failures out.new, W.taken out.new) (defined.event_line (Hear edge reply.now)) }
{
    writes_join();
    match write_begun(b"reply", u64::from(edge), out) {
        Ok(()) => write_last_reply(reply, out),
        Err(fault) => Err(fault),
    }
}

/// Writes the line of an event.
pub(crate) fn write_event<W: Sink>(event: &Event, out: &mut W) -> Result<(), SinkFault>
    ensures { Writes (is_ok result) (W.failures out.old, W.taken out.old) (W.failures out.new, W.taken out.new) (defined.event_line event.now) }
{
    match event {
        Event::Start(edge) => write_short(b"start", *edge, out),
        Event::Stop(edge) => write_short(b"stop", *edge, out),
        Event::Step(edge) => write_short(b"step", *edge, out),
        Event::Skip(edge, wait) => write_skip(*edge, *wait, out),
        Event::Reply(edge, reply) => write_heard(*edge, reply, out),
    }
}

/// Writes the line of a target.
pub(crate) fn write_target<W: Sink>(target: u32, out: &mut W) -> Result<(), SinkFault>
    ensures { Writes (is_ok result) (W.failures out.old, W.taken out.old) (W.failures out.new, W.taken out.new) (defined.target_line target) }
{
    write_short(b"target", target, out)
}

/// Writes the failure limit, and the end of the first line.
fn write_keep<W: Sink>(keep: u32, out: &mut W) -> Result<(), SinkFault>
    ensures { Writes (is_ok result) (W.failures out.old, W.taken out.old) (W.failures out.new, W.taken out.new) (defined.behind (codes "k" ∷ decimal keep ∷ []) ++ 10 ∷ []) }
{
    writes_join();
    match write_all(out, b" k") {
        Ok(()) => write_last_number(u64::from(keep), out),
        Err(fault) => Err(fault),
    }
}

/// Writes the first line.
pub(crate) fn write_options<W: Sink>(options: Options, out: &mut W) -> Result<(), SinkFault>
    ensures { Writes (is_ok result) (W.failures out.old, W.taken out.old) (W.failures out.new, W.taken out.new) (defined.line (defined.options_words options)) }
{
    writes_join();
    match write_begun(b"plan-trace 1 j", u64::from(options.jobs()), out) {
        Ok(()) => write_keep(options.keep(), out),
        Err(fault) => Err(fault),
    }
}
