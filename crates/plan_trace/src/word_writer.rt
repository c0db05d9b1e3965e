//! Writes words of a line after the words that it has so far. No function here takes memory.

ghost use Rattle.std.specs.Prelude.{◌∷◌, [], codes, is_ok, map};
ghost use Rattle.std.specs.Fmt.{decimal};
ghost use Rattle.plan_text.specs.Sinks.{Writes};
ghost use Rattle.plan_image.specs.Listing.{hex};
ghost use Rattle.plan_trace.specs.Spelling as defined;

use crate::hex::write_hex;
use plan_machine::{Recorded, Reply};
use plan_text::{Sink, SinkFault, write_all, writes_join};
use plan_verify::PathList;

/// Writes a space and a word.
fn write_word<W: Sink>(word: &[u8], out: &mut W) -> Result<(), SinkFault>
    ensures { Writes (is_ok result) (W.failures out.old, W.taken out.old) (W.failures out.new, W.taken out.new) (32 ∷ word.now) }
{
    writes_join();
    match write_all(out, b" ") {
        Ok(()) => write_all(out, word),
        Err(fault) => Err(fault),
    }
}

/// Writes a space and a number.
pub(crate) fn write_number<W: Sink>(number: u64, out: &mut W) -> Result<(), SinkFault>
    ensures { Writes (is_ok result) (W.failures out.old, W.taken out.old) (W.failures out.new, W.taken out.new) (32 ∷ decimal number) }
{
    let mut digits = itoa::Buffer::new();
    write_word(digits.format(number).as_bytes(), out)
}

/// Writes a space, and bytes as a word.
fn write_bytes<W: Sink>(bytes: &[u8], out: &mut W) -> Result<(), SinkFault>
    ensures { Writes (is_ok result) (W.failures out.old, W.taken out.old) (W.failures out.new, W.taken out.new) (32 ∷ hex bytes.now) }
{
    writes_join();
    match write_all(out, b" ") {
        Ok(()) => write_hex(bytes, out),
        Err(fault) => Err(fault),
    }
}

/// Writes a word and a number, each after a space.
fn write_numbered<W: Sink>(word: &[u8], number: u64, out: &mut W) -> Result<(), SinkFault>
    ensures { Writes (is_ok result) (W.failures out.old, W.taken out.old) (W.failures out.new, W.taken out.new) (defined.behind (word.now ∷ decimal number ∷ [])) }
{
    writes_join();
    match write_word(word, out) {
        Ok(()) => write_number(number, out),
        Err(fault) => Err(fault),
    }
}

/// Writes a word and bytes, each after a space.
fn write_worded<W: Sink>(word: &[u8], bytes: &[u8], out: &mut W) -> Result<(), SinkFault>
    ensures { Writes (is_ok result) (W.failures out.old, W.taken out.old) (W.failures out.new, W.taken out.new) (defined.behind (word.now ∷ hex bytes.now ∷ [])) }
{
    writes_join();
    match write_word(word, out) {
        Ok(()) => write_bytes(bytes, out),
        Err(fault) => Err(fault),
    }
}

/// Writes each path as a word after a space.
fn write_paths<W: Sink>(paths: &PathList, out: &mut W) -> Result<(), SinkFault>
    ensures { Writes (is_ok result) (W.failures out.old, W.taken out.old) (W.failures out.new, W.taken out.new) (defined.behind (map hex paths.now)) }
{
    writes_join();
    for number in 0..paths.len() {
        match write_bytes(paths.path(number), out) {
            Ok(()) => {}
            Err(fault) => return Err(fault),
        }
    }
    Ok(())
}

/// Writes bytes and paths, each as a word after a space.
fn write_listed<W: Sink>(bytes: &[u8], paths: &PathList, out: &mut W) -> Result<(), SinkFault>
    ensures { Writes (is_ok result) (W.failures out.old, W.taken out.old) (W.failures out.new, W.taken out.new) (defined.behind (hex bytes.now ∷ map hex paths.now)) }
{
    writes_join();
    match write_bytes(bytes, out) {
        Ok(()) => write_paths(paths, out),
        Err(fault) => Err(fault),
    }
}

/// Writes the parts of a record's entry, each word after a space.
fn write_entry<W: Sink>(
    basis: u64,
    command: &[u8],
    paths: &PathList,
    out: &mut W,
) -> Result<(), SinkFault>
    ensures { Writes (is_ok result) (W.failures out.old, W.taken out.old) (W.failures out.new, W.taken out.new) (defined.behind (codes "entry" ∷ decimal basis ∷ hex command.now ∷ map hex paths.now)) }
{
    writes_join();
    match write_numbered(b"entry", basis, out) {
        Ok(()) => write_listed(command, paths, out),
        Err(fault) => Err(fault),
    }
}

/// Writes a record's entry, each word after a space.
fn write_recorded<W: Sink>(recorded: &Recorded, out: &mut W) -> Result<(), SinkFault>
    ensures { Writes (is_ok result) (W.failures out.old, W.taken out.old) (W.failures out.new, W.taken out.new) (defined.behind (defined.recorded_words recorded.now)) }
{
    let command = recorded.command().as_slice();
    write_entry(recorded.basis(), command, recorded.paths(), out)
}

/// Writes a reply, each word after a space.
pub(crate) fn write_reply<W: Sink>(reply: &Reply, out: &mut W) -> Result<(), SinkFault>
    ensures { Writes (is_ok result) (W.failures out.old, W.taken out.old) (W.failures out.new, W.taken out.new) (defined.behind (defined.reply_words reply.now)) }
{
    match reply {
        Reply::Stamp(stamp) => write_numbered(b"stamp", *stamp, out),
        Reply::Entry(recorded) => write_recorded(recorded, out),
        Reply::Exit(status) => write_numbered(b"exit", u64::from(*status), out),
        Reply::Bytes(depfile) => write_worded(b"bytes", depfile.bytes(), out),
        Reply::Nothing => write_word(b"none", out),
        Reply::Signal => write_word(b"signal", out),
        Reply::NotStarted => write_word(b"notstarted", out),
        Reply::Kept => write_word(b"kept", out),
        Reply::Fault => write_word(b"fault", out),
    }
}
