//! Writes each item of a list.

ghost use Rattle.std.specs.Prelude.{is_ok};
ghost use Rattle.plan_text.specs.Sinks.{Writes};
ghost use Rattle.plan_image.specs.Listing.{bytes_line, numbered};

use crate::lister::part::{Line, Number, Part, Spaced, Word, WriteFault};
use crate::lister::value::Hex;
use plan_text::{RowList, Sink, writes_join};

/// An item of a list that can be written, given its number.
pub(crate) trait Listed {
    ghost use Rattle.std.specs.Prelude.{List, ℕ, is_ok};
    ghost use Rattle.plan_text.specs.Sinks.{Writes};

    ghost lines: { ℕ → Self → List ℕ };

    fn write<W: Sink>(&self, number: usize, out: &mut W) -> Result<(), WriteFault>
        ensures { Writes (is_ok result) (W.failures out.old, W.taken out.old) (W.failures out.new, W.taken out.new) (lines number self.now) };
}

/// All items of a list, numbered from 0.
#[derive(Drop)]
pub(crate) struct Each<'a, T>(pub &'a [T]);

impl<'a, T: Listed> Part for Each<'a, T> {
    ghost use Rattle.plan_image.specs.Listing.{numbered};

    ghost text = { λ e. numbered T.lines 0 e.0.now };

    fn write<W: Sink>(&self, out: &mut W) -> Result<(), WriteFault> {
        write_items(self.0, out)
    }
}

fn write_items<T: Listed, W: Sink>(items: &[T], out: &mut W) -> Result<(), WriteFault>
    ensures { Writes (is_ok result) (W.failures out.old, W.taken out.old) (W.failures out.new, W.taken out.new) (numbered T.lines 0 items.now) }
{
    writes_join();
    for number in 0..items.len() {
        items[number].write(number, out)?;
    }
    Ok(())
}

/// Writes a line for each text of a table: a word, the number, and the bytes.
pub(crate) fn write_texts<W: Sink>(
    word: &[u8],
    texts: &RowList<u8>,
    out: &mut W,
) -> Result<(), WriteFault>
    ensures { Writes (is_ok result) (W.failures out.old, W.taken out.old) (W.failures out.new, W.taken out.new) (numbered (bytes_line word.now) 0 texts.now) }
{
    writes_join();
    for number in 0..texts.len() {
        let bytes = Hex(texts.row(number));
        Line(Spaced(Word(word), Spaced(Number(number as u64), bytes))).write(out)?;
    }
    Ok(())
}
