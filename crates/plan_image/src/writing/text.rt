//! Texts that are printed after their lengths.

ghost use Rattle.std.specs.Prelude.{is_ok};
ghost use Rattle.std.specs.List.{AllByRecursion, flat_map};
ghost use Rattle.plan_image.specs.Printing.{Prints};

use crate::lister::WriteFault;
use crate::writing::held::prints_join;
use crate::writing::part::{Bytes, Spelled};
use plan_text::{RowList, Sink};

/// A way to spell the texts of a table.
pub(crate) trait TextSpeller {
    ghost use Rattle.std.specs.Prelude.{List, ℕ, is_ok};
    ghost use Rattle.plan_image.specs.Printing.{Prints};

    ghost spell: { List ℕ → List ℕ };

    /// The length fits its field.
    ghost fits: { List ℕ → Type 0 };

    fn print<W: Sink>(text: &[u8], held: &mut Vec<u8>, out: &mut W) -> Result<(), WriteFault>
        requires { fits text.now }
        ensures { Prints (is_ok result) (held.old.items, (W.failures out.old, W.taken out.old)) (held.new.items, (W.failures out.new, W.taken out.new)) (spell text.now) };
}

/// Spells a text after a length of four bytes.
#[derive(Drop)]
pub(crate) struct Long;

impl TextSpeller for Long {
    ghost use Rattle.std.specs.Prelude.{◌<◌, ◌^◌, length};
    ghost use Rattle.plan_image.specs.Spelling.{long_text};

    ghost spell = { long_text };

    ghost fits = { λ t. length t < 2 ^ 32 };

    fn print<W: Sink>(text: &[u8], held: &mut Vec<u8>, out: &mut W) -> Result<(), WriteFault> {
        (text.len() as u32, Bytes(text)).print(held, out)
    }
}

/// Spells a text after a length of two bytes.
#[derive(Drop)]
pub(crate) struct Short;

impl TextSpeller for Short {
    ghost use Rattle.std.specs.Prelude.{◌<◌, ◌^◌, length};
    ghost use Rattle.plan_image.specs.Spelling.{short_text};

    ghost spell = { short_text };

    ghost fits = { λ t. length t < 2 ^ 16 };

    fn print<W: Sink>(text: &[u8], held: &mut Vec<u8>, out: &mut W) -> Result<(), WriteFault> {
        (text.len() as u16, Bytes(text)).print(held, out)
    }
}

/// A text, with the way to spell it.
#[derive(Drop)]
pub(crate) struct Text<'a, S>(pub &'a [u8], pub S);

impl<'a, S: TextSpeller> Spelled for Text<'a, S> {
    ghost spell = { λ t. S.spell t.0.now };

    ghost fits = { λ t. S.fits t.0.now };

    fn print<W: Sink>(&self, held: &mut Vec<u8>, out: &mut W) -> Result<(), WriteFault> {
        S::print(self.0, held, out)
    }
}

/// The number of texts, and then each text, with the way to spell them.
#[derive(Drop)]
pub(crate) struct Texts<'a, S>(pub &'a RowList<u8>, pub S);

impl<'a, S: TextSpeller> Spelled for Texts<'a, S> {
    ghost use Rattle.std.specs.Prelude.{◌<◌, ◌^◌, length};
    ghost use Rattle.std.specs.List.{AllByRecursion};
    ghost use Rattle.plan_image.specs.Spelling.{counted};

    ghost spell = { λ t. counted S.spell t.0.now };

    ghost fits = { λ t. (length t.0.now < 2 ^ 32) × AllByRecursion S.fits t.0.now };

    fn print<W: Sink>(&self, held: &mut Vec<u8>, out: &mut W) -> Result<(), WriteFault> {
        prints_join();
        (self.0.len() as u32).print(held, out)?;
        print_rows::<S, W>(self.0, held, out)
    }
}

fn print_rows<S: TextSpeller, W: Sink>(
    rows: &RowList<u8>,
    held: &mut Vec<u8>,
    out: &mut W,
) -> Result<(), WriteFault>
    requires { AllByRecursion S.fits rows.now }
    ensures { Prints (is_ok result) (held.old.items, (W.failures out.old, W.taken out.old)) (held.new.items, (W.failures out.new, W.taken out.new)) (flat_map S.spell rows.now) }
{
    prints_join();
    for number in 0..rows.len() {
        S::print(rows.row(number), held, out)?;
    }
    Ok(())
}
