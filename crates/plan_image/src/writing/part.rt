//! Parts that have a spelling, printed one after another.

ghost use Rattle.std.specs.Prelude.{is_ok};
ghost use Rattle.std.specs.List.{AllByRecursion, flat_map};
ghost use Rattle.plan_image.specs.Printing.{Prints};

use crate::lister::WriteFault;
use crate::writing::held::{print_bytes, prints_join};
use plan_text::Sink;

/// A part that has a spelling.
pub(crate) trait Spelled {
    ghost use Rattle.std.specs.Prelude.{List, ℕ, is_ok};
    ghost use Rattle.plan_image.specs.Printing.{Prints};

    ghost spell: { Self → List ℕ };

    /// The numbers and lengths fit their fields.
    ghost fits: { Self → Type 0 };

    /// Prints the spelling. Stops at the first failed write.
    fn print<W: Sink>(&self, held: &mut Vec<u8>, out: &mut W) -> Result<(), WriteFault>
        requires { fits self.now }
        ensures { Prints (is_ok result) (held.old.items, (W.failures out.old, W.taken out.old)) (held.new.items, (W.failures out.new, W.taken out.new)) (spell self.now) };
}

/// Bytes that are printed unchanged.
#[derive(Drop)]
pub(crate) struct Bytes<'a>(pub &'a [u8]);

impl<'a> Spelled for Bytes<'a> {
    ghost spell = { λ b. b.0.now };

    ghost fits = { λ _. Unit {0} };

    fn print<W: Sink>(&self, held: &mut Vec<u8>, out: &mut W) -> Result<(), WriteFault> {
        print_bytes(self.0, held, out)
    }
}

/// One byte.
impl Spelled for u8 {
    ghost use Rattle.std.specs.Prelude.{◌∷◌, []};

    ghost spell = { λ b. b ∷ [] };

    ghost fits = { λ _. Unit {0} };

    fn print<W: Sink>(&self, held: &mut Vec<u8>, out: &mut W) -> Result<(), WriteFault> {
        print_bytes(&[*self], held, out)
    }
}

/// Two bytes, the most significant one first.
impl Spelled for u16 {
    ghost use Rattle.std.specs.Int.{to_be_bytes, w16};

    ghost spell = { to_be_bytes w16 };

    ghost fits = { λ _. Unit {0} };

    fn print<W: Sink>(&self, held: &mut Vec<u8>, out: &mut W) -> Result<(), WriteFault> {
        print_bytes(&self.to_be_bytes(), held, out)
    }
}

/// Four bytes, the most significant one first.
impl Spelled for u32 {
    ghost use Rattle.plan_image.specs.Spelling.{number};

    ghost spell = { number };

    ghost fits = { λ _. Unit {0} };

    fn print<W: Sink>(&self, held: &mut Vec<u8>, out: &mut W) -> Result<(), WriteFault> {
        print_bytes(&self.to_be_bytes(), held, out)
    }
}

/// One part followed by another.
impl<A: Spelled, B: Spelled> Spelled for (A, B) {
    ghost use Rattle.std.specs.Prelude.{◌++◌};

    ghost spell = { λ p. A.spell p.0 ++ B.spell p.1 };

    ghost fits = { λ p. A.fits p.0 × B.fits p.1 };

    fn print<W: Sink>(&self, held: &mut Vec<u8>, out: &mut W) -> Result<(), WriteFault> {
        prints_join();
        self.0.print(held, out)?;
        self.1.print(held, out)
    }
}

/// Each item, one after another.
#[derive(Drop)]
pub(crate) struct Each<'a, T>(pub &'a [T]);

impl<'a, T: Spelled> Spelled for Each<'a, T> {
    ghost use Rattle.std.specs.List.{AllByRecursion, flat_map};

    ghost spell = { λ e. flat_map T.spell e.0.now };

    ghost fits = { λ e. AllByRecursion T.fits e.0.now };

    fn print<W: Sink>(&self, held: &mut Vec<u8>, out: &mut W) -> Result<(), WriteFault> {
        print_items(self.0, held, out)
    }
}

fn print_items<T: Spelled, W: Sink>(
    items: &[T],
    held: &mut Vec<u8>,
    out: &mut W,
) -> Result<(), WriteFault>
    requires { AllByRecursion T.fits items.now }
    ensures { Prints (is_ok result) (held.old.items, (W.failures out.old, W.taken out.old)) (held.new.items, (W.failures out.new, W.taken out.new)) (flat_map T.spell items.now) }
{
    prints_join();
    for number in 0..items.len() {
        items[number].print(held, out)?;
    }
    Ok(())
}

/// The number of items, and then each item.
#[derive(Drop)]
pub(crate) struct Table<'a, T>(pub &'a [T]);

impl<'a, T: Spelled> Spelled for Table<'a, T> {
    ghost use Rattle.std.specs.Prelude.{◌<◌, ◌^◌, length};
    ghost use Rattle.std.specs.List.{AllByRecursion};
    ghost use Rattle.plan_image.specs.Spelling.{counted};

    ghost spell = { λ t. counted T.spell t.0.now };

    ghost fits = { λ t. (length t.0.now < 2 ^ 32) × AllByRecursion T.fits t.0.now };

    fn print<W: Sink>(&self, held: &mut Vec<u8>, out: &mut W) -> Result<(), WriteFault> {
        (self.0.len() as u32, Each(self.0)).print(held, out)
    }
}
