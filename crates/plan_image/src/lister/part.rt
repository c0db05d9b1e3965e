//! Parts of a text that are written to a sink.

ghost use Rattle.std.specs.Prelude.{◌∷◌, is_ok};
ghost use Rattle.plan_text.specs.Sinks.{Writes};

use plan_text::{Sink, SinkFault, write_all, writes_join};

/// A failed write.
#[derive(Clone, Copy, PartialEq, Eq)]
pub struct WriteFault;

impl From<SinkFault> for WriteFault {
    fn from(_fault: SinkFault) -> WriteFault {
        WriteFault
    }
}

/// A part that has a text.
pub(crate) trait Part {
    ghost use Rattle.std.specs.Prelude.{List, ℕ, is_ok};
    ghost use Rattle.plan_text.specs.Sinks.{Writes};

    ghost text: { Self → List ℕ };

    /// Writes the text. Stops at the first failed write, and the sink then has taken the bytes before it.
    fn write<W: Sink>(&self, out: &mut W) -> Result<(), WriteFault>
        ensures { Writes (is_ok result) (W.failures out.old, W.taken out.old) (W.failures out.new, W.taken out.new) (text self.now) };
}

/// Bytes that are written unchanged.
#[derive(Drop)]
pub(crate) struct Word<'a>(pub &'a [u8]);

impl<'a> Part for Word<'a> {
    ghost text = { λ w. w.0.now };

    fn write<W: Sink>(&self, out: &mut W) -> Result<(), WriteFault> {
        write_all(out, self.0)?;
        Ok(())
    }
}

/// A number in decimal digits.
#[derive(Drop)]
pub(crate) struct Number(pub u64);

impl Part for Number {
    ghost use Rattle.std.specs.Fmt.{decimal};

    ghost text = { λ n. decimal n.0 };

    fn write<W: Sink>(&self, out: &mut W) -> Result<(), WriteFault> {
        let mut digits = itoa::Buffer::new();
        write_all(out, digits.format(self.0).as_bytes())?;
        Ok(())
    }
}

/// One part followed by another.
impl<A: Part, B: Part> Part for (A, B) {
    ghost use Rattle.std.specs.Prelude.{◌++◌};

    ghost text = { λ p. A.text p.0 ++ B.text p.1 };

    fn write<W: Sink>(&self, out: &mut W) -> Result<(), WriteFault> {
        writes_join();
        self.0.write(out)?;
        self.1.write(out)
    }
}

/// Two parts, separated by a space.
#[derive(Drop)]
pub(crate) struct Spaced<A, B>(pub A, pub B);

impl<A: Part, B: Part> Part for Spaced<A, B> {
    ghost use Rattle.std.specs.Prelude.{◌++◌, ◌∷◌};

    ghost text = { λ p. A.text p.0 ++ 32 ∷ B.text p.1 };

    fn write<W: Sink>(&self, out: &mut W) -> Result<(), WriteFault> {
        writes_join();
        self.0.write(out)?;
        write_behind_space(&self.1, out)
    }
}

/// Writes a space and then a part.
pub(crate) fn write_behind_space<A: Part, W: Sink>(part: &A, out: &mut W) -> Result<(), WriteFault>
    ensures { Writes (is_ok result) (W.failures out.old, W.taken out.old) (W.failures out.new, W.taken out.new) (32 ∷ A.text part.now) }
{
    writes_join();
    write_all(out, b" ")?;
    part.write(out)
}

/// A part and the end of its line.
#[derive(Drop)]
pub(crate) struct Line<A>(pub A);

impl<A: Part> Part for Line<A> {
    ghost use Rattle.std.specs.Prelude.{◌++◌, ◌∷◌, []};

    ghost text = { λ l. A.text l.0 ++ 10 ∷ [] };

    fn write<W: Sink>(&self, out: &mut W) -> Result<(), WriteFault> {
        writes_join();
        self.0.write(out)?;
        write_all(out, b"\n")?;
        Ok(())
    }
}
