//! Writes an image as text.

ghost use Rattle.std.specs.Prelude.{is_ok};
ghost use Rattle.plan_text.specs.Sinks.{Writes};
ghost use Rattle.plan_image.specs.Listing.{listing_of};

mod each;
mod line;
mod part;
mod value;

use crate::body::Body;
use crate::edges::Edges;
use crate::image::Image;
use crate::lister::each::{Each, write_texts};
use crate::lister::line::write_edges;
use crate::lister::part::{Line, Part, Spaced, Word};
use crate::lister::value::Members;
pub use part::WriteFault;
use plan_text::{Items, RowList, Sink};

/// A word and a table of texts, one line for each text.
#[derive(Drop)]
struct Texts<'a>(&'a [u8], &'a RowList<u8>);

impl<'a> Part for Texts<'a> {
    ghost use Rattle.plan_image.specs.Listing.{bytes_line, numbered};

    ghost text = { λ t. numbered (bytes_line t.0.now) 0 t.1.now };

    fn write<W: Sink>(&self, out: &mut W) -> Result<(), WriteFault> {
        write_texts(self.0, self.1, out)
    }
}

/// The bodies, if there is a table of them.
#[derive(Drop)]
struct Bodies<'a>(&'a Option<Items<Body>>);

impl<'a> Part for Bodies<'a> {
    ghost use Rattle.plan_image.specs.Listing.{bodies_lines};

    ghost text = { λ b. bodies_lines b.0.now };

    fn write<W: Sink>(&self, out: &mut W) -> Result<(), WriteFault> {
        match self.0 {
            None => Word(b"").write(out),
            Some(bodies) => Each(bodies.as_slice()).write(out),
        }
    }
}

/// All edges.
#[derive(Drop)]
struct EachEdge<'a>(&'a Edges);

impl<'a> Part for EachEdge<'a> {
    ghost use Rattle.plan_image.specs.Listing.{edge_lines, numbered};

    ghost text = { λ e. numbered edge_lines 0 e.0.now };

    fn write<W: Sink>(&self, out: &mut W) -> Result<(), WriteFault> {
        write_edges(self.0, out)
    }
}

/// Writes an image as text, one line for each item, in the order of the image. Takes no memory for the text
/// except the digits of one number.
///
/// # Errors
///
/// Stops at the first failed write. The sink then has taken the bytes before it.
pub fn listing<W: Sink>(image: &Image, out: &mut W) -> Result<(), WriteFault>
    ensures { Writes (is_ok result) (W.failures out.old, W.taken out.old) (W.failures out.new, W.taken out.new) (listing_of image.now) }
{
    let parts = image.parts();
    let defaults = Line(Spaced(Word(b"default"), Members(parts.defaults.as_slice())));
    let edges = (EachEdge(&parts.edges), defaults);
    let bodies = (Bodies(&parts.bodies), edges);
    let slots = (Each(parts.slots.as_slice()), bodies);
    let pools = (Each(parts.pools.as_slice()), slots);
    let files = (Texts(b"file", &parts.files), pools);
    (Texts(b"text", &parts.texts), files).write(out)
}
