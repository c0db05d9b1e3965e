//! Writes images as bytes.

ghost use Rattle.std.specs.Prelude.{is_ok};
ghost use Rattle.plan_text.specs.Sinks.{Writes};
ghost use Rattle.plan_image.specs.Printing.{Prints};
ghost use Rattle.plan_image.specs.Spelling.{HasSpelling, spelling};

mod edge;
mod held;
mod item;
mod part;
mod text;

use crate::image::{Image, Parts};
use crate::lister::WriteFault;
use crate::writing::edge::EdgeTable;
use crate::writing::held::hand_on;
use crate::writing::item::{Bodies, version_byte};
use crate::writing::part::{Bytes, Spelled, Table};
use crate::writing::text::{Long, Short, Texts};
use plan_text::{Sink, writes_join};

/// Writes the tables in their order.
fn print_parts<W: Sink>(parts: &Parts, held: &mut Vec<u8>, out: &mut W) -> Result<(), WriteFault>
    requires { HasSpelling parts.now }
    ensures { Prints (is_ok result) (held.old.items, (W.failures out.old, W.taken out.old)) (held.new.items, (W.failures out.new, W.taken out.new)) (spelling parts.now) }
{
    let head = (Bytes(b"PLANIMG"), version_byte(parts.version()));
    let texts = (head, Texts(&parts.texts, Long));
    let files = (texts, Texts(&parts.files, Short));
    let pools = (files, Table(parts.pools.as_slice()));
    let slots = (pools, Table(parts.slots.as_slice()));
    let bodies = (slots, Bodies(&parts.bodies));
    let edges = (bodies, EdgeTable(&parts.edges));
    (edges, Table(parts.defaults.as_slice())).print(held, out)
}

/// Writes the one spelling of an image, in the bytes of its version. Bytes are collected in `room` up to its
/// capacity, so that the sink gets them in few writes. Longer texts are written by themselves. The former
/// contents of `room` are dropped. It takes no memory.
///
/// # Errors
///
/// Stops at the first failed write. The sink then has taken the bytes before it.
pub fn print_image<W: Sink>(
    image: &Image,
    room: &mut Vec<u8>,
    out: &mut W,
) -> Result<(), WriteFault>
    ensures { Writes (is_ok result) (W.failures out.old, W.taken out.old) (W.failures out.new, W.taken out.new) (spelling image.now) }
{
    writes_join();
    room.clear();
    print_parts(image.parts(), room, out)?;
    hand_on(room, out)
}
