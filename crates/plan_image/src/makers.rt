//! Finds the edge that creates a path.

ghost use Rattle.std.specs.Prelude.{◌≡◌};
ghost use Rattle.plan_image.specs.Columns.{lent};
ghost use Rattle.plan_image.specs.Makers.{first_maker};

use crate::edge_ref::EdgeRef;
use crate::image::{Image, Parts};

fn is_named(parts: &Parts, path: &[u8], file: u32) -> bool
    ensures { result ≡ Rattle.plan_image.specs.Makers.is_named parts.now path.now file }
{
    match parts.files.get(file as usize) {
        Some(name) => name == path,
        None => false,
    }
}

fn makes(parts: &Parts, path: &[u8], edge: EdgeRef<'_>) -> bool
    ensures { result ≡ Rattle.plan_image.specs.Makers.makes parts.now path.now (lent edge.entry) }
{
    for &file in edge.outputs {
        if is_named(parts, path, file) {
            return true;
        }
    }
    false
}

/// Returns the first edge that has this path among its outputs. Compares the path with each output in turn.
pub fn edge_of(image: &Image, path: &[u8]) -> Option<u32>
    ensures { result ≡ first_maker image.now path.now 0 image.now.edges }
{
    let parts = image.parts();
    for number in 0..parts.edges.len() {
        if makes(parts, path, parts.edges.edge(number)) {
            return Some(number as u32);
        }
    }
    None
}
