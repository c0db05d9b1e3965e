//! The event budgets of edges and images.

ghost use Rattle.std.specs.Prelude.{◌≡◌, ◌≤◌, ◌^◌};
ghost use Rattle.plan_verify.specs.Budget.{edge_budget, image_budget};

use crate::pass::{cost, instr_at};
use plan_image::Image;

/// Returns the most events that an edge may have, not counting those paid for by paths.
fn edge_budget(image: &Image, edge: u32) -> u64
    ensures budget { result ≡ edge_budget image.now edge }
    ensures small { result ≤ 2 ^ 28 }
{
    let _parts = image.parts();
    let view = image.edge_code(edge);
    let mut budget = 1u64;
    for place in 0..view.len() {
        budget += cost(instr_at(&view, place));
    }
    budget
}

/// Returns the sum of the budgets of all edges.
pub(crate) fn image_budget(image: &Image) -> u64
    ensures { result ≡ image_budget image.now }
{
    let edges = image.parts().edges.len();
    let mut budget = 0u64;
    for edge in 0..edges {
        budget += edge_budget(image, edge as u32);
    }
    budget
}
