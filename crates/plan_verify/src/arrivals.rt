//! The shapes that jumps bring to the places of a code, and the shape that is carried from place to place.

ghost use Rattle.std.specs.Prelude.{◌≡◌, ◌<◌, IfOk, OnOk, length, replicate, All, true, false};
ghost use Rattle.plan_verify.specs.Arrivals.{Joins, JoinsAt, JoinsEach, jumps_to};
ghost use Rattle.plan_verify.specs.declared.arrivals.Arrival.TheVariants as arrival;
ghost use Rattle.plan_verify.specs.Pass.{MeetsAs, goes_on};
ghost use Rattle.plan_verify.specs.WellShaped.{at_start};

use crate::fault::Refusal;
use crate::kinds::Shape;
use plan_image::Instr;
use std::alloc::{AllocError, Global};
use std::marker::Model;
use std::mem;

/// A shape on the heap.
#[derive(Drop)]
pub(crate) struct KeptShape {
    held: Box<Shape>,
}

impl Model for KeptShape {
    ghost use Rattle.plan_verify.specs.declared.kinds.Shape.{Shape};

    ghost Value = { Shape };

    ghost view = { λ k. k.held.value };
}

impl KeptShape {
    /// Copies a shape to the heap.
    fn of(alloc: Global, shape: &Shape) -> Result<KeptShape, AllocError>
        ensures { IfOk result (λ k. k ≡ shape.now) }
    {
        let held = Box::new(alloc, shape.copy(alloc)?)?;
        Ok(KeptShape { held })
    }

    /// Borrows the shape.
    pub(crate) fn shape(&self) -> &Shape
        ensures { result.now ≡ self.now }
    {
        &self.held
    }

    /// Returns the shape.
    pub(crate) fn into_shape(self) -> Shape
        ensures { result ≡ self }
    {
        let KeptShape { held } = self;
        Box::into_inner(held)
    }
}

/// The shapes that jumps bring to a place: none, one shape, or several that differ.
#[derive(Drop)]
pub(crate) enum Arrival {
    Nothing,
    One(KeptShape),
    Differ,
}

/// Returns a list with no shape at each of `len` places.
pub(crate) fn no_arrivals(alloc: Global, len: usize) -> Result<Vec<Arrival>, AllocError>
    ensures { IfOk result (λ all. all.items ≡ replicate len arrival.Nothing) }
{
    let mut all = Vec::with_capacity(alloc, len)?;
    for _ in 0..len {
        all.push(Arrival::Nothing)?;
    }
    Ok(all)
}

/// Adds a shape to those of a place.
fn with_shape(alloc: Global, before: Arrival, shape: &Shape) -> Result<Arrival, AllocError>
    ensures { IfOk result (λ a. Joins before a shape.now) }
{
    match before {
        Arrival::Nothing => Ok(Arrival::One(KeptShape::of(alloc, shape)?)),
        Arrival::One(first) => {
            if first.shape().is_same(shape) {
                Ok(Arrival::One(first))
            } else {
                Ok(Arrival::Differ)
            }
        }
        Arrival::Differ => Ok(Arrival::Differ),
    }
}

/// Adds a shape to the place `to`.
fn arrive(alloc: Global, all: &mut Vec<Arrival>, to: usize, shape: &Shape) -> Result<(), AllocError>
    requires { to < length all.old.items }
    ensures { OnOk result (JoinsAt all.old.items all.new.items to shape.now) }
{
    let place = &mut all[to];
    let before = mem::replace(place, Arrival::Nothing);
    *place = with_shape(alloc, before, shape)?;
    Ok(())
}

/// Adds the shape to the place that the instruction jumps to, if it can jump.
pub(crate) fn jump(
    alloc: Global,
    all: &mut Vec<Arrival>,
    instr: Instr,
    shape: &Shape,
) -> Result<(), AllocError>
    requires { All (λ t. t < length all.old.items) (jumps_to instr) }
    ensures { OnOk result (JoinsEach all.old.items all.new.items (jumps_to instr) shape.now) }
{
    match instr {
        Instr::Jump(to) | Instr::JumpIf(to) => arrive(alloc, all, to as usize, shape),
        _ => Ok(()),
    }
}

/// The shape that the instruction before this place leaves, and whether that instruction continues to this
/// place.
#[derive(Drop)]
pub(crate) struct Flow {
    pub shape: Shape,
    pub falls: bool,
}

/// Returns the flow at the first place.
pub(crate) fn flow_at_start(alloc: Global) -> Flow
    ensures shape { result.shape ≡ at_start }
    ensures falls { result.falls ≡ true }
{
    Flow {
        shape: Shape::start(alloc),
        falls: true,
    }
}

/// Merges the shapes that jumps bring to a place into the flow. Returns a refusal if no shape arrives, or if
/// two that differ do.
pub(crate) fn meet(arrival: Arrival, flow: &mut Flow) -> Option<Refusal>
    ensures { MeetsAs arrival flow.old flow.new result }
{
    match arrival {
        Arrival::Nothing => {
            if flow.falls {
                None
            } else {
                Some(Refusal::DeadCode)
            }
        }
        Arrival::One(kept) => {
            if flow.falls {
                if kept.shape().is_same(&flow.shape) {
                    None
                } else {
                    Some(Refusal::ShapesDiffer)
                }
            } else {
                flow.shape = kept.into_shape();
                None
            }
        }
        Arrival::Differ => Some(Refusal::ShapesDiffer),
    }
}

/// Returns whether an instruction can continue to the next place.
pub(crate) fn falls_through(instr: Instr) -> bool
    ensures { result ≡ goes_on instr }
{
    match instr {
        Instr::End | Instr::Jump(_) => false,
        _ => true,
    }
}
