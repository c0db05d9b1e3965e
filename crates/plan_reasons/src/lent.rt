//! The facts of an edge, by its layout and by what other edges left for it.

ghost use Rattle.std.specs.Prelude.{◌≡◌, IfOk, List, length, map, slice_get, Some, ℕ, true};
ghost use Rattle.plan_image.specs.declared.image.Parts.{Parts};
ghost use Rattle.plan_verify.specs.Turn.{Slots};
ghost use Rattle.plan_compile.specs.declared.layout.EdgeLayout.TheVariants as layout_of;
ghost use Rattle.plan_compile.specs.Means.{AreGiven, command_of, text_at};
ghost use Rattle.plan_compile.specs.Rule.{Given};
ghost use Rattle.plan_reasons.specs.Facts.{facts_of};
ghost use Rattle.plan_reasons.specs.Lent.{AreLeft, input_left};

use crate::facts::{Facts, NamedInput};
use plan_compile::{CommandLayout, Input};
use plan_text::Items;
use plan_verify::Words;
use std::alloc::{AllocError, Global};

/// What edges left in the slots that another edge may read.
pub trait LentSlots {
    ghost use Rattle.std.specs.Prelude.{◌≡◌, ℕ, Bool};

    /// The stamp that was left in a slot.
    ghost stamp_left: { Self → ℕ → ℕ };

    /// The flag that was left in a slot.
    ghost flag_left: { Self → ℕ → Bool };

    /// Returns the stamp that was left in a slot.
    fn stamp(&self, slot: u32) -> u64
        ensures { result ≡ stamp_left self.now slot };

    /// Returns the flag that was left in a slot.
    fn flag(&self, slot: u32) -> bool
        ensures { result ≡ flag_left self.now slot };
}

/// Returns a named input with what its producer left.
fn input_left<L: LentSlots>(lent: &L, input: Input) -> NamedInput
    ensures { result ≡ input_left (L.stamp_left lent.now) (L.flag_left lent.now) input }
{
    match input {
        Input::File(_file) => NamedInput::SourceFile,
        Input::Made(stamp, changed) => NamedInput::Made(lent.stamp(stamp), lent.flag(changed)),
    }
}

/// Returns named inputs with what their producers left.
fn inputs_left<L: LentSlots>(
    alloc: Global,
    lent: &L,
    inputs: &[Input],
) -> Result<Items<NamedInput>, AllocError>
    ensures { IfOk result (λ is. is ≡ map (input_left (L.stamp_left lent.now) (L.flag_left lent.now)) inputs.now) }
{
    let mut left = Vec::with_capacity(alloc, inputs.len())?;
    for input in inputs {
        left.push(input_left(lent, *input))?;
    }
    Ok(Items::new(left))
}

/// Returns the facts of an edge, by its layout, its command and what other edges left for it.
pub fn facts_by<L: LentSlots>(
    alloc: Global,
    lent: &L,
    layout: &CommandLayout,
    command: &[u8],
) -> Result<Facts, AllocError>
    ensures { (p : Parts) (slots : Slots) (order_only : List Given)
        → AreLeft (L.stamp_left lent.now) (L.flag_left lent.now) slots layout.now.named
        → AreGiven p slots order_only (layout_of.Command layout.now)
        → text_at p layout.now.command ≡ command.now
        → IfOk result (λ facts. facts ≡ facts_of (command_of p slots layout.now order_only)) }
{
    let named = inputs_left(alloc, lent, layout.named.as_slice())?;
    let command = Words::of(alloc, command)?;
    Ok(Facts {
        named,
        order_only: layout.order_only.len(),
        outputs: layout.outputs.len(),
        command,
        generator: layout.generator,
        baseline: layout.baseline,
    })
}
