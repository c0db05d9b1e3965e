//! The slots that the code of an edge loads.

ghost use Rattle.std.specs.Prelude.{◌≡◌, ◌<◌, ◌+◌, ◌^◌, ◌∷◌, ◌++◌, IfOk, OnOk, drop, length, slice_get};
ghost use Rattle.plan_machine.specs.Loads.{load_of, loads_in, loads_of};
ghost use Rattle.plan_machine.specs.Working.{filling};

use crate::edge::stack::Slot;
use crate::edge::turns::copy_slot;
use crate::run::state::State;
use plan_image::{CodeView, Instr};
use plan_verify::{Value, Verified, codes_are_short};
use std::alloc::{AllocError, Global};

/// A slot with its value, or None if it isn't set.
#[derive(Drop)]
pub struct LoadedSlot {
    pub number: u32,
    pub value: Option<Value>,
}

/// Returns the instruction at a place.
fn instr_at(view: &CodeView<'_>, place: u32) -> Instr
    requires { place < length view.now }
    ensures { drop place view.now ≡ result ∷ drop (place + 1) view.now }
{
    let Some(instr) = view.instr(place) else {
        unreachable!()
    };
    instr
}

/// Returns the slot with this number, or one that isn't set if there is none.
fn loaded_slot(slots: &[Slot], number: u32) -> Result<LoadedSlot, AllocError>
    ensures { IfOk result (λ s. s ≡ record { number = number; value = filling (slice_get slots.now number) }) }
{
    let value = copy_slot(slots, number)?;
    Ok(LoadedSlot { number, value })
}

/// Appends the slot that an instruction loads, if it loads one.
fn add_load(loads: &mut Vec<LoadedSlot>, slots: &[Slot], instr: Instr) -> Result<(), AllocError>
    ensures { OnOk result (loads.new.items ≡ loads.old.items ++ load_of slots.now instr) }
{
    match instr {
        Instr::Load(number) => {
            let slot = loaded_slot(slots, number)?;
            loads.push(slot)?;
            Ok(())
        }
        _ => Ok(()),
    }
}

/// Returns the slots that these instructions load.
fn all_loads(
    alloc: Global,
    view: &CodeView<'_>,
    slots: &[Slot],
) -> Result<Vec<LoadedSlot>, AllocError>
    requires { length view.now < 2 ^ 32 }
    ensures { IfOk result (λ v. v.items ≡ loads_in slots.now view.now) }
{
    let mut loads = Vec::new(alloc);
    for place in 0..view.len() as u32 {
        let instr = instr_at(view, place);
        add_load(&mut loads, slots, instr)?;
    }
    Ok(loads)
}

impl State {
    /// Returns the slots that the code of an edge loads, in the order of the code, with their present values: its own,
    /// and those of edges that it waits for. The time is linear in the length of the code.
    ///
    /// # Errors
    ///
    /// Memory ran out.
    pub fn loads(&self, image: &Verified, edge: u32) -> Result<Vec<LoadedSlot>, AllocError>
        ensures { IfOk result (λ v. v.items ≡ loads_of image.now self.now.run_state.now edge) }
    {
        codes_are_short();
        let tables = image.image();
        let _parts = tables.parts();
        let view = tables.edge_code(edge);
        all_loads(self.alloc, &view, &self.machine.slots)
    }
}
