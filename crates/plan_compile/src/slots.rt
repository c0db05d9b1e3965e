//! The slots of all edges, and those of each output.

ghost use Rattle.std.specs.Prelude.{◌≡◌, ◌≤◌, ◌<◌, ◌+◌, ◌++◌, ◌∷◌, [], length, replicate, None, IfNone, IfOk, IfSome, OnOk, zero};
ghost use Rattle.plan_image.specs.Spelling.{IsWord, RoomAfter};
ghost use Rattle.plan_graph.specs.Graph.{max_edges};
ghost use Rattle.plan_compile.specs.declared.slot_pattern.SlotPattern.TheVariants as form;
ghost use Rattle.plan_compile.specs.OutputTable.{filled, found, put};
ghost use Rattle.plan_compile.specs.Slots.{all_made, form_by, input_by, kinds_by, newest_by, newest_from, outputs_apart, outputs_by, outputs_flagged, outputs_sharing, own_kinds, owned, pairs, slot_count, slots_from, stamps};

use crate::build::{Build, word};
use crate::layout::{Input, Output};
use crate::slot_pattern::SlotPattern;
use plan_image::{Kind, MAX_SLOTS, Slot};
use std::alloc::{AllocError, Global};

/// Returns the slot pattern of an edge, from whether it is a phony, is restat, and has no inputs.
fn form_by(phony: bool, restat: bool, none: bool) -> SlotPattern
    ensures { result ≡ form_by phony restat none }
{
    match (phony, restat, none) {
        (true, _, true) => SlotPattern::Alone,
        (true, _, false) => SlotPattern::Gathers,
        (false, true, _) => SlotPattern::OwnFlags,
        (false, false, _) => SlotPattern::OneFlag,
    }
}

/// Returns the slot pattern of an edge.
pub(crate) fn form_of<'a>(build: &Build<'a>) -> SlotPattern
    ensures { result ≡ Rattle.plan_compile.specs.Slots.form_of build.now }
{
    let edge = build.edge();
    let none = build.named().is_empty() && build.order_only().is_empty();
    form_by(edge.is_phony(), edge.has_restat(), none)
}

/// Returns the number of slots of an edge with this slot pattern and these outputs.
fn own_len(form: SlotPattern, files: &[u32]) -> usize
    ensures { result ≡ length (kinds_by form files.now) }
{
    match form {
        SlotPattern::OneFlag => 2 + files.len(),
        SlotPattern::OwnFlags => 1 + 2 * files.len(),
        SlotPattern::Gathers => 2,
        SlotPattern::Alone => 2 * files.len(),
    }
}

/// Returns the room that is left after the slots of an edge. Returns None if they don't fit.
fn room_after<'a>(build: &Build<'a>, room: usize) -> Option<usize>
    ensures { RoomAfter result (length (own_kinds build.now)) room }
{
    room.checked_sub(own_len(form_of(build), build.outputs()))
}

/// Returns the room that is left after the slots of these edges. Returns None if they don't fit.
fn slots_room<'a>(builds: &[Build<'a>], room: usize) -> Option<usize>
    ensures { RoomAfter result (slot_count builds.now) room }
{
    let mut left = room;
    for build in builds {
        match room_after(build, left) {
            Some(rest) => left = rest,
            None => return None,
        }
    }
    Some(left)
}

/// Returns the number of slots of these edges. Returns None if an image may not have that many.
pub(crate) fn slot_count<'a>(builds: &[Build<'a>]) -> Option<usize>
    ensures count { IfSome result (λ n. n ≡ slot_count builds.now) }
    ensures few { IfSome result (λ n. n ≤ MAX_SLOTS) }
    ensures many { IfNone result (MAX_SLOTS < slot_count builds.now) }
{
    match slots_room(builds, MAX_SLOTS) {
        Some(left) => Some(MAX_SLOTS - left),
        None => None,
    }
}

/// Enters an output for its file, unless the file has one.
fn put(table: &mut Vec<Option<Output>>, output: Output)
    ensures { table.new.items ≡ put table.old.items output }
{
    let at = output.file as usize;
    match table.as_slice().get(at) {
        Some(Some(_)) => {}
        Some(None) => table[at] = Some(output),
        None => {}
    }
}

/// Appends a slot, and returns its number.
fn slot(slots: &mut Vec<Slot>, owner: u32, kind: Kind) -> Result<u32, AllocError>
    requires { IsWord (length slots.old.items) }
    ensures number { IfOk result (λ n. n ≡ length slots.old.items) }
    ensures slots { OnOk result (slots.new.items ≡ slots.old.items ++ owned owner (kind ∷ [])) }
    ensures more { OnOk result (length slots.new.items ≡ length slots.old.items + 1) }
{
    let number = word(slots.len());
    slots.push(Slot { owner, kind })?;
    Ok(number)
}

/// Adds a stamp slot for each of these outputs, which share a flag slot.
fn add_sharing_slots(
    slots: &mut Vec<Slot>,
    table: &mut Vec<Option<Output>>,
    owner: u32,
    changed: u32,
    files: &[u32],
) -> Result<(), AllocError>
    requires { length slots.old.items + length (stamps files.now) ≤ MAX_SLOTS }
    ensures slots { OnOk result (slots.new.items ≡ slots.old.items ++ owned owner (stamps files.now)) }
    ensures table { OnOk result (table.new.items ≡ filled table.old.items (outputs_flagged (length slots.old.items) changed files.now)) }
{
    for file in files {
        let stamp = slot(slots, owner, Kind::Stamp)?;
        put(
            table,
            Output {
                file: *file,
                stamp,
                changed,
            },
        );
    }
    Ok(())
}

/// Adds a stamp slot and a flag slot for each of these outputs.
fn add_own_slots(
    slots: &mut Vec<Slot>,
    table: &mut Vec<Option<Output>>,
    owner: u32,
    files: &[u32],
) -> Result<(), AllocError>
    requires { length slots.old.items + length (pairs files.now) ≤ MAX_SLOTS }
    ensures slots { OnOk result (slots.new.items ≡ slots.old.items ++ owned owner (pairs files.now)) }
    ensures table { OnOk result (table.new.items ≡ filled table.old.items (outputs_apart (length slots.old.items) files.now)) }
{
    for file in files {
        let stamp = slot(slots, owner, Kind::Stamp)?;
        let changed = slot(slots, owner, Kind::Flag)?;
        put(
            table,
            Output {
                file: *file,
                stamp,
                changed,
            },
        );
    }
    Ok(())
}

/// Enters these two slots for all of these outputs.
fn put_sharing(table: &mut Vec<Option<Output>>, stamp: u32, changed: u32, files: &[u32])
    ensures { table.new.items ≡ filled table.old.items (outputs_sharing stamp changed files.now) }
{
    for file in files {
        put(
            table,
            Output {
                file: *file,
                stamp,
                changed,
            },
        );
    }
}

/// Adds the slots of an edge with a command that isn't restat. Returns the slot of the newest input's stamp.
fn add_command_slots(
    slots: &mut Vec<Slot>,
    table: &mut Vec<Option<Output>>,
    owner: u32,
    files: &[u32],
) -> Result<u32, AllocError>
    requires { length slots.old.items + length (kinds_by form.OneFlag files.now) ≤ MAX_SLOTS }
    ensures newest { IfOk result (λ n. n ≡ newest_by form.OneFlag (length slots.old.items)) }
    ensures slots { OnOk result (slots.new.items ≡ slots.old.items ++ owned owner (kinds_by form.OneFlag files.now)) }
    ensures table { OnOk result (table.new.items ≡ filled table.old.items (outputs_by form.OneFlag (length slots.old.items) files.now)) }
{
    let changed = slot(slots, owner, Kind::Flag)?;
    let newest = slot(slots, owner, Kind::Stamp)?;
    add_sharing_slots(slots, table, owner, changed, files)?;
    Ok(newest)
}

/// Adds the slots of a restat edge. Returns the slot of the newest input's stamp.
fn add_restat_slots(
    slots: &mut Vec<Slot>,
    table: &mut Vec<Option<Output>>,
    owner: u32,
    files: &[u32],
) -> Result<u32, AllocError>
    requires { length slots.old.items + length (kinds_by form.OwnFlags files.now) ≤ MAX_SLOTS }
    ensures newest { IfOk result (λ n. n ≡ newest_by form.OwnFlags (length slots.old.items)) }
    ensures slots { OnOk result (slots.new.items ≡ slots.old.items ++ owned owner (kinds_by form.OwnFlags files.now)) }
    ensures table { OnOk result (table.new.items ≡ filled table.old.items (outputs_by form.OwnFlags (length slots.old.items) files.now)) }
{
    let newest = slot(slots, owner, Kind::Stamp)?;
    add_own_slots(slots, table, owner, files)?;
    Ok(newest)
}

/// Adds the slots of a phony with inputs. Returns the slot of the newest input's stamp, which all outputs
/// share.
fn add_phony_slots(
    slots: &mut Vec<Slot>,
    table: &mut Vec<Option<Output>>,
    owner: u32,
    files: &[u32],
) -> Result<u32, AllocError>
    requires { length slots.old.items + length (kinds_by form.Gathers files.now) ≤ MAX_SLOTS }
    ensures newest { IfOk result (λ n. n ≡ newest_by form.Gathers (length slots.old.items)) }
    ensures slots { OnOk result (slots.new.items ≡ slots.old.items ++ owned owner (kinds_by form.Gathers files.now)) }
    ensures table { OnOk result (table.new.items ≡ filled table.old.items (outputs_by form.Gathers (length slots.old.items) files.now)) }
{
    let stamp = slot(slots, owner, Kind::Stamp)?;
    let changed = slot(slots, owner, Kind::Flag)?;
    put_sharing(table, stamp, changed, files);
    Ok(stamp)
}

/// Adds the slots of a phony without inputs. Returns the number of the first one.
fn add_leaf_slots(
    slots: &mut Vec<Slot>,
    table: &mut Vec<Option<Output>>,
    owner: u32,
    files: &[u32],
) -> Result<u32, AllocError>
    requires { length slots.old.items + length (kinds_by form.Alone files.now) ≤ MAX_SLOTS }
    ensures newest { IfOk result (λ n. n ≡ newest_by form.Alone (length slots.old.items)) }
    ensures slots { OnOk result (slots.new.items ≡ slots.old.items ++ owned owner (kinds_by form.Alone files.now)) }
    ensures table { OnOk result (table.new.items ≡ filled table.old.items (outputs_by form.Alone (length slots.old.items) files.now)) }
{
    let first = word(slots.len());
    add_own_slots(slots, table, owner, files)?;
    Ok(first)
}

/// Adds the slots of an edge, and enters its outputs by file. Returns the slot of the newest input's stamp.
fn add_slots(
    slots: &mut Vec<Slot>,
    table: &mut Vec<Option<Output>>,
    owner: u32,
    form: SlotPattern,
    files: &[u32],
) -> Result<u32, AllocError>
    requires { length slots.old.items + length (kinds_by form files.now) ≤ MAX_SLOTS }
    ensures newest { IfOk result (λ n. n ≡ newest_by form (length slots.old.items)) }
    ensures slots { OnOk result (slots.new.items ≡ slots.old.items ++ owned owner (kinds_by form files.now)) }
    ensures table { OnOk result (table.new.items ≡ filled table.old.items (outputs_by form (length slots.old.items) files.now)) }
{
    match form {
        SlotPattern::OneFlag => add_command_slots(slots, table, owner, files),
        SlotPattern::OwnFlags => add_restat_slots(slots, table, owner, files),
        SlotPattern::Gathers => add_phony_slots(slots, table, owner, files),
        SlotPattern::Alone => add_leaf_slots(slots, table, owner, files),
    }
}

/// The slots of all edges.
#[derive(Drop)]
pub(crate) struct Plan {
    pub(crate) slots: Vec<Slot>,
    /// The outputs by file.
    pub(crate) table: Vec<Option<Output>>,
    /// For each edge, the slot of the newest input's stamp.
    pub(crate) newest: Vec<u32>,
}

/// Assigns slots to all edges, given the numbers of files and slots.
pub(crate) fn plan_slots<'a>(
    alloc: Global,
    files: usize,
    count: usize,
    builds: &[Build<'a>],
) -> Result<Plan, AllocError>
    requires count { slot_count builds.now ≤ MAX_SLOTS }
    requires few { length builds.now ≤ max_edges }
    ensures slots { IfOk result (λ p. p.slots.items ≡ slots_from zero builds.now) }
    ensures table { IfOk result (λ p. p.table.items ≡ filled (replicate files None) (all_made zero builds.now)) }
    ensures newest { IfOk result (λ p. p.newest.items ≡ newest_from zero builds.now) }
{
    let mut slots = Vec::with_capacity(alloc, count)?;
    let mut table = vec![in alloc; None; files]?;
    let mut newest = Vec::with_capacity(alloc, builds.len())?;
    for number in 0..builds.len() {
        let build = &builds[number];
        let slot = add_slots(
            &mut slots,
            &mut table,
            word(number),
            form_of(build),
            build.outputs(),
        )?;
        newest.push(slot)?;
    }
    Ok(Plan {
        slots,
        table,
        newest,
    })
}
