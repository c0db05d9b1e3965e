//! The checks of an instruction at a place, and the own slots of all edges.

ghost use Rattle.std.specs.Prelude.{◌≡◌, ◌+◌, ◌<◌, ◌≤◌, ◌^◌, length, Option, Some, nat_lt, slice_get, IfOk, OnOk, drop};
ghost use Rattle.plan_image.specs.Code.{code};
ghost use Rattle.plan_image.specs.Spelling.{IsInOrder};
ghost use Rattle.plan_verify.specs.Members.{is_member};
ghost use Rattle.plan_verify.specs.Tables.{owns, is_lent, own_slots, waits_of, slot_kind};
ghost use Rattle.plan_verify.specs.Shape.{takes, kinds_after, bad_slot, bad_jump, bad_file, bad_text, lacks_place, keeps_place, is_wanted, wrong_kind, unset_slot, values_left, falls_off, refused, is_paths};
ghost use Rattle.plan_verify.specs.OwnSet.{IsOwnSet};
ghost use Rattle.plan_verify.specs.Wanted.{options};
ghost use Rattle.plan_verify.specs.OwnSlots.{none, more, AreOwnSlots, CountsMore};

use crate::fault::Refusal;
use crate::kinds::{Kinds, MAX_STACK, Shape};
use crate::slot_tree::{SlotSet, has_number};
use plan_image::{Instr, Kind, Parts, Slot};
use std::alloc::{AllocError, Global};

/// Returns whether a slot is an edge's own.
fn is_own(parts: &Parts, edge: u32, slot: u32) -> bool
    ensures { result ≡ owns parts.now edge slot }
{
    match parts.slots.as_slice().get(slot as usize) {
        Some(found) => found.owner == edge,
        None => false,
    }
}

/// Returns the edges that an edge waits for, in ascending order.
fn waits(parts: &Parts, edge: u32) -> &[u32]
    requires { IsInOrder parts.now }
    ensures waits { result.now ≡ waits_of parts.now edge }
    ensures order { Rattle.plan_image.specs.Spelling.AscendsFrom 0 result.now }
{
    match parts.edges.waits(edge as usize) {
        Some(waits) => waits,
        None => &[],
    }
}

/// Returns whether a slot belongs to an edge that this one waits for.
fn is_of_a_wait(parts: &Parts, edge: u32, slot: u32) -> bool
    requires { IsInOrder parts.now }
    ensures { result ≡ is_lent parts.now edge slot }
{
    match parts.slots.as_slice().get(slot as usize) {
        Some(found) => has_number(waits(parts, edge), found.owner),
        None => false,
    }
}

/// Returns whether an instruction loads or stores a slot that it must not.
fn has_bad_slot(parts: &Parts, edge: u32, instr: Instr) -> bool
    requires { IsInOrder parts.now }
    ensures { result ≡ bad_slot parts.now edge instr }
{
    match instr {
        Instr::Load(slot) => !(is_own(parts, edge, slot) || is_of_a_wait(parts, edge, slot)),
        Instr::Store(slot) => !is_own(parts, edge, slot),
        _ => false,
    }
}

/// Returns whether a jump goes to its own place, backwards, or beyond the code.
fn has_bad_jump(len: usize, place: usize, instr: Instr) -> bool
    ensures { result ≡ bad_jump len place instr }
{
    match instr {
        Instr::Jump(to) | Instr::JumpIf(to) => to as usize <= place || len <= to as usize,
        _ => false,
    }
}

/// Returns whether the instruction's file is outside the table.
fn has_bad_file(parts: &Parts, instr: Instr) -> bool
    ensures { result ≡ bad_file parts.now instr }
{
    match instr {
        Instr::Stat(file) | Instr::Need(file) => parts.files.len() <= file as usize,
        _ => false,
    }
}

/// Returns whether the instruction's text is outside the table.
fn has_bad_text(parts: &Parts, instr: Instr) -> bool
    ensures { result ≡ bad_text parts.now instr }
{
    match instr {
        Instr::Text(text) => parts.texts.len() <= text as usize,
        _ => false,
    }
}

/// Returns whether the instruction needs a job token and none is held.
fn needs_a_place(instr: Instr, holding: bool) -> bool
    ensures { result ≡ lacks_place instr holding }
{
    match instr {
        Instr::Run | Instr::Release => !holding,
        _ => false,
    }
}

/// Returns whether a job token is held although the instruction takes one or ends the edge.
fn still_holds(instr: Instr, holding: bool) -> bool
    ensures { result ≡ keeps_place instr holding }
{
    match instr {
        Instr::Take | Instr::End => holding,
        _ => false,
    }
}

/// Returns whether the code continues beyond its last place.
fn goes_past(len: usize, place: usize, instr: Instr) -> bool
    requires { place < len }
    ensures { result ≡ falls_off len place instr }
{
    match instr {
        Instr::End | Instr::Jump(_) => false,
        _ => len <= place + 1,
    }
}

/// Returns the number of values that an instruction takes.
pub(crate) fn taken_len(parts: &Parts, instr: Instr) -> usize
    ensures { result ≡ length (takes parts.now instr) }
{
    let _ = parts;
    match instr {
        Instr::Sweep | Instr::Keep => 3,
        Instr::Older
        | Instr::Newer
        | Instr::Before
        | Instr::Same
        | Instr::Or
        | Instr::Join
        | Instr::Equal
        | Instr::Swap => 2,
        Instr::Store(_)
        | Instr::IsMissing
        | Instr::Not
        | Instr::JumpIf(_)
        | Instr::Run
        | Instr::Deps
        | Instr::Drop => 1,
        _ => 0,
    }
}

/// Returns the number of values on the stack after an instruction that finds all values it takes.
#[tactic(auto, using(crate::proofs::KindsLemmas::lengths, crate::proofs::KindsLemmas::turned_len))]
fn len_after(parts: &Parts, instr: Instr, kinds: &Kinds) -> usize
    requires { length (takes parts.now instr) ≤ length kinds.now }
    ensures { result ≡ length (kinds_after parts.now instr kinds.now) }
{
    let _ = parts;
    let len = kinds.len();
    match instr {
        Instr::Recall => len + 4,
        Instr::Stat(_)
        | Instr::Need(_)
        | Instr::Load(_)
        | Instr::Flag(_)
        | Instr::Zero
        | Instr::NoPaths
        | Instr::Text(_) => len + 1,
        Instr::Older
        | Instr::Newer
        | Instr::Before
        | Instr::Same
        | Instr::Or
        | Instr::Join
        | Instr::Equal
        | Instr::Store(_)
        | Instr::JumpIf(_)
        | Instr::Run
        | Instr::Drop => len - 1,
        Instr::Keep => len - 3,
        _ => len,
    }
}

/// Returns the kind of a slot.
pub(crate) fn kind_of_slot(parts: &Parts, slot: u32) -> Kind
    ensures { result ≡ slot_kind parts.now slot }
{
    match parts.slots.as_slice().get(slot as usize) {
        Some(found) => found.kind,
        None => Kind::Stamp,
    }
}

/// Returns whether a kind is the wanted one. If none is wanted, each kind is accepted.
fn is_kind(wanted: Option<Kind>, kind: Kind) -> bool
    ensures { result ≡ is_wanted wanted kind }
{
    match wanted {
        Some(wanted) => wanted == kind,
        None => true,
    }
}

const STAMP: Option<Option<Kind>> = Some(Some(Kind::Stamp));

const FLAG: Option<Option<Kind>> = Some(Some(Kind::Flag));

const TEXT: Option<Option<Kind>> = Some(Some(Kind::Text));

/// Returns the kinds that an instruction takes, the top of the stack first. The unused entries at the end are
/// None.
fn taken(parts: &Parts, instr: Instr) -> [Option<Option<Kind>>; 3]
    ensures { options result ≡ takes parts.now instr }
{
    match instr {
        Instr::Store(slot) => [Some(Some(kind_of_slot(parts, slot))), None, None],
        Instr::Older | Instr::Newer | Instr::Before | Instr::Same => [STAMP, STAMP, None],
        Instr::IsMissing => [STAMP, None, None],
        Instr::Or => [FLAG, FLAG, None],
        Instr::Not | Instr::JumpIf(_) => [FLAG, None, None],
        Instr::Join | Instr::Equal => [TEXT, TEXT, None],
        Instr::Sweep => [Some(Some(Kind::Paths)), FLAG, STAMP],
        Instr::Run | Instr::Deps => [TEXT, None, None],
        Instr::Keep => [Some(Some(Kind::Swept)), STAMP, TEXT],
        Instr::Drop => [Some(None), None, None],
        Instr::Swap => [Some(None), Some(None), None],
        _ => [None, None, None],
    }
}

/// Returns whether one of the values on the stack has another kind than the instruction takes.
fn has_wrong_kind(parts: &Parts, instr: Instr, kinds: &Kinds) -> bool
    ensures { result ≡ wrong_kind (takes parts.now instr) kinds.now }
{
    clashes(&taken(parts, instr), kinds)
}

fn clashes(wanted: &[Option<Option<Kind>>], kinds: &Kinds) -> bool
    ensures { result ≡ wrong_kind (options wanted.now) kinds.now }
{
    let mut depth = 0;
    for want in wanted {
        if let Some(want) = want {
            match kinds.peek(depth) {
                Some(kind) => {
                    if !is_kind(*want, kind) {
                        return true;
                    }
                }
                None => return false,
            }
            depth += 1;
        }
    }
    false
}

/// Returns whether an own slot is loaded that may be unset, or an own slot is unset at the end.
fn has_unset_slot(parts: &Parts, edge: u32, own_len: usize, instr: Instr, set: &SlotSet) -> bool
    requires own { own_len ≡ length (own_slots parts.now edge) }
    requires set { IsOwnSet parts.now edge set.now }
    ensures { result ≡ unset_slot parts.now edge instr set.now }
{
    match instr {
        Instr::Load(slot) => is_own(parts, edge, slot) && !set.contains(slot),
        Instr::End => set.len() != own_len,
        _ => false,
    }
}

/// Returns whether values are left on the stack at the end.
fn has_values_left(instr: Instr, kinds: &Kinds) -> bool
    ensures { result ≡ values_left instr kinds.now }
{
    match instr {
        Instr::End => kinds.len() != 0,
        _ => false,
    }
}

/// Returns the first check that fails for an instruction at a place with this shape.
#[tactic(auto, unfolding(crate::specs::Shape::refused))]
pub(crate) fn refusal_at(
    parts: &Parts,
    edge: u32,
    own_len: usize,
    len: usize,
    place: usize,
    instr: Instr,
    shape: &Shape,
) -> Option<Refusal>
    requires order { IsInOrder parts.now }
    requires own { own_len ≡ length (own_slots parts.now edge) }
    requires len { len ≡ length (code parts.now edge) }
    requires place { place < len }
    requires set { IsOwnSet parts.now edge shape.now.set }
    ensures { result ≡ refused parts.now edge place instr shape.now }
{
    if has_bad_slot(parts, edge, instr) {
        return Some(Refusal::BadSlot);
    }
    if has_bad_jump(len, place, instr) {
        return Some(Refusal::BadJump);
    }
    if has_bad_file(parts, instr) {
        return Some(Refusal::BadFile);
    }
    if has_bad_text(parts, instr) {
        return Some(Refusal::BadText);
    }
    if needs_a_place(instr, shape.holding) {
        return Some(Refusal::NotHolding);
    }
    if still_holds(instr, shape.holding) {
        return Some(Refusal::Holding);
    }
    if shape.kinds.len() < taken_len(parts, instr) {
        return Some(Refusal::EmptyStack);
    }
    if has_wrong_kind(parts, instr, &shape.kinds) {
        return Some(Refusal::WrongKind);
    }
    if has_unset_slot(parts, edge, own_len, instr, &shape.set) {
        return Some(Refusal::UnsetSlot);
    }
    if has_values_left(instr, &shape.kinds) {
        return Some(Refusal::ValuesLeft);
    }
    if MAX_STACK < len_after(parts, instr, &shape.kinds) {
        return Some(Refusal::TooDeep);
    }
    if goes_past(len, place, instr) {
        return Some(Refusal::FallsOff);
    }
    None
}

/// The number of an edge's own slots, and whether one of them has a kind of paths.
#[derive(Clone, Copy)]
pub(crate) struct OwnSlots {
    pub count: usize,
    pub has_paths: bool,
}

fn has_paths(kind: Kind) -> bool
    ensures { result ≡ is_paths kind }
{
    match kind {
        Kind::Paths | Kind::Swept => true,
        _ => false,
    }
}

/// Counts one more slot.
fn with_slot(own: OwnSlots, slot: Slot) -> OwnSlots
    requires { own.count < 2 ^ 32 }
    ensures { result ≡ more own slot }
{
    OwnSlots {
        count: own.count + 1,
        has_paths: own.has_paths | has_paths(slot.kind),
    }
}

/// Counts a slot for its owner, if the owner is in the table.
fn count_slot(edges: &mut Vec<OwnSlots>, slot: Slot)
    requires { (e : Rattle.std.specs.Prelude.ℕ) → (own : OwnSlots) → slice_get edges.old.items e ≡ Some own → own.count < 2 ^ 32 }
    ensures { CountsMore edges.old.items slot edges.new.items }
{
    let owner = slot.owner as usize;
    if owner < edges.len() {
        edges[owner] = with_slot(edges[owner], slot);
    }
}

/// Counts the own slots of each edge.
pub(crate) fn own_slots_of_all(alloc: Global, parts: &Parts) -> Result<Vec<OwnSlots>, AllocError>
    requires { length parts.now.slots < 2 ^ 32 }
    ensures { IfOk result (λ owns. AreOwnSlots parts.now owns.items) }
{
    let mut edges = no_slots(alloc, parts.edges.len())?;
    for slot in parts.slots.as_slice() {
        count_slot(&mut edges, *slot);
    }
    Ok(edges)
}

/// Returns counts of zero for `len` edges.
fn no_slots(alloc: Global, len: usize) -> Result<Vec<OwnSlots>, AllocError>
    ensures { IfOk result (λ owns. owns.items ≡ Rattle.std.specs.Prelude.replicate len none) }
{
    let mut edges = Vec::with_capacity(alloc, len)?;
    for _ in 0..len {
        edges.push(OwnSlots {
            count: 0,
            has_paths: false,
        })?;
    }
    Ok(edges)
}
