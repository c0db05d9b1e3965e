//! Computes the size of a spelling.

ghost use Rattle.std.specs.Prelude.{◌≡◌, ◌++◌, ℕ, length};
ghost use Rattle.std.specs.List.{flat_map};
ghost use Rattle.plan_image.specs.Columns.{lent, lent_code, lent_instrs};
ghost use Rattle.plan_image.specs.Spelling.{counted, edge, instr, number, spelling, edge_code, RoomAfter};

use crate::body::{Body, BodyInstr, Instr};
use crate::edge_ref::{CodeRef, EdgeRef, InstrsRef};
use crate::edges::Edges;
use crate::image::{Parts, Pool, Slot};
use plan_text::{Items, RowList};

/// The size of an item's spelling, subtracted from the room that is left.
trait Measured {
    ghost use Rattle.std.specs.Prelude.{List, ℕ, length};
    ghost use Rattle.plan_image.specs.Spelling.{RoomAfter};

    type Item;

    ghost spell: { Self.Item → List ℕ };

    fn room_after(item: &Self::Item, room: u64) -> Option<u64>
        ensures { RoomAfter result (length (spell item.now)) room };
}

fn items_room<M: Measured>(items: &[M::Item], room: u64) -> Option<u64>
    ensures { RoomAfter result (length (flat_map M.spell items.now)) room }
{
    let mut left = room;
    for item in items {
        match M::room_after(item, left) {
            Some(rest) => left = rest,
            None => return None,
        }
    }
    Some(left)
}

fn counted_room<M: Measured>(items: &[M::Item], room: u64) -> Option<u64>
    ensures { RoomAfter result (length (counted M.spell items.now)) room }
{
    let room = room.checked_sub(4)?;
    items_room::<M>(items, room)
}

struct Word;

impl Measured for Word {
    ghost use Rattle.plan_image.specs.Spelling.{number};

    type Item = u32;

    ghost spell = { number };

    fn room_after(_item: &u32, room: u64) -> Option<u64> {
        room.checked_sub(4)
    }
}

/// The size of a text's spelling, subtracted from the room that is left.
trait TextMeasure {
    ghost use Rattle.std.specs.Prelude.{List, ℕ, length};
    ghost use Rattle.plan_image.specs.Spelling.{RoomAfter};

    ghost spell: { List ℕ → List ℕ };

    fn room_after(text: &[u8], room: u64) -> Option<u64>
        ensures { RoomAfter result (length (spell text.now)) room };
}

fn rows_room<M: TextMeasure>(rows: &RowList<u8>, room: u64) -> Option<u64>
    ensures { RoomAfter result (length (flat_map M.spell rows.now)) room }
{
    let mut left = room;
    for number in 0..rows.len() {
        match M::room_after(rows.row(number), left) {
            Some(rest) => left = rest,
            None => return None,
        }
    }
    Some(left)
}

fn texts_room<M: TextMeasure>(rows: &RowList<u8>, room: u64) -> Option<u64>
    ensures { RoomAfter result (length (counted M.spell rows.now)) room }
{
    let room = room.checked_sub(4)?;
    rows_room::<M>(rows, room)
}

struct LongText;

impl TextMeasure for LongText {
    ghost use Rattle.plan_image.specs.Spelling.{long_text};

    ghost spell = { long_text };

    fn room_after(text: &[u8], room: u64) -> Option<u64> {
        let room = room.checked_sub(4)?;
        room.checked_sub(text.len() as u64)
    }
}

struct ShortText;

impl TextMeasure for ShortText {
    ghost use Rattle.plan_image.specs.Spelling.{short_text};

    ghost spell = { short_text };

    fn room_after(text: &[u8], room: u64) -> Option<u64> {
        let room = room.checked_sub(2)?;
        room.checked_sub(text.len() as u64)
    }
}

struct PoolRoom;

impl Measured for PoolRoom {
    ghost use Rattle.plan_image.specs.Spelling.{pool};

    type Item = Pool;

    ghost spell = { pool };

    fn room_after(item: &Pool, room: u64) -> Option<u64> {
        let room = ShortText::room_after(item.name.as_slice(), room)?;
        room.checked_sub(4)
    }
}

struct SlotRoom;

impl Measured for SlotRoom {
    ghost use Rattle.plan_image.specs.Spelling.{slot};

    type Item = Slot;

    ghost spell = { slot };

    fn room_after(_item: &Slot, room: u64) -> Option<u64> {
        room.checked_sub(5)
    }
}

const fn instr_size(instr: Instr) -> u64
    ensures { result ≡ length (Rattle.plan_image.specs.Spelling.instr instr) }
{
    match instr {
        Instr::Stat(_)
        | Instr::Need(_)
        | Instr::Load(_)
        | Instr::Store(_)
        | Instr::Text(_)
        | Instr::Jump(_)
        | Instr::JumpIf(_) => 5,
        Instr::Flag(_) => 2,
        _ => 1,
    }
}

struct BodyInstrRoom;

impl Measured for BodyInstrRoom {
    ghost use Rattle.plan_image.specs.Spelling.{body_instr};

    type Item = BodyInstr;

    ghost spell = { body_instr };

    fn room_after(item: &BodyInstr, room: u64) -> Option<u64> {
        match item {
            BodyInstr::Fixed(instr) => room.checked_sub(instr_size(*instr)),
            BodyInstr::Open(_opening) => room.checked_sub(1),
        }
    }
}

struct BodyRoom;

impl Measured for BodyRoom {
    ghost use Rattle.plan_image.specs.Spelling.{body};

    type Item = Body;

    ghost spell = { body };

    fn room_after(item: &Body, room: u64) -> Option<u64> {
        let room = room.checked_sub(4)?;
        items_room::<BodyInstrRoom>(item.as_slice(), room)
    }
}

fn bodies_room(bodies: &Option<Items<Body>>, room: u64) -> Option<u64>
    ensures { RoomAfter result (length (Rattle.plan_image.specs.Spelling.bodies bodies.now)) room }
{
    match bodies {
        None => Some(room),
        Some(bodies) => counted_room::<BodyRoom>(bodies.as_slice(), room),
    }
}

/// Returns the room that is left after instructions. Returns None if they don't fit.
fn instrs_room(instrs: InstrsRef<'_>, room: u64) -> Option<u64>
    ensures { RoomAfter result (length (flat_map instr (lent_instrs instrs.entry))) room }
{
    let mut left = room;
    for place in 0..instrs.len() {
        match left.checked_sub(instr_size(instrs.instr(place))) {
            Some(rest) => left = rest,
            None => return None,
        }
    }
    Some(left)
}

fn own_room(instrs: InstrsRef<'_>, room: u64) -> Option<u64>
    ensures { RoomAfter result (length (counted instr (lent_instrs instrs.entry))) room }
{
    let room = room.checked_sub(4)?;
    instrs_room(instrs, room)
}

fn code_room(code: CodeRef<'_>, room: u64) -> Option<u64>
    ensures { RoomAfter result (length (edge_code (lent_code code.entry))) room }
{
    match code {
        CodeRef::Own(instrs) => own_room(instrs, room),
        CodeRef::Shared(number, numbers) => shared_room(number, numbers, room),
    }
}

fn shared_room(_number: u32, numbers: &[u32], room: u64) -> Option<u64>
    ensures { RoomAfter result (length (number _number ++ flat_map number numbers.now)) room }
{
    let room = room.checked_sub(4)?;
    items_room::<Word>(numbers, room)
}

fn edge_room(x: EdgeRef<'_>, room: u64) -> Option<u64>
    ensures { RoomAfter result (length (edge (lent x.entry))) room }
{
    let room = room.checked_sub(13)?;
    let room = counted_room::<Word>(x.outputs, room)?;
    let room = counted_room::<Word>(x.waits, room)?;
    code_room(x.code, room)
}

/// Returns the room that is left after edges. Returns None if they don't fit.
fn each_edge_room(edges: &Edges, room: u64) -> Option<u64>
    ensures { RoomAfter result (length (flat_map edge edges.now)) room }
{
    let mut left = room;
    for number in 0..edges.len() {
        match edge_room(edges.edge(number), left) {
            Some(rest) => left = rest,
            None => return None,
        }
    }
    Some(left)
}

fn edges_room(edges: &Edges, room: u64) -> Option<u64>
    ensures { RoomAfter result (length (counted edge edges.now)) room }
{
    let room = room.checked_sub(4)?;
    each_edge_room(edges, room)
}

#[tactic(auto, unfolding(crate::specs::Spelling::spelling))]
pub(crate) fn parts_room(parts: &Parts, room: u64) -> Option<u64>
    ensures { RoomAfter result (length (spelling parts.now)) room }
{
    let room = room.checked_sub(8)?;
    let room = texts_room::<LongText>(&parts.texts, room)?;
    let room = texts_room::<ShortText>(&parts.files, room)?;
    let room = counted_room::<PoolRoom>(parts.pools.as_slice(), room)?;
    let room = counted_room::<SlotRoom>(parts.slots.as_slice(), room)?;
    let room = bodies_room(&parts.bodies, room)?;
    let room = edges_room(&parts.edges, room)?;
    counted_room::<Word>(parts.defaults.as_slice(), room)
}
