//! Tests whether tables have a spelling.

ghost use Rattle.std.specs.Prelude.{◌≡◌, ◌<◌, ◌≤◌, ◌^◌, ◌+◌, ◌↔◌, IsTrue, length, Option, Some, None, IfSome, IsSome};
ghost use Rattle.std.specs.List.{AllByRecursion};
ghost use Rattle.plan_image.specs.Bodies.{opening_of, opens};
ghost use Rattle.plan_image.specs.Code.{HasBody, body};
ghost use Rattle.plan_image.specs.Columns.{lent, lent_code, lent_instrs};
ghost use Rattle.plan_image.specs.Spelling.{IsWord, AreWords, CodeFits, IsWithinLimits, CountsFit, ItemsFit, IsInOrder, RoomAfter, spelling, IsText, IsFileName, SlotFits, EdgeFits, PoolFits, instructions, InstrFits, pool_number, AscendsFrom, body_instructions, BodiesFit, IsFilled};

use crate::body::{Body, BodyInstr, Instr};
use crate::edge_ref::{CodeRef, EdgeRef, InstrsRef};
use crate::edges::Edges;
use crate::image::{Parts, Pool, Slot, instr_count};
use crate::maxima::{
    MAX_BODIES, MAX_BODY, MAX_BODY_INSTRS, MAX_DEPTH, MAX_EDGES, MAX_FILES, MAX_IMAGE,
    MAX_OWN_INSTRS, MAX_PATH, MAX_POOLS, MAX_SHARED_INSTRS, MAX_SLOTS, MAX_TEXT, MAX_TEXTS,
};
use crate::sizes::parts_room;
use plan_text::{Items, RowList};

/// A condition on each item of a list.
trait Test {
    ghost use Rattle.std.specs.Prelude.{IsTrue, ◌↔◌};

    type Item;

    ghost holds: { Self.Item → Type 0 };

    fn test(item: &Self::Item) -> bool
        ensures { IsTrue result ↔ holds item.now };
}

fn all<T: Test>(items: &[T::Item]) -> bool
    ensures { IsTrue result ↔ AllByRecursion T.holds items.now }
{
    for item in items {
        if !T::test(item) {
            return false;
        }
    }
    true
}

struct WordTest;

impl Test for WordTest {
    ghost use Rattle.plan_image.specs.Spelling.{IsWord};

    type Item = u32;

    ghost holds = { IsWord };

    fn test(item: &u32) -> bool {
        let _number = *item;
        true
    }
}

/// A condition on each text of a table.
trait RowTest {
    ghost use Rattle.std.specs.Prelude.{List, ℕ, IsTrue, ◌↔◌};

    ghost holds: { List ℕ → Type 0 };

    fn test(row: &[u8]) -> bool
        ensures { IsTrue result ↔ holds row.now };
}

fn all_rows<T: RowTest>(rows: &RowList<u8>) -> bool
    ensures { IsTrue result ↔ AllByRecursion T.holds rows.now }
{
    for number in 0..rows.len() {
        if !T::test(rows.row(number)) {
            return false;
        }
    }
    true
}

struct TextTest;

impl RowTest for TextTest {
    ghost use Rattle.plan_image.specs.Spelling.{IsText};

    ghost holds = { IsText };

    fn test(row: &[u8]) -> bool {
        row.len() <= MAX_TEXT
    }
}

struct FileTest;

impl RowTest for FileTest {
    ghost use Rattle.plan_image.specs.Spelling.{IsFileName};

    ghost holds = { IsFileName };

    fn test(row: &[u8]) -> bool {
        !row.is_empty() && row.len() <= MAX_PATH
    }
}

struct PoolTest;

impl Test for PoolTest {
    ghost use Rattle.plan_image.specs.Spelling.{PoolFits};

    type Item = Pool;

    ghost holds = { PoolFits };

    fn test(item: &Pool) -> bool {
        item.name.len() < 65_536 && item.depth <= MAX_DEPTH
    }
}

struct SlotTest;

impl Test for SlotTest {
    ghost use Rattle.plan_image.specs.Spelling.{SlotFits};

    type Item = Slot;

    ghost holds = { SlotFits };

    fn test(item: &Slot) -> bool {
        let _owner = item.owner;
        true
    }
}

struct InstrTest;

impl Test for InstrTest {
    ghost use Rattle.plan_image.specs.Spelling.{InstrFits};

    type Item = Instr;

    ghost holds = { InstrFits };

    fn test(item: &Instr) -> bool {
        match *item {
            Instr::Stat(_n)
            | Instr::Need(_n)
            | Instr::Load(_n)
            | Instr::Store(_n)
            | Instr::Text(_n)
            | Instr::Jump(_n)
            | Instr::JumpIf(_n) => true,
            _ => true,
        }
    }
}

fn are_words(items: &[u32]) -> bool
    ensures { IsTrue result ↔ AreWords items.now }
{
    items.len() < 4_294_967_296 && all::<WordTest>(items)
}

fn all_instrs(instrs: InstrsRef<'_>) -> bool
    ensures { IsTrue result ↔ AllByRecursion InstrFits (lent_instrs instrs.entry) }
{
    for place in 0..instrs.len() {
        if !InstrTest::test(&instrs.instr(place)) {
            return false;
        }
    }
    true
}

fn code_fits(code: CodeRef<'_>) -> bool
    ensures { IsTrue result ↔ CodeFits (lent_code code.entry) }
{
    match code {
        CodeRef::Own(instrs) => instrs.len() < 4_294_967_296 && all_instrs(instrs),
        CodeRef::Shared(number, numbers) => shared_fits(number, numbers),
    }
}

fn shared_fits(_number: u32, numbers: &[u32]) -> bool
    ensures { IsTrue result ↔ IsWord _number × AllByRecursion IsWord numbers.now }
{
    all::<WordTest>(numbers)
}

/// Returns whether the number of an instruction can't be left open.
fn is_closed(instr: Instr) -> bool
    ensures { IsTrue result ↔ (opening_of instr ≡ None) }
{
    match instr {
        Instr::Stat(_) | Instr::Need(_) | Instr::Load(_) | Instr::Store(_) | Instr::Text(_) =>
            false,
        _ => true,
    }
}

struct BodyInstrTest;

impl Test for BodyInstrTest {
    ghost use Rattle.plan_image.specs.Spelling.{BodyInstrFits};

    type Item = BodyInstr;

    ghost holds = { BodyInstrFits };

    fn test(item: &BodyInstr) -> bool {
        match item {
            BodyInstr::Fixed(instr) => is_closed(*instr) && InstrTest::test(instr),
            BodyInstr::Open(_opening) => true,
        }
    }
}

struct BodyTest;

impl Test for BodyTest {
    ghost use Rattle.plan_image.specs.Spelling.{BodyFits};

    type Item = Body;

    ghost holds = { BodyFits };

    fn test(item: &Body) -> bool {
        item.len() <= MAX_BODY && all::<BodyInstrTest>(item.as_slice())
    }
}

/// Returns whether the bodies have at most `most` instructions in all.
fn bodies_within(bodies: &[Body], most: u64) -> bool
    ensures { IsTrue result ↔ (body_instructions bodies.now ≤ most) }
{
    let mut left = most;
    for body in bodies {
        match left.checked_sub(body.len() as u64) {
            Some(rest) => left = rest,
            None => return false,
        }
    }
    true
}

fn table_fits(bodies: &Items<Body>) -> bool
    ensures { IsTrue result ↔ BodiesFit bodies.now }
{
    bodies.len() <= MAX_BODIES
        && all::<BodyTest>(bodies.as_slice())
        && bodies_within(bodies.as_slice(), MAX_BODY_INSTRS)
}

fn bodies_fit(bodies: &Option<Items<Body>>) -> bool
    ensures { IsTrue result ↔ IfSome bodies.now BodiesFit }
{
    match bodies {
        None => true,
        Some(bodies) => table_fits(bodies),
    }
}

/// Returns the most instructions that the edges may have in all.
pub(crate) fn most_code(bodies: &Option<Items<Body>>) -> u64
    ensures { result ≡ Rattle.plan_image.specs.Spelling.most_code bodies.now }
{
    match bodies {
        None => MAX_OWN_INSTRS,
        Some(_bodies) => MAX_SHARED_INSTRS,
    }
}

/// Returns whether the code has the form of the version, and a number for each open instruction.
fn has_body(bodies: &Option<Items<Body>>, code: CodeRef<'_>) -> bool
    ensures { IsTrue result ↔ HasBody bodies.now (lent_code code.entry) }
{
    match bodies {
        None => match code {
            CodeRef::Own(_instrs) => true,
            CodeRef::Shared(_number, _numbers) => false,
        },
        Some(bodies) => match code {
            CodeRef::Own(_instrs) => false,
            CodeRef::Shared(number, numbers) => fills(bodies.as_slice(), number, numbers.len()),
        },
    }
}

fn fills(bodies: &[Body], number: u32, count: usize) -> bool
    ensures { IsTrue result ↔ (number < length bodies.now) × (count ≡ opens (body (Some bodies.now) number)) }
{
    match bodies.get(number as usize) {
        None => false,
        Some(body) => count == body.open_count(),
    }
}

pub(crate) fn is_filled(parts: &Parts) -> bool
    ensures { IsTrue result ↔ IsFilled parts.now }
{
    all_filled(&parts.bodies, &parts.edges)
}

fn all_filled(bodies: &Option<Items<Body>>, edges: &Edges) -> bool
    ensures { IsTrue result ↔ AllByRecursion (λ x. HasBody bodies.now x.code) edges.now }
{
    for number in 0..edges.len() {
        if !has_body(bodies, edges.edge(number).code) {
            return false;
        }
    }
    true
}

fn pool_fits(pool: Option<u32>) -> bool
    ensures { IsTrue result ↔ IsWord (pool_number pool) }
{
    match pool {
        None => true,
        Some(pool) => pool < 4_294_967_295,
    }
}

/// A condition on each edge.
trait EdgeTest {
    ghost use Rattle.std.specs.Prelude.{IsTrue, ◌↔◌};
    ghost use Rattle.plan_image.specs.declared.image.Edge.{Edge};
    ghost use Rattle.plan_image.specs.Columns.{lent};

    ghost holds: { Edge → Type 0 };

    fn test(edge: EdgeRef<'_>) -> bool
        ensures { IsTrue result ↔ holds (lent edge.entry) };
}

fn all_edges<T: EdgeTest>(edges: &Edges) -> bool
    ensures { IsTrue result ↔ AllByRecursion T.holds edges.now }
{
    for number in 0..edges.len() {
        if !T::test(edges.edge(number)) {
            return false;
        }
    }
    true
}

struct FitTest;

impl EdgeTest for FitTest {
    ghost use Rattle.plan_image.specs.Spelling.{EdgeFits};

    ghost holds = { EdgeFits };

    fn test(edge: EdgeRef<'_>) -> bool {
        let _rank = edge.rank;
        let _label = edge.label;
        pool_fits(edge.pool)
            && are_words(edge.outputs)
            && are_words(edge.waits)
            && code_fits(edge.code)
    }
}

/// Returns whether each number is greater than the one before it.
fn ascends(items: &[u32]) -> bool
    ensures { IsTrue result ↔ AscendsFrom 0 items.now }
{
    let mut least = 0u64;
    for &item in items {
        if u64::from(item) < least {
            return false;
        }
        least = u64::from(item) + 1;
    }
    true
}

struct OrderTest;

impl EdgeTest for OrderTest {
    ghost use Rattle.plan_image.specs.Spelling.{AscendsFrom};

    ghost holds = { λ x. AscendsFrom 0 x.waits };

    fn test(edge: EdgeRef<'_>) -> bool {
        ascends(edge.waits)
    }
}

pub(crate) fn is_in_order(parts: &Parts) -> bool
    ensures { IsTrue result ↔ IsInOrder parts.now }
{
    all_edges::<OrderTest>(&parts.edges) && ascends(parts.defaults.as_slice())
}

/// Returns whether the edges have at most `most` instructions in all.
fn instructions_within(bodies: &Option<Items<Body>>, edges: &Edges, most: u64) -> bool
    ensures { IsTrue result ↔ (instructions bodies.now edges.now ≤ most) }
{
    let mut left = most;
    for number in 0..edges.len() {
        match left.checked_sub(instr_count(bodies, edges.edge(number).code) as u64) {
            Some(rest) => left = rest,
            None => return false,
        }
    }
    true
}

/// Returns whether no table has more items than its limit.
fn counts_fit(parts: &Parts) -> bool
    ensures { IsTrue result ↔ CountsFit parts.now }
{
    parts.texts.len() <= MAX_TEXTS
        && parts.files.len() <= MAX_FILES
        && parts.pools.len() <= MAX_POOLS
        && parts.slots.len() <= MAX_SLOTS
        && parts.edges.len() <= MAX_EDGES
}

/// Returns whether the lengths and numbers of each item fit their fields and limits.
fn items_fit(parts: &Parts) -> bool
    ensures { IsTrue result ↔ ItemsFit parts.now }
{
    all_rows::<TextTest>(&parts.texts)
        && all_rows::<FileTest>(&parts.files)
        && all::<PoolTest>(parts.pools.as_slice())
        && all::<SlotTest>(parts.slots.as_slice())
        && all_edges::<FitTest>(&parts.edges)
        && are_words(parts.defaults.as_slice())
}

/// Returns whether the spelling has at most as many bytes as an image may have.
fn is_spelling_within(parts: &Parts) -> bool
    ensures { IsTrue result ↔ (length (spelling parts.now) ≤ MAX_IMAGE) }
{
    parts_room(parts, MAX_IMAGE as u64).is_some()
}

/// Returns whether the tables are within all limits except that on the bytes of the spelling.
fn are_tables_within(parts: &Parts) -> bool
    ensures { IsTrue result ↔ CountsFit parts.now × ItemsFit parts.now × IfSome parts.now.bodies BodiesFit × (instructions parts.now.bodies parts.now.edges ≤ Rattle.plan_image.specs.Spelling.most_code parts.now.bodies) }
{
    counts_fit(parts)
        && items_fit(parts)
        && bodies_fit(&parts.bodies)
        && instructions_within(&parts.bodies, &parts.edges, most_code(&parts.bodies))
}

/// Returns whether the tables are within all limits.
pub(crate) fn is_within_limits(parts: &Parts) -> bool
    ensures { IsTrue result ↔ IsWithinLimits parts.now }
{
    are_tables_within(parts) && is_spelling_within(parts)
}
