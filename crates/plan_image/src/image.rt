//! The tables of an image.

ghost use Rattle.std.specs.Prelude.{◌≡◌, ◌↔◌, [], List, Option, None, Some, IsTrue, IsOk, IfOk, IfErr, IfNone, IfSome, length, slice_get};
ghost use Rattle.plan_image.specs.declared.body.BodyInstr.{BodyInstr};
ghost use Rattle.plan_image.specs.Bodies.{with_operands};
ghost use Rattle.plan_image.specs.Code.{instrs_of, body};
ghost use Rattle.plan_image.specs.Columns.{code_at, lent_code, shared_body};
ghost use Rattle.plan_image.specs.Spelling.{HasSpelling, IsPrefixFree};

use crate::body::{Body, BodyInstr, CodeView, Instr, Kind, Members};
use crate::edge_ref::{CodeRef, InstrsRef};
use crate::edges::Edges;
use crate::fault::ImageFault;
use crate::limits::{is_filled, is_in_order, is_within_limits};
use plan_text::{Items, RowList};
use std::marker::Model;

/// The sort of an edge.
#[derive(Clone, Copy, PartialEq, Eq)]
pub enum Sort {
    /// An edge that has a command.
    Command,
    /// An edge that only waits for others.
    Phony,
}

/// A pool: its name of at most 65,535 bytes, and its depth, which is the number of edges that may run in it at
/// once, at most 1,000,000.
#[derive(Drop)]
pub struct Pool {
    pub name: Items<u8>,
    pub depth: u32,
}

/// A slot: the edge that sets it, and the kind of its value.
#[derive(Clone, Copy, PartialEq, Eq)]
pub struct Slot {
    pub owner: u32,
    pub kind: Kind,
}

/// An edge: the number of its pool, its rank, its label (the number of a text), the files that it creates (the
/// first one gives the edge its name), the edges that it waits for (in ascending order), and its code. An image
/// does not guarantee that the numbers exist in their tables.
#[derive(Drop)]
pub struct Edge {
    pub sort: Sort,
    pub pool: Option<u32>,
    pub rank: u32,
    pub label: u32,
    pub outputs: Items<u32>,
    pub waits: Items<u32>,
    pub code: EdgeCode,
}

/// The instructions of an edge, in the form of the image's version.
#[derive(Drop)]
pub enum EdgeCode {
    /// Version 1: its own instructions.
    Own(Items<Instr>),
    /// Version 2: the number of a body, and an operand for each of its open instructions.
    Shared(u32, Items<u32>),
}

/// The version of an image.
#[derive(Clone, Copy, PartialEq, Eq)]
pub enum Version {
    /// Each edge has its own instructions.
    One,
    /// Edges share bodies.
    Two,
}

/// The tables of an image. Items are numbered by their index, from 0. docs/rules/image.md lists their limits.
#[derive(Drop)]
pub struct Parts {
    pub texts: RowList<u8>,
    pub files: RowList<u8>,
    pub pools: Items<Pool>,
    pub slots: Items<Slot>,
    /// The bodies that edges share, if the version is two.
    pub bodies: Option<Items<Body>>,
    pub edges: Edges,
    pub defaults: Items<u32>,
}

impl Parts {
    ghost use Rattle.std.specs.Prelude.{◌≡◌};
    ghost use Rattle.plan_image.specs.Spelling.{version_of};

    /// Returns the version: two if there is a table of bodies, and else one.
    pub fn version(&self) -> Version
        ensures { result ≡ version_of self.now.bodies }
    {
        match &self.bodies {
            None => Version::One,
            Some(_bodies) => Version::Two,
        }
    }
}

/// Returns the number of instructions of an edge's code, after a body is filled in.
pub(crate) fn instr_count(bodies: &Option<Items<Body>>, code: CodeRef<'_>) -> usize
    ensures { result ≡ length (instrs_of bodies.now (lent_code code.entry)) }
{
    match code {
        CodeRef::Own(instrs) => instrs.len(),
        CodeRef::Shared(number, numbers) => filled_len(bodies, number, numbers),
    }
}

fn filled_len(bodies: &Option<Items<Body>>, number: u32, numbers: &[u32]) -> usize
    ensures { result ≡ length (with_operands (body bodies.now number) numbers.now) }
{
    match bodies {
        None => 0,
        Some(bodies) => match bodies.as_slice().get(number as usize) {
            None => 0,
            Some(body) => body.filled_len(numbers),
        },
    }
}

/// Returns the instruction at a place of a code that shares no body.
fn own_instr(code: CodeRef<'_>, place: usize) -> Option<Instr>
    requires { shared_body (Some (lent_code code)) ≡ None }
    ensures { (bodies : Option (List (List BodyInstr))) → result ≡ slice_get (instrs_of bodies (lent_code code.entry)) place }
{
    match code {
        CodeRef::Own(instrs) => instrs.get(place),
        CodeRef::Shared(_, _) => unreachable!(),
    }
}

/// Returns body `number`. Returns None if there is no such body.
fn body_at(bodies: &Option<Items<Body>>, number: u32) -> Option<&Body>
    ensures there { IfSome result (λ b. b.now ≡ body bodies.now number) }
    ensures none { IfNone result (body bodies.now number ≡ []) }
{
    match bodies {
        None => None,
        Some(bodies) => bodies.as_slice().get(number as usize),
    }
}

/// Returns a view of the instructions of an edge's code.
fn view_of<'a>(bodies: &'a Option<Items<Body>>, code: CodeRef<'a>) -> CodeView<'a>
    ensures { result ≡ instrs_of bodies.now (lent_code code.entry) }
{
    match code {
        CodeRef::Own(instrs) => CodeView::new(Members::Own(instrs)),
        CodeRef::Shared(number, operands) => shared_view(bodies, number, operands),
    }
}

/// Returns a view of the instructions of an edge that shares a body.
fn shared_view<'a>(
    bodies: &'a Option<Items<Body>>,
    number: u32,
    operands: &'a [u32],
) -> CodeView<'a>
    ensures { result ≡ with_operands (body bodies.now number) operands.now }
{
    match body_at(bodies, number) {
        None => no_code(),
        Some(body) => CodeView::new(Members::Shared(body, operands)),
    }
}

/// Returns a view without instructions.
fn no_code<'a>() -> CodeView<'a>
    ensures { result ≡ [] }
{
    CodeView::new(Members::Own(InstrsRef {
        opcodes: &[],
        operands: &[],
    }))
}

/// Tables that have a spelling: they are within all limits and in order, and each code has the form of the
/// version. A contract sees the tables.
#[derive(Drop)]
pub struct Image {
    parts: Parts,
}

impl Model for Image {
    ghost use Rattle.plan_image.specs.declared.image.Parts.{Parts};

    ghost Value = { Parts };

    ghost use Rattle.plan_image.specs.Spelling.{HasSpelling};

    ghost view = { λ i. i.parts };

    ghost invariant = { λ i. HasSpelling i.parts };
}

impl Image {
    ghost use Rattle.std.specs.Prelude.{◌≡◌, IsTrue, ◌↔◌, IfOk, IfErr, Some, slice_get};
    ghost use Rattle.plan_image.specs.Refusal.{IsPartsFault};
    ghost use Rattle.plan_image.specs.Spelling.{HasSpelling, IsWithinLimits, spelling};
    ghost use Rattle.plan_image.specs.Code.{code};
    ghost use Rattle.plan_image.specs.Columns.{code_at, shared_body};

    /// Creates an image from tables. It takes no memory.
    ///
    /// # Errors
    ///
    /// Returns the tables and a fault with offset 0. `Limit` comes before `BadOrder`, and `BadOrder` before
    /// `BadBody`.
    pub fn new(parts: Parts) -> Result<Image, (Parts, ImageFault)>
        ensures made { IfOk result (λ i. i ≡ parts) }
        ensures back { IfErr result (λ e. e.0 ≡ parts) }
        ensures fault { IfErr result (λ e. IsPartsFault parts e.1) }
    {
        if !is_within_limits(&parts) {
            return Err((parts, ImageFault::Limit(0)));
        }
        if !is_in_order(&parts) {
            return Err((parts, ImageFault::BadOrder(0)));
        }
        if !is_filled(&parts) {
            return Err((parts, ImageFault::BadBody(0)));
        }
        Ok(Image::with_spelling(parts))
    }

    /// Borrows the tables.
    pub fn parts(&self) -> &Parts
        ensures tables { result.now ≡ self.now }
        ensures spelled { HasSpelling self.now }
    {
        &self.parts
    }

    /// Returns the tables.
    pub fn into_parts(self) -> Parts
        ensures tables { result ≡ self }
        ensures spelled { HasSpelling self }
    {
        self.parts
    }

    /// Returns a view of the code of an edge, for reading its instructions one by one. If there is no such
    /// edge, the view is empty.
    pub fn edge_code(&self, edge: u32) -> CodeView<'_>
        ensures { result ≡ code self.now edge }
    {
        match self.parts.edges.code(edge as usize) {
            Some(code) => view_of(&self.parts.bodies, code),
            None => no_code(),
        }
    }

    /// Returns the instruction at a place of an edge's code. Returns None if there is no such instruction. The
    /// operands of the edge are read only if the instruction is an open one of a body. To read several
    /// instructions of one edge, use `edge_code`.
    #[inline(always)]
    pub fn instr(&self, edge: u32, place: u32) -> Option<Instr>
        ensures { result ≡ slice_get (code self.now edge) place }
    {
        match self.parts.edges.shared_body(edge as usize) {
            Some(body) => self.shared_instr(edge, body, place),
            None => match self.parts.edges.code(edge as usize) {
                Some(code) => own_instr(code, place as usize),
                None => None,
            },
        }
    }

    /// Returns the instruction at a place of an edge that shares this body.
    #[inline(always)]
    fn shared_instr(&self, edge: u32, body: u32, place: u32) -> Option<Instr>
        requires { shared_body (code_at self.now.edges edge) ≡ Some body }
        ensures { result ≡ slice_get (code self.now edge) place }
    {
        let members = body_at(&self.parts.bodies, body)?;
        let rank = members.rank(place as usize);
        match members.as_slice().get(place as usize) {
            None => None,
            Some(BodyInstr::Fixed(instr)) => Some(*instr),
            Some(BodyInstr::Open(opening)) => {
                let operand = self.parts.edges.operand(edge as usize, rank);
                Some(opening.with_number(operand))
            }
        }
    }

    /// Creates an image from tables that have a spelling.
    pub(crate) fn with_spelling(parts: Parts) -> Image
        requires { HasSpelling parts }
        ensures { result ≡ parts }
    {
        Image { parts }
    }
}

/// States that no spelling of an image is a prefix of another one.
pub fn image_law()
    ensures { IsPrefixFree }
{}
