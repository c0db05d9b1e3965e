//! The instructions of an edge, and bodies: lists of instructions that edges share. docs/rules/image.md lists the
//! instructions in a table.

ghost use Rattle.std.specs.Prelude.{◌≡◌, ◌+◌, ◌<◌, ◌≤◌, ◌^◌, ◌∷◌, ◌++◌, [], length, List, IfOk, OnOk, slice_get, get_or};
ghost use Rattle.plan_image.specs.declared.body.BodyInstr.{BodyInstr};
ghost use Rattle.plan_image.specs.Bodies.{opens, ranks_from, with_operands, IsSplit, body_of, operands_of, open_operand};
ghost use Rattle.plan_image.specs.Spelling.{BodiesHaveSpelling};

use crate::edge_ref::InstrsRef;
use plan_text::{Items, Memory};
use std::alloc::{AllocError, Global};
use std::marker::Model;

/// A list of instructions that edges share. Some of them may be open. A contract sees the list.
///
/// The rank of each instruction, which is the number of open instructions before it, is stored with it. The
/// operand of an open instruction is then found in one access.
#[derive(Drop)]
pub struct Body {
    instrs: Vec<BodyInstr>,
    ranks: Vec<usize>,
    open_count: usize,
}

impl Model for Body {
    ghost use Rattle.std.specs.Prelude.{◌≡◌, List};
    ghost use Rattle.plan_image.specs.declared.body.BodyInstr.{BodyInstr};
    ghost use Rattle.plan_image.specs.Bodies.{opens, ranks_from};

    ghost Value = { List BodyInstr };

    ghost view = { λ b. b.instrs.items };

    ghost invariant = { λ b. (b.ranks.items ≡ ranks_from 0 b.instrs.items) × (b.open_count ≡ opens b.instrs.items) };
}

/// Returns the rank of the instruction after this one: `rank` plus one if this one is open.
fn next_rank(rank: usize, instr: BodyInstr) -> usize
    requires { rank < 2 ^ 63 }
    ensures ranks { (is : List BodyInstr) → ranks_from rank (instr ∷ is) ≡ rank ∷ ranks_from result is }
    ensures opens { (is : List BodyInstr) → rank + opens (instr ∷ is) ≡ result + opens is }
    ensures most { result ≤ rank + 1 }
{
    match instr {
        BodyInstr::Fixed(_instr) => rank,
        BodyInstr::Open(_opening) => rank + 1,
    }
}

impl Body {
    ghost use Rattle.std.specs.Prelude.{◌≡◌, ℕ, List, length, IfOk, slice_get};
    ghost use Rattle.plan_image.specs.Bodies.{opens, with_operands};

    /// Creates the body of these instructions, in their order.
    pub fn new(alloc: Global, instrs: Vec<BodyInstr>) -> Result<Body, Memory>
        ensures { IfOk result (λ b. b ≡ instrs.items) }
    {
        let mut ranks = Vec::with_capacity(alloc, instrs.len())?;
        let mut open_count = 0usize;
        for &instr in instrs.as_slice() {
            ranks.push(open_count)?;
            open_count = next_rank(open_count, instr);
        }
        Ok(Body {
            instrs,
            ranks,
            open_count,
        })
    }

    /// Returns the number of instructions.
    pub fn len(&self) -> usize
        ensures { result ≡ length self.now }
    {
        self.instrs.len()
    }

    /// Borrows the instructions.
    pub fn as_slice(&self) -> &[BodyInstr]
        ensures { result.now ≡ self.now }
    {
        self.instrs.as_slice()
    }

    /// Returns the number of open instructions.
    pub fn open_count(&self) -> usize
        ensures { result ≡ opens self.now }
    {
        self.open_count
    }

    /// Returns the number of instructions after the operands of an edge are filled in. It is the same as
    /// before.
    pub fn filled_len(&self, _numbers: &[u32]) -> usize
        ensures { result ≡ length (with_operands self.now _numbers.now) }
    {
        self.len()
    }

    /// Returns the number of open instructions before a place. If the instruction at the place is open, this is
    /// the index of its operand.
    pub(crate) fn rank(&self, place: usize) -> usize
        ensures { (numbers : List ℕ) → Rattle.plan_image.specs.Bodies.instr_with_rank numbers (slice_get self.now place) result ≡ slice_get (with_operands self.now numbers) place }
    {
        rank_at(self.ranks.as_slice(), place)
    }

    /// Returns the instruction at a place, counted from 0, with the operands of an edge filled in. A missing
    /// operand counts as 0. The operands are read only if the instruction is open.
    #[inline(always)]
    pub fn instr(&self, numbers: &[u32], place: usize) -> Option<Instr>
        ensures { result ≡ slice_get (with_operands self.now numbers.now) place }
    {
        let rank = self.rank(place);
        match self.as_slice().get(place) {
            None => None,
            Some(BodyInstr::Fixed(instr)) => Some(*instr),
            Some(BodyInstr::Open(opening)) => {
                Some(opening.with_number(number_at(numbers, rank)))
            }
        }
    }
}

fn rank_at(ranks: &[usize], place: usize) -> usize
    ensures { result ≡ get_or ranks.now place 0 }
{
    match ranks.get(place) {
        Some(rank) => *rank,
        None => 0,
    }
}

/// Returns the number with this rank, or 0 if there are too few numbers.
pub(crate) fn number_at(numbers: &[u32], rank: usize) -> u32
    ensures { result ≡ get_or numbers.now rank 0 }
{
    match numbers.get(rank) {
        Some(number) => *number,
        None => 0,
    }
}

fn push_number(numbers: &mut Vec<u32>, number: u32) -> Result<(), AllocError>
    ensures { OnOk result (numbers.new.items ≡ numbers.old.items ++ number ∷ []) }
{
    numbers.push(number)?;
    Ok(())
}

/// Appends the number of an instruction that can be open. Appends nothing for another instruction.
fn push_open(numbers: &mut Vec<u32>, instr: Instr) -> Result<(), AllocError>
    ensures { OnOk result (numbers.new.items ≡ numbers.old.items ++ open_operand instr) }
{
    match instr {
        Instr::Stat(number) => push_number(numbers, number),
        Instr::Need(number) => push_number(numbers, number),
        Instr::Load(number) => push_number(numbers, number),
        Instr::Store(number) => push_number(numbers, number),
        Instr::Text(number) => push_number(numbers, number),
        _fixed => Ok(()),
    }
}

/// Splits a code into its body and the operands of its open instructions, in order.
pub fn split(alloc: Global, code: &[Instr]) -> Result<(Body, Items<u32>), Memory>
    ensures body { IfOk result (λ x. x.0 ≡ body_of code.now) }
    ensures numbers { IfOk result (λ x. x.1 ≡ operands_of code.now) }
{
    let mut instrs = Vec::with_capacity(alloc, code.len())?;
    let mut numbers = Vec::new(alloc);
    for &instr in code {
        instrs.push(instr.leave_open())?;
        push_open(&mut numbers, instr)?;
    }
    let body = Body::new(alloc, instrs)?;
    Ok((body, Items::new(numbers)))
}

/// States that each code is its body with its operands filled in, that it has one operand for each open
/// instruction, and that its body has a spelling if the code's instructions have one.
pub fn split_law()
    ensures split { IsSplit }
    ensures spelling { BodiesHaveSpelling }
{}

/// The kind of a value on an edge's stack or in a slot. An image has the kinds as numbers from 1 to 5.
#[derive(Clone, Copy, Default, PartialEq, Eq)]
pub enum Kind {
    /// A file's modification time, or 0 if the file is missing.
    #[default]
    Stamp,
    /// True or false.
    Flag,
    /// Bytes.
    Text,
    /// Paths whose stamps have not been requested yet.
    Paths,
    /// Paths whose stamps have been requested.
    Swept,
}

/// An instruction with its operand: the number of a file (`Stat`, `Need`), of a slot (`Load`, `Store`), of a
/// text (`Text`), of a place (`Jump`, `JumpIf`), or a flag. Its opcodes are 0 to 28 in the order of the
/// variants.
#[derive(Clone, Copy, PartialEq, Eq)]
pub enum Instr {
    End,
    Stat(u32),
    Need(u32),
    Load(u32),
    Store(u32),
    Older,
    Newer,
    Before,
    Same,
    IsMissing,
    Or,
    Not,
    Flag(bool),
    Zero,
    NoPaths,
    Text(u32),
    Join,
    Equal,
    Recall,
    Sweep,
    Jump(u32),
    JumpIf(u32),
    Take,
    Release,
    Run,
    Deps,
    Keep,
    Drop,
    Swap,
}

impl Instr {
    ghost use Rattle.std.specs.Prelude.{◌≡◌, ◌≤◌};
    ghost use Rattle.plan_image.specs.Opcodes.{instr_by, opcode, operand_or_zero};
    ghost use Rattle.plan_image.specs.Bodies;

    /// Returns the instruction of an opcode with this operand. The operand of `Flag` is 1 for true. An opcode above
    /// 28 gives `End`, and an operand that the instruction doesn't have is ignored.
    #[inline(always)]
    pub const fn from_opcode(opcode: u8, operand: u32) -> Instr
        ensures { result ≡ instr_by opcode operand }
    {
        match opcode {
            1 => Instr::Stat(operand),
            2 => Instr::Need(operand),
            3 => Instr::Load(operand),
            4 => Instr::Store(operand),
            5 => Instr::Older,
            6 => Instr::Newer,
            7 => Instr::Before,
            8 => Instr::Same,
            9 => Instr::IsMissing,
            10 => Instr::Or,
            11 => Instr::Not,
            12 => Instr::Flag(operand == 1),
            13 => Instr::Zero,
            14 => Instr::NoPaths,
            15 => Instr::Text(operand),
            16 => Instr::Join,
            17 => Instr::Equal,
            18 => Instr::Recall,
            19 => Instr::Sweep,
            20 => Instr::Jump(operand),
            21 => Instr::JumpIf(operand),
            22 => Instr::Take,
            23 => Instr::Release,
            24 => Instr::Run,
            25 => Instr::Deps,
            26 => Instr::Keep,
            27 => Instr::Drop,
            28 => Instr::Swap,
            _ => Instr::End,
        }
    }

    /// Returns the opcode of the instruction and its operand: 1 for the flag true, and 0 if it has none.
    #[inline(always)]
    pub const fn opcode_and_operand(self) -> (u8, u32)
        ensures opcode { result.0 ≡ opcode self }
        ensures operand { result.1 ≡ operand_or_zero self }
        ensures few { result.0 ≤ 28 }
        ensures back { instr_by result.0 result.1 ≡ self }
    {
        match self {
            Instr::End => (0, 0),
            Instr::Stat(file) => (1, file),
            Instr::Need(file) => (2, file),
            Instr::Load(slot) => (3, slot),
            Instr::Store(slot) => (4, slot),
            Instr::Older => (5, 0),
            Instr::Newer => (6, 0),
            Instr::Before => (7, 0),
            Instr::Same => (8, 0),
            Instr::IsMissing => (9, 0),
            Instr::Or => (10, 0),
            Instr::Not => (11, 0),
            Instr::Flag(false) => (12, 0),
            Instr::Flag(true) => (12, 1),
            Instr::Zero => (13, 0),
            Instr::NoPaths => (14, 0),
            Instr::Text(text) => (15, text),
            Instr::Join => (16, 0),
            Instr::Equal => (17, 0),
            Instr::Recall => (18, 0),
            Instr::Sweep => (19, 0),
            Instr::Jump(place) => (20, place),
            Instr::JumpIf(place) => (21, place),
            Instr::Take => (22, 0),
            Instr::Release => (23, 0),
            Instr::Run => (24, 0),
            Instr::Deps => (25, 0),
            Instr::Keep => (26, 0),
            Instr::Drop => (27, 0),
            Instr::Swap => (28, 0),
        }
    }

    /// Returns the instruction with its number left open, if it is of a kind that can be open.
    #[inline(always)]
    pub const fn leave_open(self) -> BodyInstr
        ensures { result ≡ Bodies.leave_open self }
    {
        match self {
            Instr::Stat(_number) => BodyInstr::Open(Opening::Stat),
            Instr::Need(_number) => BodyInstr::Open(Opening::Need),
            Instr::Load(_number) => BodyInstr::Open(Opening::Load),
            Instr::Store(_number) => BodyInstr::Open(Opening::Store),
            Instr::Text(_number) => BodyInstr::Open(Opening::Text),
            fixed => BodyInstr::Fixed(fixed),
        }
    }
}

/// The kind of an open instruction, whose operand is stored in the edge.
#[derive(Clone, Copy, PartialEq, Eq)]
pub enum Opening {
    Stat,
    Need,
    Load,
    Store,
    Text,
}

impl Opening {
    ghost use Rattle.std.specs.Prelude.{◌≡◌};
    ghost use Rattle.plan_image.specs.Bodies.{put};

    /// Returns the open instruction with this number as its operand.
    #[inline(always)]
    pub const fn with_number(self, number: u32) -> Instr
        ensures { result ≡ put self number }
    {
        match self {
            Opening::Stat => Instr::Stat(number),
            Opening::Need => Instr::Need(number),
            Opening::Load => Instr::Load(number),
            Opening::Store => Instr::Store(number),
            Opening::Text => Instr::Text(number),
        }
    }
}

/// An instruction of a body. In an image each instruction that can be open is open: `Fixed` has none of the
/// five kinds of `Opening`.
#[derive(Clone, Copy, PartialEq, Eq)]
pub enum BodyInstr {
    Fixed(Instr),
    Open(Opening),
}

/// The source of the instructions of a code.
#[derive(Clone, Copy)]
pub(crate) enum Members<'a> {
    /// The edge's own instructions.
    Own(InstrsRef<'a>),
    /// A body, and an operand for each of its open instructions.
    Shared(&'a Body, &'a [u32]),
}

/// The code of an edge, borrowed from an image that has looked it up once. It is a body with operands, or the
/// edge's own instructions. A contract sees the list of its instructions.
#[derive(Drop)]
pub struct CodeView<'a> {
    members: Members<'a>,
}

impl<'a> Model for CodeView<'a> {
    ghost use Rattle.std.specs.Prelude.{List};
    ghost use Rattle.plan_image.specs.declared.body.Instr.{Instr};
    ghost use Rattle.plan_image.specs.Views.{members_code};

    ghost Value = { List Instr };

    ghost view = { λ v. members_code v.members };
}

impl<'a> CodeView<'a> {
    ghost use Rattle.std.specs.Prelude.{◌≡◌, length, slice_get};
    ghost use Rattle.plan_image.specs.Views.{members_code};

    /// Creates a view of these instructions.
    pub(crate) fn new(members: Members<'a>) -> CodeView<'a>
        ensures { result ≡ members_code members.entry }
    {
        CodeView { members }
    }

    /// Returns the number of instructions.
    pub fn len(&self) -> usize
        ensures { result ≡ length self.now }
    {
        match self.members {
            Members::Own(instrs) => instrs.len(),
            Members::Shared(body, operands) => body.filled_len(operands),
        }
    }

    /// Returns the instruction at a place, counted from 0. Returns None if there is no such instruction. The
    /// time is the same for each place.
    #[inline(always)]
    pub fn instr(&self, place: u32) -> Option<Instr>
        ensures { result ≡ slice_get self.now place }
    {
        match self.members {
            Members::Own(instrs) => instrs.get(place as usize),
            Members::Shared(body, operands) => body.instr(operands, place as usize),
        }
    }
}
