//! The code of an edge while it is generated.

ghost use Rattle.std.specs.Prelude.{◌≡◌, ◌++◌, ◌∷◌, [], All, IfOk, OnOk};
ghost use Rattle.plan_image.specs.Bodies.{leave_open, open_operand, with_operands};
ghost use Rattle.plan_image.specs.declared.body.BodyInstr.TheVariants as member;
ghost use Rattle.plan_compile.specs.BodyKeys.{body_at, IsSmall, member_number};

use crate::opcodes::{fixed_number, member_at, open_number};
use plan_image::{Body, BodyInstr, Instr, Opening, split_law};
use plan_text::Memory;
use std::alloc::{AllocError, Global};
use std::marker::Model;

/// Appends a number to a full list. It is a function of its own, so that `push_number` is short.
#[cold]
#[inline(never)]
fn push_growing<N: Copy>(numbers: &mut Vec<N>, number: N) -> Result<(), AllocError>
    ensures { OnOk result (numbers.new.items ≡ numbers.old.items ++ number ∷ []) }
{
    numbers.push(number)?;
    Ok(())
}

/// Appends a number.
#[inline]
fn push_number<N: Copy>(numbers: &mut Vec<N>, number: N) -> Result<(), AllocError>
    ensures { OnOk result (numbers.new.items ≡ numbers.old.items ++ number ∷ []) }
{
    if numbers.len() == numbers.capacity() {
        return push_growing(numbers, number);
    }
    numbers.push(number)?;
    Ok(())
}

/// Appends an instruction that the body has with its operand.
#[inline(always)]
fn put_fixed(key: &mut Vec<u64>, instr: Instr) -> Result<(), AllocError>
    ensures key { OnOk result (key.new.items ≡ key.old.items ++ member_number (member.Fixed instr) ∷ []) }
    ensures small { IsSmall (member_number (member.Fixed instr)) }
{
    push_number(key, fixed_number(instr))
}

/// Appends an instruction that the body leaves open, and its operand.
#[inline(always)]
fn put_open(
    key: &mut Vec<u64>,
    operands: &mut Vec<u32>,
    opening: Opening,
    operand: u32,
) -> Result<(), AllocError>
    ensures key { OnOk result (key.new.items ≡ key.old.items ++ member_number (member.Open opening) ∷ []) }
    ensures operands { OnOk result (operands.new.items ≡ operands.old.items ++ operand ∷ []) }
    ensures small { IsSmall (member_number (member.Open opening)) }
{
    push_number(key, open_number(opening))?;
    push_number(operands, operand)
}

/// Appends an instruction to the body, and its operand to the operands if it is left open.
#[inline(always)]
fn put(key: &mut Vec<u64>, operands: &mut Vec<u32>, instr: Instr) -> Result<(), AllocError>
    ensures key { OnOk result (key.new.items ≡ key.old.items ++ member_number (leave_open instr) ∷ []) }
    ensures operands { OnOk result (operands.new.items ≡ operands.old.items ++ open_operand instr) }
    ensures small { IsSmall (member_number (leave_open instr)) }
{
    match instr {
        Instr::Stat(file) => put_open(key, operands, Opening::Stat, file),
        Instr::Need(file) => put_open(key, operands, Opening::Need, file),
        Instr::Load(slot) => put_open(key, operands, Opening::Load, slot),
        Instr::Store(slot) => put_open(key, operands, Opening::Store, slot),
        Instr::Text(text) => put_open(key, operands, Opening::Text, text),
        fixed => put_fixed(key, fixed),
    }
}

/// Returns the instructions of a key.
fn members_of(alloc: Global, key: &[u64]) -> Result<Vec<BodyInstr>, AllocError>
    requires { All IsSmall key.now }
    ensures { IfOk result (λ members. members.items ≡ body_at key.now) }
{
    let mut members = Vec::with_capacity(alloc, key.len())?;
    for number in key {
        members.push(member_at(*number))?;
    }
    Ok(members)
}

/// Returns the instructions of a body with these operands filled in.
fn fill_body(alloc: Global, body: &Body, operands: &[u32]) -> Result<Vec<Instr>, AllocError>
    ensures { IfOk result (λ instrs. instrs.items ≡ with_operands body.now operands.now) }
{
    let mut instrs = Vec::with_capacity(alloc, body.len())?;
    for place in 0..body.filled_len(operands) {
        match body.instr(operands, place) {
            Some(instr) => instrs.push(instr)?,
            None => return Ok(instrs),
        }
    }
    Ok(instrs)
}

/// The code of an edge: the key of its body, and the operands that the body leaves open. With this form, bodies
/// are compared as lists of numbers, and no list of instructions is created. A contract sees the instructions.
#[derive(Drop)]
pub(crate) struct Code {
    key: Vec<u64>,
    operands: Vec<u32>,
}

impl Model for Code {
    ghost use Rattle.std.specs.Prelude.{List};
    ghost use Rattle.plan_image.specs.declared.body.Instr.{Instr};
    ghost use Rattle.plan_compile.specs.BodyKeys.{AreOf, code_at};

    ghost Value = { List Instr };

    ghost view = { λ c. code_at c.key.items c.operands.items };

    ghost invariant = { λ c. AreOf c.key.items c.operands.items (code_at c.key.items c.operands.items) };
}

impl Code {
    ghost use Rattle.std.specs.Prelude.{◌≡◌, ◌++◌, ◌∷◌, [], IfOk, length, OnOk};
    ghost use Rattle.plan_image.specs.Bodies.{body_of, operands_of};
    ghost use Rattle.plan_compile.specs.BodyKeys.{key_of};

    /// Creates an empty code.
    pub(crate) fn new(alloc: Global) -> Code
        ensures { result ≡ [] }
    {
        Code {
            key: Vec::new(alloc),
            operands: Vec::new(alloc),
        }
    }

    /// Removes all instructions, and keeps the memory.
    pub(crate) fn clear(&mut self)
        ensures { self.new ≡ [] }
    {
        self.key.clear();
        self.operands.clear();
    }

    /// Appends an instruction. If memory runs out, the code is emptied.
    #[inline(always)]
    pub(crate) fn push(&mut self, instr: Instr) -> Result<(), AllocError>
        ensures { OnOk result (self.new ≡ self.old ++ instr ∷ []) }
    {
        split_law();
        match put(&mut self.key, &mut self.operands, instr) {
            Ok(()) => Ok(()),
            Err(fault) => {
                self.key.clear();
                self.operands.clear();
                Err(fault)
            }
        }
    }

    /// Returns the number of instructions.
    pub(crate) fn len(&self) -> usize
        ensures { result ≡ length self.now }
    {
        self.key.len()
    }

    /// Borrows the key of the body.
    pub(crate) fn key(&self) -> &[u64]
        ensures { result.now ≡ key_of (body_of self.now) }
    {
        self.key.as_slice()
    }

    /// Borrows the operands that the body leaves open.
    pub(crate) fn operands(&self) -> &[u32]
        ensures { result.now ≡ operands_of self.now }
    {
        self.operands.as_slice()
    }

    /// Returns the body.
    pub(crate) fn body(&self, alloc: Global) -> Result<Body, Memory>
        ensures { IfOk result (λ body. body ≡ body_of self.now) }
    {
        let members = members_of(alloc, self.key.as_slice())?;
        Body::new(alloc, members)
    }

    /// Returns the instructions.
    pub(crate) fn instrs(&self, alloc: Global) -> Result<Vec<Instr>, Memory>
        ensures { IfOk result (λ instrs. instrs.items ≡ self.now) }
    {
        split_law();
        let body = self.body(alloc)?;
        let instrs = fill_body(alloc, &body, self.operands())?;
        Ok(instrs)
    }
}
