//! The statements of a manifest.

use plan_text::{Items, PieceList, SmallText};

/// A name and its value: `name = value`.
#[derive(Drop)]
pub struct Binding {
    /// The name.
    pub name: SmallText,
    /// The pieces of the value.
    pub value: PieceList,
}

/// A rule and the lines below it.
#[derive(Drop)]
pub struct Rule {
    /// The name by which build lines refer to it.
    pub name: SmallText,
    /// Its variables in order, one of which is `command`.
    pub bindings: Items<Binding>,
}

/// A pool.
#[derive(Drop)]
pub struct Pool {
    /// The name by which edges refer to it.
    pub name: SmallText,
    /// The pieces of its depth.
    pub depth: PieceList,
}

/// The contents of a directive: a statement that is neither a binding nor a build line.
#[derive(Drop)]
pub enum DirectiveKind {
    /// `rule name` and its block.
    Rule(Rule),
    /// `pool name` and its block.
    Pool(Pool),
    /// `default targets`: the pieces of each target, at least one.
    Default(Items<PieceList>),
    /// `include path`: the pieces of the path.
    Include(PieceList),
    /// `subninja path`: the pieces of the path.
    Subninja(PieceList),
}

/// A directive, with the offset of its first byte.
#[derive(Drop)]
pub struct Directive {
    /// The offset of its first byte.
    pub offset: u64,
    /// Its contents.
    pub kind: DirectiveKind,
}
