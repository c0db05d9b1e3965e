//! Compact statements, which refer to their text by places, and the lists of paths of a build line.

ghost use Rattle.std.specs.Prelude.{◌≡◌, ℕ, List, [], IfOk};
ghost use Rattle.plan_parse.specs.Compact.{build_at, said_in};
ghost use Rattle.plan_parse.specs.PathLists.{between};

use crate::statement::Directive;
use std::alloc::{AllocError, Global};

/// A path that is stored by its place in the text.
#[derive(Clone, Copy, Drop)]
pub enum CompactPath {
    /// The path whose bytes at this place all stand for themselves.
    Plain(Span),
    /// The path at this place, which has a `$`.
    Pieces(Span),
}

/// The right side of a binding, stored by its place in the text.
#[derive(Clone, Copy, Drop)]
pub enum CompactValue {
    /// The value whose bytes at this place all stand for themselves.
    Plain(Span),
    /// The value at this place, which has a `$`.
    Pieces(Span),
}

/// A binding that is stored by its places in the text.
#[derive(Clone, Copy, Drop)]
pub struct CompactBinding {
    /// The place of its name.
    pub name: Span,
    /// Its right side.
    pub value: CompactValue,
}

/// A build line that is stored by its places in the text, with the lines below it.
#[derive(Clone, Copy, Drop)]
pub struct CompactBuild {
    /// The offset of its first byte.
    pub offset: u32,
    /// The ranges of its paths among those of its file. There is at least one output, explicit or implicit.
    pub paths: PathPlaces,
    /// The place of its rule's name.
    pub rule: Span,
    /// The range of its own variables, in order, among those of its file.
    pub bindings: ListPlace,
}

/// A default for build lines that a file doesn't have.
const NO_BUILD: CompactBuild = CompactBuild {
    offset: 0,
    paths: PathPlaces {
        start: 0,
        outputs: 0,
        implicit_outputs: 0,
        inputs: 0,
        implicit_inputs: 0,
        order_only_inputs: 0,
    },
    rule: Span { at: 0, len: 0 },
    bindings: ListPlace { start: 0, end: 0 },
};

/// The build lines of a file, their paths and their variables, in one list each. With these lists, a build line
/// takes no memory of its own.
#[derive(Drop)]
pub struct BuildLists {
    /// The build lines in their order.
    pub(crate) builds: Vec<CompactBuild>,
    /// Their paths. Those of a build line are consecutive.
    pub(crate) paths: Vec<CompactPath>,
    /// Their own variables. Those of a build line are consecutive.
    pub(crate) bindings: Vec<CompactBinding>,
}

impl BuildLists {
    /// Creates empty lists.
    pub(crate) fn new(alloc: Global) -> Self
        ensures builds { result.builds.items ≡ [] }
        ensures paths { result.paths.items ≡ [] }
        ensures bindings { result.bindings.items ≡ [] }
    {
        BuildLists {
            builds: Vec::new(alloc),
            paths: Vec::new(alloc),
            bindings: Vec::new(alloc),
        }
    }

    /// Releases spare room, if memory allows it.
    pub(crate) fn shrink(&mut self)
        ensures builds { self.new.builds.items ≡ self.old.builds.items }
        ensures paths { self.new.paths.items ≡ self.old.paths.items }
        ensures bindings { self.new.bindings.items ≡ self.old.bindings.items }
    {
        self.builds.shrink_to_fit();
        self.paths.shrink_to_fit();
        self.bindings.shrink_to_fit();
    }

    /// Returns build line `number`. Returns an empty one if there is no such build line.
    pub(crate) fn build(&self, number: u32) -> CompactBuild
        ensures { result ≡ build_at self.now number }
    {
        match self.builds.get(number as usize) {
            Some(build) => *build,
            None => NO_BUILD,
        }
    }
}

/// A statement that is stored by places in the text, and by the number of its build line in the file. The
/// contents of a binding, and the paths and variables of a build line, are read again when they are needed.
#[derive(Drop)]
pub enum CompactStatement {
    /// The binding in this line.
    Binding(Span),
    /// The build line with this number.
    Build(u32),
    /// Any other statement.
    Directive(Box<Directive>),
}

impl CompactStatement {
    /// Returns the offset of its first byte.
    pub fn offset(&self, lists: &BuildLists) -> u64
        ensures { (text : List ℕ) → result ≡ (said_in text lists.now self.now).offset }
    {
        match self {
            CompactStatement::Binding(span) => u64::from(span.at),
            CompactStatement::Build(number) => u64::from(lists.build(*number).offset),
            CompactStatement::Directive(directive) => directive.offset,
        }
    }
}

/// The statements of a file, stored by their places in the text.
#[derive(Drop)]
pub struct ParsedFile {
    /// The statements in their order.
    pub statements: Vec<CompactStatement>,
    /// Its build lines, with their paths and variables.
    pub lists: BuildLists,
}

/// One value for each list of paths of a build line, such as the paths themselves.
#[derive(Drop)]
pub struct PathLists<T> {
    /// The value for the explicit outputs.
    pub outputs: T,
    /// The value for the implicit outputs, after `|`.
    pub implicit_outputs: T,
    /// The value for the explicit inputs.
    pub inputs: T,
    /// The value for the implicit inputs, after `|`.
    pub implicit_inputs: T,
    /// The value for the order-only inputs, after `||`.
    pub order_only_inputs: T,
}

/// The range of a list in a longer one.
#[derive(Clone, Copy, Drop)]
pub struct ListPlace {
    /// The index of its first item.
    pub start: u32,
    /// The index after its last item.
    pub end: u32,
}

/// The ranges of the five lists of paths of a build line among the paths of its file. The lists are
/// consecutive, in this order.
#[derive(Clone, Copy, Drop)]
pub struct PathPlaces {
    /// The index of the first path.
    pub start: u32,
    /// The end of the explicit outputs: the index after the last one.
    pub outputs: u32,
    /// The end of the implicit outputs.
    pub implicit_outputs: u32,
    /// The end of the explicit inputs.
    pub inputs: u32,
    /// The end of the implicit inputs.
    pub implicit_inputs: u32,
    /// The end of the order-only inputs.
    pub order_only_inputs: u32,
}

/// Returns the items from `start` up to `end`. If the list is shorter, the range ends with it.
pub fn between<T>(items: &[T], start: u32, end: u32) -> &[T]
    ensures { result.now ≡ between start end items.now }
{
    let front = match items.get(..end as usize) {
        Some(front) => front,
        None => items,
    };
    match front.get(start as usize..) {
        Some(rest) => rest,
        None => &[],
    }
}

/// The place of a line or a path in its text. Any text that is read is short enough for these numbers.
#[derive(Clone, Copy, Drop)]
pub struct Span {
    /// The offset of its first byte.
    pub at: u32,
    /// The number of its bytes.
    pub len: u32,
}

impl Span {
    /// Creates the place of `len` bytes at offset `at`. Fails if a number doesn't fit, which doesn't happen in
    /// texts that are read.
    pub(crate) fn new(at: usize, len: usize) -> Result<Span, AllocError>
        ensures { IfOk result (λ span. (span.at ≡ at) × (span.len ≡ len)) }
    {
        match (u32::try_from(at), u32::try_from(len)) {
            (Ok(at), Ok(len)) => Ok(Span { at, len }),
            _ => Err(AllocError),
        }
    }
}

/// Converts a count of bytes or items to 32 bits. Fails as if memory had run out if it doesn't fit.
pub fn number_of(count: usize) -> Result<u32, AllocError>
    ensures { IfOk result (λ number. number ≡ count) }
{
    match u32::try_from(count) {
        Ok(number) => Ok(number),
        Err(_) => Err(AllocError),
    }
}
