//! Bindings and build lines, read again from their text.

ghost use Rattle.std.specs.Prelude.{◌≡◌, IfOk, map};
ghost use Rattle.plan_parse.specs.Compact as compact;
ghost use Rattle.plan_parse.specs.Statements.{binding_at};
ghost use Rattle.plan_parse.specs.Views.{place_of};
ghost use Rattle.plan_parse.specs.PathLists.{between, map_lists};
ghost use Rattle.plan_parse.specs.Lines.{IsPlaced, bindings_in, paths_in, pieces_of, value_of};

use crate::compact::{
    BuildLists, CompactBinding, CompactBuild, CompactPath, CompactValue, PathLists, Span, between,
};
use crate::cursor::Cursor;
use crate::fault::ParseFault;
use crate::reading::{binding_at, line_in, value_at};
use crate::statement::Binding;
use plan_text::{PieceList, SmallText};
use std::alloc::{AllocError, Global};
use std::marker::Model;

/// Reads a line as a binding. If it is no binding, returns an empty name with an empty value.
fn binding_or_empty(alloc: Global, place: Cursor<'_>) -> Result<Binding, AllocError>
    ensures { IfOk result (λ b. b ≡ compact.binding_or_empty (binding_at (place_of place.entry))) }
{
    match binding_at(alloc, place) {
        Ok(binding) => Ok(binding),
        Err(ParseFault::Memory) => Err(AllocError),
        Err(_) => Ok(Binding {
            name: SmallText::empty(),
            value: PieceList::empty(alloc),
        }),
    }
}

/// A binding in its text.
#[derive(Drop)]
pub struct BindingLine<'a> {
    text: &'a [u8],
    span: Span,
}

impl<'a> Model for BindingLine<'a> {
    ghost use Rattle.plan_parse.specs.declared.statement.Binding.{Binding};
    ghost use Rattle.plan_parse.specs.Compact.{bound_in};

    ghost Value = { Binding };

    ghost view = { λ l. bound_in l.text.now l.span };
}

impl<'a> BindingLine<'a> {
    /// Creates the binding in a line of a text. If the line is no binding, its name and value are empty.
    pub fn new(text: &'a [u8], span: Span) -> BindingLine<'a>
        ensures { result ≡ compact.bound_in text.now span }
    {
        BindingLine { text, span }
    }

    /// Reads the binding.
    pub fn read(&self, alloc: Global) -> Result<Binding, AllocError>
        ensures { IfOk result (λ b. b ≡ self.now) }
    {
        binding_or_empty(alloc, line_in(self.text, self.span))
    }
}

/// A path in its text.
#[derive(Clone, Copy)]
pub enum PathInText<'a> {
    /// The bytes of the path, each of which stands for itself.
    Plain(&'a [u8]),
    /// The offset and the bytes of the path, to be read part by part (`part_at`).
    Parts(usize, &'a [u8]),
}

/// Returns a path of a text.
pub fn path_in(text: &[u8], path: CompactPath) -> PathInText<'_>
    ensures pieces { pieces_of result ≡ compact.path_in text.now path }
    ensures fits { IsPlaced result }
{
    match path {
        CompactPath::Plain(span) => PathInText::Plain(line_in(text, span).bytes),
        CompactPath::Pieces(span) => {
            let line = line_in(text, span);
            PathInText::Parts(line.at, line.bytes)
        }
    }
}

/// The right side of a binding in its text.
#[derive(Drop)]
pub enum ValueInText<'a> {
    /// The bytes of the value, each of which stands for itself.
    Plain(&'a [u8]),
    /// The value to be read.
    Pieces(ValueLine<'a>),
}

/// The right side of a binding, which has a `$`.
#[derive(Drop)]
pub struct ValueLine<'a> {
    line: Cursor<'a>,
}

impl<'a> Model for ValueLine<'a> {
    ghost use Rattle.std.specs.Prelude.{List};
    ghost use Rattle.plan_text.specs.declared.piece_reader.Piece.{Piece};
    ghost use Rattle.plan_parse.specs.Compact.{pieces_or_none};
    ghost use Rattle.plan_parse.specs.Reading.{value_at};
    ghost use Rattle.plan_parse.specs.Views.{place_of};

    ghost Value = { List Piece };

    ghost view = { λ v. pieces_or_none (value_at (place_of v.line)) };
}

impl<'a> ValueLine<'a> {
    /// Reads the pieces of the value.
    pub fn read(&self, alloc: Global) -> Result<PieceList, AllocError>
        ensures { IfOk result (λ pieces. pieces ≡ self.now) }
    {
        match value_at(alloc, self.line) {
            Ok(value) => Ok(value),
            Err(ParseFault::Memory) => Err(AllocError),
            Err(_) => Ok(PieceList::empty(alloc)),
        }
    }
}

/// Returns the right side of a binding of a text.
pub fn value_in(text: &[u8], value: CompactValue) -> ValueInText<'_>
    ensures { value_of result ≡ compact.value_in text.now value }
{
    match value {
        CompactValue::Plain(span) => ValueInText::Plain(line_in(text, span).bytes),
        CompactValue::Pieces(span) => ValueInText::Pieces(ValueLine {
            line: line_in(text, span),
        }),
    }
}

/// Returns the name of a binding of a text.
pub fn name_in(text: &[u8], binding: CompactBinding) -> &[u8]
    ensures { result.now ≡ (compact.variable_in text.now binding).name }
{
    line_in(text, binding.name).bytes
}

/// Bindings in their text.
#[derive(Drop)]
pub struct BindingsInText<'a> {
    /// The text.
    pub text: &'a [u8],
    /// The bindings, stored by their places in the text.
    pub bindings: &'a [CompactBinding],
}

/// A list of paths in their text.
#[derive(Drop)]
pub struct PathsInText<'a> {
    /// The text.
    pub text: &'a [u8],
    /// The paths, stored by their places in the text.
    pub paths: &'a [CompactPath],
}

/// Returns the paths from `start` up to `end` among all paths of a file.
fn list_in<'a>(text: &'a [u8], all: &'a [CompactPath], start: u32, end: u32) -> PathsInText<'a>
    ensures { paths_in result ≡ map (compact.path_in text.now) (between start end all.now) }
{
    PathsInText {
        text,
        paths: between(all, start, end),
    }
}

/// A build line in its text.
#[derive(Drop)]
pub struct BuildLine<'a> {
    text: &'a [u8],
    lists: &'a BuildLists,
    build: CompactBuild,
}

impl<'a> Model for BuildLine<'a> {
    ghost use Rattle.plan_parse.specs.Build.{Build};
    ghost use Rattle.plan_parse.specs.Compact.{build_in};

    ghost Value = { Build };

    ghost view = { λ l. build_in l.text.now l.lists.now l.build };
}

impl<'a> BuildLine<'a> {
    /// Returns build line `number` of a file, which is stored by places in this text and in these lists.
    /// Returns an empty one if there is no such build line.
    pub fn new(text: &'a [u8], lists: &'a BuildLists, number: u32) -> BuildLine<'a>
        ensures { result ≡ compact.build_in text.now lists.now (compact.build_at lists.now number) }
    {
        BuildLine {
            text,
            lists,
            build: lists.build(number),
        }
    }

    /// Returns the name of its rule.
    pub fn rule(&self) -> &'a [u8]
        ensures { result.now ≡ self.now.rule }
    {
        line_in(self.text, self.build.rule).bytes
    }

    /// Returns its own variables in order.
    pub fn bindings(&self) -> BindingsInText<'a>
        ensures { bindings_in result ≡ self.now.bindings }
    {
        let place = self.build.bindings;
        BindingsInText {
            text: self.text,
            bindings: between(&self.lists.bindings, place.start, place.end),
        }
    }

    /// Returns its paths.
    pub fn paths(&self) -> PathLists<PathsInText<'a>>
        ensures { map_lists paths_in result ≡ self.now.paths }
    {
        let (text, all, places) = (self.text, self.lists.paths.as_slice(), self.build.paths);
        PathLists {
            outputs: list_in(text, all, places.start, places.outputs),
            implicit_outputs: list_in(text, all, places.outputs, places.implicit_outputs),
            inputs: list_in(text, all, places.implicit_outputs, places.inputs),
            implicit_inputs: list_in(text, all, places.inputs, places.implicit_inputs),
            order_only_inputs: list_in(text, all, places.implicit_inputs, places.order_only_inputs),
        }
    }
}
