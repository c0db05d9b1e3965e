//! Reads the texts of a build line: its block and its paths.

ghost use Rattle.std.specs.Prelude.{◌≡◌, ◌||◌, ◌≤◌, ◌<◌, ◌+◌, ◌++◌, ◌∷◌, ◌^◌, [], List, length, IfOk, OnOk, map};
ghost use Rattle.std.specs.List.{list_any};
ghost use Rattle.plan_scope.specs.Scopes.{Bindings, Name, Text, expand, is_empty, is_long_path, is_too_long};
ghost use Rattle.plan_text.specs.Limits.{max_text};
ghost use Rattle.plan_parse.specs.Lines.{IsPlaced, bindings_in, paths_in, pieces_of, value_of};
ghost use Rattle.plan_scope.specs.PathParts.{part_value, pieces_in};
ghost use Rattle.plan_scope.specs.Edges.{Paths, block_of, near, path_of, paths_of, texts_of};
ghost use Rattle.plan_scope.specs.Kept.{KeptEqBindings, KeptEqLookup, kept};
ghost use Rattle.plan_scope.specs.Paths.{AreRead, ReadsPath, ReadsPaths, kept_in};
ghost use Rattle.plan_scope.specs.EdgePlaces.{ArePlaced};
ghost use Rattle.plan_chunks.specs.Joining.{HasMore};
ghost use Rattle.plan_scope.specs.EdgeAnswers.{texts_read};
ghost use Rattle.plan_scope.specs.ScopeNames.{names_in};

use crate::edge::edge_list::{EdgePaths, PathPlaces};
use crate::scope::cow_text::CowText;
use crate::scope::scoped_map::SmallMap;
use crate::scope::text::{append, front_kept, is_long};
use crate::scope::{Scope, expand_pieces, name_text};
use plan_parse::{
    BindingsInText, BuildLine, PathInText, PathPart, PathsInText, ValueInText, name_in, part_at,
    path_in, value_in,
};
use plan_text::{Items, MAX_PATH, RowList, SmallText, TextFault, canonical, is_canonical};
use std::alloc::{AllocError, Global};

/// The variables of a build block.
#[derive(Drop)]
pub struct BlockTexts<'a> {
    /// Their texts, by name.
    pub values: SmallMap<'a, CowText<'a>>,
    /// Whether a text of the block is too long, including texts that a later line replaces.
    pub has_long: bool,
}

/// Returns the text of a value in a build block, by the meaning of names above it.
fn value_text<'a>(
    alloc: Global,
    here: Scope<'a>,
    value: ValueInText<'a>,
) -> Result<CowText<'a>, AllocError>
    ensures { IfOk result (λ text. (meant : Name → Text) → KeptEqLookup (names_in here.entry) meant → kept text ≡ kept (expand meant (value_of value.entry))) }
{
    match value {
        ValueInText::Plain(bytes) => Ok(CowText::of_slice(front_kept(bytes))),
        ValueInText::Pieces(line) => {
            let pieces = line.read(alloc)?;
            let text = expand_pieces(alloc, here, pieces.as_slice())?;
            Ok(CowText::of_vec(text))
        }
    }
}

/// Reads the variables of a build block, by the meaning of names above it.
pub fn block<'a>(
    alloc: Global,
    here: Scope<'a>,
    block: &BindingsInText<'a>,
) -> Result<BlockTexts<'a>, AllocError>
    ensures values { IfOk result (λ b. (meant : Name → Text) → KeptEqLookup (names_in here.entry) meant → KeptEqBindings b.values (block_of meant (bindings_in block.now))) }
    ensures long { IfOk result (λ b. (meant : Name → Text) → KeptEqLookup (names_in here.entry) meant → b.has_long ≡ list_any (λ x. is_too_long x.1) (block_of meant (bindings_in block.now))) }
{
    let mut values = SmallMap::new(alloc);
    let mut has_long = false;
    let (source, bindings) = (block.text, block.bindings);
    for binding in bindings {
        let text = value_text(alloc, here, value_in(source, binding.value))?;
        has_long |= is_long(text.as_slice());
        values.set(name_in(source, *binding), text)?;
    }
    Ok(BlockTexts { values, has_long })
}

/// Returns the text of a name on a build line. Looks it up in the line's own block first.
fn text_near<'a>(block: &'a SmallMap<'a, CowText<'a>>, here: Scope<'a>, name: &[u8]) -> &'a [u8]
    ensures { result.now ≡ near (names_in here.entry) block.now name.now }
{
    match block.get(name) {
        Some(text) => text.as_slice(),
        None => name_text(here, name),
    }
}

/// Returns the text of a part of a path.
fn part_text<'a>(
    block: &'a SmallMap<'a, CowText<'a>>,
    here: Scope<'a>,
    part: PathPart<'a>,
) -> &'a [u8]
    ensures { result.now ≡ part_value (near (names_in here.entry) block.now) part.entry }
{
    match part {
        PathPart::Text(bytes) => bytes,
        PathPart::Name(name) => text_near(block, here, name),
    }
}

/// Expands a path of a build line into a buffer, and replaces its contents. Leaves the buffer empty if the path is
/// malformed.
fn expand_path<'a>(
    block: &'a SmallMap<'a, CowText<'a>>,
    here: Scope<'a>,
    at: usize,
    path: &'a [u8],
    buffer: &mut Vec<u8>,
) -> Result<(), AllocError>
    requires { at + length path.now < 2 ^ 63 }
    ensures text { OnOk result ((b : Bindings Text) (m : Name → Text) → KeptEqBindings block.now b → KeptEqLookup (names_in here.entry) m → kept buffer.new.items ≡ kept (expand (near m b) (pieces_in at path.now))) }
    ensures within { OnOk result (length buffer.new.items ≤ max_text + 1) }
{
    buffer.clear();
    let mut done = 0;
    while done < path.len() {
        let Ok((part, len)) = part_at(&path[done..], at + done) else {
            buffer.clear();
            return Ok(());
        };
        append(buffer, part_text(block, here, part))?;
        done += len;
    }
    Ok(())
}

/// Checks whether a path is too long.
fn is_long_path(path: &[u8]) -> bool
    ensures { result ≡ is_long_path path.now }
{
    path.len() > MAX_PATH
}

/// Returns the canonical form of a path. A path that has no bytes, or is too long, stays as it is.
pub fn canonical_path(alloc: Global, path: &[u8]) -> Result<SmallText, AllocError>
    ensures { IfOk result (λ form. form ≡ path_of path.now) }
{
    if is_long_path(path) {
        return SmallText::new(alloc, path);
    }
    if is_canonical(path) {
        return SmallText::new(alloc, path);
    }
    match canonical(alloc, path) {
        Ok(form) => SmallText::new(alloc, &form),
        Err(TextFault::Memory) => Err(AllocError),
        Err(_) => SmallText::new(alloc, path),
    }
}

/// Appends the canonical form of a path. A path that has no bytes, or is too long, stays as it is.
fn push_form(alloc: Global, rows: &mut RowList<u8>, path: &[u8]) -> Result<(), AllocError>
    ensures { OnOk result (rows.new ≡ rows.old ++ path_of path.now ∷ []) }
{
    if is_long_path(path) {
        return rows.push(path);
    }
    if is_canonical(path) {
        return rows.push(path);
    }
    match canonical(alloc, path) {
        Ok(form) => rows.push(&form),
        Err(TextFault::Memory) => Err(AllocError),
        Err(_) => rows.push(path),
    }
}

/// The canonical paths of all build lines so far, and flags of the paths of the last line.
#[derive(Drop)]
pub struct PathRows {
    /// The canonical paths.
    pub rows: RowList<u8>,
    /// A buffer in which a path is expanded. Its contents are replaced by each path.
    buffer: Vec<u8>,
    /// Whether a path of the last build line has no bytes when expanded.
    pub has_empty: bool,
    /// Whether a path of the last build line is too long when expanded.
    pub has_long: bool,
}

/// The initial capacity of the buffer in bytes, which is enough for most paths.
const BUFFER: usize = 500;

impl PathRows {
    /// Creates rows without a path.
    pub fn new(alloc: Global) -> Result<PathRows, AllocError>
        ensures { IfOk result (λ read. read.rows ≡ []) }
    {
        Ok(PathRows {
            rows: RowList::new(alloc),
            buffer: Vec::with_capacity(alloc, BUFFER)?,
            has_empty: false,
            has_long: false,
        })
    }
}

/// Appends the canonical form of an expanded path, and updates both flags.
fn push_seen(
    alloc: Global,
    rows: &mut RowList<u8>,
    has_empty: &mut bool,
    has_long: &mut bool,
    path: &[u8],
) -> Result<(), AllocError>
    ensures { OnOk result ((rows.new ≡ rows.old ++ path_of path.now ∷ []) × (has_empty.new ≡ (has_empty.old || is_empty path.now)) × (has_long.new ≡ (has_long.old || is_long_path path.now))) }
{
    *has_empty |= path.is_empty();
    *has_long |= is_long_path(path);
    push_form(alloc, rows, path)
}

/// Adds an expanded path.
fn add_path(alloc: Global, read: &mut PathRows, path: &[u8]) -> Result<(), AllocError>
    ensures { OnOk result (ReadsPath read.old path.now read.new) }
{
    let (has_empty, has_long) = (&mut read.has_empty, &mut read.has_long);
    push_seen(alloc, &mut read.rows, has_empty, has_long, path)
}

/// Expands a path part by part and adds it.
fn add_expanded<'a>(
    alloc: Global,
    block: &'a SmallMap<'a, CowText<'a>>,
    here: Scope<'a>,
    at: usize,
    path: &'a [u8],
    read: &mut PathRows,
) -> Result<(), AllocError>
    requires { at + length path.now < 2 ^ 63 }
    ensures { OnOk result ((text : Text) × ReadsPath read.old text read.new × ((b : Bindings Text) (m : Name → Text) → KeptEqBindings block.now b → KeptEqLookup (names_in here.entry) m → kept text ≡ kept (expand (near m b) (pieces_in at path.now)))) }
{
    expand_path(block, here, at, path, &mut read.buffer)?;
    let (has_empty, has_long) = (&mut read.has_empty, &mut read.has_long);
    push_seen(alloc, &mut read.rows, has_empty, has_long, &read.buffer)
}

/// Reads a path of a build line and adds it.
fn read_one<'a>(
    alloc: Global,
    block: &'a SmallMap<'a, CowText<'a>>,
    here: Scope<'a>,
    path: PathInText<'a>,
    read: &mut PathRows,
) -> Result<(), AllocError>
    requires { IsPlaced path }
    ensures { OnOk result ((text : Text) × ReadsPath read.old text read.new × ((b : Bindings Text) (m : Name → Text) → KeptEqBindings block.now b → KeptEqLookup (names_in here.entry) m → kept text ≡ kept (expand (near m b) (pieces_of path.entry)))) }
{
    match path {
        PathInText::Plain(bytes) => add_path(alloc, read, bytes),
        PathInText::Parts(at, bytes) => add_expanded(alloc, block, here, at, bytes, read),
    }
}

/// Reads the paths of a list and appends them. Returns the number of all paths, which is where the next list begins.
fn read_list<'a>(
    alloc: Global,
    block: &'a SmallMap<'a, CowText<'a>>,
    here: Scope<'a>,
    list: &PathsInText<'a>,
    read: &mut PathRows,
) -> Result<u32, AllocError>
    ensures { IfOk result (λ end. (texts : List Text) × (end ≡ length read.new.rows) × ReadsPaths read.old texts read.new × ((b : Bindings Text) (m : Name → Text) → KeptEqBindings block.now b → KeptEqLookup (names_in here.entry) m → map kept texts ≡ map kept (paths_of (near m b) (paths_in list.now)))) }
{
    let (text, paths) = (list.text, list.paths);
    for path in paths {
        read_one(alloc, block, here, path_in(text, *path), read)?;
    }
    row_count(&read.rows)
}

/// Returns the number of rows. Returns `AllocError` if it doesn't fit in four bytes.
pub fn row_count(rows: &RowList<u8>) -> Result<u32, AllocError>
    ensures { IfOk result (λ count. count ≡ length rows.now) }
{
    match u32::try_from(rows.len()) {
        Ok(count) => Ok(count),
        Err(_) => Err(AllocError),
    }
}

/// The paths that were read of a build line.
#[derive(Drop)]
pub struct PathTexts<'a> {
    /// Their canonical forms.
    pub paths: EdgePaths<'a>,
    /// Whether an expanded path has no bytes.
    pub has_empty: bool,
    /// Whether an expanded path is too long.
    pub has_long: bool,
}

impl<'a> PathTexts<'a> {
    /// Creates the view of the paths of the last build line, which are at these places.
    pub fn new(read: &'a PathRows, places: PathPlaces) -> PathTexts<'a>
        requires { ArePlaced (length read.now.rows) places }
        ensures { result ≡ texts_read read.now places }
    {
        PathTexts {
            paths: EdgePaths::new(&read.rows, places),
            has_empty: read.has_empty,
            has_long: read.has_long,
        }
    }
}

/// Reads the paths of a build line, by its block and by the meaning of names above it. Appends them to those of the
/// lines before, and returns their places.
pub fn read_paths<'a>(
    alloc: Global,
    block: &'a SmallMap<'a, CowText<'a>>,
    here: Scope<'a>,
    build: &BuildLine<'a>,
    read: &mut PathRows,
) -> Result<PathPlaces, AllocError>
    ensures texts { IfOk result (λ places. (texts : Paths) × AreRead texts (texts_read read.new places) × ((b : Bindings Text) (m : Name → Text) → KeptEqBindings block.now b → KeptEqLookup (names_in here.entry) m → kept_in texts ≡ kept_in (texts_of (near m b) build.now))) }
    ensures placed { IfOk result (λ places. ArePlaced (length read.new.rows) places) }
    ensures more { OnOk result (HasMore read.old.rows read.new.rows) }
{
    read.has_empty = false;
    read.has_long = false;
    let lists = build.paths();
    Ok(PathPlaces {
        outputs: row_count(&read.rows)?,
        implicit_outputs: read_list(alloc, block, here, &lists.outputs, read)?,
        inputs: read_list(alloc, block, here, &lists.implicit_outputs, read)?,
        implicit_inputs: read_list(alloc, block, here, &lists.inputs, read)?,
        order_only_inputs: read_list(alloc, block, here, &lists.implicit_inputs, read)?,
        end: read_list(alloc, block, here, &lists.order_only_inputs, read)?,
    })
}

/// Checks whether a path of a list has no bytes.
pub fn list_has_empty(paths: &[Items<u8>]) -> bool
    ensures { result ≡ list_any is_empty paths.now }
{
    paths.iter().any(|path| path.as_slice().is_empty())
}

/// Checks whether a path of a list is too long.
pub fn list_has_long(paths: &[Items<u8>]) -> bool
    ensures { result ≡ list_any is_long_path paths.now }
{
    paths.iter().any(|path| is_long_path(path.as_slice()))
}
