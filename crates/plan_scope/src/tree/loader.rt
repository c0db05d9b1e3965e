//! Loads trees from a source.

ghost use Rattle.std.specs.Prelude.{◌≡◌, ◌≢◌, ◌<◌, ◌≤◌, ◌+◌, ◌-◌, [], ◌∷◌, ◌++◌, Option, Some, IfErr, IfOk, OnOk, ℕ, List, length, option_map};
ghost use Rattle.std.specs.List.{list_any};
ghost use Rattle.plan_text.specs.Outcome.{seen_by};
ghost use Rattle.plan_scope.specs.Scopes.{Name, ScopedBindings as Bound, Text, bound_by, bound_in, expand, is_too_long, lookup};
ghost use Rattle.plan_scope.specs.Kept.{KeptEqLookup, KeptEqScoped};
ghost use Rattle.plan_scope.specs.Loading.{Loads, cause_of_path, cause_to_load, opens_scope, scopes_in, included_by};
ghost use Rattle.plan_scope.specs.LoadingSteps.{LoadsStatements, LoadsWithin};
ghost use Rattle.plan_parse.specs.Compact.{kind_of};
ghost use Rattle.plan_scope.specs.ParsedTexts.{statements_in};
ghost use Rattle.plan_scope.specs.Sources.{SameFiles};
ghost use Rattle.plan_scope.specs.LoaderAnswers.{Answers, IsBound, IsRead, IsRefusal, IsIncluded, IsParsed, LoadsOne, includes, path_included};
ghost use Rattle.plan_scope.specs.LoadingUpTo.{BindsUpTo, LoadsUpTo, RefusesUpTo, end_of};
ghost use Rattle.plan_scope.specs.Trees.{TreeStatement as StatementMeant};
ghost use Rattle.plan_scope.specs.ScopeNames.{names_in};

use crate::fault::{Cause, ReadFault, ScopeFault, StatementFault};
use crate::scope::scoped_map::ScopedMap;
use crate::scope::text::copy_of;
use crate::scope::{Scope, expand_pieces};
use crate::tree::loaded::{Loaded, bind_statement};
use crate::tree::parsed::Parsed;
use crate::tree::source::{Source, SourceFault};
use crate::tree::{File, Said, Tree, TreeStatement};
use plan_parse::{DirectiveKind, ParseFault, parse};
use plan_text::{Items, MAX_PATH, Piece};
use std::alloc::{AllocError, Global};
use std::rc::Rc;

/// The number of files that may be open in addition to the first.
const MORE_FILES: usize = 63;

/// The scope of the first file.
pub(crate) const FIRST_SCOPE: usize = 0;

/// Returns the fault that refuses a statement, or `LoadMemory` if memory runs out.
fn refusal_of(alloc: Global, statement: &TreeStatement<'_>, cause: Cause) -> ScopeFault
    ensures { IsRefusal statement.now cause result }
{
    match statement.refusal(alloc, cause) {
        Ok(fault) => fault,
        Err(_) => ScopeFault::LoadMemory,
    }
}

/// Parses a file's bytes. Releases spare capacity if memory allows it.
fn parse_bytes(alloc: Global, mut bytes: Vec<u8>) -> Result<Rc<Parsed>, ReadFault>
    ensures { IsParsed bytes.items (seen_by (λ parsed. parsed.value) result) }
{
    bytes.shrink_to_fit();
    match parse(alloc, &bytes) {
        Ok(file) => match Rc::new(alloc, Parsed::new(bytes, file)) {
            Ok(parsed) => Ok(parsed),
            Err(_) => Err(ReadFault::Memory),
        },
        Err(ParseFault::Memory) => Err(ReadFault::Memory),
        Err(fault) => Err(ReadFault::Parse(fault)),
    }
}

/// Parses a file's bytes, or shares the file that was parsed first under its path if that has the same bytes.
fn parse_or_share(
    alloc: Global,
    loaded: &Loaded,
    path: &[u8],
    bytes: Vec<u8>,
) -> Result<Rc<Parsed>, ReadFault>
    ensures { IsParsed bytes.items (seen_by (λ parsed. parsed.value) result) }
{
    match loaded.statements().find(path, &bytes) {
        Some(parsed) => Ok(parsed),
        None => parse_bytes(alloc, bytes),
    }
}

/// Reads and parses the file at a path.
fn read_statements<S: Source>(
    alloc: Global,
    source: &mut S,
    loaded: &Loaded,
    path: &[u8],
) -> Result<Rc<Parsed>, ReadFault>
    ensures read { IsRead (S.gives source.old) (S.fails source.old) (S.failures source.old) (S.failures source.new) path.now (seen_by (λ parsed. parsed.value) result) }
    ensures same { SameFiles (S.gives source.new) (S.fails source.new) (S.gives source.old) (S.fails source.old) }
{
    match source.read(alloc, path) {
        Ok(bytes) => parse_or_share(alloc, loaded, path, bytes),
        Err(SourceFault::Missing) => Err(ReadFault::Missing),
        Err(SourceFault::Failed) => Err(ReadFault::Missing),
        Err(SourceFault::Memory) => Err(ReadFault::Memory),
    }
}

/// Expands the path of a file to include. `left` is the number of files that may still be opened.
fn expand_included_path<'a>(
    alloc: Global,
    scope: Scope<'a>,
    pieces: &'a [Piece],
    left: usize,
) -> Result<Items<u8>, StatementFault>
    ensures { (meant : Name → Text) → KeptEqLookup (names_in scope.entry) meant → IsIncluded (cause_of_path left (expand meant pieces.now)) (Some (expand meant pieces.now)) result }
{
    if left == 0 {
        return Err(StatementFault::Refused(Cause::IncludeDepth));
    }
    let path = expand_pieces(alloc, scope, pieces)?;
    if path.is_empty() {
        return Err(StatementFault::Refused(Cause::EmptyPath));
    }
    if path.len() > MAX_PATH {
        return Err(StatementFault::Refused(Cause::PathTooLong));
    }
    Ok(Items::new(path))
}

/// A statement that includes a file.
#[derive(Drop)]
pub struct Include<'a> {
    /// The number of statements before it in its own file.
    pub place: usize,
    /// The statement.
    pub statement: TreeStatement<'a>,
    /// The path of the file that it includes.
    pub path: &'a [Piece],
}

/// Returns the path of the file that a directive includes, if it includes one.
fn path_of_directive(kind: &DirectiveKind) -> Option<&[Piece]>
    ensures { option_map (λ path. path.now) result ≡ path_included (kind_of kind.now) }
{
    match kind {
        DirectiveKind::Include(path) => Some(path.as_slice()),
        DirectiveKind::Subninja(path) => Some(path.as_slice()),
        DirectiveKind::Rule(_) => None,
        DirectiveKind::Pool(_) => None,
        DirectiveKind::Default(_) => None,
    }
}

/// Returns the path of the file that a statement includes, if it includes one.
fn path_included<'a>(statement: &TreeStatement<'a>) -> Option<&'a [Piece]>
    ensures { option_map (λ path. path.now) result ≡ path_included statement.now.kind }
{
    match statement.said() {
        Said::Directive(kind) => path_of_directive(kind),
        Said::Build(_) => None,
        Said::Binding(_) => None,
    }
}

/// Expands the path of the file that a statement includes.
fn included_path(
    alloc: Global,
    loaded: &Loaded,
    include: &Include<'_>,
    left: usize,
) -> Result<Items<u8>, StatementFault>
    requires { path_included include.now.statement.kind ≡ Some include.now.path.now }
    ensures { IsIncluded (cause_to_load left (lookup (bound_by loaded.now) include.now.statement.scopes) include.now.statement.kind) (included_by (lookup (bound_by loaded.now) include.now.statement.scopes) include.now.statement.kind) result }
{
    let scope = Scope {
        bound: loaded.bound(),
        scopes: include.statement.scopes(),
    };
    expand_included_path(alloc, scope, include.path, left)
}

/// Checks whether a statement opens a scope for the statements that it includes.
fn opens_scope(statement: &TreeStatement<'_>) -> bool
    ensures { result ≡ opens_scope statement.now.kind }
{
    matches!(
        statement.said(),
        Said::Directive(DirectiveKind::Subninja(_))
    )
}

/// Returns the scopes that are visible to the statements that a statement includes.
fn scopes_of_included(
    alloc: Global,
    loaded: &Loaded,
    statement: &TreeStatement<'_>,
) -> Result<Items<usize>, AllocError>
    ensures { IfOk result (λ inner. inner ≡ scopes_in loaded.now statement.now.scopes statement.now.kind) }
{
    let mut inner = Vec::new(alloc);
    if opens_scope(statement) {
        inner.push(loaded.statements().fresh_scope(statement.scopes())?)?;
    }
    inner.extend_from_slice(statement.scopes())?;
    Ok(Items::new(inner))
}

/// Adds the binding of a statement, if it is one. Refuses a text that is too long.
fn bind(
    alloc: Global,
    bound: &mut ScopedMap<Items<u8>>,
    statement: &TreeStatement<'_>,
) -> Result<(), ScopeFault>
    ensures bound { OnOk result ((meant : Bound Text) → KeptEqScoped bound.old meant → KeptEqScoped bound.new (meant ++ bound_in meant statement.now.scopes statement.now.kind)) }
    ensures long { (meant : Bound Text) → KeptEqScoped bound.old meant → IsBound statement.now (list_any (λ b. is_too_long b.1.1) (bound_in meant statement.now.scopes statement.now.kind)) result }
{
    match bind_statement(alloc, bound, statement) {
        Ok(false) => Ok(()),
        Ok(true) => Err(refusal_of(alloc, statement, Cause::TextTooLong)),
        Err(_) => Err(ScopeFault::LoadMemory),
    }
}

/// Adds the bindings of a file's statements from the number `start` on, up to the first statement that includes a file.
/// Returns this statement, if there is one.
fn bind_up_to_include<'a>(
    alloc: Global,
    bound: &mut ScopedMap<Items<u8>>,
    file: &'a File,
    start: usize,
) -> Result<Option<Include<'a>>, ScopeFault>
    requires scopes { 0 < length file.now.scopes }
    requires start { start ≤ length file.now.parsed.value.statements }
    ensures bound { IfOk result (BindsUpTo file.now start bound.old bound.new) }
    ensures refused { IfErr result (RefusesUpTo file.now start bound.old) }
{
    let statements = file.statements();
    for place in start..statements.len() {
        let statement = TreeStatement::new(file, &statements[place]);
        match path_included(&statement) {
            Some(path) => {
                return Ok(Some(Include {
                    place,
                    statement,
                    path,
                }));
            }
            None => {}
        }
        match bind(alloc, bound, &statement) {
            Ok(()) => {}
            Err(fault) => return Err(fault),
        }
    }
    Ok(None)
}

/// Returns the number of statements of a file before the one that includes a file, or of all if there is none.
fn end_of(file: &File, include: &Option<Include<'_>>) -> usize
    ensures { result ≡ end_of file.now include.now }
{
    match include {
        Some(include) => include.place,
        None => file.statements().len(),
    }
}

/// The statements that are loaded so far, and the next statement of the file if it includes another file.
#[derive(Drop)]
pub struct LoadedUpTo<'a> {
    /// The statements.
    pub loaded: Loaded,
    /// The next statement, if it includes a file.
    pub include: Option<Include<'a>>,
}

/// Loads the statements of a file from the number `start` on, up to the first statement that includes a file.
fn load_up_to_include<'a>(
    alloc: Global,
    loaded: Loaded,
    file: &'a Rc<File>,
    start: usize,
) -> Result<LoadedUpTo<'a>, ScopeFault>
    requires scopes { 0 < length file.now.value.scopes }
    requires start { start ≤ length file.now.value.parsed.value.statements }
    ensures { LoadsUpTo file.now.value start loaded result }
{
    let Loaded {
        mut statements,
        mut bound,
    } = loaded;
    let include = match bind_up_to_include(alloc, &mut bound, file.as_ref(), start) {
        Ok(include) => include,
        Err(fault) => return Err(fault),
    };
    let end = end_of(file.as_ref(), &include);
    match statements.push(alloc, file, start, end) {
        Ok(()) => Ok(LoadedUpTo {
            loaded: Loaded { statements, bound },
            include,
        }),
        Err(_) => Err(ScopeFault::LoadMemory),
    }
}

/// Loads the file at a path after the statements in `loaded`. `left` is the number of further files that may be open
/// with it.
#[cycle(loading)]
fn load_file<S: Source>(
    alloc: Global,
    source: &mut S,
    loaded: Loaded,
    path: Items<u8>,
    scopes: Items<usize>,
    left: usize,
) -> Result<Loaded, ScopeFault>
    requires { 0 < length scopes }
    ensures loaded { Answers (S.gives source.old) (S.fails source.old) (S.failures source.old) (S.failures source.new) (λ missing out. LoadsWithin (S.gives source.old) missing left path scopes loaded out) result }
    ensures same { SameFiles (S.gives source.new) (S.fails source.new) (S.gives source.old) (S.fails source.old) }
{
    let parsed = match read_statements(alloc, source, &loaded, path.as_slice()) {
        Ok(parsed) => parsed,
        Err(ReadFault::Missing) => return Err(ScopeFault::SourceMissing(path)),
        Err(ReadFault::Parse(fault)) => return Err(ScopeFault::Parse(path, fault)),
        Err(ReadFault::Memory) => return Err(ScopeFault::LoadMemory),
    };
    let file = File {
        path,
        scopes,
        parsed,
    };
    match Rc::new(alloc, file) {
        Ok(file) => load_statements(alloc, source, loaded, file, left),
        Err(_) => Err(ScopeFault::LoadMemory),
    }
}

/// Loads the statements of a file, and those of the files that it includes.
#[cycle(loading)]
fn load_statements<S: Source>(
    alloc: Global,
    source: &mut S,
    loaded: Loaded,
    file: Rc<File>,
    left: usize,
) -> Result<Loaded, ScopeFault>
    requires { 0 < length file.value.scopes }
    ensures loaded { Answers (S.gives source.old) (S.fails source.old) (S.failures source.old) (S.failures source.new) (λ missing out. LoadsStatements (includes (S.gives source.old) missing left) left file.value.path file.value.scopes loaded (statements_in file.value.parsed.value) out) result }
    ensures same { SameFiles (S.gives source.new) (S.fails source.new) (S.gives source.old) (S.fails source.old) }
{
    let mut so_far = loaded;
    let mut start = 0;
    loop {
        let LoadedUpTo { loaded, include } = match load_up_to_include(alloc, so_far, &file, start) {
            Ok(up_to) => up_to,
            Err(fault) => return Err(fault),
        };
        let include = match include {
            Some(include) => include,
            None => return Ok(loaded),
        };
        so_far = match load_included(alloc, source, loaded, &include, left) {
            Ok(so_far) => so_far,
            Err(fault) => return Err(fault),
        };
        start = include.place + 1;
    }
}

/// Loads the file that a statement includes.
#[cycle(loading)]
fn load_included<S: Source>(
    alloc: Global,
    source: &mut S,
    loaded: Loaded,
    include: &Include<'_>,
    left: usize,
) -> Result<Loaded, ScopeFault>
    requires scopes { 0 < length include.now.statement.scopes }
    requires path { path_included include.now.statement.kind ≡ Some include.now.path.now }
    ensures loaded { Answers (S.gives source.old) (S.fails source.old) (S.failures source.old) (S.failures source.new) (λ missing out. LoadsOne (includes (S.gives source.old) missing left) left loaded include.now.statement out) result }
    ensures same { SameFiles (S.gives source.new) (S.fails source.new) (S.gives source.old) (S.fails source.old) }
{
    let path = match included_path(alloc, &loaded, include, left) {
        Ok(path) => path,
        Err(StatementFault::Refused(cause)) => {
            return Err(refusal_of(alloc, &include.statement, cause));
        }
        Err(StatementFault::Memory) => return Err(ScopeFault::LoadMemory),
    };
    let Ok(scopes) = scopes_of_included(alloc, &loaded, &include.statement) else {
        return Err(ScopeFault::LoadMemory);
    };
    load_file(alloc, source, loaded, path, scopes, left - 1)
}

/// Reads the file at this path and all files that it includes. The statements of a file replace the `include` or
/// `subninja` statement that includes it.
///
/// # Errors
///
/// The first fault in the order of the statements: `SourceMissing` if the source has no such file or fails to read it,
/// `Parse` if the bytes of a file aren't a list of statements, and `Refused` for a statement. A statement is refused if
/// it binds a name to a text that is too long, includes a file by an empty path or one of more than 4,096 bytes, or
/// includes a file while its own file and 63 others are open. `LoadMemory` if the loader, the source or the parser runs
/// out of memory.
pub fn load<S: Source>(alloc: Global, source: &mut S, path: &[u8]) -> Result<Tree, ScopeFault>
    ensures loaded { Loads (S.gives source.old) (S.fails source.old) (S.failures source.old) (S.failures source.new) path.now result }
    ensures same { SameFiles (S.gives source.new) (S.fails source.new) (S.gives source.old) (S.fails source.old) }
{
    let Ok(name) = copy_of(alloc, path) else {
        return Err(ScopeFault::LoadMemory);
    };
    let mut scopes = Vec::new(alloc);
    let Ok(()) = scopes.push(FIRST_SCOPE) else {
        return Err(ScopeFault::LoadMemory);
    };
    let none = Loaded::new(alloc);
    match load_file(alloc, source, none, name, Items::new(scopes), MORE_FILES) {
        Ok(loaded) => Ok(loaded.into_tree()),
        Err(fault) => Err(fault),
    }
}
