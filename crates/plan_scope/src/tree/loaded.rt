//! The statements of a tree that are loaded so far, and the names that they bind.

ghost use Rattle.std.specs.Prelude.{◌≡◌, ◌≤◌, ◌++◌, [], IfOk, IfSome, Ok, OnOk, length, ◌+◌, ◌∷◌};
ghost use Rattle.plan_parse.specs.PathLists.{between};
ghost use Rattle.plan_scope.specs.FileStatements.{statements_at};
ghost use Rattle.plan_scope.specs.Kept.{KeptEqScoped};
ghost use Rattle.plan_scope.specs.LoaderAnswers.{IsParsed};
ghost use Rattle.plan_scope.specs.Loading.{fresh_scope, own_scope};
ghost use Rattle.plan_scope.specs.Scopes.{bound_by, ScopedBindings as Bound, Text, bound_in, expand, in_own, is_too_long, lookup};
ghost use Rattle.std.specs.List.{list_any};

use crate::scope::scoped_map::ScopedMap;
use crate::scope::text::is_long;
use crate::scope::{Scope, expand_pieces};
use crate::tree::parsed::{Parsed, Segment};
use crate::tree::{File, Said, Tree, TreeStatement};
use indexmap::IndexMap;
use plan_parse::Binding;
use plan_text::Items;
use std::alloc::{AllocError, Global};
use std::marker::Model;
use std::rc::Rc;

/// Statements in their order, as segments of files.
#[derive(Drop)]
pub struct Segments {
    segments: Vec<Segment>,
    /// The greatest of their own scopes.
    greatest: usize,
    /// The file that was parsed first under each path.
    read: IndexMap<Vec<u8>, Rc<Parsed>>,
}

impl Model for Segments {
    ghost use Rattle.std.specs.Prelude.{◌≡◌, List};
    ghost use Rattle.plan_scope.specs.FileStatements.{joined};
    ghost use Rattle.plan_scope.specs.Loading.{greatest_scope};
    ghost use Rattle.plan_scope.specs.Trees as trees;

    ghost Value = { List trees.TreeStatement };

    ghost view = { λ s. joined s.segments.items };

    ghost invariant = { λ s. s.greatest ≡ greatest_scope (joined s.segments.items) };
}

/// Returns the own scope of a statement that sees these scopes.
pub fn own_scope(scopes: &[usize]) -> usize
    ensures { result ≡ own_scope scopes.now }
{
    match scopes {
        [] => 0,
        [own, ..] => *own,
    }
}

impl Segments {
    /// Creates an empty list.
    pub fn new(alloc: Global) -> Self
        ensures { result ≡ [] }
    {
        Segments {
            segments: Vec::new(alloc),
            greatest: 0,
            read: IndexMap::new(alloc),
        }
    }

    /// Returns the file that was parsed first under a path, if it has these bytes and some of its statements are in
    /// this list.
    pub fn find(&self, path: &[u8], bytes: &[u8]) -> Option<Rc<Parsed>>
        ensures { IfSome result (λ parsed. IsParsed bytes.now (Ok parsed.value)) }
    {
        let parsed = self.read.get(path)?;
        if !parsed.as_ref().is_of(bytes) {
            return None;
        }
        match parsed.clone() {
            Ok(parsed) => Some(parsed),
            Err(_) => None,
        }
    }

    /// Remembers a parsed file, unless its path has one already.
    fn remember(&mut self, alloc: Global, file: &File) -> Result<(), AllocError>
        ensures { self.new ≡ self.old }
    {
        let path = file.path.as_slice();
        if self.read.get(path).is_none() {
            let name = Vec::from_slice(alloc, path)?;
            self.read.insert(name, file.parsed.clone()?)?;
        }
        Ok(())
    }

    /// Appends the statements of a file with the numbers from `start` up to, but not including, `end`.
    pub fn push(
        &mut self,
        alloc: Global,
        file: &Rc<File>,
        start: usize,
        end: usize,
    ) -> Result<(), AllocError>
        requires start { start ≤ end }
        requires end { end ≤ length file.now.value.parsed.value.statements }
        ensures { OnOk result (self.new ≡ self.old ++ between start end (statements_at file.now.value)) }
    {
        if start == end {
            return Ok(());
        }
        self.remember(alloc, file.as_ref())?;
        self.segments.push(Segment::new(file.clone()?, start, end))?;
        self.greatest = self
            .greatest
            .max(own_scope(file.as_ref().scopes.as_slice()));
        Ok(())
    }

    /// Returns the scope that a statement with these visible scopes opens. Returns `AllocError` if the number
    /// overflows.
    pub fn fresh_scope(&self, scopes: &[usize]) -> Result<usize, AllocError>
        ensures { IfOk result (λ scope. scope ≡ fresh_scope self.now scopes.now) }
    {
        match self.greatest.max(own_scope(scopes)).checked_add(1) {
            Some(scope) => Ok(scope),
            None => Err(AllocError),
        }
    }
}

/// The statements that are loaded so far, and their bindings.
#[derive(Drop)]
pub struct Loaded {
    /// The statements.
    pub statements: Segments,
    /// Their bindings.
    pub bound: ScopedMap<Items<u8>>,
}

impl Model for Loaded {
    ghost use Rattle.std.specs.Prelude.{List};
    ghost use Rattle.plan_scope.specs.Kept.{KeptEqScoped};
    ghost use Rattle.plan_scope.specs.Scopes.{bound_by};
    ghost use Rattle.plan_scope.specs.Trees as trees;

    ghost Value = { List trees.TreeStatement };

    ghost view = { λ l. l.statements };

    ghost invariant = { λ l. KeptEqScoped l.bound (bound_by l.statements) };
}

impl Loaded {
    /// Creates an empty list.
    pub fn new(alloc: Global) -> Self
        ensures { result ≡ [] }
    {
        Loaded {
            statements: Segments::new(alloc),
            bound: ScopedMap::new(alloc),
        }
    }

    /// Returns the statements.
    pub fn statements(&self) -> &Segments
        ensures { result.now ≡ self.now }
    {
        &self.statements
    }

    /// Returns their bindings.
    pub fn bound(&self) -> &ScopedMap<Items<u8>>
        ensures { KeptEqScoped result.now (bound_by self.now) }
    {
        &self.bound
    }

    /// Returns the tree of these statements. Releases spare capacity if memory allows it.
    pub fn into_tree(self) -> Tree
        ensures { result ≡ self }
    {
        let Loaded { statements, bound } = self;
        let Segments {
            mut segments,
            greatest: _,
            read: _,
        } = statements;
        segments.shrink_to_fit();
        Tree {
            segments: Items::new(segments),
            bound,
        }
    }
}

/// Binds a name in a scope, by the bindings above. Returns whether its text is too long.
fn bind_in(
    alloc: Global,
    bound: &mut ScopedMap<Items<u8>>,
    own: usize,
    scopes: &[usize],
    binding: &Binding,
) -> Result<bool, AllocError>
    ensures bound { OnOk result ((meant : Bound Text) → KeptEqScoped bound.old meant → KeptEqScoped bound.new (meant ++ (own, (binding.now.name, expand (lookup meant scopes.now) binding.now.value)) ∷ [])) }
    ensures long { IfOk result (λ long. (meant : Bound Text) → KeptEqScoped bound.old meant → long ≡ is_too_long (expand (lookup meant scopes.now) binding.now.value)) }
{
    let text = expand_pieces(
        alloc,
        Scope {
            bound: &*bound,
            scopes,
        },
        binding.value.as_slice(),
    )?;
    let long = is_long(&text);
    bound.set(alloc, own, binding.name.as_slice(), Items::new(text))?;
    Ok(long)
}

/// Binds a name in the own scope of a statement, by the bindings above. Returns whether its text is too long.
fn bind_own(
    alloc: Global,
    bound: &mut ScopedMap<Items<u8>>,
    scopes: &[usize],
    binding: &Binding,
) -> Result<bool, AllocError>
    ensures bound { OnOk result ((meant : Bound Text) → KeptEqScoped bound.old meant → KeptEqScoped bound.new (meant ++ in_own scopes.now binding.now.name (expand (lookup meant scopes.now) binding.now.value))) }
    ensures long { IfOk result (λ long. (meant : Bound Text) → KeptEqScoped bound.old meant → long ≡ list_any (λ b. is_too_long b.1.1) (in_own scopes.now binding.now.name (expand (lookup meant scopes.now) binding.now.value))) }
{
    match scopes {
        [] => Ok(false),
        [own, ..] => bind_in(alloc, bound, *own, scopes, binding),
    }
}

/// Binds the name of a statement that is a binding, by the bindings above it. Returns whether its text is too long.
pub fn bind_statement(
    alloc: Global,
    bound: &mut ScopedMap<Items<u8>>,
    statement: &TreeStatement<'_>,
) -> Result<bool, AllocError>
    ensures bound { OnOk result ((meant : Bound Text) → KeptEqScoped bound.old meant → KeptEqScoped bound.new (meant ++ bound_in meant statement.now.scopes statement.now.kind)) }
    ensures long { IfOk result (λ long. (meant : Bound Text) → KeptEqScoped bound.old meant → long ≡ list_any (λ b. is_too_long b.1.1) (bound_in meant statement.now.scopes statement.now.kind)) }
{
    match statement.said() {
        Said::Binding(line) => bind_own(alloc, bound, statement.scopes(), &line.read(alloc)?),
        Said::Build(_) => Ok(false),
        Said::Directive(_) => Ok(false),
    }
}
