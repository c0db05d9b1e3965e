//! Trees of statements.

ghost use Rattle.std.specs.Prelude.{◌≡◌, ◌∷◌, [], IfOk};
ghost use Rattle.plan_scope.specs.Scopes.{bound_by, lookup};
ghost use Rattle.plan_scope.specs.Kept.{KeptEqScoped, kept};
ghost use Rattle.plan_scope.specs.KindSaid.{kind_said};
ghost use Rattle.plan_scope.specs.FileStatements.{statement_at};
ghost use Rattle.plan_scope.specs.declared.fault.ScopeFault.TheVariants as scope_fault;

pub(crate) mod loaded;
pub(crate) mod loader;
pub(crate) mod parsed;
pub(crate) mod source;

use crate::fault::{Cause, ScopeFault};
use crate::scope::scoped_map::ScopedMap;
use crate::scope::text::copy_of;
use crate::tree::loader::FIRST_SCOPE;
use crate::tree::parsed::{Parsed, Segment, Statements};
use plan_parse::{BindingLine, BuildLine, CompactStatement, DirectiveKind};
use plan_text::Items;
use std::alloc::{AllocError, Global};
use std::marker::Model;
use std::rc::Rc;

/// A file of a tree.
#[derive(Drop)]
pub struct File {
    /// The path of the file, as it was requested.
    pub path: Items<u8>,
    /// The scopes that are visible to its statements, their own first.
    pub scopes: Items<usize>,
    /// The parsed file, from which statements are read again. Files with the same contents may share it.
    pub parsed: Rc<Parsed>,
}

impl File {
    /// Returns its statements.
    pub fn statements(&self) -> &[CompactStatement]
        ensures { result.now ≡ self.now.parsed.value.statements }
    {
        self.parsed.as_ref().statements()
    }
}

/// A statement of a tree, and the file that it was read from.
#[derive(Drop)]
pub struct TreeStatement<'a> {
    /// The file.
    file: &'a File,
    /// The statement, in its compact form that refers to the file's bytes.
    statement: &'a CompactStatement,
}

impl<'a> Model for TreeStatement<'a> {
    ghost use Rattle.plan_scope.specs.FileStatements.{statement_at};
    ghost use Rattle.plan_scope.specs.Trees as trees;

    ghost Value = { trees.TreeStatement };

    ghost view = { λ l. statement_at l.file.now l.statement.now };
}

impl<'a> TreeStatement<'a> {
    /// Creates a statement from its file and its compact form.
    pub(crate) fn new(file: &'a File, statement: &'a CompactStatement) -> Self
        ensures { result ≡ statement_at file.now statement.now }
    {
        TreeStatement { file, statement }
    }

    /// Returns the path of its file.
    pub fn path(&self) -> &'a [u8]
        ensures { result.now ≡ self.now.path }
    {
        self.file.path.as_slice()
    }

    /// Returns the scopes that are visible to it, its own first.
    pub fn scopes(&self) -> &'a [usize]
        ensures { result.now ≡ self.now.scopes }
    {
        self.file.scopes.as_slice()
    }

    /// Returns the number of bytes before it in its file.
    pub fn offset(&self) -> u64
        ensures { result ≡ self.now.offset }
    {
        self.statement.offset(self.file.parsed.as_ref().lists())
    }

    /// Returns the fault that refuses it for a cause.
    pub(crate) fn refusal(&self, alloc: Global, cause: Cause) -> Result<ScopeFault, AllocError>
        ensures { IfOk result (λ fault. fault ≡ scope_fault.Refused self.now.path self.now.offset cause) }
    {
        Ok(ScopeFault::Refused(copy_of(alloc, self.path())?, self.offset(), cause))
    }
}

/// The contents of a statement.
#[derive(Drop)]
pub enum Said<'a> {
    /// A binding.
    Binding(BindingLine<'a>),
    /// A build line.
    Build(BuildLine<'a>),
    /// Any other statement.
    Directive(&'a DirectiveKind),
}

impl<'a> TreeStatement<'a> {
    /// Returns its contents.
    pub fn said(&self) -> Said<'a>
        ensures { kind_said result ≡ self.now.kind }
    {
        let parsed = self.file.parsed.as_ref();
        let (text, lists) = (parsed.text(), parsed.lists());
        match self.statement {
            CompactStatement::Binding(span) => Said::Binding(BindingLine::new(text, *span)),
            CompactStatement::Build(number) => Said::Build(BuildLine::new(text, lists, *number)),
            CompactStatement::Directive(directive) => Said::Directive(&directive.kind),
        }
    }
}

/// The statements of a manifest and of all files that it includes. The statements of a file replace the `include` or
/// `subninja` statement that includes it.
#[derive(Drop)]
pub struct Tree {
    /// The statements in their order, as segments of files.
    segments: Items<Segment>,
    /// Their bindings.
    bound: ScopedMap<Items<u8>>,
}

impl Model for Tree {
    ghost use Rattle.std.specs.Prelude.{List};
    ghost use Rattle.plan_scope.specs.FileStatements.{joined};
    ghost use Rattle.plan_scope.specs.Trees as trees;
    ghost use Rattle.plan_scope.specs.Scopes.{bound_by};
    ghost use Rattle.plan_scope.specs.Kept.{KeptEqScoped};

    ghost Value = { List trees.TreeStatement };

    ghost view = { λ t. joined t.segments };

    ghost invariant = { λ t. KeptEqScoped t.bound (bound_by (joined t.segments)) };
}

impl Tree {
    /// Returns the statements in their order.
    pub fn statements(&self) -> Statements<'_>
        ensures { result ≡ self.now }
    {
        Statements::new(self.segments.as_slice())
    }

    /// Returns the text of a name in the scope of the first file at the end of the manifest. Returns an empty text if
    /// nothing binds the name there.
    #[tactic(auto, using(crate::proofs::ScopeLemmas::stands))]
    pub fn text_at_end(&self, name: &[u8]) -> &[u8]
        ensures { kept result.now ≡ kept (lookup (bound_by self.now) (0 ∷ []) name.now) }
    {
        match self.bound.nearest(&[FIRST_SCOPE], name) {
            Some(text) => text.as_slice(),
            None => &[],
        }
    }

    /// Returns the bindings of the statements.
    pub(crate) fn bound(&self) -> &ScopedMap<Items<u8>>
        ensures { KeptEqScoped result.now (bound_by self.now) }
    {
        &self.bound
    }
}
