//! Parsed files along with their bytes, and their statements one after another.

ghost use Rattle.std.specs.Prelude.{◌≡◌, Ok, bytes_eq, map, ◌≤◌, ◌<◌, Some, length, slice_get};
ghost use Rattle.plan_parse.specs.Compact.{said_in};
ghost use Rattle.plan_parse.specs.Statements.{statements_of};
ghost use Rattle.plan_scope.specs.ParsedTexts.{statements_in};
ghost use Rattle.plan_scope.specs.FileStatements.{joined, statements_at};
ghost use Rattle.plan_parse.specs.PathLists.{between};

use crate::tree::{File, TreeStatement};
use plan_parse::{BuildLists, CompactStatement, ParsedFile};
use plan_text::Items;
use std::marker::Model;
use std::rc::Rc;

/// A file's bytes, and its statements in a compact form that refers to them.
#[derive(Drop)]
pub struct Parsed {
    text: Items<u8>,
    lists: BuildLists,
    statements: Items<CompactStatement>,
}

impl Model for Parsed {
    ghost use Rattle.std.specs.Prelude.{◌≡◌, Ok, map};
    ghost use Rattle.plan_parse.specs.Compact.{said_in};
    ghost use Rattle.plan_parse.specs.Statements.{statements_of};
    ghost use Rattle.plan_scope.specs.ParsedTexts as parsed;

    ghost Value = { parsed.ParsedText };

    ghost view = { λ p. record { text = p.text; lists = p.lists; statements = p.statements } };

    ghost invariant = { λ p. statements_of p.text ≡ Ok (map (said_in p.text p.lists) p.statements) };
}

impl Parsed {
    /// Creates a parsed file from its bytes and its statements.
    pub fn new(text: Vec<u8>, file: ParsedFile) -> Self
        requires { statements_of text.items ≡ Ok (map (said_in text.items file.lists) file.statements.items) }
        ensures text { result.text ≡ text.items }
        ensures read { statements_of text.items ≡ Ok (statements_in result) }
    {
        let ParsedFile { statements, lists } = file;
        Parsed {
            text: Items::new(text),
            lists,
            statements: Items::new(statements),
        }
    }

    /// Returns the bytes.
    pub fn text(&self) -> &[u8]
        ensures { result.now ≡ self.now.text }
    {
        self.text.as_slice()
    }

    /// Returns the lists of the build lines.
    pub fn lists(&self) -> &BuildLists
        ensures { result.now ≡ self.now.lists }
    {
        &self.lists
    }

    /// Checks whether the file has these bytes.
    pub fn is_of(&self, bytes: &[u8]) -> bool
        ensures same { result ≡ bytes_eq self.now.text bytes.now }
        ensures read { statements_of self.now.text ≡ Ok (statements_in self.now) }
    {
        self.text.as_slice() == bytes
    }

    /// Returns the statements.
    pub fn statements(&self) -> &[CompactStatement]
        ensures { result.now ≡ self.now.statements }
    {
        self.statements.as_slice()
    }
}

/// The statements of a tree that are still to come, in their order.
#[derive(Drop)]
pub struct Statements<'a> {
    segments: &'a [Segment],
    /// The number of statements of the first segment that were returned.
    given: usize,
}

impl<'a> Model for Statements<'a> {
    ghost use Rattle.std.specs.Prelude.{List};
    ghost use Rattle.plan_scope.specs.FileStatements.{left_of};
    ghost use Rattle.plan_scope.specs.Trees as trees;

    ghost Value = { List trees.TreeStatement };

    ghost view = { λ s. left_of s.segments.now s.given };
}

impl<'a> Statements<'a> {
    /// Creates the statements of these segments.
    pub fn new(segments: &'a [Segment]) -> Self
        ensures { result ≡ joined segments.now }
    {
        Statements { segments, given: 0 }
    }
}

impl<'a> Iterator for Statements<'a> {
    ghost use Rattle.std.specs.Iterator.{YieldsFirst, item_count};

    type Item = TreeStatement<'a>;

    ghost next_gives = { YieldsFirst (λ s. s) };

    ghost remaining = { item_count (λ s. s) };

    fn next(&mut self) -> Option<TreeStatement<'a>> {
        while let [segment, behind @ ..] = self.segments {
            let number = self.given;
            if number < segment.len() {
                self.given = number + 1;
                return Some(segment.statement(number));
            }
            self.segments = behind;
            self.given = 0;
        }
        None
    }
}

/// Consecutive statements of a file that are also consecutive in a tree.
#[derive(Drop)]
pub struct Segment {
    /// The file.
    file: Rc<File>,
    /// The number of the file's statements before the first statement of this segment.
    start: usize,
    /// The number of the file's statements up to the end of this segment.
    end: usize,
}

impl Model for Segment {
    ghost use Rattle.std.specs.Prelude.{◌≤◌, List, length};
    ghost use Rattle.plan_parse.specs.PathLists.{between};
    ghost use Rattle.plan_scope.specs.FileStatements.{statements_at};
    ghost use Rattle.plan_scope.specs.Trees as trees;

    ghost Value = { List trees.TreeStatement };

    ghost view = { λ s. between s.start s.end (statements_at s.file.value) };

    ghost invariant = { λ s. (s.start ≤ s.end) × (s.end ≤ length s.file.value.parsed.value.statements) };
}

impl Segment {
    /// Creates the segment of a file's statements with the numbers from `start` up to, but not including, `end`.
    pub fn new(file: Rc<File>, start: usize, end: usize) -> Self
        requires start { start ≤ end }
        requires end { end ≤ length file.value.parsed.value.statements }
        ensures { result ≡ between start end (statements_at file.value) }
    {
        Segment { file, start, end }
    }

    /// Returns the number of statements.
    pub fn len(&self) -> usize
        ensures { result ≡ length self.now }
    {
        self.end - self.start
    }

    /// Returns the statement with this number, counted from 0 in the segment.
    pub fn statement(&self, number: usize) -> TreeStatement<'_>
        requires { number < length self.now }
        ensures { slice_get self.now number ≡ Some result }
    {
        let file = self.file.as_ref();
        TreeStatement::new(file, &file.statements()[self.start + number])
    }
}
