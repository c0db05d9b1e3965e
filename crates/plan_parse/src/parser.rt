//! Reads a manifest from its first line to its last.

ghost use Rattle.std.specs.Prelude.{◌≡◌, ◌+◌, ◌<◌, ◌^◌, [], OnOk, Some, length, map};
ghost use Rattle.plan_text.specs.Outcome.{Meets};
ghost use Rattle.plan_parse.specs.Statements.{statements_of};
ghost use Rattle.plan_parse.specs.Views.{place_of};
ghost use Rattle.plan_parse.specs.BlockLines.{block_lines_of, line_role_of};
ghost use Rattle.plan_parse.specs.Compact.{AllLast, StandsIn, said_in};
ghost use Rattle.plan_parse.specs.Progress.{BlockStandsIn, LinesStandIn, TakesLine, RoleStandsIn, ReadsLine, state_of, statements_at_end};

use crate::block::{BlockLine, LineRole, no_block_allowed, role_of_line};
use crate::compact::{BuildLists, CompactStatement, ParsedFile};
use crate::cursor::Cursor;
use crate::fault::ParseFault;
use crate::statement_reader::statement_of;
use plan_text::{MAX_SOURCE, TextFault, split_line};
use std::alloc::Global;

/// The statements of whole blocks, and the block that may continue.
#[derive(Drop)]
struct Reader<'a> {
    alloc: Global,
    text: &'a [u8],
    statements: Vec<CompactStatement>,
    head: Option<Cursor<'a>>,
    lines: Vec<BlockLine<'a>>,
    /// The build lines so far.
    lists: BuildLists,
}

impl<'a> Reader<'a> {
    /// Adds the statement of the block that this line began.
    fn add(&mut self, head: Cursor<'a>) -> Result<(), ParseFault>
        requires head { StandsIn self.now.text.now (place_of head) }
        requires lines { LinesStandIn self.now.text.now (block_lines_of self.now.lines.items) }
        requires kept { AllLast self.now.text.now self.now.lists self.now.statements.items }
        ensures statements { Meets ParseFault.Memory (λ _. map (said_in self.old.text.now self.new.lists) self.new.statements.items) result (statements_at_end (record { done = map (said_in self.old.text.now self.old.lists) self.old.statements.items; head = Some (place_of head.entry); lines = block_lines_of self.old.lines.items })) }
        ensures kept { OnOk result (AllLast self.old.text.now self.new.lists self.new.statements.items) }
        ensures text { self.new.text ≡ self.old.text }
        ensures head { self.new.head ≡ self.old.head }
    {
        let statement = statement_of(self.alloc, self.text, head, &self.lines, &mut self.lists)?;
        self.statements.push(statement)?;
        Ok(())
    }

    /// Ends the block: appends its statement, and removes its lines.
    fn end_block(&mut self) -> Result<(), ParseFault>
        requires block { BlockStandsIn self.now.text.now (state_of self.now) }
        requires kept { AllLast self.now.text.now self.now.lists self.now.statements.items }
        ensures statements { Meets ParseFault.Memory (λ _. map (said_in self.old.text.now self.new.lists) self.new.statements.items) result (statements_at_end (state_of self.old)) }
        ensures kept { OnOk result (AllLast self.old.text.now self.new.lists self.new.statements.items) }
        ensures lines { OnOk result (self.new.lines.items ≡ []) }
        ensures text { self.new.text ≡ self.old.text }
    {
        match self.head {
            Some(head) => self.add(head)?,
            None => no_block_allowed(&self.lines)?,
        }
        self.lines.clear();
        Ok(())
    }

    /// Adds one more line by its role.
    fn take(&mut self, role: LineRole<'a>) -> Result<(), ParseFault>
        requires block { BlockStandsIn self.now.text.now (state_of self.now) }
        requires kept { AllLast self.now.text.now self.now.lists self.now.statements.items }
        requires role { RoleStandsIn self.now.text.now (Some (line_role_of role)) }
        ensures block { OnOk result (BlockStandsIn self.new.text.now (state_of self.new)) }
        ensures kept { OnOk result (AllLast self.new.text.now self.new.lists self.new.statements.items) }
        ensures text { self.new.text ≡ self.old.text }
        ensures takes { TakesLine result (state_of self.old) (line_role_of role.entry) (state_of self.new) }
    {
        match role {
            LineRole::Head(head) => {
                self.end_block()?;
                self.head = Some(head);
            }
            LineRole::Below(line) => self.lines.push(line)?,
        }
        Ok(())
    }

    /// Reads one more logical line.
    fn read(&mut self, at: usize, line: &'a [u8]) -> Result<(), ParseFault>
        requires short { at + length line.now < 2 ^ 63 }
        requires block { BlockStandsIn self.now.text.now (state_of self.now) }
        requires kept { AllLast self.now.text.now self.now.lists self.now.statements.items }
        requires line { StandsIn self.now.text.now (record { at = at; bytes = line.now }) }
        ensures block { OnOk result (BlockStandsIn self.new.text.now (state_of self.new)) }
        ensures kept { OnOk result (AllLast self.new.text.now self.new.lists self.new.statements.items) }
        ensures text { self.new.text ≡ self.old.text }
        ensures reads { ReadsLine result (state_of self.old) (record { at = at; bytes = line.now }) (state_of self.new) }
    {
        match role_of_line(at, line) {
            Some(role) => self.take(role),
            None => Ok(()),
        }
    }

    /// Returns the statements at the end of the text. Releases spare room for build lines if memory allows it.
    fn finish(mut self) -> Result<ParsedFile, ParseFault>
        requires block { BlockStandsIn self.text.now (state_of self) }
        requires kept { AllLast self.text.now self.lists self.statements.items }
        ensures { Meets ParseFault.Memory (λ file. map (said_in self.entry.text.now file.lists) file.statements.items) result (statements_at_end (state_of self.entry)) }
    {
        self.end_block()?;
        self.lists.shrink();
        Ok(ParsedFile {
            statements: self.statements,
            lists: self.lists,
        })
    }
}

/// Reads the statements of a manifest, and stores them by their places in the text.
///
/// # Errors
///
/// The first fault of the first block that has one. `SourceTooLong` comes before all other faults. `Memory` if
/// memory runs out, whatever the text is.
pub fn parse(alloc: Global, text: &[u8]) -> Result<ParsedFile, ParseFault>
    ensures { Meets ParseFault.Memory (λ file. map (said_in text.now file.lists) file.statements.items) result (statements_of text.now) }
{
    if text.len() > MAX_SOURCE {
        let fault = TextFault::SourceTooLong(MAX_SOURCE as u64);
        return Err(ParseFault::Text(fault));
    }
    let mut reader = Reader {
        alloc,
        text,
        statements: Vec::new(alloc),
        head: None,
        lines: Vec::new(alloc),
        lists: BuildLists::new(alloc),
    };
    let mut at = 0;
    while at < text.len() {
        let (line, len) = split_line(&text[at..]);
        reader.read(at, line)?;
        at += len;
    }
    reader.finish()
}
