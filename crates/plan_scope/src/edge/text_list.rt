//! Texts of edges: lists of them, in parts and in chunks, with a pool of buffers.

ghost use Rattle.std.specs.Prelude.{◌≡◌, ◌≤◌, ◌++◌, ◌∷◌, [], All, IfOk, List, OnOk, get_or, length, ℕ, ◌<◌, ◌+◌, is_ok};
ghost use Rattle.plan_scope.specs.Scopes.{Text, is_empty as is_blank};
ghost use Rattle.plan_chunks.specs.Joining.{AreBelow, HasMore, joined};
ghost use Rattle.plan_scope.specs.TextLists.{AreHeld, texts_from, whole, parts_of};
ghost use Rattle.plan_text.specs.Sinks.{Writes};

use crate::edge::paths::row_count;
use crate::scope::cow_text::CowText;
use plan_chunks::Chunks;
use plan_text::{Items, RowList, Sink, SinkFault, write_all, writes_join};
use std::alloc::{AllocError, Global};
use std::marker::Model;

/// The number of bytes from which a text counts as long.
const LONG_TEXT: usize = 4_096;

/// A list of texts. Contracts see it as a list. A short text is a row. A long text is cut into chunks, and equal chunks
/// of all texts are held once unless hashes collide.
#[derive(Drop)]
pub struct TextList {
    /// The bytes of each short text. The row of a long text is empty.
    rows: RowList<u8>,
    /// The chunk numbers of each text up to the last long one. A short text has none.
    long: RowList<u32>,
    chunks: Chunks,
    /// A buffer for the chunk numbers of one text.
    numbers: Vec<u32>,
}

impl Model for TextList {
    ghost use Rattle.std.specs.Prelude.{List};
    ghost use Rattle.plan_scope.specs.Scopes.{Text};
    ghost use Rattle.plan_scope.specs.TextLists.{AreHeld, texts_from};

    ghost Value = { List Text };

    ghost view = { λ t. texts_from t.chunks t.rows t.long };

    ghost invariant = { λ t. AreHeld t.chunks t.rows t.long };
}

/// Appends empty rows until there are `count` rows.
fn fill(rows: &mut RowList<u32>, count: usize) -> Result<(), AllocError>
    requires { length rows.old ≤ count }
    ensures texts { (chunks texts : List Text) → texts_from chunks texts rows.new ≡ texts_from chunks texts rows.old }
    ensures below { (most : ℕ) → All (AreBelow most) rows.old → All (AreBelow most) rows.new }
    ensures within { length rows.new ≤ count }
    ensures len { OnOk result (length rows.new ≡ count) }
{
    while rows.len() < count {
        rows.push(&[])?;
    }
    Ok(())
}

/// Appends a long text as chunks.
fn push_long(
    chunks: &mut Chunks,
    rows: &mut RowList<u8>,
    long: &mut RowList<u32>,
    numbers: &mut Vec<u32>,
    text: &[u8],
) -> Result<(), AllocError>
    requires { AreHeld chunks.old rows.old long.old }
    ensures held { AreHeld chunks.new rows.new long.new }
    ensures more { OnOk result (texts_from chunks.new rows.new long.new ≡ texts_from chunks.old rows.old long.old ++ text.now ∷ []) }
{
    cut_text(chunks, text, numbers)?;
    fill(long, rows.len())?;
    rows.push(&[])?;
    long.push(numbers)?;
    Ok(())
}

impl TextList {
    /// Creates an empty list.
    pub fn new(alloc: Global) -> TextList
        ensures { result ≡ [] }
    {
        TextList {
            rows: RowList::new(alloc),
            long: RowList::new(alloc),
            chunks: Chunks::new(alloc),
            numbers: Vec::new(alloc),
        }
    }

    /// Returns the number of texts.
    ///
    /// # Errors
    ///
    /// `AllocError` if the number doesn't fit in four bytes.
    pub fn count(&self) -> Result<u32, AllocError>
        ensures { IfOk result (λ count. count ≡ length self.now) }
    {
        let count = row_count(&self.rows)?;
        Ok(count)
    }

    /// Appends a text.
    ///
    /// # Errors
    ///
    /// `AllocError` if memory runs out.
    pub fn push(&mut self, text: &[u8]) -> Result<(), AllocError>
        ensures { OnOk result (self.new ≡ self.old ++ text.now ∷ []) }
    {
        if text.len() < LONG_TEXT {
            self.rows.push(text)?;
            return Ok(());
        }
        push_long(
            &mut self.chunks,
            &mut self.rows,
            &mut self.long,
            &mut self.numbers,
            text,
        )
    }

    /// Returns the text with this number, counted from 0, or an empty text if there is no such text.
    pub fn text(&self, number: usize) -> EdgeText<'_>
        ensures { whole result ≡ get_or self.now number [] }
    {
        EdgeText::new(self.rows.row(number), self.long.row(number), &self.chunks)
    }
}

/// A pool of buffers of texts that are no longer needed, reused for later texts. Their contents don't matter.
#[derive(Drop)]
pub struct TextPool {
    texts: Vec<Vec<u8>>,
}

impl TextPool {
    /// Creates an empty pool.
    pub fn new(alloc: Global) -> TextPool {
        TextPool {
            texts: Vec::new(alloc),
        }
    }

    /// Returns an empty text. Takes its buffer from the pool, if the pool has one.
    pub fn take(&mut self, alloc: Global) -> Vec<u8>
        ensures { result.items ≡ [] }
    {
        match self.texts.pop() {
            Some(mut text) => {
                text.clear();
                text
            }
            None => Vec::new(alloc),
        }
    }

    /// Puts the buffer of a text that isn't empty into the pool. Drops it if memory runs out.
    pub fn keep(&mut self, text: Items<u8>) {
        if !text.is_empty() {
            let _ = self.texts.push(text.into_vec());
        }
    }
}

/// The number of bytes of a chunk before the first byte that may end it.
const MIN_CHUNK: usize = 512;

/// The greatest number of bytes in a chunk.
const MAX_CHUNK: usize = 8_192;

/// An odd multiplier that spreads the bits of a window into the upper bits of the product.
const SPREAD: u64 = 0x9e37_79b9_7f4a_7c15;

/// Returns the first `MAX_CHUNK` bytes of a text, or the whole text if it is shorter.
fn front(text: &[u8]) -> &[u8]
    ensures within { length result.now ≤ length text.now }
    ensures some { 0 < length text.now → 0 < length result.now }
{
    if text.len() < MAX_CHUNK {
        return text;
    }
    &text[..MAX_CHUNK]
}

/// Returns the number of bytes of the chunk that a text begins with. Whether a chunk ends after a byte depends on at
/// most 64 bytes that end there, so texts that share a part are usually cut at the same places in it.
fn chunk_len(text: &[u8]) -> usize
    ensures within { result ≤ length text.now }
    ensures some { 0 < length text.now → 0 < result }
{
    let front = front(text);
    let mut window = 0u64;
    for number in MIN_CHUNK..front.len() {
        window = (window << 1).wrapping_add(u64::from(front[number]));
        if window.wrapping_mul(SPREAD) >> 54 == 0 {
            return number + 1;
        }
    }
    front.len()
}

/// Cuts a text into chunks and appends those that `chunks` doesn't hold yet. Replaces the contents of `numbers` by the
/// numbers of all chunks of the text, in order.
pub fn cut_text(chunks: &mut Chunks, text: &[u8], numbers: &mut Vec<u32>) -> Result<(), AllocError>
    ensures text { OnOk result (joined chunks.new numbers.new.items ≡ text.now) }
    ensures below { OnOk result (AreBelow (length chunks.new) numbers.new.items) }
    ensures more { HasMore chunks.old chunks.new }
{
    numbers.clear();
    let mut rest = text;
    while !rest.is_empty() {
        let len = chunk_len(rest);
        numbers.push(chunks.put(&rest[..len])?)?;
        rest = &rest[len..];
    }
    Ok(())
}

/// A text of an edge, in parts. Contracts see the list of the parts. The text is all parts joined.
#[derive(Drop)]
pub struct EdgeText<'a> {
    row: &'a [u8],
    numbers: &'a [u32],
    chunks: &'a Chunks,
}

impl<'a> Model for EdgeText<'a> {
    ghost use Rattle.std.specs.Prelude.{List};
    ghost use Rattle.plan_scope.specs.Scopes.{Text};
    ghost use Rattle.plan_scope.specs.TextLists.{parts_of};

    ghost Value = { List Text };

    ghost view = { λ t. parts_of t.row.now t.chunks.now t.numbers.now };
}

impl<'a> EdgeText<'a> {
    /// Creates the text that consists of a row and then of the chunks with these numbers.
    pub(crate) fn new(row: &'a [u8], numbers: &'a [u32], chunks: &'a Chunks) -> EdgeText<'a>
        ensures { result ≡ parts_of row.now chunks.now numbers.now }
    {
        EdgeText {
            row,
            numbers,
            chunks,
        }
    }

    /// Returns the number of parts.
    pub fn len(&self) -> usize
        ensures { result ≡ length self.now }
    {
        self.numbers.len() + 1
    }

    /// Returns the part with this number, counted from 0, or an empty slice if there is no such part.
    pub fn part(&self, number: usize) -> &'a [u8]
        ensures { result.now ≡ get_or self.now number [] }
    {
        if number == 0 {
            return self.row;
        }
        match self.numbers.get(number - 1) {
            Some(chunk) => self.chunks.chunk(*chunk as usize),
            None => &[],
        }
    }

    /// Checks whether the text has no bytes.
    pub fn is_empty(&self) -> bool
        ensures { result ≡ is_blank (whole self.now) }
    {
        for number in 0..self.len() {
            if !self.part(number).is_empty() {
                return false;
            }
        }
        true
    }

    /// Returns the text in one part. Copies it if it has several parts.
    ///
    /// # Errors
    ///
    /// `AllocError` if memory runs out.
    pub fn join(&self, alloc: Global) -> Result<CowText<'a>, AllocError>
        ensures { IfOk result (λ text. text ≡ whole self.now) }
    {
        if self.numbers.is_empty() {
            return Ok(CowText::of_slice(self.row));
        }
        let mut text = Vec::new(alloc);
        append_parts(self, &mut text)?;
        Ok(CowText::of_vec(text))
    }
}

/// Appends all parts of a text to `bytes`.
fn append_parts(text: &EdgeText<'_>, bytes: &mut Vec<u8>) -> Result<(), AllocError>
    ensures { OnOk result (bytes.new.items ≡ bytes.old.items ++ whole text.now) }
{
    for number in 0..text.len() {
        bytes.extend_from_slice(text.part(number))?;
    }
    Ok(())
}

/// Writes a text.
///
/// # Errors
///
/// The sink's fault at the first failed write. The sink has then taken only bytes before it.
pub fn write_text<W: Sink>(text: &EdgeText<'_>, out: &mut W) -> Result<(), SinkFault>
    ensures { Writes (is_ok result) (W.failures out.old, W.taken out.old) (W.failures out.new, W.taken out.new) (whole text.now) }
{
    writes_join();
    for number in 0..text.len() {
        match write_all(out, text.part(number)) {
            Ok(()) => {}
            Err(fault) => return Err(fault),
        }
    }
    Ok(())
}
