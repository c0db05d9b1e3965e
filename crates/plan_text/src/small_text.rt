//! Texts that take no allocation if they are short: they are stored inline.

ghost use Rattle.std.specs.Prelude.{◌≡◌, ◌++◌, IfOk, [], ◌≤◌, ◌+◌, length, nat_le};

use std::alloc::{AllocError, Global};
use std::marker::Model;

/// The storage of the bytes of a text.
#[derive(Drop)]
enum Held {
    /// Inline, in the value itself.
    Inline(Front),
    /// In an allocation.
    Heap(Vec<u8>),
}

/// The bytes of a text. Up to 30 bytes take no allocation. A contract sees it as the list of the bytes.
#[derive(Drop)]
pub struct SmallText {
    held: Held,
}

impl Model for SmallText {
    ghost use Rattle.std.specs.Prelude.{List, ℕ};
    ghost use Rattle.plan_text.specs.SmallTexts.{text_in};

    ghost Value = { List ℕ };

    ghost view = { λ s. text_in s.held };
}

/// Joins two texts in an allocation with exactly the room that they need.
fn concatenate(alloc: Global, text: &[u8], more: &[u8]) -> Result<Vec<u8>, AllocError>
    ensures { IfOk result (λ v. v.items ≡ text.now ++ more.now) }
{
    let mut heap = Vec::with_capacity(alloc, text.len().saturating_add(more.len()))?;
    heap.extend_from_slice(text)?;
    heap.extend_from_slice(more)?;
    Ok(heap)
}

impl SmallText {
    /// Creates an empty text.
    pub fn empty() -> SmallText
        ensures { result ≡ [] }
    {
        SmallText {
            held: Held::Inline(Front::empty()),
        }
    }

    /// Creates a text of these bytes.
    pub fn new(alloc: Global, bytes: &[u8]) -> Result<SmallText, AllocError>
        ensures { IfOk result (λ text. text ≡ bytes.now) }
    {
        SmallText::empty().with(alloc, bytes)
    }

    /// Appends bytes.
    pub(crate) fn with(self, alloc: Global, more: &[u8]) -> Result<SmallText, AllocError>
        ensures { IfOk result (λ text. text ≡ self ++ more.now) }
    {
        let held = match self.held {
            Held::Inline(front) if front.has_room(more.len()) => Held::Inline(front.with(more)),
            Held::Inline(front) => Held::Heap(concatenate(alloc, front.as_slice(), more)?),
            Held::Heap(mut heap) => {
                heap.extend_from_slice(more)?;
                Held::Heap(heap)
            }
        };
        Ok(SmallText { held })
    }

    /// Borrows the bytes.
    pub fn as_slice(&self) -> &[u8]
        ensures { result.now ≡ self.now }
    {
        match &self.held {
            Held::Inline(front) => front.as_slice(),
            Held::Heap(heap) => heap,
        }
    }
}

/// The most bytes that a `Front` holds. With this limit, a `SmallText` is no larger than a `Vec` and a tag.
const ROOM: usize = 30;

/// Up to `ROOM` bytes, stored at the front of an array. A contract sees it as the list of the bytes.
#[derive(Drop)]
pub struct Front {
    len: u8,
    array: [u8; ROOM],
}

impl Model for Front {
    ghost use Rattle.std.specs.Prelude.{◌≤◌, List, ℕ, take};
    ghost use Rattle.plan_text.specs.declared.small_text.TheConstants.{ROOM};

    ghost Value = { List ℕ };

    ghost view = { λ s. take s.len s.array };

    ghost invariant = { λ s. s.len ≤ ROOM };
}

impl Front {
    /// Creates an empty `Front`.
    pub fn empty() -> Front
        ensures { result ≡ [] }
    {
        Front {
            len: 0,
            array: [0; ROOM],
        }
    }

    /// Borrows the bytes.
    pub fn as_slice(&self) -> &[u8]
        ensures { result.now ≡ self.now }
    {
        &self.array[..self.len as usize]
    }

    /// Returns whether `more` further bytes fit.
    pub fn has_room(&self, more: usize) -> bool
        ensures { result ≡ nat_le (length self.now + more) ROOM }
    {
        more <= ROOM - self.len as usize
    }

    /// Appends bytes, which must fit.
    pub fn with(self, more: &[u8]) -> Front
        requires { length self + length more.now ≤ ROOM }
        ensures { result ≡ self ++ more.now }
    {
        let Front { len, mut array } = self;
        let begin = len as usize;
        let end = begin + more.len();
        array[begin..end].copy_from_slice(more);
        Front {
            len: end as u8,
            array,
        }
    }
}
