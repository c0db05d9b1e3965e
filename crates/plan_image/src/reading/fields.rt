//! Reads numbers, bytes, tags, texts and file names from the front.

ghost use Rattle.plan_image.specs.Reading.{Gives, number_at, number_up_to, bytes_at, byte_at, kind_at, flagged_at, sort_at, items_at, table_at};
ghost use Rattle.std.specs.Int.{w16, w32};
ghost use Rattle.std.specs.Prelude.{◌≤◌, IfOk, ◌<◌};

use crate::body::{Instr, Kind};
use crate::fault::Cause;
use crate::image::Sort;
use crate::maxima::{MAX_PATH, MAX_TEXT};
use crate::reading::items::room;
use crate::reading::stop::{ReadFault, stop_at};
use plan_text::RowList;
use std::alloc::Global;

#[tactic(auto, unfolding(crate::specs::Reading::number_at))]
pub(crate) fn read_u32(bytes: &[u8]) -> Result<(u32, &[u8]), ReadFault>
    ensures { Gives (λ x. (x.0, x.1.now)) result (number_at w32 bytes.now) }
{
    if bytes.len() < 4 {
        return Err(stop_at(Cause::Truncated, &[]));
    }
    let (front, rest) = bytes.split_at(4);
    let number = u32::from_be_bytes([front[0], front[1], front[2], front[3]]);
    Ok((number, rest))
}

#[tactic(auto, unfolding(crate::specs::Reading::number_at))]
pub(crate) fn read_u16(bytes: &[u8]) -> Result<(u16, &[u8]), ReadFault>
    ensures { Gives (λ x. (x.0, x.1.now)) result (number_at w16 bytes.now) }
{
    if bytes.len() < 2 {
        return Err(stop_at(Cause::Truncated, &[]));
    }
    let (front, rest) = bytes.split_at(2);
    let number = u16::from_be_bytes([front[0], front[1]]);
    Ok((number, rest))
}

#[tactic(auto, unfolding(crate::specs::Reading::number_up_to))]
pub(crate) fn read_u32_up_to(most: u32, bytes: &[u8]) -> Result<(u32, &[u8]), ReadFault>
    ensures number { Gives (λ x. (x.0, x.1.now)) result (number_up_to w32 most bytes.now) }
    ensures most { IfOk result (λ x. x.0 ≤ most) }
{
    let (number, rest) = read_u32(bytes)?;
    if most < number {
        return Err(stop_at(Cause::Limit, bytes));
    }
    Ok((number, rest))
}

#[tactic(auto, unfolding(crate::specs::Reading::number_up_to))]
pub(crate) fn read_u16_up_to(most: u16, bytes: &[u8]) -> Result<(u16, &[u8]), ReadFault>
    ensures { Gives (λ x. (x.0, x.1.now)) result (number_up_to w16 most bytes.now) }
{
    let (number, rest) = read_u16(bytes)?;
    if most < number {
        return Err(stop_at(Cause::Limit, bytes));
    }
    Ok((number, rest))
}

/// Borrows `len` bytes.
#[tactic(auto, unfolding(crate::specs::Reading::bytes_at))]
pub(crate) fn read_bytes(len: usize, bytes: &[u8]) -> Result<(&[u8], &[u8]), ReadFault>
    ensures { Gives (λ x. (x.0.now, x.1.now)) result (bytes_at len bytes.now) }
{
    if bytes.len() < len {
        return Err(stop_at(Cause::Truncated, &[]));
    }
    let (text, rest) = bytes.split_at(len);
    Ok((text, rest))
}

#[tactic(auto, unfolding(crate::specs::Reading::byte_at))]
pub(crate) fn read_byte(bytes: &[u8]) -> Result<(u8, &[u8]), ReadFault>
    ensures { Gives (λ x. (x.0, x.1.now)) result (byte_at bytes.now) }
{
    match bytes {
        [] => Err(stop_at(Cause::Truncated, bytes)),
        [byte, rest @ ..] => Ok((*byte, rest)),
    }
}

#[tactic(auto, unfolding(crate::specs::Reading::kind_at))]
pub(crate) fn read_kind(bytes: &[u8]) -> Result<(Kind, &[u8]), ReadFault>
    ensures { Gives (λ x. (x.0, x.1.now)) result (kind_at bytes.now) }
{
    let (byte, rest) = read_byte(bytes)?;
    let kind = match byte {
        1 => Kind::Stamp,
        2 => Kind::Flag,
        3 => Kind::Text,
        4 => Kind::Paths,
        5 => Kind::Swept,
        _ => return Err(stop_at(Cause::BadTag, bytes)),
    };
    Ok((kind, rest))
}

#[tactic(auto, unfolding(crate::specs::Reading::sort_at))]
pub(crate) fn read_sort(bytes: &[u8]) -> Result<(Sort, &[u8]), ReadFault>
    ensures { Gives (λ x. (x.0, x.1.now)) result (sort_at bytes.now) }
{
    let (byte, rest) = read_byte(bytes)?;
    let sort = match byte {
        0 => Sort::Command,
        1 => Sort::Phony,
        _ => return Err(stop_at(Cause::BadTag, bytes)),
    };
    Ok((sort, rest))
}

pub(crate) fn read_flag(bytes: &[u8]) -> Result<(Instr, &[u8]), ReadFault>
    ensures { Gives (λ x. (x.0, x.1.now)) result (flagged_at bytes.now) }
{
    let (byte, rest) = read_byte(bytes)?;
    let flag = match byte {
        0 => false,
        1 => true,
        _ => return Err(stop_at(Cause::BadTag, bytes)),
    };
    Ok((Instr::Flag(flag), rest))
}

/// A text of a table, stored after its length.
pub(crate) trait TextField {
    ghost use Rattle.std.specs.Prelude.{List, ℕ, ◌<◌};
    ghost use Rattle.plan_image.specs.Reading.{Read, Gives};

    ghost read_at: { List ℕ → Read (List ℕ) };

    /// Returns the size of the shortest text with its length field, in bytes.
    fn shortest() -> usize
        ensures { 0 < result };

    /// Borrows the text from the bytes, and returns it with the bytes after it.
    fn read(bytes: &[u8]) -> Result<(&[u8], &[u8]), ReadFault>
        ensures { Gives (λ x. (x.0.now, x.1.now)) result (read_at bytes.now) };
}

/// A text of at most `MAX_TEXT` bytes.
pub(crate) struct Text;

impl TextField for Text {
    ghost use Rattle.plan_image.specs.Reading.{text_at};

    ghost read_at = { text_at };

    fn shortest() -> usize {
        4
    }

    #[tactic(auto, unfolding(crate::specs::Reading::text_at))]
    fn read(bytes: &[u8]) -> Result<(&[u8], &[u8]), ReadFault> {
        let (len, rest) = read_u32_up_to(MAX_TEXT as u32, bytes)?;
        read_bytes(len as usize, rest)
    }
}

/// A file name of 1 to `MAX_PATH` bytes.
pub(crate) struct FileName;

impl TextField for FileName {
    ghost use Rattle.plan_image.specs.Reading.{file_at};

    ghost read_at = { file_at };

    fn shortest() -> usize {
        3
    }

    #[tactic(auto, unfolding(crate::specs::Reading::file_at))]
    fn read(bytes: &[u8]) -> Result<(&[u8], &[u8]), ReadFault> {
        let (len, rest) = read_u16_up_to(MAX_PATH as u16, bytes)?;
        if len == 0 {
            return Err(stop_at(Cause::Limit, bytes));
        }
        read_bytes(usize::from(len), rest)
    }
}

/// Reads `count` texts, one after another.
fn read_rows<F: TextField>(
    alloc: Global,
    count: usize,
    bytes: &[u8],
) -> Result<(RowList<u8>, &[u8]), ReadFault>
    ensures { Gives (λ x. (x.0, x.1.now)) result (items_at (λ (s : Unit {0}). F.read_at) (λ s x. s) tt count bytes.now) }
{
    let mut rows = RowList::new(alloc);
    rows.reserve(room(count, bytes, F::shortest()))?;
    let mut rest = bytes;
    for _ in 0..count {
        let (row, after) = F::read(rest)?;
        rows.push(row)?;
        rest = after;
    }
    Ok((rows, rest))
}

/// Reads a table of at most `most` texts.
#[tactic(auto, unfolding(crate::specs::Reading::table_at))]
pub(crate) fn read_texts<F: TextField>(
    alloc: Global,
    most: u32,
    bytes: &[u8],
) -> Result<(RowList<u8>, &[u8]), ReadFault>
    ensures { Gives (λ x. (x.0, x.1.now)) result (table_at F.read_at most bytes.now) }
{
    let (count, rest) = read_u32_up_to(most, bytes)?;
    read_rows::<F>(alloc, count as usize, rest)
}
