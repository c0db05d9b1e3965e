//! Reads images from their bytes, one table after another.

mod bodies;
mod edges;
mod fields;
mod items;
pub(crate) mod stop;

ghost use Rattle.plan_image.specs.Reading.{read_of, Gives, pool_at, version_at, head_at, later_tables_at, parts_at, tables_at};
ghost use Rattle.plan_image.specs.Spelling.{spelling, IsNoSpelling};
ghost use Rattle.plan_text.specs.Outcome.{Meets};
ghost use Rattle.std.specs.Prelude.{◌≡◌, ◌==◌, IfOk, IfErr, ◌≢◌, length};

use crate::fault::{Cause, ImageFault};
use crate::image::{Image, Parts, Pool, Slot, Version};
use crate::maxima::{MAX_DEPTH, MAX_FILES, MAX_IMAGE, MAX_POOLS, MAX_SLOTS, MAX_TEXTS};
use crate::reading::bodies::read_bodies;
use crate::reading::edges::read_edges;
use crate::reading::fields::{
    FileName, Text, read_byte, read_bytes, read_kind, read_texts, read_u16, read_u32,
    read_u32_up_to,
};
use crate::reading::items::{Spelled, read_ascending, read_table};
use crate::reading::stop::{ReadFault, stop_at};
use plan_text::{Items, RowList};
use std::alloc::Global;

#[tactic(auto, unfolding(crate::specs::Reading::read_of))]
fn read_within_limit(alloc: Global, bytes: &[u8]) -> Result<Parts, ImageFault>
    ensures { Meets ImageFault.Memory (λ x. x) result (read_of bytes.now) }
{
    if bytes.len() > MAX_IMAGE {
        return Err(ImageFault::Limit(0));
    }
    match read_whole(alloc, bytes) {
        Ok(parts) => Ok(parts),
        Err(ReadFault::Memory) => Err(ImageFault::Memory),
        Err(ReadFault::Stop(stop)) => Err(
            stop.cause.at(bytes.len().saturating_sub(stop.left) as u64),
        ),
    }
}

/// Reads the image whose spelling the bytes are, in either version. The spelling must take all bytes. The
/// reserved memory never exceeds what the bytes can fill, however large a count is.
///
/// # Errors
///
/// Returns the first fault from left to right, with its offset.
pub fn read_image(alloc: Global, bytes: &[u8]) -> Result<Image, ImageFault>
    // The bytes are the spelling of the image that is returned.
    ensures read { IfOk result (λ i. spelling i ≡ bytes.now) }
    // If the bytes are refused, they are the spelling of no image.
    ensures refused { IfErr result (λ e. e ≢ ImageFault.Memory → IsNoSpelling bytes.now) }
    // The fault is the first one, with its offset.
    ensures fault { Meets ImageFault.Memory (λ i. i) result (read_of bytes.now) }
{
    let parts = read_within_limit(alloc, bytes)?;
    Ok(Image::with_spelling(parts))
}

/// The bytes of "PLANIMG".
const MAGIC: [u8; 7] = [80, 76, 65, 78, 73, 77, 71];

impl Spelled for Slot {
    ghost use Rattle.plan_image.specs.Reading.{slot_at};

    ghost read_at = { slot_at };

    fn shortest() -> usize {
        5
    }

    #[tactic(auto, unfolding(crate::specs::Reading::slot_at))]
    fn read(_alloc: Global, bytes: &[u8]) -> Result<(Slot, &[u8]), ReadFault> {
        let (owner, rest) = read_u32(bytes)?;
        let (kind, rest) = read_kind(rest)?;
        Ok((Slot { owner, kind }, rest))
    }
}

#[tactic(auto, unfolding(crate::specs::Reading::pool_at))]
pub(crate) fn read_pool(alloc: Global, bytes: &[u8]) -> Result<(Pool, &[u8]), ReadFault>
    ensures { Gives (λ x. (x.0, x.1.now)) result (pool_at bytes.now) }
{
    let (len, rest) = read_u16(bytes)?;
    let (name, rest) = read_bytes(usize::from(len), rest)?;
    let (depth, rest) = read_u32_up_to(MAX_DEPTH, rest)?;
    let name = Items::new(Vec::from_slice(alloc, name)?);
    Ok((Pool { name, depth }, rest))
}

impl Spelled for Pool {
    ghost use Rattle.plan_image.specs.Reading.{pool_at};

    ghost read_at = { pool_at };

    fn shortest() -> usize {
        6
    }

    fn read(alloc: Global, bytes: &[u8]) -> Result<(Pool, &[u8]), ReadFault> {
        read_pool(alloc, bytes)
    }
}

#[tactic(auto, unfolding(crate::specs::Reading::head_at))]
pub(crate) fn read_head(bytes: &[u8]) -> Result<(Version, &[u8]), ReadFault>
    ensures { Gives (λ x. (x.0, x.1.now)) result (head_at bytes.now) }
{
    if bytes.starts_with(&MAGIC) {
        return read_version(&bytes[7..]);
    }
    if MAGIC.starts_with(bytes) {
        return Err(stop_at(Cause::Truncated, &[]));
    }
    Err(stop_at(Cause::BadMagic, bytes))
}

#[tactic(auto, unfolding(crate::specs::Reading::version_at))]
pub(crate) fn read_version(bytes: &[u8]) -> Result<(Version, &[u8]), ReadFault>
    ensures { Gives (λ x. (x.0, x.1.now)) result (version_at bytes.now) }
{
    let (byte, rest) = read_byte(bytes)?;
    let version = match byte {
        1 => Version::One,
        2 => Version::Two,
        _ => return Err(stop_at(Cause::BadVersion, bytes)),
    };
    Ok((version, rest))
}

/// Reads the tables after the slots, and joins them with those that were read.
fn read_later_tables(
    alloc: Global,
    texts: RowList<u8>,
    files: RowList<u8>,
    pools: Items<Pool>,
    slots: Items<Slot>,
    version: Version,
    bytes: &[u8],
) -> Result<(Parts, &[u8]), ReadFault>
    ensures { Gives (λ x. (x.0, x.1.now)) result (later_tables_at texts files pools slots version bytes.now) }
{
    let (bodies, rest) = read_bodies(alloc, version, bytes)?;
    let (edges, rest) = read_edges(alloc, &bodies, rest)?;
    let (defaults, rest) = read_ascending(alloc, rest)?;
    Ok((
        Parts {
            texts,
            files,
            pools,
            slots,
            bodies,
            edges,
            defaults,
        },
        rest,
    ))
}

#[tactic(auto, unfolding(crate::specs::Reading::parts_at))]
pub(crate) fn read_parts(alloc: Global, bytes: &[u8]) -> Result<(Parts, &[u8]), ReadFault>
    ensures { Gives (λ x. (x.0, x.1.now)) result (parts_at bytes.now) }
{
    let (version, rest) = read_head(bytes)?;
    let (texts, rest) = read_texts::<Text>(alloc, MAX_TEXTS as u32, rest)?;
    let (files, rest) = read_texts::<FileName>(alloc, MAX_FILES as u32, rest)?;
    let (pools, rest) = read_table(alloc, MAX_POOLS as u32, rest)?;
    let (slots, rest) = read_table(alloc, MAX_SLOTS as u32, rest)?;
    read_later_tables(alloc, texts, files, pools, slots, version, rest)
}

/// Checks whether no bytes are left after an image.
fn is_all_read(rest: &[u8]) -> bool
    ensures { result ≡ (length rest.now == 0) }
{
    rest.is_empty()
}

#[tactic(auto, unfolding(crate::specs::Reading::tables_at))]
pub(crate) fn read_whole(alloc: Global, bytes: &[u8]) -> Result<Parts, ReadFault>
    ensures { Gives (λ x. x) result (tables_at bytes.now) }
{
    let (parts, rest) = read_parts(alloc, bytes)?;
    if !is_all_read(rest) {
        return Err(stop_at(Cause::Trailing, rest));
    }
    Ok(parts)
}
