//! The sentence that says why an edge is dirty.

ghost use Rattle.std.specs.Prelude.{◌≡◌, IfOk, map, nat_lt};
ghost use Rattle.std.specs.List.{concat};
ghost use Rattle.plan_reasons.specs.Reasons.{first_at};
ghost use Rattle.plan_reasons.specs.Sentences as defined;

use crate::reason::Reason;
use plan_text::RowList;
use std::alloc::{AllocError, Global};

/// What a sentence on an edge may name.
#[derive(Drop)]
pub struct Names<'a> {
    /// The outputs.
    pub outputs: &'a RowList<u8>,
    /// The stamps of the outputs.
    pub stamps: &'a [u64],
    /// The explicit and the implicit inputs, and after them the recorded paths.
    pub inputs: &'a RowList<u8>,
    /// The recorded paths.
    pub recorded: &'a RowList<u8>,
    /// The stamp of the input that is newer than the baseline, if that is the reason.
    pub newer: u64,
}

/// Joins texts.
fn joined(alloc: Global, texts: &[&[u8]]) -> Result<Vec<u8>, AllocError>
    ensures { IfOk result (λ text. text.items ≡ concat (map (λ t. t.now) texts.now)) }
{
    let mut text = Vec::new(alloc);
    for part in texts {
        text.extend_from_slice(part)?;
    }
    Ok(text)
}

/// Returns the position of the first stamp that is earlier than this one.
fn first_earlier(stamp: u64, stamps: &[u64]) -> Option<usize>
    ensures { result ≡ first_at (λ t. nat_lt t stamp) 0 stamps.now }
{
    for place in 0..stamps.len() {
        if stamps[place] < stamp {
            return Some(place);
        }
    }
    None
}

/// Returns what the newer input of an edge is newer than.
fn older(alloc: Global, names: &Names<'_>) -> Result<Vec<u8>, AllocError>
    ensures { IfOk result (λ text. text.items ≡ defined.older names.now (first_at (λ t. nat_lt t names.now.newer) 0 names.now.stamps.now)) }
{
    match first_earlier(names.newer, names.stamps) {
        Some(place) => joined(alloc, &[b"output ", names.outputs.row(place)]),
        None => joined(alloc, &[b"what the last build read"]),
    }
}

/// Returns the sentence on an input that is newer than a baseline.
fn newer(
    alloc: Global,
    names: &Names<'_>,
    place: usize,
    baseline: u64,
) -> Result<Vec<u8>, AllocError>
    ensures { IfOk result (λ text. text.items ≡ defined.sentence names.now (Reason.Newer place baseline)) }
{
    let _ = baseline;
    let older = older(alloc, names)?;
    joined(
        alloc,
        &[
            b"input ",
            names.inputs.row(place),
            b" is newer than ",
            older.as_slice(),
        ],
    )
}

/// Returns the sentence that says why an edge is dirty.
///
/// # Errors
///
/// Memory ran out.
pub fn sentence(alloc: Global, names: &Names<'_>, reason: Reason) -> Result<Vec<u8>, AllocError>
    ensures { IfOk result (λ text. text.items ≡ defined.sentence names.now reason) }
{
    match reason {
        Reason::OutputMissing(place) => joined(
            alloc,
            &[b"output ", names.outputs.row(place), b" doesn't exist"],
        ),
        Reason::InputChanged(place) => joined(
            alloc,
            &[
                b"input ",
                names.inputs.row(place),
                b" was changed in this build",
            ],
        ),
        Reason::NeverBuilt => joined(alloc, &[b"no earlier build is recorded"]),
        Reason::NotFinished => joined(
            alloc,
            &[b"its command was started before, and didn't succeed"],
        ),
        Reason::OtherCommand => joined(alloc, &[b"its command line changed"]),
        Reason::PathMissing(place) => joined(
            alloc,
            &[b"input ", names.recorded.row(place), b" doesn't exist"],
        ),
        Reason::Newer(place, baseline) => newer(alloc, names, place, baseline),
    }
}
