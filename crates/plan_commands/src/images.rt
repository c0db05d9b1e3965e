//! Reading images from a source, and the commands `dump` and `verify`.

ghost use Rattle.std.specs.Prelude.{◌≡◌, ◌⊎◌, IfOk, IfErr, OnOk};
ghost use Rattle.plan_scope.specs.Loading.{IsMissing};
ghost use Rattle.plan_commands.specs.Images.{IsImageAt, LacksImage, Dumps, FailsToDump};
ghost use Rattle.plan_verify.specs.WellShaped.{IsWellShaped};
ghost use Rattle.plan_commands.specs.Verdicts.{verdict_line, Accepts, IsRejected, FailsToAccept};

use crate::image_fault::{printed_image_fault, printed_verify_fault};
use plan_image::{Image, listing, read_image};
use plan_printing::{PlanFault, file_fault, no_memory, output_fault};
use plan_scope::{Source, SourceFault};
use plan_text::{Sink, write_all};
use plan_verify::{Verified, verify, verify_by};
use std::alloc::{AllocError, Global};
use std::mem::forget;
use std::thread::Threads;

/// Reads the image at a path. Frees the bytes of the file.
pub fn image_at<S: Source>(alloc: Global, source: &mut S, path: &[u8]) -> Result<Image, PlanFault>
    ensures image { IfOk result (λ image. IsImageAt (S.gives source.old) path.now image) }
    ensures read { OnOk result (S.failures source.new ≡ S.failures source.old) }
    ensures refused { let missing = IsMissing (S.gives source.old) (S.fails source.old) (S.failures source.old) (S.failures source.new) in
        IfErr result (λ fault. LacksImage (S.gives source.old) missing path.now fault) }
{
    let bytes = match source.read(alloc, path) {
        Ok(bytes) => bytes,
        Err(SourceFault::Memory) => return Err(no_memory(alloc)),
        Err(SourceFault::Missing | SourceFault::Failed) => return Err(file_fault(alloc, path)),
    };
    match read_image(alloc, &bytes) {
        Ok(image) => Ok(image),
        Err(fault) => Err(printed_image_fault(alloc, fault)),
    }
}

/// Writes the listing of the image at a path, and returns the status 0. Then no read and no write failed. The image
/// isn't verified.
///
/// # Errors
/// - The file is missing or isn't an image: the fault has the cause and the place. Nothing is written.
/// - 133 ` -`: a write failed.
/// - 131 or the number of a lower layer: memory ran out. Nothing is written.
pub fn do_dump<S: Source, W: Sink>(
    alloc: Global,
    source: &mut S,
    path: &[u8],
    out: &mut W,
) -> Result<u8, PlanFault>
    ensures done { IfOk result (λ status. (status ≡ 0)
        × Dumps (S.gives source.old) path.now (W.failures out.old, W.taken out.old) (W.failures out.new, W.taken out.new)) }
    ensures read { OnOk result (S.failures source.new ≡ S.failures source.old) }
    ensures refused { let missing = IsMissing (S.gives source.old) (S.fails source.old) (S.failures source.old) (S.failures source.new) in
        IfErr result (λ fault. ((out.new ≡ out.old) × LacksImage (S.gives source.old) missing path.now fault)
        ⊎ FailsToDump (S.gives source.old) path.now (W.failures out.old, W.taken out.old) (W.failures out.new, W.taken out.new) fault) }
{
    let image = image_at(alloc, source, path)?;
    let Ok(failed) = output_fault(alloc) else {
        return Err(no_memory(alloc));
    };
    let written = listing(&image, out);
    // The memory isn't freed, since the program ends soon.
    forget(image);
    match written {
        Ok(()) => Ok(0),
        Err(_) => Err(failed),
    }
}

/// Reads the image at a path, and verifies it.
pub fn verified_at<S: Source>(
    alloc: Global,
    source: &mut S,
    path: &[u8],
) -> Result<Verified, PlanFault>
    ensures image { IfOk result (λ image. IsImageAt (S.gives source.old) path.now image × IsWellShaped image) }
    ensures read { OnOk result (S.failures source.new ≡ S.failures source.old) }
    ensures refused { let missing = IsMissing (S.gives source.old) (S.fails source.old) (S.failures source.old) (S.failures source.new) in
        IfErr result (λ fault. IsRejected (S.gives source.old) missing path.now fault) }
{
    let image = image_at(alloc, source, path)?;
    match verify(alloc, image) {
        Ok(verified) => Ok(verified),
        Err((_, fault)) => Err(printed_verify_fault(alloc, fault)),
    }
}

/// Like `verified_at`, but verifies the image with the given number of threads.
pub fn verified_by<S: Source, R: Threads + Sync>(
    rt: &R,
    alloc: Global,
    threads: u8,
    source: &mut S,
    path: &[u8],
) -> Result<Verified, PlanFault>
    ensures image { IfOk result (λ image. IsImageAt (S.gives source.old) path.now image × IsWellShaped image) }
    ensures read { OnOk result (S.failures source.new ≡ S.failures source.old) }
    ensures refused { let missing = IsMissing (S.gives source.old) (S.fails source.old) (S.failures source.old) (S.failures source.new) in
        IfErr result (λ fault. IsRejected (S.gives source.old) missing path.now fault) }
{
    let image = image_at(alloc, source, path)?;
    match verify_by(rt, alloc, threads, image) {
        Ok(verified) => Ok(verified),
        Err((_, fault)) => Err(printed_verify_fault(alloc, fault)),
    }
}

/// Returns the line `ok EDGES BUDGET`, with the number of edges of an image and its budget.
fn line_of(alloc: Global, verified: &Verified) -> Result<Vec<u8>, AllocError>
    ensures { IfOk result (λ line. line.items ≡ verdict_line verified.now) }
{
    let edges = verified.image().parts().edges.len().to_string(alloc)?;
    let budget = verified.budget().to_string(alloc)?;
    let mut line = Vec::from_slice(alloc, b"ok ")?;
    line.extend_from_slice(edges.as_bytes())?;
    line.push(b' ')?;
    line.extend_from_slice(budget.as_bytes())?;
    line.push(b'\n')?;
    Ok(line)
}

/// Writes `ok`, the number of edges and the budget of the image at a path, and returns the status 0. Then the image is
/// well shaped, and no read and no write failed.
///
/// # Errors
/// - The file is missing or isn't an image, or the image fails a check: the fault has the cause and the place. Nothing
///   is written.
/// - 133 ` -`: a write failed.
/// - 131 or the number of a lower layer: memory ran out. Nothing is written.
pub fn do_verify<S: Source, W: Sink>(
    alloc: Global,
    source: &mut S,
    path: &[u8],
    out: &mut W,
) -> Result<u8, PlanFault>
    ensures done { IfOk result (λ status. (status ≡ 0)
        × Accepts (S.gives source.old) path.now (W.failures out.old, W.taken out.old) (W.failures out.new, W.taken out.new)) }
    ensures read { OnOk result (S.failures source.new ≡ S.failures source.old) }
    ensures refused { let missing = IsMissing (S.gives source.old) (S.fails source.old) (S.failures source.old) (S.failures source.new) in
        IfErr result (λ fault. ((out.new ≡ out.old) × IsRejected (S.gives source.old) missing path.now fault)
        ⊎ FailsToAccept (S.gives source.old) path.now (W.failures out.old, W.taken out.old) (W.failures out.new, W.taken out.new) fault) }
{
    let verified = verified_at(alloc, source, path)?;
    let Ok(failed) = output_fault(alloc) else {
        return Err(no_memory(alloc));
    };
    let Ok(line) = line_of(alloc, &verified) else {
        return Err(no_memory(alloc));
    };
    // The memory isn't freed, since the program ends soon.
    forget(verified);
    match write_all(out, &line) {
        Ok(()) => Ok(0),
        Err(_) => Err(failed),
    }
}
