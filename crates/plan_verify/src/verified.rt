//! Images that are well shaped.

ghost use Rattle.std.specs.Prelude.{◌≡◌, ◌≢◌, IfErr, IfOk, IsOk, OnOk, length};
ghost use Rattle.plan_verify.specs.WellShaped.{IsWellShaped};
ghost use Rattle.plan_verify.specs.Budget.{image_budget};
ghost use Rattle.plan_verify.specs.Verdict.{IsPart, IsVerifyFault};

use crate::budget::image_budget as count_budget;
use crate::fault::VerifyFault;
use crate::pass::{halvings, verify_halves, verify_part};
use crate::place_checks::own_slots_of_all;
use crate::table_checks::refusal_of_all;
use plan_image::Image;
use std::alloc::Global;
use std::marker::Model;
use std::thread::Threads;

/// An image that is well shaped.
#[derive(Drop)]
pub struct Verified {
    image: Image,
    /// The budget, if the verifier computed it.
    budget: Option<u64>,
}

impl Model for Verified {
    ghost use Rattle.plan_image.specs.declared.image.Parts.{Parts};

    ghost Value = { Parts };

    ghost use Rattle.plan_verify.specs.Verdict.{IsVerified};

    ghost view = { λ v. v.image };

    ghost invariant = { λ v. IsVerified v.image v.budget };
}

impl Verified {
    /// Wraps an image that is known to be well shaped, for example by a law of the compiler. The image isn't
    /// checked.
    pub fn of_shaped(image: Image) -> Verified
        requires { IsWellShaped image }
        ensures { result ≡ image }
    {
        Verified {
            image,
            budget: None,
        }
    }

    /// Wraps an image that was verified, with its budget.
    fn with_budget(image: Image, budget: u64) -> Verified
        requires { IsWellShaped image × (budget ≡ image_budget image) }
        ensures { result ≡ image }
    {
        Verified {
            image,
            budget: Some(budget),
        }
    }

    /// Borrows the image, which is well shaped. The laws of this crate state what follows for the crates above.
    pub fn image(&self) -> &Image
        ensures same { result.now ≡ self.now }
        ensures shaped { IsWellShaped self.now }
    {
        &self.image
    }

    /// Returns the most events that all edges together may have, not counting those paid for by recorded and
    /// found paths. Each edge counts 1, each instruction that asks one question counts 2, and each other
    /// instruction counts 1.
    pub fn budget(&self) -> u64
        ensures { result ≡ image_budget self.now }
    {
        match self.budget {
            Some(budget) => budget,
            None => count_budget(&self.image),
        }
    }
}

/// Completes the verdict on each edge by the checks of all edges together.
fn with_tables(image: &Image, budget: Result<u64, VerifyFault>) -> Result<u64, VerifyFault>
    requires { IsPart image.now 0 (length image.now.edges) budget }
    ensures ok { OnOk result (IsWellShaped image.now) }
    ensures budget { IfOk result (λ b. b ≡ image_budget image.now) }
    ensures err { IfErr result (λ f. IsVerifyFault image.now f) }
{
    match budget {
        Ok(budget) => match refusal_of_all(image.parts()) {
            None => Ok(budget),
            Some(refusal) => Err(VerifyFault::Refused(refusal, 0, 0)),
        },
        Err(fault) => Err(fault),
    }
}

/// Returns the budget of an image that is well shaped, or the first check that fails.
fn verify_all(alloc: Global, image: &Image) -> Result<u64, VerifyFault>
    ensures ok { OnOk result (IsWellShaped image.now) }
    ensures budget { IfOk result (λ b. b ≡ image_budget image.now) }
    ensures err { IfErr result (λ f. IsVerifyFault image.now f) }
{
    let owns = own_slots_of_all(alloc, image.parts())?;
    let len = image.parts().edges.len();
    with_tables(image, verify_part(alloc, image, &owns, 0, len))
}

/// Returns the same verdict as `verify_all`, in several threads.
fn verify_all_by<R: Threads + Sync>(
    rt: &R,
    alloc: Global,
    threads: u8,
    image: &Image,
) -> Result<u64, VerifyFault>
    ensures ok { OnOk result (IsWellShaped image.now) }
    ensures budget { IfOk result (λ b. b ≡ image_budget image.now) }
    ensures err { IfErr result (λ f. IsVerifyFault image.now f) }
{
    let owns = own_slots_of_all(alloc, image.parts())?;
    let len = image.parts().edges.len();
    with_tables(
        image,
        verify_halves(rt, alloc, image, &owns, 0, len, halvings(threads)),
    )
}

/// Returns the image with its budget, or the image and its fault.
fn join_verdict(
    image: Image,
    verdict: Result<u64, VerifyFault>,
) -> Result<Verified, (Image, VerifyFault)>
    requires ok { OnOk verdict (IsWellShaped image) }
    requires budget { IfOk verdict (λ b. b ≡ image_budget image) }
    requires err { IfErr verdict (λ f. IsVerifyFault image f) }
    ensures same { IfOk result (λ v. v ≡ image) }
    ensures shaped { IsOk result → IsWellShaped image }
    ensures back { IfErr result (λ e. e.0 ≡ image) }
    ensures fault { IfErr result (λ e. IsVerifyFault image e.1) }
    ensures only { IfErr result (λ e. e.1 ≢ VerifyFault.Memory → IsWellShaped image → ⊥) }
{
    match verdict {
        Ok(budget) => Ok(Verified::with_budget(image, budget)),
        Err(fault) => Err((image, fault)),
    }
}

/// Verifies that an image is well shaped, in one pass over the slots, the edges and their code.
///
/// # Errors
///
/// Returns the image and the first check that fails: edges in ascending order, in each edge its tables before
/// its places, and the checks of all edges together last. Returns `Memory` if memory runs out, whatever the
/// image is.
pub fn verify(alloc: Global, image: Image) -> Result<Verified, (Image, VerifyFault)>
    ensures same { IfOk result (λ v. v ≡ image) }
    ensures shaped { IsOk result → IsWellShaped image }
    ensures back { IfErr result (λ e. e.0 ≡ image) }
    ensures fault { IfErr result (λ e. IsVerifyFault image e.1) }
    ensures only { IfErr result (λ e. e.1 ≢ VerifyFault.Memory → IsWellShaped image → ⊥) }
{
    let verdict = verify_all(alloc, &image);
    join_verdict(image, verdict)
}

/// Verifies an image with the same result as `verify`. The edges are repeatedly split in halves, which are
/// verified in parallel, as long as there are enough threads and edges.
pub fn verify_by<R: Threads + Sync>(
    rt: &R,
    alloc: Global,
    threads: u8,
    image: Image,
) -> Result<Verified, (Image, VerifyFault)>
    ensures same { IfOk result (λ v. v ≡ image) }
    ensures shaped { IsOk result → IsWellShaped image }
    ensures back { IfErr result (λ e. e.0 ≡ image) }
    ensures fault { IfErr result (λ e. IsVerifyFault image e.1) }
    ensures only { IfErr result (λ e. e.1 ≢ VerifyFault.Memory → IsWellShaped image → ⊥) }
{
    let verdict = verify_all_by(rt, alloc, threads, &image);
    join_verdict(image, verdict)
}
