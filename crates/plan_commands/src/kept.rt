//! What a build keeps of its manifest.

ghost use Rattle.plan_scope.specs.Sound.{IsSound};

use crate::explaining::{Explainer, keep_to_explain};
use plan_lanes::World;
use plan_scope::Manifest;
use std::alloc::{AllocError, Global};

/// Returns whether each edge of a manifest has `restat`.
fn restat_flags(alloc: Global, manifest: &Manifest) -> Result<Vec<bool>, AllocError> {
    let mut flags = Vec::new(alloc);
    for number in 0..manifest.edges.len() {
        flags.push(manifest.edges.edge(number).has_restat())?;
    }
    Ok(flags)
}

/// Returns how many of these edges have the flag.
fn count_flagged(flags: &[bool], edges: &[u32]) -> u64 {
    let mut count: u64 = 0;
    for edge in edges {
        if flags.get(*edge as usize) == Some(&true) {
            count = count.saturating_add(1);
        }
    }
    count
}

/// What is kept of the manifest that was read last.
#[derive(Drop)]
pub(crate) struct Kept {
    /// What explains its commands. None if no command is explained.
    explainer: Option<Explainer>,
    /// Whether each of its edges has `restat`. Only a dry build keeps it.
    restat: Option<Vec<bool>>,
    is_dry: bool,
}

impl Kept {
    /// Returns what is kept before a manifest is read. `is_dry` says whether the build is dry.
    pub(crate) fn new(is_dry: bool) -> Kept {
        Kept {
            explainer: None,
            restat: None,
            is_dry,
        }
    }

    /// Keeps what the build needs of a manifest, instead of what it kept of the one before. Without memory for it,
    /// nothing is explained, and no edge counts as one with `restat`.
    pub(crate) fn keep<W: World>(&mut self, alloc: Global, manifest: Manifest)
        requires { IsSound manifest }
    {
        if self.is_dry {
            self.restat = restat_flags(alloc, &manifest).ok();
        }
        keep_to_explain::<W>(alloc, manifest, &mut self.explainer);
    }

    /// Returns what explains the commands, if they are explained.
    pub(crate) fn explainer(&self) -> Option<&Explainer> {
        self.explainer.as_ref()
    }

    /// Returns how many of these edges have `restat`. An edge counts as often as it is named.
    pub(crate) fn count_restat(&self, edges: &[u32]) -> u64 {
        match &self.restat {
            Some(flags) => count_flagged(flags, edges),
            None => 0,
        }
    }
}
