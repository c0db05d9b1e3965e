//! Laws that hold for all manifests.

ghost use Rattle.plan_scope.specs.Laws.{ExtendedIsSound, ExtendedRunsTheSame, LoadedManifestsAreSound, ManifestsAreSound, TreesAreWhole};

use crate::tree::source::Source;
use plan_parse::statements_are_whole;
use plan_text::canonical_stays;

/// Proves that a manifest is sound if each of its build lines has an output. Each edge then has an output, its paths
/// are canonical and within their limit, its texts are within theirs, its pool is declared, and it runs nothing if it
/// is phony. The names of pools differ, and their depths are within their limit.
pub fn manifests_are_sound()
    ensures { ManifestsAreSound }
{
    canonical_stays();
}

/// Proves that each build line of a tree that is loaded from a source has an output, in whatever state the source is.
pub fn trees_are_whole<S: Source>()
    ensures { (source : S) → TreesAreWhole (S.gives source) (S.fails source) }
{
    statements_are_whole();
}

/// Proves that the manifest of a tree that is loaded from a source is sound.
pub fn loaded_manifests_are_sound<S: Source>()
    ensures { (source : S) → LoadedManifestsAreSound (S.gives source) (S.fails source) }
{
    trees_are_whole::<S>();
    manifests_are_sound();
}

/// Proves that a sound manifest stays sound if the paths that are added to its edges are outputs of its edges, or
/// canonical and within their limit.
pub fn extended_is_sound()
    ensures { ExtendedIsSound }
{}

/// Proves that additions change neither the number of edges nor their commands: each edge differs at most in its
/// implicit outputs and inputs and its order-only inputs.
pub fn extended_runs_the_same()
    ensures { ExtendedRunsTheSame }
{}
