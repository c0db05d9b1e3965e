//! Laws about the images of all manifests.
ghost use Rattle.plan_compile.specs.Faithful.{ImageIsFaithful, ManifestsAreSound, OneAssignment};
ghost use Rattle.plan_compile.specs.Refusals.{ImageIsSpelled};
ghost use Rattle.plan_compile.specs.Told.{ImageIsShaped, ImageIsLaidOut, ImageKeepsToRule, ImageMeans, LayoutsAreFacts};
ghost use Rattle.plan_compile.specs.Loaded.{InputsAreLoaded};

use crate::laws::{command_means, command_shaped, phony_means, phony_shaped};
use plan_graph::{defaults_ascend, files_complete, producers_waited, ranks_rise, waits_ascend};
use plan_image::split_law;

/// States that a manifest that has a graph is sound: the files of its edges are in the table, no file is
/// produced twice, and ranks ascend along waits.
pub fn manifests_are_sound()
    ensures { ManifestsAreSound }
{
    files_complete();
    producers_waited();
    ranks_rise();
    waits_ascend();
    defaults_ascend();
}

/// States that the image has the manifest's edges with their labels, pools, waits and ranks, its files, and its
/// defaults. Each of its bodies is used by an edge, no two bodies are equal, and they are in the order of first
/// use.
pub fn image_is_faithful()
    ensures { ImageIsFaithful }
{}

/// States that an edge sets for an output the slots that each edge with this input reads.
pub fn one_assignment()
    ensures { OneAssignment }
{}

/// States that each edge, run alone with the values that its waits left, follows the out-of-date rule, applied
/// to the facts of the manifest.
pub fn image_means()
    ensures { ImageMeans }
{
    split_law();
    command_means();
    phony_means();
}

/// States that the layout of an edge with a command means, in the image, the facts of the manifest's edge that
/// the out-of-date rule is applied to.
pub fn layouts_are_facts()
    ensures { LayoutsAreFacts }
{}

/// States that the code of an edge with a command loads the stamp and the flag of each named input that another edge
/// makes.
pub fn inputs_are_loaded()
    ensures { InputsAreLoaded }
{
    split_law();
}

/// States that the replies of an edge that ran by itself follow the out-of-date rule, applied to the facts of
/// the manifest, and that the edge will follow the rest of the rule.
pub fn image_keeps_to_rule()
    ensures { ImageKeepsToRule }
{
    image_means();
}

/// States that the slots of an edge's outputs are its own, and that the slots of a named input that another
/// edge produces belong to an edge that is waited for.
pub fn image_is_laid_out()
    ensures { ImageIsLaidOut }
{}

/// States that the image is well shaped: the verifier accepts it unless memory runs out.
pub fn image_is_shaped()
    ensures { ImageIsShaped }
{
    split_law();
    command_shaped();
    phony_shaped();
}

/// States that the image of a manifest that has a graph has a spelling, unless it exceeds a limit of images.
/// Waits and defaults ascend, and each edge has a body with one operand for each open instruction.
pub fn image_is_spelled()
    ensures { ImageIsSpelled }
{
    split_law();
    waits_ascend();
    defaults_ascend();
}
