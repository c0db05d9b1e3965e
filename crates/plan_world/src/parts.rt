//! Parts of a line of /proc, and of a name of a builder.

ghost use Rattle.std.specs.Prelude.{◌≡◌, option_map, slice_get};
ghost use Rattle.plan_world.specs.Parts.{parts_between};

/// Returns the part at a place of a text that has this byte between its parts. None if there are fewer parts.
pub(crate) fn part_at(text: &[u8], between: u8, place: usize) -> Option<&[u8]>
    ensures { option_map (λ part. part.now) result ≡ slice_get (parts_between between text.now) place }
{
    text.split(|byte| *byte == between).nth(place)
}
