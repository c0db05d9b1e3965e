//! What lines read from an image. What isn't there is empty.

ghost use Rattle.std.specs.Prelude.{◌≡◌};
ghost use Rattle.plan_verify.specs.Tables.{first_path, first_output, outputs_of, path_of};
ghost use Rattle.plan_machine.specs.Total.{has_command};
ghost use Rattle.plan_status.specs.Consoles.{is_console};
ghost use Rattle.plan_status.specs.Lines.{label_of};
ghost use Rattle.plan_status.specs.Outcomes.{or_empty};

use plan_image::{Image, Sort};
use plan_status::in_console;

/// Returns the path of a file.
pub(crate) fn path_of(image: &Image, file: u32) -> &[u8]
    ensures { result.now ≡ or_empty (path_of image.now file) }
{
    match image.parts().files.get(file as usize) {
        Some(path) => path,
        None => &[],
    }
}

/// Returns the files that an edge makes.
pub(crate) fn outputs_of(image: &Image, edge: u32) -> &[u32]
    ensures { result.now ≡ outputs_of image.now edge }
{
    match image.parts().edges.get(edge as usize) {
        Some(edge) => edge.outputs,
        None => &[],
    }
}

/// Returns the path of the first of these files.
fn first_path<'a>(image: &'a Image, files: &[u32]) -> &'a [u8]
    ensures { result.now ≡ or_empty (first_path image.now files.now) }
{
    match files {
        [first, ..] => path_of(image, *first),
        [] => &[],
    }
}

/// Returns the path of an edge's first output.
pub(crate) fn first_output(image: &Image, edge: u32) -> &[u8]
    ensures { result.now ≡ or_empty (first_output image.now edge) }
{
    first_path(image, outputs_of(image, edge))
}

/// Returns the label of an edge.
pub(crate) fn label_of(image: &Image, edge: u32) -> &[u8]
    ensures { result.now ≡ or_empty (label_of image.now edge) }
{
    let parts = image.parts();
    match parts.edges.get(edge as usize) {
        Some(edge) => match parts.texts.get(edge.label as usize) {
            Some(label) => label,
            None => &[],
        },
        None => &[],
    }
}

/// Checks whether an edge is a console edge.
pub(crate) fn is_console(image: &Image, edge: u32) -> bool
    ensures { result ≡ is_console image.now edge }
{
    in_console(image.parts(), edge)
}

/// Checks whether an edge has a command.
pub(crate) fn has_command(image: &Image, edge: u32) -> bool
    ensures { result ≡ has_command image.now edge }
{
    match image.parts().edges.get(edge as usize) {
        Some(edge) => matches!(edge.sort, Sort::Command),
        None => false,
    }
}
