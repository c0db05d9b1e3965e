//! The command of an edge.

ghost use Rattle.std.specs.Prelude.{◌≡◌, IfOk, None};
ghost use Rattle.plan_status.specs.Outcomes.{or_empty};
ghost use Rattle.plan_progress.specs.Command as defined;

use plan_image::{CodeView, Image, Instr};
use std::alloc::AllocError;

/// Checks whether an instruction runs a command.
fn is_run(instr: Instr) -> bool
    ensures { result ≡ defined.is_run instr }
{
    match instr {
        Instr::Run => true,
        _ => false,
    }
}

/// Returns the text that an instruction pushes.
fn text_pushed(instr: Instr) -> Option<u32>
    ensures { result ≡ defined.text_pushed instr }
{
    match instr {
        Instr::Text(text) => Some(text),
        _ => None,
    }
}

/// Returns the text that is pushed right before the first instruction that runs a command.
///
/// # Errors
/// `AllocError` if there are too many instructions. An image has fewer.
fn text_before_run(code: &CodeView<'_>) -> Result<Option<u32>, AllocError>
    ensures { IfOk result (λ text. text ≡ defined.text_before_run None code.now) }
{
    let mut last = None;
    for place in 0..u32::MAX {
        match code.instr(place) {
            None => return Ok(None),
            Some(instr) => {
                if is_run(instr) {
                    return Ok(last);
                }
                last = text_pushed(instr);
            }
        }
    }
    Err(AllocError)
}

/// Returns this text of an image. Empty if it isn't there.
fn text_at(image: &Image, text: Option<u32>) -> &[u8]
    ensures { result.now ≡ or_empty (defined.text_at image.now text) }
{
    match text {
        Some(text) => match image.parts().texts.get(text as usize) {
            Some(text) => text,
            None => &[],
        },
        None => &[],
    }
}

/// Returns the command of an edge. Empty if it has none.
pub(crate) fn command_of(image: &Image, edge: u32) -> Result<&[u8], AllocError>
    ensures { IfOk result (λ text. text.now ≡ or_empty (defined.command_of image.now edge)) }
{
    let code = image.edge_code(edge);
    match text_before_run(&code) {
        Ok(text) => Ok(text_at(image, text)),
        Err(fault) => Err(fault),
    }
}
