//! Faults of reading and verifying images, as they are printed.

ghost use Rattle.std.specs.Prelude.{◌≡◌, ◌⊎◌, IfOk};
ghost use Rattle.plan_printing.specs.Faults.{no_memory};
ghost use Rattle.plan_commands.specs.Faults as defined;

use plan_image::ImageFault;
use plan_printing::{PlanFault, no_memory};
use plan_text::Items;
use plan_verify::VerifyFault;
use std::alloc::{AllocError, Global};

/// Returns ` at OFFSET`, or an empty text if there is no offset.
fn at_offset(alloc: Global, offset: Option<u64>) -> Result<Vec<u8>, AllocError>
    ensures { IfOk result (λ text. text.items ≡ defined.at_offset offset) }
{
    let Some(offset) = offset else {
        return Ok(Vec::new(alloc));
    };
    let digits = offset.to_string(alloc)?;
    let mut text = Vec::from_slice(alloc, b" at ")?;
    text.extend_from_slice(digits.as_bytes())?;
    Ok(text)
}

/// Converts the reason why bytes aren't an image into the fault that is printed. Returns `no_memory` if memory runs
/// out.
pub fn printed_image_fault(alloc: Global, fault: ImageFault) -> PlanFault
    ensures { (result ≡ defined.printed_image_fault fault) ⊎ (result ≡ no_memory) }
{
    match at_offset(alloc, fault.offset()) {
        Ok(rest) => PlanFault {
            number: fault.number(),
            rest: Items::new(rest),
        },
        Err(_) => no_memory(alloc),
    }
}

/// Returns ` at edge EDGE place PLACE`, or an empty text if one of the two is missing.
fn at_edge(alloc: Global, edge: Option<u32>, place: Option<u32>) -> Result<Vec<u8>, AllocError>
    ensures { IfOk result (λ text. text.items ≡ defined.at_edge edge place) }
{
    let (Some(edge), Some(place)) = (edge, place) else {
        return Ok(Vec::new(alloc));
    };
    let edge = edge.to_string(alloc)?;
    let place = place.to_string(alloc)?;
    let mut text = Vec::from_slice(alloc, b" at edge ")?;
    text.extend_from_slice(edge.as_bytes())?;
    text.extend_from_slice(b" place ")?;
    text.extend_from_slice(place.as_bytes())?;
    Ok(text)
}

/// Converts the reason why an image can't be run into the fault that is printed. Returns `no_memory` if memory runs
/// out.
pub fn printed_verify_fault(alloc: Global, fault: VerifyFault) -> PlanFault
    ensures { (result ≡ defined.printed_verify_fault fault) ⊎ (result ≡ no_memory) }
{
    match at_edge(alloc, fault.edge(), fault.place()) {
        Ok(rest) => PlanFault {
            number: fault.number(),
            rest: Items::new(rest),
        },
        Err(_) => no_memory(alloc),
    }
}
