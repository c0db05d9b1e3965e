//! Faults of traces and of their replay, as they are printed.

ghost use Rattle.std.specs.Prelude.{◌≡◌, ◌⊎◌, ◌++◌, IfOk};
ghost use Rattle.std.specs.Fmt.{decimal};
ghost use Rattle.plan_printing.specs.Faults.{no_memory};
ghost use Rattle.plan_commands.specs.Faults as defined;

use plan_machine::Refused;
use plan_printing::{PlanFault, no_memory};
use plan_text::Items;
use std::alloc::{AllocError, Global};

/// Returns the words, followed by the number.
fn with_number(alloc: Global, words: &[u8], number: u64) -> Result<Vec<u8>, AllocError>
    ensures { IfOk result (λ text. text.items ≡ words.now ++ decimal number) }
{
    let digits = number.to_string(alloc)?;
    let mut text = Vec::from_slice(alloc, words)?;
    text.extend_from_slice(digits.as_bytes())?;
    Ok(text)
}

/// Creates the fault that a line of a trace is malformed or not allowed there: 130, with the number of the line.
/// Returns `no_memory` if memory runs out.
pub fn trace_fault(alloc: Global, line: u64) -> PlanFault
    ensures { (result ≡ defined.trace_fault line) ⊎ (result ≡ no_memory) }
{
    match with_number(alloc, b" at line ", line) {
        Ok(rest) => PlanFault {
            number: 130,
            rest: Items::new(rest),
        },
        Err(_) => no_memory(alloc),
    }
}

/// Creates the fault that an event isn't enabled: 110, with the number of the event. Returns `no_memory` if memory runs
/// out.
fn event_fault(alloc: Global, event: u64) -> PlanFault
    ensures { (result ≡ defined.event_fault event) ⊎ (result ≡ no_memory) }
{
    match with_number(alloc, b" at event ", event) {
        Ok(rest) => PlanFault {
            number: 110,
            rest: Items::new(rest),
        },
        Err(_) => no_memory(alloc),
    }
}

/// Converts the reason why events can't be replayed into the fault that is printed. Adds the number of the event if the
/// event isn't enabled. Returns `no_memory` if memory runs out.
pub fn printed_refusal(alloc: Global, event: usize, refused: Refused) -> PlanFault
    ensures { (result ≡ defined.printed_refusal event refused) ⊎ (result ≡ no_memory) }
{
    match refused {
        Refused::NotEnabled => event_fault(alloc, event as u64),
        Refused::Memory | Refused::BadTarget => PlanFault {
            number: refused.number(),
            rest: Items::empty(alloc),
        },
    }
}
