//! Faults of the compiler, as they are printed.

ghost use Rattle.std.specs.Prelude.{◌≡◌};
ghost use Rattle.plan_commands.specs.Faults as defined;

use plan_compile::CompileFault;
use plan_printing::PlanFault;
use plan_text::Items;
use std::alloc::Global;

/// Converts the reason why a manifest has no image into the fault that is printed.
pub fn printed_compile_fault(alloc: Global, fault: CompileFault) -> PlanFault
    ensures { result ≡ defined.printed_compile_fault fault }
{
    PlanFault {
        number: fault.number(),
        rest: Items::empty(alloc),
    }
}
