//! The values of calls. A fault of a library has no `Debug`, so `?` can't turn it into the failure of a test.

ghost use Rattle.std.specs.Prelude.{IfOk, Ok, ◌≡◌};

use std::test::Fail;

/// Returns the value of an outcome.
///
/// # Errors
/// The failure of the test, if the outcome is a fault. It doesn't say which fault.
pub(crate) fn value_of<T, E: Drop>(outcome: Result<T, E>) -> Result<T, Fail>
    ensures { IfOk result (λ value. outcome ≡ Ok value) }
{
    match outcome {
        Ok(value) => Ok(value),
        Err(_) => Err(Fail::new("a call of a library returned a fault")),
    }
}
