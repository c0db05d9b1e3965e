//! The template of the text before a label.

use plan_printing::{REFUSED, complain};
use plan_progress::unknown_placeholder;
use std::env;
use std::env::VarError;
use std::rt::Env;

/// The template if `NINJA_STATUS` isn't set.
const TEMPLATE: &str = "[%f/%t] ";

/// Returns the value of `NINJA_STATUS`, or ninja's template if it isn't set.
///
/// # Errors
/// The reason as a text, if the value isn't UTF-8 or memory runs out.
fn template_in<R: Env + AllocGlobal>(rt: &R) -> Result<String, &'static [u8]> {
    match env::var(rt, "NINJA_STATUS") {
        Ok(template) => Ok(template),
        Err(VarError::NotUnicode) => Err(b"NINJA_STATUS is not valid UTF-8"),
        Err(VarError::OutOfMemory) => Err(b"out of memory"),
        Err(VarError::NotPresent) => match TEMPLATE.to_string(rt.alloc()) {
            Ok(template) => Ok(template),
            Err(_) => Err(b"out of memory"),
        },
    }
}

/// Reads the template of the text before a label: `NINJA_STATUS`, or `[%f/%t] ` if it isn't set.
///
/// # Errors
/// The exit status if the template can't be read or has an unknown placeholder. The reason is reported on standard
/// error.
pub fn read_template<R: Env + AllocGlobal, E: Print>(rt: &R, errors: &E) -> Result<String, u8> {
    let alloc = rt.alloc();
    let template = match template_in(rt) {
        Ok(template) => template,
        Err(reason) => {
            complain(alloc, errors, &[b"ninja: fatal: ", &*reason, b"\n"]);
            return Err(REFUSED);
        }
    };
    match unknown_placeholder(template.as_bytes()) {
        None => Ok(template),
        Some(byte) => {
            let before = b"ninja: fatal: unknown placeholder '%".as_slice();
            let after = b"' in $NINJA_STATUS\n".as_slice();
            complain(alloc, errors, &[before, [byte].as_slice(), after]);
            Err(REFUSED)
        }
    }
}
