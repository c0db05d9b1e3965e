//! Verifies that images are well shaped, and defines the behaviour of one edge.
//!
//! - `verify` turns an image into a `Verified` one with its budget. If the image is refused, it returns the
//!   image and a `VerifyFault`: the first check that fails, as a `Refusal`, with its edge and place.
//!   `verify_by` does the same in several threads.
//! - `Value` is a value on an edge's stack or in a slot. `Cause` is the reason why an edge fails. `Shape` is
//!   what the verifier knows about an edge at a place. `MAX_STACK` is the most values on a stack.
//! - The laws are about each edge of a verified image, for the proofs of the crates above. An edge that is run
//!   alone never goes wrong and stays within its budget, and its tables are in range.
//!
//! docs/rules/verifier.md lists the rules.
#![tactic(auto)]

mod arrivals;
mod budget;
mod fault;
mod kinds;
mod laws;
mod pass;
mod place_checks;
mod slot_tree;
mod table_checks;
mod value;
mod verified;

pub use fault::{Refusal, VerifyFault};
pub use kinds::{Kinds, MAX_STACK, Shape};
pub use laws::{
    all_turns_pay, codes_are_short, goes_on_alone, hears_what_suits, instructions_fit,
    never_wrong_alone, questions_ignore_slots, refusals_are_true, replies_are_safe,
    stays_in_budget_alone, stays_typed, steps_are_safe, tables_are_in_range,
    verified_never_goes_wrong,
};
pub use slot_tree::SlotSet;
pub use value::{Cause, PathList, Value, Words};
pub use verified::{Verified, verify, verify_by};
