//! Says why an edge is out of date.
//!
//! - `reason_for` returns the first reason and the observations (`Finding`), by the layout of an edge, by the slots
//!   that its code loads (`LentSlots`), and by the replies that the edge got before its command.
//! - These are its steps: `facts_by` returns what the reasons need to know of the edge (`Facts`), `observe` what it
//!   observed (`Observed`), and `first_reason` the first reason by both.
//! - `Reason` is a reason. `sentence` says it in words (`Names`).
//! - The laws are about the definitions. There is a reason exactly if the edge is dirty (`reasons_are_causes`), the
//!   first reason holds (`reasons_hold`), replies are what was observed (`replies_are_observed`), and an edge that asks
//!   to run its command has a reason (`commands_have_reasons`).
//!
//! docs/rules/out-of-date.md has the rule.
#![tactic(auto)]

mod facts;
mod finding;
mod laws;
mod lent;
mod observed;
mod observing;
mod reason;
mod sentences;

pub use facts::{Facts, NamedInput};
pub use finding::{Finding, first_reason, reason_for};
pub use laws::{commands_have_reasons, reasons_are_causes, reasons_hold, replies_are_observed};
pub use lent::{LentSlots, facts_by};
pub use observed::Observed;
pub use observing::observe;
pub use reason::Reason;
pub use sentences::{Names, sentence};
