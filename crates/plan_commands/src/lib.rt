//! The commands of plan_ninja, for any files, outputs and worlds. A command that is refused returns a `PlanFault` of
//! plan_printing.
//!
//! - `do_commands`, `do_compile`, `do_verify`, `do_dump`, `do_replay`, `do_compare`: read from sources, write to a
//!   sink, and return the exit status.
//! - `do_run`: runs an image in a world.
//! - `do_build`: brings a manifest up to date, and builds its targets in a world. `do_dry_build`: runs no commands, and
//!   counts those that it listed (`Listed`). Both show their runs through a `Printer`: a format, and the sink for its
//!   texts.
//! - `build_is_right`, `idle_builds_are_right`, `idle_builds_run_nothing`: laws about the edges of a manifest when its
//!   build ends.
//!
//! docs/using/running.md, docs/rules/replay.md and docs/rules/manifest.md have the rules one by one.
#![tactic(auto)]

mod building;
mod commands;
mod comparing;
mod compile_fault;
mod compiling;
mod depfiles;
mod dry;
mod explaining;
mod foreign;
mod idle;
mod image_fault;
mod images;
mod kept;
mod laws;
mod others;
mod printed_runs;
mod recorded;
mod recorded_image;
mod remade;
mod replay_fault;
mod replaying;
mod running;
mod source_order;
mod sources;
mod targets;

pub use building::{Done, Order, do_build};
pub use commands::do_commands;
pub use comparing::{Compared, do_compare};
pub use compiling::do_compile;
pub use dry::{Listed, do_dry_build};
pub use images::{do_dump, do_verify};
pub use laws::{build_is_right, idle_builds_are_right, idle_builds_run_nothing};
pub use printed_runs::Printer;
pub use replaying::do_replay;
pub use running::{Build, do_run};
