//! Runs images by threads, over a world that replies to the questions of edges.
//!
//! - `World`: files, commands and the record, as a trait. Its rule says which reply may be given to which question.
//!   `Question`: the request of an edge (`OwnedRequest`), with a number. `Journaled`: a world whose runs keep their
//!   journals. `Observing`: a world whose permits have the observations of their edges.
//! - `Board`: a run and its journal, changed by one event at a time. `advance` applies an event that needs no reply,
//!   `answer` applies a reply. `Advance`: the result of an advance. `Permit`: the right to run one command, which it has.
//!   `KeepOrder`: the order to keep one entry. Only a board creates them. `Observed`: the observations of the edge of a
//!   permit, if the world observes edges. `Report`: the state, journal and marks at the end of a run. `lines_are_told`: a
//!   law about the lines of its marks.
//! - `run_lanes`: a whole run by threads. `run_lanes_shown`: a run whose marks go into a feed meanwhile.
//!   `PrintedRun` does the same in two steps, opening and running. `LaneFault`: why a run hasn't ended.
//!
//! docs/rules/lanes.md says how lanes run, and what is promised.
#![tactic(auto)]

mod batch;
mod board;
mod fault;
mod journaled;
mod keeping_of;
mod lanes;
mod observed;
mod observing;
mod printed_run;
mod recalling;
mod run_order;
mod running;
mod shared_run;
mod stamp_row;
mod world;

pub use batch::{OwnedRequest, Question};
pub use board::{Advance, Board, KeepOrder, Permit, Report};
pub use fault::LaneFault;
pub use journaled::Journaled;
pub use lanes::run_lanes;
pub use observed::Observed;
pub use observing::Observing;
pub use printed_run::{PrintedRun, lines_are_told, run_lanes_shown};
pub use recalling::paths_among;
pub use running::commands_keep_to_places;
pub use world::World;
