//! Handmade images and events, for the tests of plan_machine.
//!
//! - `make_sample` creates an image with an edge for each `SampleEdge`. `RUNS` is the code of an edge that runs a
//!   command. `image_of` and `three` create images with one pool, of edges such as `RUNNING`.
//! - `Plain` is an event that can be copied. `run_of` lists the plain events of a run, `events_of` and `event_of`
//!   convert plain events, and `depfile` creates a reply. `ran` and `left_by` run events and return the result, `Left`.
//!
//! No contract describes the images: `verify` accepts them, and the tests check how they run.

mod events;
mod making;

pub use events::{
    Left, Plain, READS, RUNNING, depfile, event_of, events_of, image_of, left_by, ran, run_of,
    three,
};
pub use making::{RUNS, SampleEdge, make_sample};
