//! The real world of a running image: files, commands and the build record.
//!
//! - `RealWorld`: stamps of files, commands run by `/bin/sh`, depfiles, and a record file that is open.
//! - `Disk`: looks at files, and reads depfiles. `SystemDisk`: the files of the system.
//! - `Shells`: starts the shells of commands and waits for them. `SystemShells`: the shells of the system.
//!   `PermittedShell`: the shell of a permitted command, the only kind that is started.
//! - `OpenFault`: why a record can't be opened.
//! - `recompact`, `restat`, `recorded_outputs`, `recorded_paths`: rewrite or list a record between builds.
//!   `ReadingMode`: whether a list waits for a build.
//! - `take_over`: moves the entries of some outputs to a new record.
//! - `SharedFile`: a file with a lock, such as the record's file. `VARIABLE` names the builders above a command.
//! - `Process`, `all_processes`, `own_process`, `with_below`: the processes of the system.
//!
//! docs/rules/world.md has the rules one by one.
#![tactic(auto)]

mod askable;
mod begins;
mod builder_lock;
mod circles;
mod depfile;
mod disk;
mod ended_entries;
mod fault;
mod holders;
mod maintenance;
mod manifest_paths;
mod ninja_deps;
mod ninja_file;
mod ninja_log;
mod ninja_runs;
mod opening;
mod parts;
mod permitted_shell;
mod processes;
mod read_depfiles;
mod reasons;
mod recalling;
mod record_file;
mod record_sink;
mod replacing;
mod restating;
mod rewriting;
mod running_shells;
mod shell;
mod stamp;
mod taking_over;
mod waiting;
mod world;

pub use builder_lock::{SharedFile, VARIABLE};
pub use disk::{Disk, ModificationTime, SystemDisk};
pub use fault::OpenFault;
pub use maintenance::{ReadingMode, recompact, recorded_outputs, recorded_paths, restat};
pub use permitted_shell::PermittedShell;
pub use processes::{Process, all_processes, own_process, with_below};
pub use shell::{Printed, Shells, SystemShells};
pub use taking_over::take_over;
pub use world::RealWorld;

#[cfg(test)]
mod tests;
