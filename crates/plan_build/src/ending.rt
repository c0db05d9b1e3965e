//! Lines on how a build ended.

ghost use Rattle.std.specs.Prelude.{◌≡◌};
ghost use Rattle.plan_commands.specs.Building.{exit_status};

use plan_commands::{Done, Listed};
use plan_printing::{complain, complain_of, digits_in, say, status_after};
use plan_progress::Counts;
use std::alloc::{AllocError, Global};
use std::rt::Clock;

/// ninja's words for a manifest that is still dirty after 100 tries.
const TRIES: &[u8] = b"100 tries, perhaps system time is not set";

/// Returns ninja's reason for a build in which `failed` edges failed. `allowed` is the value of `-k`: the number of
/// failures that stops the build, or 0 if any number is allowed.
fn failure_text(allowed: u32, failed: u64) -> &'static [u8] {
    if allowed == 0 || failed < u64::from(allowed) {
        return b"cannot make progress due to previous errors";
    }
    match allowed {
        1 => b"subcommand failed",
        _ => b"subcommands failed",
    }
}

/// The edges of a build that failed, and those that were tried.
#[derive(Clone, Copy)]
pub struct Tally {
    /// The number of edges that failed.
    pub failed: u64,
    /// The number of edges that started, or failed for another reason than a missing source.
    pub tried: u64,
}

/// The tally of a build that ran nothing.
pub const NOTHING: Tally = Tally {
    failed: 0,
    tried: 0,
};

/// Returns the tally of these counts.
pub fn tally_of(counts: Counts) -> Tally {
    Tally {
        failed: counts.failed,
        tried: counts.tried,
    }
}

/// Prints that a build stopped. Prints nothing if nothing ran, because only sources are missing.
fn say_stopped<R: Print + Clock + AllocGlobal, E: Print>(
    rt: &R,
    errors: &E,
    reason: &'static [u8],
    tried: u64,
) {
    if tried > 0 {
        let _ = say(rt, errors, &[b"ninja: build stopped: ", reason, b".\n"]);
    }
}

/// Reports that a manifest can't be brought up to date, because a command failed or because it is still dirty after all
/// tries.
fn refuse_manifest<E: Print>(
    alloc: Global,
    errors: &E,
    manifest: &[u8],
    reason: &'static [u8],
    never_settles: bool,
) {
    if never_settles {
        let before = b"ninja: error: manifest '";
        complain_of(
            alloc,
            errors,
            before,
            manifest,
            b"' still dirty after ",
            TRIES,
        );
    } else {
        complain_of(
            alloc,
            errors,
            b"ninja: error: rebuilding '",
            manifest,
            b"': ",
            reason,
        );
    }
}

/// Checks whether commands may run that a dry build didn't list: it listed one with `restat`, and found an edge of the
/// last run up to date, or listed commands before that run. `counts` are the counts of the last run.
pub fn may_run_others(listed: Listed, counts: Counts) -> bool {
    listed.restat > 0 && (counts.clean > 0 || listed.commands > counts.finished)
}

/// Returns the note on listed commands with `restat`, after their number.
fn restat_note(restat: u64) -> &'static [u8] {
    if restat == 1 {
        return b" of these commands has restat: if it changes its outputs, more commands may run\n";
    }
    b" of these commands have restat: if they change their outputs, more commands may run\n"
}

/// Reports on standard error that commands may run that aren't listed, because this many of the listed ones have
/// `restat`.
pub fn note_restat<E: Print>(alloc: Global, errors: &E, restat: u64) {
    let digits: Result<String, AllocError> = restat.to_string(alloc);
    let note = restat_note(restat);
    complain(alloc, errors, &[b"ninja: note: ", digits_in(&digits), note]);
}

/// Prints that there is nothing to do, and returns the exit status: 0, or 1 if the line can't be written.
pub fn no_work<R: Print + Clock + AllocGlobal, E: Print>(rt: &R, errors: &E) -> u8 {
    status_after(say(rt, errors, &[b"ninja: no work to do.\n"]), 0)
}

/// Prints how the build of a manifest ended, in ninja's words. `allowed` is the value of `-k`. Returns the exit status
/// of the build, or 1 if `no work to do` can't be written. That failure is reported on standard error.
pub fn end_build<R: Print + Clock + AllocGlobal, E: Print>(
    rt: &R,
    errors: &E,
    manifest: &[u8],
    allowed: u32,
    tally: Tally,
    done: Done,
) -> u8
    ensures { result ≡ 0 → exit_status done ≡ 0 }
{
    let status = done.status();
    let reason = failure_text(allowed, tally.failed);
    match done {
        Done::Built => status,
        Done::UpToDate => status_after(say(rt, errors, &[b"ninja: no work to do.\n"]), status),
        Done::Failed => {
            say_stopped(rt, errors, reason, tally.tried);
            status
        }
        Done::ManifestFails => {
            refuse_manifest(rt.alloc(), errors, manifest, reason, false);
            status
        }
        Done::NeverSettles => {
            refuse_manifest(rt.alloc(), errors, manifest, reason, true);
            status
        }
    }
}
