//! The effects of replies on an edge.

ghost use Rattle.std.specs.Prelude.{◌≡◌, ◌<◌, ◌+◌, ◌^◌, ◌∷◌, [], IfOk, IfSome, IsSome, OnErr, Some, drop, length};
ghost use Rattle.plan_image.specs.declared.body.Instr.TheVariants as op;
ghost use Rattle.plan_verify.specs.Turn.{Goes, Moved, goes, merged, next, replied};
ghost use Rattle.plan_depfile.specs.Faults.{number_of, offset_of};
ghost use Rattle.plan_machine.specs.Depfile.{depfile, or_zero};
ghost use Rattle.plan_machine.specs.Hearing.{IsHeard};
ghost use Rattle.plan_machine.specs.Step.{answer_of};
ghost use Rattle.plan_machine.specs.Working.{IsSweeping, Sweeps, Works};

use crate::edge::active_edge::ActiveEdge;
use crate::edge::turns::Heard;
use crate::event::reply::{Depfile, Recorded, Reply};
use plan_depfile::DepFault;
use plan_image::Instr;
use plan_verify::{Cause, PathList, Value, Words};
use std::alloc::{AllocError, Global};

/// Returns the cause of an edge's failure if its depfile is refused.
fn malformed_cause(fault: DepFault) -> Cause
    ensures { result ≡ Cause.DepfileMalformed (number_of fault) (or_zero (offset_of fault)) }
{
    let offset = match fault.offset() {
        Some(offset) => offset,
        None => 0,
    };
    Cause::DepfileMalformed(fault.number(), offset)
}

impl ActiveEdge {
    /// Pushes a value, and moves to the next place.
    pub(crate) fn push_on(&mut self, value: Value)
        requires place { self.old.place + 1 < 2 ^ 32 }
        requires works { Works (next self.old (value ∷ self.old.stack)) }
        ensures { next self.old (value ∷ self.old.stack) ≡ Goes Moved self.new }
    {
        self.stack.push(value);
        self.place += 1;
        self.asked = false;
    }

    /// Pops a value, and moves to the next place.
    fn drop_on(&mut self)
        requires place { self.old.place + 1 < 2 ^ 32 }
        requires works { Works (next self.old (drop 1 self.old.stack)) }
        ensures { next self.old (drop 1 self.old.stack) ≡ Goes Moved self.new }
    {
        self.stack.discard();
        self.place += 1;
        self.asked = false;
    }

    /// Receives a reply to `Stat`.
    fn hear_stat(&mut self, _file: u32, reply: Reply) -> Heard
        requires place { self.old.place + 1 < 2 ^ 32 }
        requires works { IfSome (replied depfile self.old (op.Stat _file) (answer_of reply)) Works }
        ensures { IsHeard result self.old self.new (replied depfile self.old (op.Stat _file) (answer_of reply)) }
    {
        match reply {
            Reply::Stamp(stamp) => {
                self.push_on(Value::Stamp(stamp));
                Heard::On
            }
            Reply::Fault => Heard::Failed(Cause::StatFault),
            _ => Heard::Unfit,
        }
    }

    /// Receives a stamp that `Need` asked for. Fails if the file is missing.
    fn hear_needed(&mut self, file: u32, stamp: u64) -> Heard
        requires place { self.old.place + 1 < 2 ^ 32 }
        requires works { IfSome (replied depfile self.old (op.Need file) (answer_of (Reply.Stamp stamp))) Works }
        ensures { IsHeard result self.old self.new (replied depfile self.old (op.Need file) (answer_of (Reply.Stamp stamp))) }
    {
        if stamp == 0 {
            return Heard::Failed(Cause::MissingInput(file));
        }
        self.push_on(Value::Stamp(stamp));
        Heard::On
    }

    /// Receives a reply to `Need`.
    fn hear_need(&mut self, file: u32, reply: Reply) -> Heard
        requires place { self.old.place + 1 < 2 ^ 32 }
        requires works { IfSome (replied depfile self.old (op.Need file) (answer_of reply)) Works }
        ensures { IsHeard result self.old self.new (replied depfile self.old (op.Need file) (answer_of reply)) }
    {
        match reply {
            Reply::Stamp(stamp) => self.hear_needed(file, stamp),
            Reply::Fault => Heard::Failed(Cause::StatFault),
            _ => Heard::Unfit,
        }
    }

    /// Receives the exit status of a command. Fails if it isn't 0.
    fn hear_exit(&mut self, code: u8) -> Heard
        requires place { self.old.place + 1 < 2 ^ 32 }
        requires works { IfSome (replied depfile self.old op.Run (answer_of (Reply.Exit code))) Works }
        ensures { IsHeard result self.old self.new (replied depfile self.old op.Run (answer_of (Reply.Exit code))) }
    {
        if code != 0 {
            return Heard::Failed(Cause::Exit(code));
        }
        self.ran = true;
        self.drop_on();
        Heard::On
    }

    /// Receives a reply to `Run`.
    fn hear_run(&mut self, reply: Reply) -> Heard
        requires place { self.old.place + 1 < 2 ^ 32 }
        requires works { IfSome (replied depfile self.old op.Run (answer_of reply)) Works }
        ensures { IsHeard result self.old self.new (replied depfile self.old op.Run (answer_of reply)) }
    {
        match reply {
            Reply::Exit(code) => self.hear_exit(code),
            Reply::Signal => Heard::Failed(Cause::Signal),
            Reply::NotStarted => Heard::Failed(Cause::NotStarted),
            _ => Heard::Unfit,
        }
    }

    /// Pushes the values of a record's entry, and moves to the next place.
    fn entry_on(&mut self, known: bool, command: Words, basis: u64, paths: PathList)
        requires place { self.old.place + 1 < 2 ^ 32 }
        requires works { Works (next self.old (Value.Flag known ∷ Value.Text command ∷ Value.Stamp basis ∷ Value.Paths 0 paths ∷ self.old.stack)) }
        ensures { next self.old (Value.Flag known ∷ Value.Text command ∷ Value.Stamp basis ∷ Value.Paths 0 paths ∷ self.old.stack) ≡ Goes Moved self.new }
    {
        self.stack.push(Value::Paths(0, paths));
        self.stack.push(Value::Stamp(basis));
        self.stack.push(Value::Text(command));
        self.stack.push(Value::Flag(known));
        self.place += 1;
        self.asked = false;
    }

    /// Receives the record's entry for an output.
    fn recall(&mut self, recorded: Recorded) -> Result<Heard, AllocError>
        requires place { self.old.place + 1 < 2 ^ 32 }
        requires works { IfSome (replied depfile self.old op.Recall (answer_of (Reply.Entry recorded))) Works }
        ensures ok { IfOk result (λ r. IsHeard r self.old self.new (replied depfile self.old op.Recall (answer_of (Reply.Entry recorded)))) }
        ensures err { OnErr result (self.new ≡ self.old) }
    {
        let command = recorded.command().copy()?;
        let paths = recorded.paths().copy()?;
        self.entry_on(true, command, recorded.basis(), paths);
        Ok(Heard::On)
    }

    /// Receives the answer that the record has no entry.
    fn recall_nothing(&mut self, alloc: Global) -> Result<Heard, AllocError>
        requires place { self.old.place + 1 < 2 ^ 32 }
        requires works { IfSome (replied depfile self.old op.Recall (answer_of Reply.Nothing)) Works }
        ensures ok { IfOk result (λ r. IsHeard r self.old self.new (replied depfile self.old op.Recall (answer_of Reply.Nothing))) }
        ensures err { OnErr result (self.new ≡ self.old) }
    {
        let command = Words::new(alloc, Vec::new(alloc))?;
        let paths = PathList::empty(alloc)?;
        self.entry_on(false, command, 0, paths);
        Ok(Heard::On)
    }

    /// Receives a reply to `Recall`.
    fn hear_recall(&mut self, alloc: Global, reply: Reply) -> Result<Heard, AllocError>
        requires place { self.old.place + 1 < 2 ^ 32 }
        requires works { IfSome (replied depfile self.old op.Recall (answer_of reply)) Works }
        ensures ok { IfOk result (λ r. IsHeard r self.old self.new (replied depfile self.old op.Recall (answer_of reply))) }
        ensures fits { OnErr result (IsSome (replied depfile self.old op.Recall (answer_of reply))) }
        ensures err { OnErr result (self.new ≡ self.old) }
    {
        match reply {
            Reply::Entry(recorded) => self.recall(recorded),
            Reply::Nothing => self.recall_nothing(alloc),
            Reply::Fault => Ok(Heard::Failed(Cause::RecordFault)),
            _ => Ok(Heard::Unfit),
        }
    }

    /// Pops the three values that were stored in the record, and moves to the next place.
    fn kept_on(&mut self)
        requires place { self.old.place + 1 < 2 ^ 32 }
        requires works { Works (next self.old (drop 3 self.old.stack)) }
        ensures { next self.old (drop 3 self.old.stack) ≡ Goes Moved self.new }
    {
        self.stack.discard();
        self.stack.discard();
        self.stack.discard();
        self.place += 1;
        self.asked = false;
    }

    /// Receives a reply to `Keep`.
    fn hear_keep(&mut self, reply: Reply) -> Heard
        requires place { self.old.place + 1 < 2 ^ 32 }
        requires works { IfSome (replied depfile self.old op.Keep (answer_of reply)) Works }
        ensures { IsHeard result self.old self.new (replied depfile self.old op.Keep (answer_of reply)) }
    {
        match reply {
            Reply::Kept => {
                self.kept_on();
                Heard::On
            }
            Reply::Fault => Heard::Failed(Cause::RecordFault),
            _ => Heard::Unfit,
        }
    }

    /// Replaces the depfile's name on the stack by paths, and moves to the next place.
    fn paths_on(&mut self, paths: PathList)
        requires place { self.old.place + 1 < 2 ^ 32 }
        requires works { Works (next self.old (Value.Paths 0 paths ∷ drop 1 self.old.stack)) }
        ensures { next self.old (Value.Paths 0 paths ∷ drop 1 self.old.stack) ≡ Goes Moved self.new }
    {
        self.stack.discard();
        self.stack.push(Value::Paths(0, paths));
        self.place += 1;
        self.asked = false;
    }

    /// Receives a depfile. Fails if the depfile is refused.
    fn hear_bytes(&mut self, alloc: Global, file: Depfile) -> Result<Heard, AllocError>
        requires place { self.old.place + 1 < 2 ^ 32 }
        requires works { IfSome (replied depfile self.old op.Deps (answer_of (Reply.Bytes file))) Works }
        ensures ok { IfOk result (λ r. IsHeard r self.old self.new (replied depfile self.old op.Deps (answer_of (Reply.Bytes file)))) }
        ensures err { OnErr result (self.new ≡ self.old) }
    {
        match file.result(alloc)? {
            Ok(paths) => {
                self.paths_on(paths);
                Ok(Heard::On)
            }
            Err(fault) => Ok(Heard::Failed(malformed_cause(fault))),
        }
    }

    /// Receives the answer that there is no depfile, and continues without paths.
    fn no_bytes(&mut self, alloc: Global) -> Result<Heard, AllocError>
        requires place { self.old.place + 1 < 2 ^ 32 }
        requires works { IfSome (replied depfile self.old op.Deps (answer_of Reply.Nothing)) Works }
        ensures ok { IfOk result (λ r. IsHeard r self.old self.new (replied depfile self.old op.Deps (answer_of Reply.Nothing))) }
        ensures err { OnErr result (self.new ≡ self.old) }
    {
        let paths = PathList::empty(alloc)?;
        self.paths_on(paths);
        Ok(Heard::On)
    }

    /// Receives a reply to `Deps`.
    fn hear_deps(&mut self, alloc: Global, reply: Reply) -> Result<Heard, AllocError>
        requires place { self.old.place + 1 < 2 ^ 32 }
        requires works { IfSome (replied depfile self.old op.Deps (answer_of reply)) Works }
        ensures ok { IfOk result (λ r. IsHeard r self.old self.new (replied depfile self.old op.Deps (answer_of reply))) }
        ensures fits { OnErr result (IsSome (replied depfile self.old op.Deps (answer_of reply))) }
        ensures err { OnErr result (self.new ≡ self.old) }
    {
        match reply {
            Reply::Bytes(file) => self.hear_bytes(alloc, file),
            Reply::Nothing => self.no_bytes(alloc),
            Reply::Fault => Ok(Heard::Failed(Cause::DepfileFault)),
            _ => Ok(Heard::Unfit),
        }
    }

    /// Merges the stamp of a swept path.
    pub(crate) fn merge(&mut self, stamp: u64)
        requires sweeping { IsSweeping self.old.stack }
        requires works { Works (goes self.old self.old.place (merged stamp self.old.stack)) }
        ensures { goes self.old self.old.place (merged stamp self.old.stack) ≡ Goes Moved self.new }
    {
        let (swept, paths) = self.stack.pop_paths();
        let _len = paths.len();
        let missing = self.stack.pop_flag();
        let newest = self.stack.pop_stamp();
        self.stack.push(Value::Stamp(newest.max(stamp)));
        self.stack.push(Value::Flag(missing || stamp == 0));
        self.stack.push(Value::Paths(swept + 1, paths));
        self.asked = false;
    }

    /// Receives a reply to `Sweep`.
    fn hear_sweep(&mut self, reply: Reply) -> Heard
        requires sweeping { IsSweeping self.old.stack }
        requires works { IfSome (replied depfile self.old op.Sweep (answer_of reply)) Works }
        ensures { IsHeard result self.old self.new (replied depfile self.old op.Sweep (answer_of reply)) }
    {
        match reply {
            Reply::Stamp(stamp) => {
                self.merge(stamp);
                Heard::On
            }
            Reply::Fault => Heard::Failed(Cause::StatFault),
            _ => Heard::Unfit,
        }
    }

    /// Receives a reply at an instruction.
    pub(crate) fn hear_at(
        &mut self,
        alloc: Global,
        instr: Instr,
        reply: Reply,
    ) -> Result<Heard, AllocError>
        requires place { self.old.place + 1 < 2 ^ 32 }
        requires sweeps { Sweeps instr self.old.stack }
        requires works { IfSome (replied depfile self.old instr (answer_of reply)) Works }
        ensures ok { IfOk result (λ r. IsHeard r self.old self.new (replied depfile self.old instr (answer_of reply))) }
        ensures fits { OnErr result (IsSome (replied depfile self.old instr (answer_of reply))) }
        ensures err { OnErr result (self.new ≡ self.old) }
    {
        match instr {
            Instr::Stat(file) => Ok(self.hear_stat(file, reply)),
            Instr::Need(file) => Ok(self.hear_need(file, reply)),
            Instr::Recall => self.hear_recall(alloc, reply),
            Instr::Sweep => Ok(self.hear_sweep(reply)),
            Instr::Run => Ok(self.hear_run(reply)),
            Instr::Deps => self.hear_deps(alloc, reply),
            Instr::Keep => Ok(self.hear_keep(reply)),
            _ => Ok(Heard::Unfit),
        }
    }
}
