//! A command line, and the meaning of all of its arguments together.

ghost use Rattle.std.specs.Prelude.{◌≡◌, ◌-◌, ◌^◌, IfOk, map, option_map};
ghost use Rattle.plan_options.specs.Reading as reading;
ghost use Rattle.plan_options.specs.Saying as defined;
ghost use Rattle.plan_options.specs.Integers.{integer_in};
ghost use Rattle.plan_options.specs.Commands as commands;

use crate::argument::{Argument, Flag, Setting};
use crate::command::{Build, Command, Mode, Reasons};
use crate::integer::{Integer, integer_in};
use crate::reader::arguments;
use crate::stop::stop_of;
use plan_text::Memory;
use std::alloc::Global;
use std::marker::Model;

/// The arguments of a command line, in their order. Contracts see them as a list.
#[derive(Drop)]
pub struct CommandLine {
    arguments: Vec<Argument>,
}

impl Model for CommandLine {
    ghost use Rattle.std.specs.Prelude.{List};
    ghost use Rattle.plan_options.specs.declared.argument.Argument.{Argument as One};

    ghost Value = { List One };

    ghost view = { λ l. l.arguments.items };
}

/// The greatest number of commands that may run at once.
const MOST_JOBS: u32 = 1024;

/// Returns the number of commands that a value of `-j` allows at once, at most 1,024. The value 0 allows 1,024. Returns
/// `None` if the value isn't a number from 0 on.
fn jobs_of(value: &[u8]) -> Option<u16>
    ensures { result ≡ defined.jobs_of (integer_in 1024 value.now) }
{
    match integer_in(value, MOST_JOBS) {
        Some(Integer::AtLeastZero(0)) => Some(MOST_JOBS as u16),
        Some(Integer::AtLeastZero(number)) => Some(number as u16),
        _ => None,
    }
}

/// Checks whether a value of `-j` allows more than 1,024 commands at once, as 0 does.
fn exceeds(value: &[u8]) -> bool
    ensures { result ≡ defined.exceeds (integer_in 1025 value.now) }
{
    match integer_in(value, MOST_JOBS + 1) {
        Some(Integer::AtLeastZero(number)) => number == 0 || number > MOST_JOBS,
        _ => false,
    }
}

/// Returns the number of failures that a value of `-k` allows. 0 and negative values mean any number, for which it
/// returns 0. Returns 1 if the value isn't a number.
fn failures_of(value: &[u8]) -> u32
    ensures { result ≡ defined.failures_of (integer_in (2 ^ 32 - 1) value.now) }
{
    match integer_in(value, u32::MAX) {
        Some(Integer::AtLeastZero(number)) => number,
        Some(Integer::Negative) => 0,
        None => 1,
    }
}

/// Returns the first argument at which ninja ends, or `None` if there is none.
fn first_stop(arguments: &[Argument]) -> Option<&Argument>
    ensures { option_map (λ a. a.now) result ≡ defined.first_stop arguments.now }
{
    for at in 0..arguments.len() {
        if stop_of(&arguments[at]).is_some() {
            return Some(&arguments[at]);
        }
    }
    None
}

/// Returns the value that an argument gives to an option, or `None` if it gives none.
fn value_of(argument: &Argument, setting: Setting) -> Option<&[u8]>
    ensures { option_map (λ v. v.now) result ≡ defined.value_of setting argument.now }
{
    match argument {
        Argument::Setting(own, value) => {
            if own.letter() == setting.letter() {
                Some(value.as_slice())
            } else {
                None
            }
        }
        _ => None,
    }
}

/// Returns the last value of an option, or `None` if no argument gives one.
fn last_value(arguments: &[Argument], setting: Setting) -> Option<&[u8]>
    ensures { option_map (λ v. v.now) result ≡ defined.last_value setting arguments.now }
{
    let mut last = None;
    for at in 0..arguments.len() {
        let value = value_of(&arguments[at], setting);
        if value.is_some() {
            last = value;
        }
    }
    last
}

/// Returns the flag of an argument that is `-v` or `--quiet`, or `None` for another argument.
fn verbosity_of(argument: &Argument) -> Option<Flag>
    ensures { result ≡ defined.verbosity_of argument.now }
{
    match argument {
        Argument::Flag(Flag::Verbose) => Some(Flag::Verbose),
        Argument::Flag(Flag::Quiet) => Some(Flag::Quiet),
        _ => None,
    }
}

/// Returns the last of `-v` and `--quiet`, or `None` if neither is there.
fn last_verbosity(arguments: &[Argument]) -> Option<Flag>
    ensures { result ≡ defined.verbosity arguments.now }
{
    let mut last = None;
    for at in 0..arguments.len() {
        let flag = verbosity_of(&arguments[at]);
        if flag.is_some() {
            last = flag;
        }
    }
    last
}

/// Checks whether an argument is `-d explain`.
fn is_explain(argument: &Argument) -> bool
    ensures { result ≡ defined.is_explain argument.now }
{
    match argument {
        Argument::Setting(Setting::Mode, value) => value.as_slice() == b"explain".as_slice(),
        _ => false,
    }
}

/// Checks whether one of these arguments is `-d explain`.
fn has_explain(arguments: &[Argument]) -> bool
    ensures { result ≡ defined.is_explained arguments.now }
{
    for at in 0..arguments.len() {
        if is_explain(&arguments[at]) {
            return true;
        }
    }
    false
}

/// Checks whether an argument is `-d keepdepfile`.
fn is_keepdepfile(argument: &Argument) -> bool
    ensures { result ≡ defined.is_keepdepfile argument.now }
{
    match argument {
        Argument::Setting(Setting::Mode, value) => value.as_slice() == b"keepdepfile".as_slice(),
        _ => false,
    }
}

/// Checks whether one of these arguments is `-d keepdepfile`.
fn has_keepdepfile(arguments: &[Argument]) -> bool
    ensures { result ≡ defined.keeps_depfiles arguments.now }
{
    for at in 0..arguments.len() {
        if is_keepdepfile(&arguments[at]) {
            return true;
        }
    }
    false
}

/// Checks whether an argument is `-n`.
fn is_dry(argument: &Argument) -> bool
    ensures { result ≡ defined.is_dry argument.now }
{
    matches!(argument, Argument::Flag(Flag::DryRun))
}

/// Checks whether one of these arguments is `-n`.
fn has_dry(arguments: &[Argument]) -> bool
    ensures { result ≡ defined.is_dry_run arguments.now }
{
    for at in 0..arguments.len() {
        if is_dry(&arguments[at]) {
            return true;
        }
    }
    false
}

/// Returns the targets among arguments.
fn targets_in(alloc: Global, arguments: &[Argument]) -> Result<Vec<&[u8]>, Memory>
    ensures { IfOk result (λ names. map (λ n. n.now) names.items ≡ defined.targets arguments.now) }
{
    let mut names = Vec::new(alloc);
    for at in 0..arguments.len() {
        if let Argument::Target(name) = &arguments[at] {
            names.push(name.as_slice())?;
        }
    }
    Ok(names)
}

/// Returns the words of the tool among arguments.
fn tool_words_in(alloc: Global, arguments: &[Argument]) -> Result<Vec<&[u8]>, Memory>
    ensures { IfOk result (λ words. map (λ w. w.now) words.items ≡ defined.tool_words arguments.now) }
{
    let mut words = Vec::new(alloc);
    for at in 0..arguments.len() {
        if let Argument::ToolWord(word) = &arguments[at] {
            words.push(word.as_slice())?;
        }
    }
    Ok(words)
}

/// Returns the command of the last tool that a command line names.
fn command_of_tool(name: &[u8]) -> Command<'_>
    ensures { commands.asks_of result ≡ commands.of_tool name.now }
{
    if name == b"explain".as_slice() {
        return Command::Build(Build::Explain);
    }
    Command::Tool(name)
}

impl CommandLine {
    /// Reads the words after a program's name.
    ///
    /// # Errors
    /// `Memory` if memory runs out.
    pub fn read(alloc: Global, words: &[&[u8]]) -> Result<CommandLine, Memory>
        ensures { IfOk result (λ l. l ≡ reading.reading (map (λ w. w.now) words.now)) }
    {
        Ok(CommandLine {
            arguments: arguments(alloc, words)?,
        })
    }

    /// Returns the arguments in their order.
    pub fn arguments(&self) -> &[Argument]
        ensures { result.now ≡ self.now }
    {
        &self.arguments
    }

    /// Returns the first argument at which ninja ends, or `None` if it goes on.
    pub fn stop(&self) -> Option<&Argument>
        ensures { option_map (λ a. a.now) result ≡ defined.first_stop self.now }
    {
        first_stop(self.arguments())
    }

    /// Returns the last value of an option, or `None` if it isn't there.
    pub fn value(&self, setting: Setting) -> Option<&[u8]>
        ensures { option_map (λ v. v.now) result ≡ defined.last_value setting self.now }
    {
        last_value(self.arguments(), setting)
    }

    /// Returns the last of `-v` and `--quiet`, or `None` if neither is there.
    pub fn verbosity(&self) -> Option<Flag>
        ensures { result ≡ defined.verbosity self.now }
    {
        last_verbosity(self.arguments())
    }

    /// Checks whether `-d explain` is there. Then the reason is shown why each command runs.
    pub fn is_explained(&self) -> bool
        ensures { result ≡ defined.is_explained self.now }
    {
        has_explain(self.arguments())
    }

    /// Checks whether `-d keepdepfile` is there. Then depfiles stay when they were read.
    pub fn keeps_depfiles(&self) -> bool
        ensures { result ≡ defined.keeps_depfiles self.now }
    {
        has_keepdepfile(self.arguments())
    }

    /// Checks whether `-n` is there. No command may run then, and nothing may be changed.
    pub fn is_dry_run(&self) -> bool
        ensures { result ≡ defined.is_dry_run self.now }
    {
        has_dry(self.arguments())
    }

    /// Returns the mode in which the targets are built.
    fn mode(&self) -> Mode
        ensures { result ≡ commands.mode_in self.now }
    {
        if self.is_dry_run() {
            Mode::Dry
        } else {
            Mode::Real
        }
    }

    /// Checks whether reasons are shown while the targets are built.
    fn reasons(&self) -> Reasons
        ensures { result ≡ commands.reasons_in self.now }
    {
        if self.is_explained() {
            Reasons::Shown
        } else {
            Reasons::Hidden
        }
    }

    /// Returns what the command line asks for. An argument at which ninja ends counts before all others, and a tool
    /// before targets.
    pub fn command(&self) -> Command<'_>
        ensures { commands.asks_of result ≡ commands.asks_in self.now }
    {
        match self.stop() {
            Some(argument) => Command::Stop(argument),
            None => match self.value(Setting::Tool) {
                Some(name) => command_of_tool(name),
                None => Command::Build(Build::Targets(self.mode(), self.reasons())),
            },
        }
    }

    /// Returns the number of commands that may run at once, 1 to 1,024. Returns `None` if no `-j` gives it.
    pub fn jobs(&self) -> Option<u16>
        ensures { result ≡ defined.jobs self.now }
    {
        match self.value(Setting::Jobs) {
            Some(value) => jobs_of(value),
            None => None,
        }
    }

    /// Checks whether `-j` allows more commands at once than can run: more than 1,024, or any number.
    pub fn exceeds_jobs(&self) -> bool
        ensures { result ≡ defined.exceeds_jobs self.now }
    {
        match self.value(Setting::Jobs) {
            Some(value) => exceeds(value),
            None => false,
        }
    }

    /// Returns the number of failures after which no more commands start. 0 means any number. Returns 1 if no `-k`
    /// gives it.
    pub fn failures(&self) -> u32
        ensures { result ≡ defined.failures (2 ^ 32 - 1) self.now }
    {
        match self.value(Setting::Failures) {
            Some(value) => failures_of(value),
            None => 1,
        }
    }

    /// Returns the targets in their order.
    ///
    /// # Errors
    /// `Memory` if memory runs out.
    pub fn targets(&self, alloc: Global) -> Result<Vec<&[u8]>, Memory>
        ensures { IfOk result (λ names. map (λ n. n.now) names.items ≡ defined.targets self.now) }
    {
        targets_in(alloc, self.arguments())
    }

    /// Returns the words of the tool in their order.
    ///
    /// # Errors
    /// `Memory` if memory runs out.
    pub fn tool_words(&self, alloc: Global) -> Result<Vec<&[u8]>, Memory>
        ensures { IfOk result (λ words. map (λ w. w.now) words.items ≡ defined.tool_words self.now) }
    {
        tool_words_in(alloc, self.arguments())
    }
}
