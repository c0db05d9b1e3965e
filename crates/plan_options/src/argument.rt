//! The parts of a command line.

use plan_text::Items;

/// An option without a value.
#[derive(Clone, Copy, PartialEq, Eq)]
pub enum Flag {
    /// `-h`, `--help`: print the options.
    Help,
    /// `--version`: print the version.
    Version,
    /// `-v`, `--verbose`: show whole command lines.
    Verbose,
    /// `--quiet`: show only what commands print.
    Quiet,
    /// `-n`: run no command. It isn't supported.
    DryRun,
    /// `--about`: say what this program is. ninja doesn't have it.
    About,
}

/// An option with a value.
#[derive(Clone, Copy, PartialEq, Eq)]
pub enum Setting {
    /// `-C DIR`: the folder to work in.
    Folder,
    /// `-f FILE`: the manifest.
    Manifest,
    /// `-j N`: how many commands may run at once.
    Jobs,
    /// `-k N`: after how many failures no more commands start.
    Failures,
    /// `-l N`: the load average above which no more commands start.
    Load,
    /// `-d MODE`: a debugging mode.
    Mode,
    /// `-t TOOL`: a tool to run instead of a build. The words after it are the tool's.
    Tool,
    /// `-w FLAG`: the treatment of a warning.
    Warning,
}

/// The reason why a word isn't understood.
#[derive(Drop)]
pub enum Misuse {
    /// No option has this letter.
    UnknownLetter(u8),
    /// No long option begins with this word.
    UnknownName(Items<u8>),
    /// More than one long option begins with this word.
    Ambiguous(Items<u8>),
    /// The word gives a value, as `--quiet=1`, to an option that takes none.
    TakesNoValue(Flag),
    /// The option is the last word, and its value is missing.
    NeedsValue(Setting),
}

/// One option, target or word of a tool.
#[derive(Drop)]
pub enum Argument {
    /// An option without a value.
    Flag(Flag),
    /// An option and its value.
    Setting(Setting, Items<u8>),
    /// The name of a target.
    Target(Items<u8>),
    /// A word after `-t TOOL`.
    ToolWord(Items<u8>),
    /// A word that isn't understood. It is the last argument: the words after it aren't read.
    Misuse(Misuse),
}
