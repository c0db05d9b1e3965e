//! The words of a tool.

ghost use Rattle.std.specs.Prelude.{◌≡◌};
ghost use Rattle.plan_build_tools.specs.Cleaning.{has};

use crate::tool::Tool;
use plan_options::{operands, option_letters};
use plan_printing::{REFUSED, complain, say, status_after};
use plan_text::Memory;
use std::alloc::Global;
use std::rt::Clock;

const CLEAN_USAGE: &[u8] = b"usage: ninja -t clean [options] [targets]

options:
  -g     also clean files marked as ninja generator output
  -r     interpret targets as a list of rules to clean instead
";

const COMMANDS_USAGE: &[u8] = b"usage: ninja -t commands [options] [targets]

options:
  -s     only print the final command to build [target], not the whole chain
";

const COMPILATION_DATABASE_USAGE: &[u8] = b"usage: ninja -t compdb [options] [rules]

options:
  -x     expand @rspfile style response file invocations
";

const TARGETS_USAGE: &[u8] = b"usage: ninja -t targets [all | rule [NAME] | depth [N]]
";

impl Tool {
    /// Returns the letters of the tool's options, except `h`.
    fn letters(self) -> &'static [u8] {
        match self {
            Tool::Clean => b"gr",
            Tool::Commands => b"s",
            Tool::CompilationDatabase => b"x",
            Tool::Targets
            | Tool::Recompact
            | Tool::Restat
            | Tool::CleanDead
            | Tool::Explain
            | Tool::List => b"",
        }
    }

    /// Returns the usage text of the tool.
    fn usage(self) -> &'static [u8] {
        match self {
            Tool::Clean => CLEAN_USAGE,
            Tool::Commands => COMMANDS_USAGE,
            Tool::CompilationDatabase => COMPILATION_DATABASE_USAGE,
            Tool::Targets => TARGETS_USAGE,
            Tool::Recompact => b"usage: ninja -t recompact\n",
            Tool::Restat => b"usage: ninja -t restat [outputs]\n",
            Tool::CleanDead => b"usage: ninja -t cleandead\n",
            Tool::Explain => b"usage: ninja -t explain [targets]\n",
            Tool::List => b"usage: ninja -t list\n",
        }
    }

    /// Checks whether the tool takes words that aren't options.
    fn takes_names(self) -> bool {
        !matches!(self, Tool::Recompact | Tool::CleanDead | Tool::List)
    }
}

/// The request of a command line for a tool.
#[derive(Drop)]
pub struct Request<'a> {
    /// The tool.
    pub tool: Tool,
    /// The letters of the options. The tool has them all.
    letters: Vec<u8>,
    /// The words that aren't options.
    pub names: Vec<&'a [u8]>,
}

impl Request<'_> {
    /// Checks whether the option with a letter is given.
    pub fn has(&self, letter: u8) -> bool
        ensures { result ≡ has self.now.letters.items letter }
    {
        self.letters.contains(&letter)
    }
}

/// Reads the words after `-t TOOL`. The words of `targets` aren't read as options, because a depth may be below 0. Only
/// `-h` as its first word is an option.
fn read_request<'a>(alloc: Global, tool: Tool, words: &[&'a [u8]]) -> Result<Request<'a>, Memory> {
    let mut names = Vec::new(alloc);
    if tool != Tool::Targets {
        return Ok(Request {
            tool,
            letters: option_letters(alloc, words)?,
            names: operands(alloc, words)?,
        });
    }
    names.extend_from_slice(words)?;
    let asks_for_help = words.first() == Some(&b"-h".as_slice());
    let letters: &[u8] = if asks_for_help { b"h" } else { b"" };
    Ok(Request {
        tool,
        letters: Vec::from_slice(alloc, letters)?,
        names,
    })
}

/// Returns the first letter for which the tool does nothing: `h`, or an option that it lacks. None if there is none.
fn stop_in(request: &Request<'_>) -> Option<u8> {
    for letter in &request.letters {
        if !request.tool.letters().contains(letter) {
            return Some(*letter);
        }
    }
    None
}

/// Prints the usage of a tool, and returns the exit status. If the letter isn't `h`, first reports it as invalid.
fn show_usage<R: Print + Clock + AllocGlobal, E: Print>(
    rt: &R,
    errors: &E,
    tool: Tool,
    letter: u8,
) -> u8 {
    if letter != b'h' {
        let alloc = rt.alloc();
        let name = tool.name();
        complain(
            alloc,
            errors,
            &[name, b": invalid option -- '", &[letter], b"'\n"],
        );
    }
    status_after(say(rt, errors, &[tool.usage()]), REFUSED)
}

/// Reports that a tool doesn't take a word.
fn refuse_name<'a, E: Print>(alloc: Global, errors: &E, tool: &'a [u8], name: &'a [u8]) {
    complain(
        alloc,
        errors,
        &[
            b"ninja: error: -t ",
            &*tool,
            b" takes no word '",
            &*name,
            b"'\n",
        ],
    );
}

/// Reads the words after `-t TOOL`, and refuses words that the tool doesn't take.
///
/// # Errors
/// The exit status if the tool does nothing. The usage or the reason was printed.
pub fn request_in<'a, R: Print + Clock + AllocGlobal, E: Print>(
    rt: &R,
    errors: &E,
    tool: Tool,
    words: &[&'a [u8]],
) -> Result<Request<'a>, u8> {
    let alloc = rt.alloc();
    let Ok(request) = read_request(alloc, tool, words) else {
        complain(alloc, errors, &[b"ninja: fatal: out of memory\n"]);
        return Err(REFUSED);
    };
    if let Some(letter) = stop_in(&request) {
        return Err(show_usage(rt, errors, tool, letter));
    }
    if let ([name, ..], false) = (request.names.as_slice(), tool.takes_names()) {
        refuse_name(alloc, errors, tool.name(), name);
        return Err(REFUSED);
    }
    Ok(request)
}
