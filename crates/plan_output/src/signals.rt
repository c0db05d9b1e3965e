//! The line that says which signal ended a command.

ghost use Rattle.std.specs.Prelude.{◌≡◌};
ghost use Rattle.plan_output.specs.Signals.{signal_line};

/// Returns the line that says which signal ended a command, such as `ended by SIGSEGV` for 11, with a line feed. The
/// numbers are those of Linux on x86-64 (signal(7)). The line of a number without a name is `ended by a signal`.
///
/// That the line follows the command's output is this project's own choice.
pub fn signal_line(signal: u8) -> &'static [u8]
    ensures { result.now ≡ signal_line signal }
{
    match signal {
        1 => b"ended by SIGHUP\n",
        2 => b"ended by SIGINT\n",
        3 => b"ended by SIGQUIT\n",
        4 => b"ended by SIGILL\n",
        5 => b"ended by SIGTRAP\n",
        6 => b"ended by SIGABRT\n",
        7 => b"ended by SIGBUS\n",
        8 => b"ended by SIGFPE\n",
        9 => b"ended by SIGKILL\n",
        10 => b"ended by SIGUSR1\n",
        11 => b"ended by SIGSEGV\n",
        12 => b"ended by SIGUSR2\n",
        13 => b"ended by SIGPIPE\n",
        14 => b"ended by SIGALRM\n",
        15 => b"ended by SIGTERM\n",
        16 => b"ended by SIGSTKFLT\n",
        24 => b"ended by SIGXCPU\n",
        25 => b"ended by SIGXFSZ\n",
        26 => b"ended by SIGVTALRM\n",
        27 => b"ended by SIGPROF\n",
        29 => b"ended by SIGIO\n",
        30 => b"ended by SIGPWR\n",
        31 => b"ended by SIGSYS\n",
        _ => b"ended by a signal\n",
    }
}
