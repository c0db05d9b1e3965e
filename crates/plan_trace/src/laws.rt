//! Laws about all traces.

ghost use Rattle.plan_trace.specs.Laws.{AreReadAgain, AreSpelledOnce};

/// States that a text that is read as a trace is that trace's spelling, so no trace has two spellings.
pub fn traces_are_spelled_once()
    ensures { AreSpelledOnce }
{}

/// States that the spelling of a trace is read as that trace, if its numbers fit their types. If `write_trace`
/// has written a trace completely, `read_trace` returns the same trace.
pub fn traces_are_read_again()
    ensures { AreReadAgain }
{}
