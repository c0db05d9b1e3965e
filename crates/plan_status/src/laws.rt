//! Laws about all lines and prints.

ghost use Rattle.plan_status.specs.Live.{EndsStay, FeedStays, FeedsJoin, LineProgressStays, ShownIsFree, UnusedIsFed};
ghost use Rattle.plan_status.specs.Printing.{LinesJoin, PrintsJoin, StopStays};
ghost use Rattle.plan_text.specs.Laws.{FailedWriteStays, WritesJoin};

use plan_text::writes_join;

/// States that the lines of some marks and of others after them are the lines of the former, and then those of the
/// latter, whose count continues that of the former.
pub fn lines_join()
    ensures { LinesJoin }
{}

/// States that what is printed after a text that the sink took is printed of both texts, and that what stopped within a
/// text stopped within each longer one.
pub fn prints_join()
    ensures join { PrintsJoin }
    ensures stopped { StopStays }
{
    writes_join();
}

/// States the laws of `writes_join` and `prints_join`. It has no code.
pub(crate) fn join_laws()
    ensures writes { WritesJoin }
    ensures failed { FailedWriteStays }
    ensures join { PrintsJoin }
    ensures stopped { StopStays }
{
    writes_join();
    prints_join();
}

/// States that what is fed or shown of the marks so far is so of more marks too, that a feed into which nothing was put
/// suits any run, and that no mark is shown after one by which a console edge took its job token, until it releases it.
pub fn marks_may_come()
    ensures fed { FeedStays }
    ensures unused { UnusedIsFed }
    ensures shows { LineProgressStays }
    ensures free { ShownIsFree }
{}

/// States that the ends of a ring stay its ends.
pub fn ends_stay()
    ensures ends { EndsStay }
    ensures joins { FeedsJoin }
{}
