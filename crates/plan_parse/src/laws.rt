//! Laws about all manifests.

ghost use Rattle.plan_parse.specs.Laws.{FaultsHavePlaces, StatementsAreWhole, StatementsJoin};

use plan_text::lines_join;

/// States that a rule binds its command once, a build line has an explicit or implicit output, and a default
/// has a target.
pub fn statements_are_whole()
    ensures { StatementsAreWhole }
{}

/// States that the statements of two texts, one after the other, are the statements of the concatenated text. A
/// newline must end each line of the first text, and the second must begin with a block. No statement depends
/// on the text before its block.
pub fn statements_join()
    ensures { StatementsJoin }
{
    lines_join();
}

/// States that each fault of a text has an offset: none is a memory fault, or that of an empty path.
pub fn faults_have_places()
    ensures { FaultsHavePlaces }
{}
