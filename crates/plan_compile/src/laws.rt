//! Laws about the code of every edge, and about the out-of-date rules.
ghost use Rattle.plan_compile.specs.Laws.{CommandMeans, CommandShaped, PhonyMeans, PhonyShaped, RunsKeepToRule};
ghost use Rattle.plan_compile.specs.Stricter.{ChangesAreSeen, StricterIsNoLaxer, UnchangedIsClean};

/// States that the code of a command edge, run alone with any slots that its waits may have left, follows the
/// out-of-date rule. It asks the questions of the rule, runs its command if the rule says so, fails only by a
/// reply, and ends.
pub fn command_means()
    ensures { CommandMeans }
{}

/// States that the code of each sort of phony follows the out-of-date rule.
pub fn phony_means()
    ensures { PhonyMeans }
{}

/// States that the replies to an edge of any sort lead along the questions of the rule, and that the edge will
/// follow the rest of the rule.
pub fn runs_keep_to_rule()
    ensures { RunsKeepToRule }
{}

/// States that the verifier accepts the code of a command edge if it accepts the edge's tables.
pub fn command_shaped()
    ensures { CommandShaped }
{}

/// States that the verifier accepts the code of each sort of phony if it accepts the edge's tables.
pub fn phony_shaped()
    ensures { PhonyShaped }
{}

/// States that an edge that is dirty by the specified out-of-date rule is dirty by the stricter one.
pub fn stricter_is_no_laxer()
    ensures { StricterIsNoLaxer }
{}

/// States that, by the stricter rule, an edge that is neither restat nor a generator is dirty if a named input
/// or a recorded path is later than the basis of its entry, whatever stamps its outputs have.
pub fn changes_are_seen()
    ensures { ChangesAreSeen }
{}

/// States that an edge is clean by both rules if its command and the newest of its inputs and paths are those
/// of its entry, no input changed, no file is missing, and no output is older than the inputs and the paths.
pub fn unchanged_is_clean()
    ensures { UnchangedIsClean }
{}
