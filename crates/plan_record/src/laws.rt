//! Laws about all entries.

ghost use Rattle.std.specs.Prelude.{List};
ghost use Rattle.plan_record.specs.Compaction.{StandFor};
ghost use Rattle.plan_record.specs.Entries.{EntryData, IsPrefixFree};

/// States that no spelling of an entry is a prefix of another one, so a file of whole entries can be read in
/// only one way.
pub fn entry_law()
    ensures { IsPrefixFree }
{}

/// States that a search for the last entry of an output finds the same entry in the last entries of a record as
/// in the record.
pub fn compaction_law()
    ensures { (entries : List EntryData) → StandFor entries }
{}
