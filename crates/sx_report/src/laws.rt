// What the numbers of a report mean.
ghost use Rattle.std.specs.Prelude.{◌≡◌, ◌<◌, ◌+◌, ℕ, List, slice_get};
ghost use Rattle.sx_lists.specs.Places.{following, numbered};
ghost use Rattle.sx_log.specs.declared.record.Rec.{Rec};
ghost use Rattle.sx_journal.specs.declared.entry.Entry.{Entry};

/// A range of the journal counts as its printed lines do: of the entries behind the first `from`, the one at an index has
/// the number behind both.
pub fn entries_of_a_range_are_numbered()
    ensures { (newest : List Entry) (from n index : ℕ) → index < n → slice_get (following newest from n) index ≡ numbered newest (from + index + 1) }
{}

/// A range of the log counts in the same way.
pub fn records_of_a_range_are_numbered()
    ensures { (newest : List Rec) (from n index : ℕ) → index < n → slice_get (following newest from n) index ≡ numbered newest (from + index + 1) }
{}
