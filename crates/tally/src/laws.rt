//! Laws of live bytes, for the proofs of callers.

ghost use Rattle.tally.specs.Laws.{KeptIsBoth, OthersStay, OneDies, MoreCount, CompactionKeeps, CompactionLeaves};
ghost use Rattle.tally.specs.Laws.{StonesStay, StonesFall};
ghost use Rattle.tally.specs.Right.{StayRight, LeaveRight, BeginRight, CreateIsRight, ReplaceIsRight};
ghost use Rattle.tally.specs.Right.{CarryIsRight, CompactIsRight};
ghost use Rattle.tally.specs.Fills.{FillsAtOnce};

/// What is kept is what lives and the tombstones.
pub fn kept_is_both()
    ensures { KeptIsBoth }
{}

/// What a put, a delete or a copy makes of live bytes.
pub fn bytes_are_set()
    ensures others { OthersStay }
    ensures one { OneDies }
    ensures more { MoreCount }
{}

/// A compaction changes none.
pub fn bytes_are_compacted()
    ensures keeps { CompactionKeeps }
    ensures leaves { CompactionLeaves }
{}

/// Which tombstones are kept as segments enter the log and leave it.
pub fn stones_are_kept()
    ensures stay { StonesStay }
    ensures fall { StonesFall }
{}

/// Tallies stay right as a log goes on.
pub fn tallies_stay_right()
    ensures stay { StayRight }
    ensures leave { LeaveRight }
    ensures begin { BeginRight }
    ensures create { CreateIsRight }
    ensures replace { ReplaceIsRight }
    ensures carry { CarryIsRight }
    ensures compact { CompactIsRight }
{}

/// What is kept of a segment and fits a survivor fills it at once.
pub fn segments_fill_at_once()
    ensures { FillsAtOnce }
{}
