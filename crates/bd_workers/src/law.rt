ghost use Rattle.bd_workers.specs.Dry.{QuietRound, QuietIsDone};
ghost use Rattle.bd_workers.specs.Turn.{TurnsRunOut};

/// Where a round gave its pieces and the history didn't grow, the core refuses what was found for each window that stands.
pub fn quiet_rounds()
    ensures { QuietRound }
{}

/// What was found for a window that stands in the tree of an open core can be refused only as too long: so each window of
/// a quiet round is done with, with a true verdict.
pub fn quiet_is_done()
    ensures { QuietIsDone }
{}

/// A turn that goes on added an entry, and the history still has room: so a run of turns ends.
pub fn turns_run_out()
    ensures { TurnsRunOut }
{}
