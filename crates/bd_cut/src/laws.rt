ghost use Rattle.std.specs.Prelude.{List, ℕ};
ghost use Rattle.bd_task.specs.TaskView.{TaskView};
ghost use Rattle.bd_cut.specs.Cut.{AreRelevant, IsCut, renumbered_kind};
ghost use Rattle.bd_search.specs.Verdict.{IsTrueVerdict};
ghost use Rattle.bd_search.specs.declared.verdict.Kind.{Kind};

/// A true verdict on a task cut down to its relevant facts is one on the whole task.
pub fn cutting_keeps_verdicts()
    ensures { (task cut : TaskView) (relevant numbers : List ℕ) (bound nodes : ℕ) (kind : Kind) → AreRelevant task relevant → IsCut task cut relevant numbers →
        IsTrueVerdict cut bound nodes kind → IsTrueVerdict task bound nodes (renumbered_kind numbers kind) }
{}
