ghost use Rattle.std.specs.Prelude.{List, ℕ};
ghost use Rattle.bd_task.specs.TaskView.{TaskView};
ghost use Rattle.bd_cut.specs.Cut.{AreRelevant, IsCut};
ghost use Rattle.bd_relevant.specs.Values.{HasTheRest, KeepsTheRest, KeepsValues};

/// A cut task has the relaxed values of the whole task, in each state that has the facts that were cut off and are used.
pub fn cutting_keeps_values()
    ensures { (task cut : TaskView) (relevant numbers s : List ℕ) → IsCut task cut relevant numbers → HasTheRest task relevant s → KeepsValues task cut relevant numbers s }
{}

/// The facts that were cut off and are used are true at the start, and stay true where kept actions lead.
pub fn the_rest_stays()
    ensures { (task : TaskView) (relevant : List ℕ) → AreRelevant task relevant → KeepsTheRest task relevant }
{}
