ghost use Rattle.std.specs.Prelude.{◌≡◌, ◌↔◌, ℕ, List};
ghost use Rattle.bd_task.specs.TaskView.{TaskView};
ghost use Rattle.bd_task.specs.Valid.{cost_of};
ghost use Rattle.task_inputs.specs.declared.answers.Inputs.TheVariants.{Ready};
ghost use Rattle.task_inputs.specs.Inputs.{outcome, IsValidPlan};

/// Three texts are ready exactly where they give a domain, a problem and a valid plan within all limits.
pub fn valid_plans()
    ensures { (domain problem plan : List ℕ) (task : TaskView) (list : List ℕ) (cost : ℕ) → (outcome domain problem plan ≡ Ready task list cost) ↔ (IsValidPlan domain problem plan task list × (cost ≡ cost_of task list)) }
{}
