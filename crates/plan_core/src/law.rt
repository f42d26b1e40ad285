ghost use Rattle.std.specs.Prelude.{List, ℕ, Result, Ok};
ghost use Rattle.bd_task.specs.TaskView.{TaskView};
ghost use Rattle.bd_tree.specs.declared.node.Node.{Node};
ghost use Rattle.plan_core.specs.Core.{CoreView, Begins};
ghost use Rattle.plan_core.specs.Law.{MayBegin, Leads, OpensOn, IsLawful};
ghost use Rattle.plan_core.specs.declared.offer.Offer.{Offer};
ghost use Rattle.plan_core.specs.declared.refusal.Refusal.{Refusal};

/// After a core began, and any list of offers with the replies that `Core::offer` promises, want of memory
/// among them: the history is legal from the start tree and replays to the tree; at each place the tree there is
/// sound with at most 4,096 steps and 64 levels, and each of its linearisations is valid; and the cost never rose
/// from place to place.
pub fn offers_judged()
    ensures { (task : TaskView) (start : Node) (stop : ℕ) (core last : CoreView) (steps : List (Offer × Result ℕ Refusal)) →
        MayBegin task start → Begins task start stop (Ok core) → Leads core steps last → OpensOn task start stop last × IsLawful last }
{}
