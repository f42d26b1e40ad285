ghost use Rattle.std.specs.Prelude.{◌≡◌, ◌<◌, List, ℕ, length, None, IsTrue, ◌↔◌};
ghost use Rattle.std.specs.List.{AllByRecursion};
ghost use Rattle.bd_task.specs.TaskView.{TaskView};
ghost use Rattle.bd_task.specs.Valid.{IsValid};
ghost use Rattle.bd_tree.specs.Chain.{chain_of};
ghost use Rattle.bd_tree.specs.declared.node.Node.{Node};
ghost use Rattle.bd_links.specs.Sound.{IsSound, AreThere, RunsAlways, are_below, first_fault};

/// Each linearisation of a sound tree is valid.
pub fn linearisations_run()
    ensures { (task : TaskView) (root : Node) → IsTrue (are_below (length task.actions) root) → IsSound task root → RunsAlways task root }
{}

/// A tree has no first fault exactly where it is sound.
pub fn faultless_where_sound()
    ensures { (task : TaskView) (root : Node) → (first_fault task root ≡ None) ↔ IsSound task root }
{}

/// The chain of a list is sound exactly where the list is valid.
pub fn chains_run()
    ensures { (task : TaskView) (list : List ℕ) → AreThere task list → IsSound task (chain_of list) ↔ IsValid task list }
{}

/// Where the actions of a list are below a number, so are those of its chain.
pub fn chains_fit()
    ensures { (n : ℕ) (list : List ℕ) → AllByRecursion (λ a. a < n) list → IsTrue (are_below n (chain_of list)) }
{}
