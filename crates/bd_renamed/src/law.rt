ghost use Rattle.std.specs.Prelude.{ℕ, List};
ghost use Rattle.bd_renamed.specs.Alike.{FreeIdsDontTell, IdsDontTell};
ghost use Rattle.bd_task.specs.TaskView.{TaskView};
ghost use Rattle.bd_tree.specs.declared.node.Node.{Node};

/// A tree with other ids passes the link check where the tree does, and has its depth, its steps, their ordered pairs and its
/// listed linearisation. Ids may even become the same.
pub fn ids_dont_tell()
    ensures { (task : TaskView) (root : Node) (f : ℕ → ℕ) → IdsDontTell task root f }
{}

/// Whether two sides of a block can be unordered, and the tree that comes of it but for its ids, don't hang on the free ids
/// that the groups get.
pub fn free_ids_dont_tell()
    ensures { (task : TaskView) (root : Node) (block : ℕ) (left right : List ℕ) (next later : ℕ) → FreeIdsDontTell task root block left right next later }
{}
