ghost use Rattle.std.specs.Prelude.{ℕ, List};
ghost use Rattle.bd_window.specs.Law.{FamilyStands, HullsAreShapes};
ghost use Rattle.bd_tree.specs.declared.node.Node.{Node};

/// Each window of the family stands in the tree.
pub fn family_stands()
    ensures { (width : ℕ) (root : Node) → FamilyStands width root }
{}

/// The hull of two positions has the kids of the hull that bd_shape tells by ids.
pub fn hulls_are_shapes()
    ensures { (own : ℕ) (kids : List Node) (order : List (ℕ × ℕ)) (i j : ℕ) (a b : Node) → HullsAreShapes own kids order i j a b }
{}
