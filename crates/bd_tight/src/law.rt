ghost use Rattle.std.specs.Prelude.{◌≡◌, ◌≢◌, ◌↔◌, ◌+◌, ◌*◌, ◌<◌, ◌≤◌, true, false, not, ◌&&◌, ◌||◌, List, [], ℕ, Bool, Some, slice_get};
ghost use Rattle.bd_base.specs.Facts.{has};
ghost use Rattle.bd_base.specs.Pairs.{is_before, without_pair};
ghost use Rattle.bd_task.specs.TaskView.{TaskView};
ghost use Rattle.bd_tree.specs.declared.node.Node.{Node, Block};
ghost use Rattle.bd_tree.specs.Misfit.{leads_to};
ghost use Rattle.bd_tree.specs.Tree.{id_of, find_in, depth_of, steps_of, pairs_of, ids_of, greatest};
ghost use Rattle.bd_tree.specs.WellFormed.{IsWellFormed, has_orders};
ghost use Rattle.bd_links.specs.Effects.{Kid};
ghost use Rattle.bd_links.specs.Faults.{block_fault};
ghost use Rattle.bd_links.specs.Sound.{IsSound, effects_of, first_fault, summary_of};
ghost use Rattle.bd_shape.specs.Unordered.{CanUnorder, unordered};
ghost use Rattle.bd_tight.specs.Candidates.{IsCandidate, IsTight, candidates};
ghost use Rattle.bd_tight.specs.declared.gain.Gain.{Gain};
ghost use Rattle.bd_task.specs.declared.ground.Action.{Action};
ghost use Rattle.bd_shape.specs.Grouped.{CanGroup, grouped};
ghost use Rattle.bd_shape.specs.Tightened.{both_grouped};
ghost use Rattle.bd_tight.specs.Faulted.{fault_along, fault_among};
ghost use Rattle.bd_tight.specs.Judged.{AreJudged, comes_to_need, judged, kid_row, touch_at};
ghost use Rattle.bd_tight.specs.Path.{Frame, filled, is_certain};
ghost use Rattle.bd_reason.specs.Reasons.{reasons_at, reasons_of};
ghost use Rattle.bd_tight.specs.Touch.{IsSoundFor, row_fine, row_of, standing_of, stays_fine};

/// A tree is sound exactly where it is sound for each fact alone.
pub fn facts_apart()
    ensures { (task : TaskView) (root : Node) → IsSound task root ↔ ((p : ℕ) → IsSoundFor task root p) }
{}

/// Where two kids of a block have no reason, a sound tree stays sound without their ordering.
pub fn reasonless_go()
    ensures { (task : TaskView) (root : Node) (block i j : ℕ) → IsWellFormed root → CanUnorder root block i j → IsSound task root → reasons_at task.actions block i j root ≡ [] → IsSound task (unordered root block i j) }
{}

/// A sound tree stays sound without the ordering of two kids exactly where each fact that is a reason of the two is
/// judged so, in the block and up its ancestors.
pub fn pairs_judged()
    ensures { (task : TaskView) (way : List Frame) (block : ℕ) (kids : List Node) (order : List (ℕ × ℕ)) (a b : ℕ) (first second : Node) →
        slice_get kids a ≡ Some first → slice_get kids b ≡ Some second → has_orders (filled way (Block block kids order)) ≡ true → is_before order a b ≡ true → IsSound task (filled way (Block block kids order)) →
        IsSound task (filled way (Block block kids (without_pair a b order))) ↔ AreJudged task way kids order (a, first) (b, second) }
{}

/// Without the ordering of two kids a tree has fewer ordered step pairs by the product of their steps.
pub fn pairs_counted()
    ensures { (task : TaskView) (root : Node) (block : ℕ) (kids : List Node) (order : List (ℕ × ℕ)) → IsWellFormed root → find_in block root ≡ Some (Block block kids order) →
        (a b : ℕ) (first second : Node) → slice_get kids a ≡ Some first → slice_get kids b ≡ Some second → is_before order a b ≡ true → leads_to order (a, b) ≡ false →
        pairs_of root ≡ pairs_of (unordered root block (id_of first) (id_of second)) + steps_of first * steps_of second }
{}

/// In a sound tree of depth at most 64 that is tight at a span of at least 1, each pair with nothing between whose two
/// kids both have steps has a reason.
pub fn orderings_have_reasons()
    ensures { (task : TaskView) (root : Node) (block : ℕ) (kids : List Node) (order : List (ℕ × ℕ)) → IsWellFormed root → find_in block root ≡ Some (Block block kids order) →
        (a b : ℕ) (first second : Node) → slice_get kids a ≡ Some first → slice_get kids b ≡ Some second → is_before order a b ≡ true → leads_to order (a, b) ≡ false →
        IsSound task root → depth_of root ≤ 64 → (span : ℕ) → 1 ≤ span → IsTight task root span → 0 < steps_of first → 0 < steps_of second →
        reasons_of (effects_of task.actions first) (effects_of task.actions second) ≢ [] }
{}

/// Where the first kid doesn't delete what the second gives, the ordering may go, as far as that fact tells, exactly where
/// the block's own links hold without it, and the fact is certain at the block if the block comes to need it.
pub fn needs_judged()
    ensures { (task : TaskView) (way : List Frame) (block : ℕ) (kids : List Node) (order : List (ℕ × ℕ)) (a b : ℕ) (first second : Node) →
        slice_get kids a ≡ Some first → slice_get kids b ≡ Some second → has_orders (filled way (Block block kids order)) ≡ true → (p : ℕ) → is_before order a b ≡ true →
        IsSoundFor task (filled way (Block block kids order)) p → ((touch_at task.actions p first).deletes && (touch_at task.actions p second).gives) ≡ false →
        judged task way kids order (a, first) (b, second) p ≡ (stays_fine (is_before order) (kid_row task.actions p kids) (a, touch_at task.actions p first) (b, touch_at task.actions p second)
        && (not (comes_to_need task kids order (a, first) (b, second) p) || is_certain task.actions p way (standing_of task.actions p (Block block kids order)) (has task.init p))) }
{}

/// Where two sets of kids of a block are grouped, a sound tree stays sound.
pub fn groups_keep()
    ensures { (task : TaskView) (root : Node) (block : ℕ) (left right : List ℕ) (next : ℕ) → IsWellFormed root → greatest (ids_of root) < next → CanGroup root block left → CanGroup (grouped root block left next) block right →
        IsSound task root → IsSound task (both_grouped root block left right next) }
{}

/// The first fault of a tree of which one block changed, where it was sound before, stands at the block or at an ancestor.
pub fn faults_climb()
    ensures { (task : TaskView) (way : List Frame) (old new : Node) → IsSound task (filled way old) → first_fault task (filled way new) ≡ fault_along task way (summary_of task.actions new).fault new }
{}

/// A block's first fault is at a fact for which its links don't all hold.
pub fn faults_told()
    ensures { (changed : ℕ → Bool) (block : ℕ) (order : List (ℕ × ℕ)) (kids : List Kid) → ((p : ℕ) → changed p ≡ false → row_fine (is_before order) (row_of p kids) ≡ true) → block_fault block order kids ≡ fault_among changed block order kids }
{}

/// Each candidate of a tree at a span stands in the list of candidates, and nothing else does.
pub fn candidates_listed()
    ensures { (actions : List Action) (root : Node) (span : ℕ) → IsWellFormed root → (c : Gain) → ((q : ℕ) × (slice_get (candidates actions root span) q ≡ Some c)) ↔ IsCandidate actions root span c }
{}
