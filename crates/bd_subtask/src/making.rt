// The subtask of a window.
ghost use Rattle.std.specs.Prelude.{◌≡◌, ◌≤◌, ◌*◌, ◌<◌, ◌^◌, filter, length, map, IfOk, IsTrue};
ghost use Rattle.std.specs.List.{list_all};
ghost use Rattle.bd_base.specs.Facts.{has};
ghost use Rattle.bd_task.specs.TaskView.{TaskView};
ghost use Rattle.bd_tree.specs.Tree.{nodes_of, total};
ghost use Rattle.bd_links.specs.Sound.{are_below};
ghost use Rattle.bd_subtask.specs.Subtask.{around, carried_cost, is_goal, is_make, is_keep, mentioned, no_subtask, or_nothing, subtask_from, subtask_of};
ghost use Rattle.bd_subtask.specs.Certain.{certain_in};
ghost use Rattle.bd_merge.specs.Stands.{Stands};
ghost use Rattle.bd_subtask.specs.Law.{Fits, IsOfUse};
ghost use Rattle.bd_subtask.specs.Level.{IsKept, IsLevel};

use crate::certain::{certain_in, children, outside_of};
use crate::level::{Level, level_of};
use crate::marking::{carried, marked_places, sides};
use crate::part::{all_deletes, all_gives, all_needs, part_by};
use crate::parts::{Around, SubTask};
use bd_base::{FactSet, NoMemory, NodeId, PairList};
use bd_links::node_cost;
use bd_merge::{Found, Window};
use bd_task::Task;
use bd_tree::{Node, Tree};
use std::alloc::Global;

// What is mentioned outside the block.
pub fn mentioned(
    alloc: Global,
    task: &Task,
    root: &Node,
    block: NodeId,
) -> Result<FactSet, NoMemory>
    requires { IsTrue (are_below (length task.now.actions) root.now) }
    ensures { IfOk result (λ s. s ≡ mentioned task.now root.now block) }
{
    let mut facts = outside_of(alloc, task, block, root)?;
    facts.join(alloc, task.goal())?;
    Ok(facts)
}

// The facts of a set that are in another one too.
fn shared(alloc: Global, s: &FactSet, of: &FactSet) -> Result<FactSet, NoMemory>
    ensures { IfOk result (λ t. t ≡ filter (has of.now) s.now) }
{
    let _facts = s.iter();
    let mut others = s.try_copy(alloc)?;
    others.minus(of);
    let mut kept = s.try_copy(alloc)?;
    kept.minus(&others);
    Ok(kept)
}

// What is mentioned and not given by the kids behind; in a block other than the root, of that what the block gives and
// the kids in front give.
fn goals(alloc: Global, around: &Around, mentioned: &FactSet) -> Result<FactSet, NoMemory>
    ensures { IfOk result (λ s. s ≡ filter (is_goal around.now) mentioned.now) }
{
    let _facts = mentioned.iter();
    let mut left = mentioned.try_copy(alloc)?;
    left.minus(&around.back_gives);
    if around.is_root {
        return Ok(left);
    }
    let given = shared(alloc, &left, &around.gives)?;
    let reached = shared(alloc, &given, &around.front_gives)?;
    Ok(reached)
}

// What is mentioned and given by the block, but neither by the kids in front nor by those behind.
fn makes(alloc: Global, around: &Around, mentioned: &FactSet) -> Result<FactSet, NoMemory>
    ensures { IfOk result (λ s. s ≡ filter (is_make around.now) mentioned.now) }
{
    let _facts = mentioned.iter();
    if around.is_root {
        return Ok(FactSet::new());
    }
    let mut left = shared(alloc, mentioned, &around.gives)?;
    left.minus(&around.back_gives);
    left.minus(&around.front_gives);
    Ok(left)
}

// What is mentioned, and neither given nor deleted by the block.
fn keeps(alloc: Global, around: &Around, mentioned: &FactSet) -> Result<FactSet, NoMemory>
    ensures { IfOk result (λ s. s ≡ filter (is_keep around.now) mentioned.now) }
{
    let _facts = mentioned.iter();
    if around.is_root {
        return Ok(FactSet::new());
    }
    let mut left = mentioned.try_copy(alloc)?;
    left.minus(&around.gives);
    left.minus(&around.deletes);
    Ok(left)
}

// The sum of the costs of the carried kids.
fn carried_cost(task: &Task, window: &Window) -> u64
    requires below { IsTrue (list_all (λ b. b) (map (are_below (length task.now.actions)) window.now.kids)) }
    requires few { total (map nodes_of window.now.kids) < 2 ^ 32 }
    ensures { result ≡ carried_cost task.now window.now }
{
    let mut sum = 0;
    for kid in window.kids.as_slice() {
        sum += node_cost(task, kid);
    }
    sum
}

// The subtask, of what stands around the window and of what is certain and mentioned.
fn subtask_from(
    alloc: Global,
    around: Around,
    certain: FactSet,
    mentioned: &FactSet,
    bound: u64,
) -> Result<SubTask, NoMemory>
    ensures { IfOk result (λ s. s ≡ subtask_from around certain mentioned.now bound) }
{
    let mut kept = certain;
    kept.minus(&around.front_deletes);
    let mut init = around.front_gives.try_copy(alloc)?;
    init.join(alloc, &kept)?;
    let mut goal = around.back_needs.try_copy(alloc)?;
    goal.join(alloc, &goals(alloc, &around, mentioned)?)?;
    let make = makes(alloc, &around, mentioned)?;
    let keep = keeps(alloc, &around, mentioned)?;
    Ok(SubTask {
        init,
        goal,
        make,
        keep,
        bound,
    })
}

// What is certain at the block.
pub fn certain_at(
    alloc: Global,
    task: &Task,
    root: &Node,
    block: NodeId,
) -> Result<FactSet, NoMemory>
    requires { IsTrue (are_below (length task.now.actions) root.now) }
    ensures { IfOk result (λ s. s ≡ or_nothing (certain_in task.now.actions block root.now task.now.init)) }
{
    match certain_in(alloc, task, block, root, task.init())? {
        Some(facts) => Ok(facts),
        None => Ok(FactSet::new()),
    }
}

pub fn nothing() -> SubTask
    ensures { result ≡ no_subtask }
{
    SubTask {
        init: FactSet::new(),
        goal: FactSet::new(),
        make: FactSet::new(),
        keep: FactSet::new(),
        bound: 0,
    }
}

// What stands around a window of a block with these kids and this order, by what is kept of the block.
fn around(
    alloc: Global,
    window: &Window,
    kids: &[Node],
    order: &PairList,
    level: &Level<'_>,
) -> Result<Around, NoMemory>
    ensures { (task : TaskView) → IsKept task kids.now order.now level.now → IfOk result (λ a. a ≡ around task window.now kids.now order.now) }
{
    let carried = carried(alloc, window, kids)?;
    let inside = carried.as_slice();
    let members = marked_places(alloc, inside)?;
    let sides = sides(alloc, window.lean, order, inside, members.as_slice())?;
    let rows = level.rows.as_slice();
    let touched = level.touched.as_slice();
    let whole = &level.whole;
    let in_front = sides.front.as_slice();
    let front = part_by(alloc, in_front, touched)?;
    let front_gives = all_gives(alloc, order, in_front, &front, &whole.add, rows)?;
    let front_deletes = all_deletes(alloc, order, in_front, &front, &whole.del, rows)?;
    let behind = sides.back.as_slice();
    let back = part_by(alloc, behind, touched)?;
    let back_needs = all_needs(alloc, order, behind, &back, &whole.need, rows)?;
    let back_gives = all_gives(alloc, order, behind, &back, &whole.add, rows)?;
    let gives = whole.add.try_copy(alloc)?;
    let deletes = whole.del.try_copy(alloc)?;
    Ok(Around {
        is_root: window.block.0 == 0,
        front_gives,
        front_deletes,
        back_needs,
        back_gives,
        gives,
        deletes,
    })
}

/// The subtask of a window of a block with these kids and this order, by what is kept of the block.
pub fn pose(
    alloc: Global,
    task: &Task,
    window: &Window,
    kids: &[Node],
    order: &PairList,
    level: &Level<'_>,
) -> Result<SubTask, NoMemory>
    requires kept { IsKept task.now kids.now order.now level.now }
    requires below { IsTrue (list_all (λ b. b) (map (are_below (length task.now.actions)) window.now.kids)) }
    requires few { total (map nodes_of window.now.kids) < 2 ^ 32 }
    ensures { IfOk result (λ s. s ≡ subtask_from (around task.now window.now kids.now order.now) level.now.certain level.now.mentioned (carried_cost task.now window.now)) }
{
    let bound = carried_cost(task, window);
    let around = around(alloc, window, kids, order, level)?;
    let certain = level.certain.try_copy(alloc)?;
    subtask_from(alloc, around, certain, &level.mentioned, bound)
}

/// The subtask of a window that stands in the tree, by what is kept of its block.
pub fn pose_in(
    alloc: Global,
    task: &Task,
    tree: &Tree,
    window: &Window,
    level: &Level<'_>,
) -> Result<SubTask, NoMemory>
    requires stands { Stands tree.now window.now Found.At }
    requires below { IsTrue (are_below (length task.now.actions) tree.now) }
    requires few { nodes_of tree.now < 2 ^ 32 }
    requires level { IsLevel task.now tree.now level.now }
    requires own { level.now.block ≡ window.now.block }
    ensures { IfOk result (λ s. s ≡ subtask_of task.now tree.now window.now) }
{
    let _root = tree.root();
    match level.node {
        Node::Step { .. } => Ok(nothing()),
        Node::Block { kids, order, .. } => {
            pose(alloc, task, window, kids.as_slice(), order, level)
        }
    }
}

// The subtask of a window that stands in the tree, by what is asked of its block alone.
fn subtask_at(alloc: Global, task: &Task, tree: &Tree, window: &Window) -> Result<SubTask, NoMemory>
    requires stands { Stands tree.now window.now Found.At }
    requires below { IsTrue (are_below (length task.now.actions) tree.now) }
    requires few { nodes_of tree.now < 2 ^ 32 }
    ensures { IfOk result (λ s. s ≡ subtask_of task.now tree.now window.now) }
{
    let root = tree.root();
    let certain = certain_at(alloc, task, root, window.block)?;
    let facts = mentioned(alloc, task, root, window.block)?;
    match tree.find(window.block) {
        None => Ok(nothing()),
        Some(node) => match node {
            Node::Step { .. } => Ok(nothing()),
            Node::Block { kids, order, .. } => {
                let parts = children(alloc, task, kids.as_slice())?;
                let level = level_of(alloc, window.block, node, &parts, order, certain, facts)?;
                pose(alloc, task, window, kids.as_slice(), order, &level)
            }
        },
    }
}

/// The subtask of a window that stands in the tree. In a sound tree each list that solves it merges soundly, and the
/// window's own content solves it at the cost of the bound. It keeps nothing: `Posing` is for many windows of one tree.
pub fn subtask(
    alloc: Global,
    task: &Task,
    tree: &Tree,
    window: &Window,
) -> Result<SubTask, NoMemory>
    requires stands { Stands tree.now window.now Found.At }
    requires below { IsTrue (are_below (length task.now.actions) tree.now) }
    requires few { nodes_of tree.now < 2 ^ 32 }
    ensures subtask { IfOk result (λ s. s ≡ subtask_of task.now tree.now window.now) }
    ensures of_use { IfOk result (λ s. IsOfUse task.now tree.now window.now s) }
    ensures fits { IfOk result (λ s. Fits task.now s) }
{
    let _start = task.init();
    let _root = tree.root();
    subtask_at(alloc, task, tree, window)
}
