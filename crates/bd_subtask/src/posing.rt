// Many subtasks of one tree.
ghost use Rattle.std.specs.Prelude.{◌≡◌, ◌<◌, ◌^◌, true, length, map, IfOk, OnOk, IsTrue};
ghost use Rattle.std.specs.List.{enumerate_from, list_all};
ghost use Rattle.std.specs.Option.{option_copied};
ghost use Rattle.bd_base.specs.Facts.{plus};
ghost use Rattle.bd_tree.specs.Tree.{ids_of, nodes_of};
ghost use Rattle.bd_tree.specs.WellFormed.{are_distinct};
ghost use Rattle.bd_links.specs.Sound.{are_below};
ghost use Rattle.bd_merge.specs.Stands.{Stands};
ghost use Rattle.bd_subtask.specs.Law.{Fits, IsOfUse};
ghost use Rattle.bd_subtask.specs.Level.{AreLevels, FindsLevel, Leads, with_others};
ghost use Rattle.bd_subtask.specs.Subtask.{outside_of, subtask_of};

use crate::certain::{candidates, certain_at_kid, children, outside_of};
use crate::level::{Level, level_of};
use crate::making::{pose_in, subtask};
use crate::parts::SubTask;
use bd_base::{FactSet, NoMemory, NodeId};
use bd_links::touches_of;
use bd_merge::{Found, Window};
use bd_task::Task;
use bd_tree::{Node, Tree};
use std::alloc::Global;
use std::marker::Model;

// The preconditions in each kid of a block.
fn insides(alloc: Global, task: &Task, own: NodeId, kids: &[Node]) -> Result<Vec<FactSet>, NoMemory>
    requires { IsTrue (list_all (λ b. b) (map (are_below (length task.now.actions)) kids.now)) }
    ensures { IfOk result (λ v. v.items ≡ map (outside_of task.now.actions own) kids.now) }
{
    let mut sets = Vec::new(alloc);
    for kid in kids {
        sets.push(outside_of(alloc, task, own, kid)?)?;
    }
    Ok(sets)
}

// A set with all of the sets but the one at a position.
fn with_others(
    alloc: Global,
    sets: &[FactSet],
    at: usize,
    out: &FactSet,
) -> Result<FactSet, NoMemory>
    ensures { IfOk result (λ s. s ≡ with_others at out.now (enumerate_from 0 sets.now)) }
{
    let mut facts = out.try_copy(alloc)?;
    let mut i = 0;
    for set in sets {
        if i != at {
            facts.join(alloc, set)?;
        }
        i += 1;
    }
    Ok(facts)
}

// A set with the goal facts.
fn with_goal(alloc: Global, task: &Task, out: &FactSet) -> Result<FactSet, NoMemory>
    ensures { IfOk result (λ s. s ≡ plus out.now task.now.goal) }
{
    let mut facts = out.try_copy(alloc)?;
    facts.join(alloc, task.goal())?;
    Ok(facts)
}

// Puts the levels of the blocks in a node of the tree, where some facts are certain at the node, and some are
// preconditions of steps outside it.
fn put_levels<'t>(
    alloc: Global,
    task: &Task,
    tree: &Tree,
    node: &'t Node,
    sure: &FactSet,
    out: &FactSet,
    levels: &mut Vec<Level<'t>>,
) -> Result<(), NoMemory>
    requires below { IsTrue (are_below (length task.now.actions) node.now) }
    requires distinct { are_distinct (ids_of node.now) ≡ true }
    requires leads { Leads task.now tree.now node.now sure.now out.now }
    requires levels { AreLevels task.now tree.now levels.old.items }
    ensures { OnOk result (AreLevels task.now tree.now levels.new.items) }
{
    let _root = tree.root();
    let _out = out.iter();
    match node {
        Node::Step { .. } => Ok(()),
        Node::Block { id, kids, order } => {
            let parts = children(alloc, task, kids.as_slice())?;
            let certain = sure.try_copy(alloc)?;
            let mentioned = with_goal(alloc, task, out)?;
            let level = level_of(alloc, *id, node, &parts, order, certain, mentioned)?;
            levels.push(level)?;
            let touches = touches_of(alloc, &parts)?;
            let facts = candidates(alloc, &parts, sure)?;
            let sons = kids.as_slice();
            let others = insides(alloc, task, *id, sons)?;
            let sets = others.as_slice();
            let mut j = 0;
            for kid in kids.as_slice() {
                let inner = certain_at_kid(alloc, order, &touches, &parts, &facts, sure, j)?;
                let around = with_others(alloc, sets, j, out)?;
                put_levels(alloc, task, tree, kid, &inner, &around, levels)?;
                j += 1;
            }
            Ok(())
        }
    }
}

// Where the level of a block stands.
#[derive(Clone, Copy, PartialEq, Eq, PartialOrd, Ord)]
struct Place {
    block: NodeId,
    at: usize,
}

// Where each level stands, by rising blocks.
fn places_of(alloc: Global, levels: &[Level<'_>]) -> Result<Vec<Place>, NoMemory> {
    let mut places = Vec::new(alloc);
    for (at, level) in levels.iter().enumerate() {
        places.push(Place {
            block: level.block,
            at,
        })?;
    }
    places.sort()?;
    Ok(places)
}

// The level of the block, if it is found.
fn find_level<'b, 't>(
    levels: &'b [Level<'t>],
    places: &[Place],
    block: NodeId,
) -> Option<&'b Level<'t>>
    ensures { FindsLevel levels.now block (option_copied result) }
{
    let at = match places.binary_search_by_key(&block, |p| p.block) {
        Ok(k) => places[k].at,
        Err(_) => return None,
    };
    match levels.get(at) {
        Some(level) => {
            if level.block == block {
                Some(level)
            } else {
                None
            }
        }
        None => None,
    }
}

/// What is kept of a tree, so that many subtasks of it are posed cheaply.
#[derive(Drop)]
pub struct Posing<'a> {
    task: &'a Task,
    tree: &'a Tree,
    levels: Vec<Level<'a>>,
    places: Vec<Place>,
}

impl<'a> Model for Posing<'a> {
    ghost use Rattle.std.specs.Coded.{codes};
    ghost use Rattle.bd_tree.specs.contracts.node.Node as node;
    ghost use Rattle.bd_subtask.specs.Level.{AreLevels};
    ghost use Rattle.bd_subtask.specs.Posing.{Posed};

    ghost Value = { Posed };

    ghost coded = { Prim.hlevel (codes, node.the_row.coded) };

    ghost view = { λ p. record { task = p.task.now; root = p.tree.now } };

    ghost invariant = { λ p. AreLevels p.task.now p.tree.now p.levels.items };
}

impl<'a> Posing<'a> {
    /// Keeps what is needed of the tree.
    pub fn of(alloc: Global, task: &'a Task, tree: &'a Tree) -> Result<Posing<'a>, NoMemory>
        requires { IsTrue (are_below (length task.now.actions) tree.now) }
        ensures { IfOk result (λ p. p ≡ record { task = task.now; root = tree.now }) }
    {
        let root = tree.root();
        let start = task.init();
        let out = FactSet::new();
        let mut levels = Vec::new(alloc);
        put_levels(alloc, task, tree, root, start, &out, &mut levels)?;
        let places = places_of(alloc, &levels)?;
        Ok(Posing {
            task,
            tree,
            levels,
            places,
        })
    }

    // The subtask, by the level of the window's block.
    fn posed(&self, alloc: Global, window: &Window) -> Result<SubTask, NoMemory>
        requires stands { Stands self.now.root window.now Found.At }
        requires below { IsTrue (are_below (length self.now.task.actions) self.now.root) }
        requires few { nodes_of self.now.root < 2 ^ 32 }
        ensures { IfOk result (λ s. s ≡ subtask_of self.now.task self.now.root window.now) }
    {
        match find_level(&self.levels, &self.places, window.block) {
            Some(level) => pose_in(alloc, self.task, self.tree, window, level),
            None => subtask(alloc, self.task, self.tree, window),
        }
    }

    /// The subtask of a window that stands in the tree, as `subtask` gives it.
    pub fn subtask(&self, alloc: Global, window: &Window) -> Result<SubTask, NoMemory>
        requires stands { Stands self.now.root window.now Found.At }
        requires below { IsTrue (are_below (length self.now.task.actions) self.now.root) }
        requires few { nodes_of self.now.root < 2 ^ 32 }
        ensures subtask { IfOk result (λ s. s ≡ subtask_of self.now.task self.now.root window.now) }
        ensures of_use { IfOk result (λ s. IsOfUse self.now.task self.now.root window.now s) }
        ensures fits { IfOk result (λ s. Fits self.now.task s) }
    {
        let _start = self.task.init();
        let _root = self.tree.root();
        self.posed(alloc, window)
    }
}
