ghost use Rattle.std.specs.Prelude.{◌≡◌, ◌↔◌, ◌+◌, ◌<◌, ◌≤◌, ◌^◌, nat_lt, length, count_by, take, IsTrue, IfErr, IfOk, OnOk, OnErr};
ghost use Rattle.bd_links.specs.Sound.{IsSound, are_below};
ghost use Rattle.bd_tree.specs.Tree.{depth_of, steps_of, nodes_of, ids_of, greatest};
ghost use Rattle.plan_core.specs.Core.{Begins, IsOkOrOutOfMemory, accepted, tree_after, opened, replay, is_closed, is_due, is_rebuild, is_replacement, is_tightening};
ghost use Rattle.plan_core.specs.Law.{IsCore, IsLawful, IsPrintable, MayBegin, may_begin, tree_at};
ghost use Rattle.plan_core.specs.Replies.{IsApplicable, IsLent, Judges, Replies, TellsFact};
ghost use Rattle.plan_core.specs.declared.judge.BeginErr.TheVariants.{NoMemory as OutOfMemory};

use crate::rebuild::rebuilt;
use crate::sides::tightened;
use crate::{Offer, Refusal};
use bd_base::{NoMemory, NodeId};
use bd_links::{Fault, actions_fit, check};
use bd_merge::merged;
use bd_task::Task;
use bd_tree::{MAX_DEPTH, Tree};
use std::alloc::Global;
use std::marker::Model;

/// Why a core can't begin.
#[derive(Clone, Copy, Debug, PartialEq, Eq)]
pub enum BeginErr {
    /// The start tree isn't sound; its first fault.
    Unsound(Fault),
    /// Memory was wanting.
    NoMemory,
}

impl From<NoMemory> for BeginErr {
    ghost use Rattle.std.specs.Prelude.{◌≡◌};
    ghost use Rattle.plan_core.specs.declared.judge.BeginErr.TheVariants.{NoMemory as OutOfMemory};

    ghost from_gives = { λ _ e. e ≡ OutOfMemory };

    fn from(_: NoMemory) -> Self {
        BeginErr::NoMemory
    }
}

/// A task, a start tree, the offers that were accepted since, and the tree that they lead to.
#[derive(Debug, Drop)]
pub struct Core {
    task: Task,
    start: Tree,
    history: Vec<Offer>,
    tree: Tree,
    next: u64,
    stop: u32,
    replaced: u64,
    due: bool,
}

impl Model for Core {
    ghost use Rattle.std.specs.Coded.{codes};
    ghost use Rattle.bd_tree.specs.contracts.node.Node as node;
    ghost use Rattle.plan_core.specs.Core.{CoreView};
    ghost use Rattle.plan_core.specs.Law.{Keeps};

    ghost Value = { CoreView };

    ghost coded = { Prim.hlevel (codes, node.the_row.coded) };

    ghost view = { λ c. record { task = c.task; start = c.start; history = c.history.items; tree = c.tree; next = c.next; stop = c.stop } };

    ghost invariant = { λ c. Keeps (record { task = c.task; start = c.start; history = c.history.items; tree = c.tree; next = c.next; stop = c.stop }) c.replaced c.due };
}

impl Core {
    /// A core that opens on a start tree, with an empty history; the next id is one above the greatest. It
    /// closes after `stop` replacements.
    pub fn begin(alloc: Global, task: Task, start: Tree, stop: u32) -> Result<Core, BeginErr>
        requires actions { IsTrue (are_below (length task.actions) start) }
        requires shallow { depth_of start ≤ 64 }
        requires short { steps_of start ≤ 2_000 }
        requires few { nodes_of start < 2 ^ 24 }
        requires ids { greatest (ids_of start) < 2 ^ 32 }
        requires stops { (0 < stop) × (stop ≤ 1_000_000) }
        ensures begins { Begins task start stop result }
        ensures sound { IsSound task start → IsOkOrOutOfMemory result }
    {
        if let Some(fault) = check(alloc, &task, &start)? {
            return Err(BeginErr::Unsound(fault));
        }
        let tree = start.try_copy(alloc)?;
        let next = start.root().top_id().0 + 1;
        Ok(Core {
            task,
            start,
            history: Vec::new(alloc),
            tree,
            next,
            stop,
            replaced: 0,
            due: false,
        })
    }

    /// The task.
    pub fn task(&self) -> &Task
        ensures { result.now ≡ self.now.task }
    {
        &self.task
    }

    /// The tree: the history is legal from the start tree and replays to it, at each place the tree there is sound
    /// with at most 4,096 steps and 64 levels, each linearisation of it is valid, and the cost never rose.
    pub fn tree(&self) -> &Tree
        ensures tree { result.now ≡ self.now.tree }
        ensures lawful { IsLawful self.now }
        ensures printable { IsPrintable self.now.task self.now.tree }
    {
        &self.tree
    }

    /// The accepted offers, in their order.
    pub fn history(&self) -> &[Offer]
        ensures { result.now ≡ self.now.history }
    {
        &self.history
    }

    /// Whether the core takes no more offers: its history has `stop` replacements or 16,777,216 entries.
    pub fn closed(&self) -> bool
        ensures { result ≡ is_closed self.now.stop self.now.history }
    {
        self.replaced >= self.stop as u64 || self.history.len() >= 16_777_216
    }

    /// Whether a replacement was accepted since the last rebuild or the start.
    pub fn due(&self) -> bool
        ensures { result ≡ is_due self.now.history }
    {
        self.due
    }

    // How many entries of the history are replacements.
    pub(crate) fn replaced(&self) -> u64
        ensures { result ≡ count_by is_replacement self.now.history }
    {
        self.replaced
    }

    // The id that the next new node gets.
    pub(crate) fn next(&self) -> NodeId
        ensures { result ≡ self.now.next }
    {
        NodeId(self.next)
    }

    // The start tree.
    pub(crate) fn start(&self) -> &Tree
        ensures { result.now ≡ self.now.start }
    {
        &self.start
    }

    /// What every core keeps: it tells a caller the core's invariant, and does nothing.
    pub fn keeps(&self)
        ensures { IsCore self.now }
    {
        let _ = &self.task;
    }

    // The tree of an offer that may be accepted, or why it is refused.
    fn judge(&self, alloc: Global, offer: &Offer) -> Result<Tree, Refusal>
        requires { IsLent offer.now }
        ensures judges { Judges self.now offer.now result }
        ensures fact { IfErr result (λ why. TellsFact (length self.now.task.facts) why) }
    {
        if self.closed() {
            return Err(Refusal::Closed {
                replaced: self.replaced(),
                entries: self.history().len() as u64,
            });
        }
        match offer {
            Offer::Replace { window, actions } => {
                self.judge_replacement(alloc, window, actions.as_slice())
            }
            Offer::Tighten { block, left, right } => {
                self.judge_tightening(alloc, *block, left.as_slice(), right.as_slice())
            }
            Offer::Rebuild { order } => self.judge_rebuild(alloc, order),
        }
    }

    /// Judges an offer by itself, and takes it where no refusal has its condition: then it is the last entry of
    /// the history, and the answer is its place, from 1. A refused offer changes nothing.
    pub fn offer(&mut self, alloc: Global, offer: &Offer) -> Result<u64, Refusal>
        requires lent { IsLent offer.now }
        ensures reply { Replies self.old offer.now result }
        ensures fact { IfErr result (λ why. TellsFact (length self.old.task.facts) why) }
        ensures ok { OnOk result (self.new ≡ accepted offer.now self.old) }
        ensures err { OnErr result (self.new ≡ self.old) }
    {
        let tree = self.judge(alloc, offer)?;
        self.history.push(offer.try_copy(alloc)?)?;
        self.tree = tree;
        self.next += offer.new_ids();
        self.replaced += offer.replaced();
        self.due = offer.leaves_due(self.due);
        Ok(self.history.len() as u64)
    }

    /// The tree after the first `place` entries of the history, of which all holds that `tree` tells.
    pub fn at(&self, alloc: Global, place: u64) -> Result<Tree, NoMemory>
        requires { place ≤ length self.now.history }
        ensures tree { IfOk result (λ t. t ≡ tree_at self.now place) }
        ensures lawful { IsLawful self.now }
        ensures printable { IsPrintable self.now.task (tree_at self.now place) }
    {
        self.keeps();
        let mut tree = self.start().try_copy(alloc)?;
        let mut next = NodeId(self.start().root().top_id().0 + 1);
        for offer in &self.history()[..place as usize] {
            tree = tree_after(alloc, &tree, next, offer)?;
            next = NodeId(next.0 + offer.new_ids());
        }
        Ok(tree)
    }

    /// The task, the start tree, the history and the tree, of which all holds that `tree` tells. It takes no memory.
    pub fn into_parts(self) -> (Task, Tree, Vec<Offer>, Tree)
        ensures task { result.0 ≡ self.task }
        ensures start { result.1 ≡ self.start }
        ensures history { result.2.items ≡ self.history }
        ensures tree { result.3 ≡ self.tree }
        ensures lawful { IsLawful self }
        ensures start_printable { IsPrintable self.task self.start }
        ensures tree_printable { IsPrintable self.task self.tree }
    {
        let Core {
            task,
            start,
            history,
            tree,
            next: _,
            stop: _,
            replaced: _,
            due: _,
        } = self;
        (task, start, history, tree)
    }
}

// The tree that an accepted offer makes of a tree.
fn tree_after(alloc: Global, tree: &Tree, next: NodeId, offer: &Offer) -> Result<Tree, NoMemory>
    requires { IsApplicable offer.now (record { tree = tree.now; next = next }) }
    ensures { IfOk result (λ t. t ≡ tree_after offer.now (record { tree = tree.now; next = next })) }
{
    match offer {
        Offer::Replace { window, actions } => merged(alloc, tree, window, actions.as_slice(), next),
        Offer::Tighten { block, left, right } => {
            tightened(alloc, tree, next, *block, left.as_slice(), right.as_slice())
        }
        Offer::Rebuild { order } => rebuilt(alloc, tree, order),
    }
}

// Whether the tree has fewer than 2^24 nodes.
fn has_few(start: &Tree) -> bool
    ensures { result ≡ nat_lt (nodes_of start.now) (2 ^ 24) }
{
    start.nodes() < 16_777_216
}

/// Whether a core may open on the task and the start tree: the tree's actions are the task's, it has at most 64 levels,
/// 2,000 steps and 16,777,215 nodes, and no id above 4,294,967,295.
pub fn may_begin(task: &Task, start: &Tree) -> bool
    ensures told { result ≡ may_begin task.now start.now }
    ensures exact { IsTrue result ↔ MayBegin task.now start.now }
{
    has_few(start)
        && start.depth() <= MAX_DEPTH
        && start.steps() <= 2_000
        && start.top_id().0 < 4_294_967_296
        && actions_fit(task, start.root())
}

/// How many of the offers are replacements.
pub fn replacements(history: &[Offer]) -> usize
    ensures { result ≡ count_by is_replacement history.now }
{
    let mut count = 0;
    for offer in history {
        if offer.is_replacement() {
            count += 1;
        }
    }
    count
}

/// How many of the offers are tightenings.
pub fn tightenings(history: &[Offer]) -> usize
    ensures { result ≡ count_by is_tightening history.now }
{
    let mut count = 0;
    for offer in history {
        if offer.is_tightening() {
            count += 1;
        }
    }
    count
}

/// How many of the offers are rebuilds.
pub fn rebuilds(history: &[Offer]) -> usize
    ensures { result ≡ count_by is_rebuild history.now }
{
    let mut count = 0;
    for offer in history {
        if offer.is_rebuild() {
            count += 1;
        }
    }
    count
}
