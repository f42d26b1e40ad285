ghost use Rattle.std.specs.Prelude.{◌≡◌, ◌+◌, ◌-◌, ◌<◌, ◌≤◌, ◌^◌, ◌↔◌, None, false, length, min, IfOk, IsTrue};

use crate::deciding::linearises;
use crate::misfit::first_misfit;
use crate::{Misfit, Node};
use bd_base::{ActList, ActionId, FromItems, Items, NoMemory, NodeId, PairList};
use std::alloc::Global;
use std::marker::Model;

/// A well formed tree, seen as its root: the root is block 0, ids are distinct, and each order is one.
#[derive(Debug, Drop)]
pub struct Tree {
    root: Node,
}

impl Model for Tree {
    ghost use Rattle.std.specs.Coded.{codes};
    ghost use Rattle.bd_tree.specs.declared.node.Node.{Node};
    ghost use Rattle.bd_tree.specs.contracts.node.Node as node;
    ghost use Rattle.bd_tree.specs.WellFormed.{IsWellFormed};

    ghost Value = { Node };

    ghost coded = { node.the_row.coded };

    ghost view = { λ t. t.root };

    ghost invariant = { λ t. IsWellFormed t.root };
}

impl Tree {
    ghost use Rattle.std.specs.Option.{IsNone, option_copied};
    ghost use Rattle.bd_base.specs.Facts.{has};
    ghost use Rattle.bd_tree.specs.Chain.{chain_of};
    ghost use Rattle.bd_base.specs.Pairs.{without_pair};
    ghost use Rattle.bd_tree.specs.Linearisation.{IsLinearisation};
    ghost use Rattle.bd_tree.specs.Loose.{IsFree};
    ghost use Rattle.bd_tree.specs.declared.node.Node.{Node, Block};
    ghost use Rattle.std.specs.Prelude.{ℕ, List};
    ghost use Rattle.bd_tree.specs.Misfit.{first_misfit, Shapes};
    ghost use Rattle.bd_tree.specs.Tree.{ids_of, greatest, depth_of, steps_of, nodes_of, pairs_of, listed_of, find_in};
    ghost use Rattle.bd_tree.specs.WellFormed.{IsWellFormed};

    /// The tree with this root, or the first misfit: `Root`, `Twice`, `Order` and `TooDeep` are looked for in this
    /// order, and `NoMemory` may come at any place. It is a tree exactly where the root is well formed and has at
    /// most 64 levels.
    pub fn new(alloc: Global, root: Node) -> Result<Tree, Misfit>
        requires { nodes_of root < 2 ^ 32 }
        ensures answer { Shapes root result }
        ensures exact { (first_misfit root ≡ None) ↔ (IsWellFormed root × (depth_of root ≤ 64)) }
    {
        match first_misfit(alloc, &root)? {
            None => Ok(Tree::of(root)),
            Some(misfit) => Err(misfit),
        }
    }

    /// The tree with this root, which the caller has shaped so that it is well formed. Nothing is tested.
    pub fn of(root: Node) -> Tree
        requires { IsWellFormed root }
        ensures { result ≡ root }
    {
        Tree { root }
    }

    /// The chain of a list: a root whose kids are the list's steps, with the ids 1, 2 and so on, each before all
    /// later ones.
    pub fn chain(alloc: Global, list: &[ActionId]) -> Result<Tree, NoMemory>
        requires { length list.now + 1 < 2 ^ 32 }
        ensures chain { IfOk result (λ t. t ≡ chain_of list.now) }
        ensures nodes { IfOk result (λ t. nodes_of t ≡ length list.now + 1) }
        ensures steps { IfOk result (λ t. steps_of t ≡ length list.now) }
        ensures flat { IfOk result (λ t. depth_of t ≤ 2) }
        ensures top { IfOk result (λ t. greatest (ids_of t) ≤ length list.now) }
        ensures listed { IfOk result (λ t. listed_of t ≡ list.now) }
    {
        Ok(Tree::of(chain_root(alloc, list)?))
    }

    /// The root, which is block 0.
    pub fn root(&self) -> &Node
        ensures root { result.now ≡ self.now }
        ensures well_formed { IsWellFormed self.now }
    {
        &self.root
    }

    /// Takes a pair out of the root's order, in place: it takes no memory. Nothing is between the two.
    pub fn loosen(&mut self, i: u32, j: u32)
        requires { IsFree self.old i j }
        ensures { (id : ℕ) (kids : List Node) (order : List (ℕ × ℕ)) → self.old ≡ Block id kids order → self.new ≡ Block id kids (without_pair i j order) }
    {
        self.root.loosen(i, j);
    }

    /// The listed linearisation: the actions of the steps, with the kids of each block in their listing.
    pub fn listed(&self, alloc: Global) -> Result<ActList, NoMemory>
        ensures items { IfOk result (λ l. l ≡ listed_of self.now) }
        ensures linearisation { IfOk result (λ l. IsLinearisation self.now l) }
    {
        let mut list = Vec::new(alloc);
        self.root.list_into(&mut list)?;
        Ok(Items::of(list))
    }

    /// Whether the list is a linearisation of it, by the definition of the tree alone.
    ///
    /// The parts of a block's kids are as long as the kids have steps, so only which kid comes next may be open, where
    /// actions stand several times. Then it goes back, and keeps which sets of remaining kids were refused: in the worst
    /// case time and memory grow exponentially with the number of kids of a block.
    pub fn is_linearisation(&self, alloc: Global, list: &[ActionId]) -> Result<bool, NoMemory>
        requires { nodes_of self.now < 2 ^ 32 }
        ensures { IfOk result (λ told. IsTrue told ↔ IsLinearisation self.now list.now) }
    {
        linearises(alloc, &self.root, list)
    }

    /// How many steps it has.
    pub fn steps(&self) -> u32
        requires { nodes_of self.now < 2 ^ 32 }
        ensures { result ≡ steps_of self.now }
    {
        self.root.steps()
    }

    /// How many nodes it has, as `Node::nodes` tells it.
    pub fn nodes(&self) -> u64
        ensures { result ≡ min (nodes_of self.now) (2 ^ 64 - 1) }
    {
        self.root.nodes()
    }

    /// How many levels it has: 1 for a root with no kids, and 2 for a chain of one step or more.
    pub fn depth(&self) -> u32
        requires { nodes_of self.now < 2 ^ 32 }
        ensures { result ≡ depth_of self.now }
    {
        self.root.depth()
    }

    /// How many pairs of steps are ordered, each by the order of the block in which their ways part.
    pub fn pairs(&self) -> u64
        requires { nodes_of self.now < 2 ^ 32 }
        ensures { result ≡ pairs_of self.now }
    {
        self.root.pairs()
    }

    /// The greatest id; 0 where the root has no kids.
    pub fn top_id(&self) -> NodeId
        ensures { result ≡ greatest (ids_of self.now) }
    {
        self.root.top_id()
    }

    /// The node with the id, or `None` exactly where no node has it.
    pub fn find(&self, id: NodeId) -> Option<&Node>
        ensures found { option_copied result ≡ find_in id self.now }
        ensures missing { IsNone result ↔ (has (ids_of self.now) id ≡ false) }
    {
        self.root.find(id)
    }

    /// The same tree.
    pub fn try_copy(&self, alloc: Global) -> Result<Tree, NoMemory>
        ensures { IfOk result (λ t. t ≡ self.now) }
    {
        Ok(Tree {
            root: self.root.try_copy(alloc)?,
        })
    }
}

ghost use Rattle.bd_tree.specs.Chain.{chain_of};

fn chain_root(alloc: Global, list: &[ActionId]) -> Result<Node, NoMemory>
    requires { length list.now + 1 < 2 ^ 32 }
    ensures { IfOk result (λ root. root ≡ chain_of list.now) }
{
    let mut kids = Vec::new(alloc);
    let mut id = 1;
    for action in list {
        kids.push(Node::Step {
            id: NodeId(id),
            action: *action,
        })?;
        id += 1;
    }
    let order = PairList::total(alloc, list.len() as u32)?;
    Ok(Node::Block {
        id: NodeId(0),
        kids: Items::of(kids),
        order,
    })
}
