ghost use Rattle.std.specs.Prelude.{◌≡◌, IfOk, Some};
ghost use Rattle.bd_links.specs.Effects.{step_effects};
ghost use Rattle.bd_links.specs.declared.parts.Fault.TheVariants.{Inside};
ghost use Rattle.bd_links.specs.declared.parts.Stop.TheVariants.{Found};

use bd_base::{FactId, FactSet, NoMemory, NodeId};
use bd_task::Action;
use std::alloc::{AllocError, AllocFailed, Global};
use std::collections::HashMap;
use std::marker::Model;

/// What a node needs, gives and deletes.
#[derive(Debug, Drop)]
pub struct Effects {
    pub need: FactSet,
    pub add: FactSet,
    pub del: FactSet,
}

/// The sets of a child: its own, or those of a step's action.
#[derive(Debug, Drop)]
enum Sets<'a> {
    Own(Effects),
    Lent(&'a Action),
}

/// A node's id and effects. A step's sets are lent by its action, so that no set is copied.
#[derive(Debug, Drop)]
pub struct Child<'a> {
    id: NodeId,
    sets: Sets<'a>,
}

impl<'a> Model for Child<'a> {
    ghost use Rattle.bd_links.specs.Child.{Child};
    ghost use Rattle.bd_links.specs.Lent.{effects_in};

    ghost Value = { Child };

    ghost view = { λ c. record { id = c.id; effects = effects_in c.sets } };
}

impl<'a> Child<'a> {
    /// A step of the action. It takes no memory.
    pub fn of_step(id: NodeId, action: &'a Action) -> Child<'a>
        ensures { result ≡ record { id = id; effects = step_effects (Some action.now) } }
    {
        Child {
            id,
            sets: Sets::Lent(action),
        }
    }

    /// A node with these effects.
    pub fn of_effects(id: NodeId, effects: Effects) -> Child<'a>
        ensures { result ≡ record { id = id; effects = effects } }
    {
        Child {
            id,
            sets: Sets::Own(effects),
        }
    }

    /// The node's id.
    pub fn id(&self) -> NodeId
        ensures { result ≡ self.now.id }
    {
        self.id
    }

    /// The facts that the node needs.
    pub fn need(&self) -> &FactSet
        ensures { result.now ≡ self.now.effects.need }
    {
        match &self.sets {
            Sets::Own(effects) => &effects.need,
            Sets::Lent(action) => &action.pre,
        }
    }

    /// The facts that the node gives.
    pub fn add(&self) -> &FactSet
        ensures { result.now ≡ self.now.effects.add }
    {
        match &self.sets {
            Sets::Own(effects) => &effects.add,
            Sets::Lent(action) => &action.add,
        }
    }

    /// The facts that the node deletes.
    pub fn del(&self) -> &FactSet
        ensures { result.now ≡ self.now.effects.del }
    {
        match &self.sets {
            Sets::Own(effects) => &effects.del,
            Sets::Lent(action) => &action.del,
        }
    }

    /// The node's effects as sets of their own. A step's are copied.
    pub fn into_effects(self, alloc: Global) -> Result<Effects, NoMemory>
        ensures { IfOk result (λ e. e ≡ self.entry.effects) }
    {
        match self.sets {
            Sets::Own(effects) => Ok(effects),
            Sets::Lent(action) => action_effects(alloc, action),
        }
    }
}

// What a step of the action needs, gives and deletes.
fn action_effects(alloc: Global, action: &Action) -> Result<Effects, NoMemory>
    ensures { IfOk result (λ e. e ≡ step_effects (Some action.now)) }
{
    Ok(Effects {
        need: action.pre.try_copy(alloc)?,
        add: action.add.try_copy(alloc)?,
        del: action.del.try_copy(alloc)?,
    })
}

/// Positions of kids for each fact's number.
pub type Places = HashMap<u32, Vec<usize>>;

/// The positions of the kids that give each fact and of those that delete it, the last first.
#[derive(Drop)]
pub struct Touches {
    pub gives: Places,
    pub deletes: Places,
}

/// Why a tree isn't sound: inside a block a child needs a fact that it isn't linked for, and another child
/// that may run before it deletes the fact; or the root needs a fact that isn't true at the start; or a goal
/// fact isn't true at the end.
#[derive(Clone, Copy, Debug, PartialEq, Eq)]
pub enum Fault {
    Inside {
        block: NodeId,
        child: NodeId,
        fact: FactId,
    },
    Need {
        fact: FactId,
    },
    Goal {
        fact: FactId,
    },
}

/// Why a walk through a tree stopped.
#[derive(Clone, Copy, Debug)]
pub enum Stop {
    Found(Fault),
    NoMemory,
}

impl Stop {
    /// A child of the block needs a fact that it isn't safe for.
    pub fn inside(block: NodeId, child: NodeId, fact: FactId) -> Stop
        ensures { result ≡ Found (Inside block child fact) }
    {
        Stop::Found(Fault::Inside { block, child, fact })
    }
}

impl From<NoMemory> for Stop {
    ghost use Rattle.std.specs.Prelude.{◌≡◌};
    ghost use Rattle.bd_links.specs.declared.parts.Stop.TheVariants.{NoMemory as Memory};

    ghost from_gives = { λ _ e. e ≡ Memory };

    fn from(_: NoMemory) -> Self {
        Stop::NoMemory
    }
}

impl From<AllocError> for Stop {
    ghost use Rattle.std.specs.Prelude.{◌≡◌};
    ghost use Rattle.bd_links.specs.declared.parts.Stop.TheVariants.{NoMemory as Memory};

    ghost from_gives = { λ _ e. e ≡ Memory };

    fn from(_: AllocError) -> Self {
        Stop::NoMemory
    }
}

impl<T: Drop> From<AllocFailed<T>> for Stop {
    ghost use Rattle.std.specs.Prelude.{◌≡◌};
    ghost use Rattle.bd_links.specs.declared.parts.Stop.TheVariants.{NoMemory as Memory};

    ghost from_gives = { λ _ e. e ≡ Memory };

    fn from(_: AllocFailed<T>) -> Self {
        Stop::NoMemory
    }
}
