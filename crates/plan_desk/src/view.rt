// What the seats know, the rule that ties it to the table, and the steps.
ghost use Rattle.std.specs.Prelude.{◌≡◌};

use atomic_table::{Join, Play, Split, TableRule};
use plan_core::{Core, Offer};
use std::collections::LinkedList;
use std::snapshot::Snapshot;

/// Where a seat is in its call.
pub enum Phase {
    Idle,
    /// It has the turn, and holds the core.
    Busy,
    /// It was joined to another.
    Spent,
}

/// What a seat knows. No value of it is made.
pub struct View {
    /// The core that the desk began with.
    pub brought: Core,
    pub seen: LinkedList<Offer>,
    /// The places of its own accepted offers.
    pub mine: LinkedList<u64>,
    /// What a seat had seen that was joined to it, until it is merged.
    pub met: LinkedList<Offer>,
    pub gained: LinkedList<u64>,
    pub leads: bool,
    pub out: u64,
    pub phase: Phase,
}

pub struct Law;

impl TableRule<Core, View, Snapshot<Core>> for Law {
    ghost use Rattle.plan_desk.specs.Rules.{Kept, leading};

    ghost holds = { λ k s. Kept k.value s };

    ghost first = { λ k. leading k.value };
}

pub struct Take;

impl Play<Core, View> for Take {
    ghost use Rattle.plan_desk.specs.Rules.{Takes};

    ghost then = { Takes };
}

pub struct GiveBack;

impl Play<Core, View> for GiveBack {
    ghost use Rattle.plan_desk.specs.Rules.{GivesBack};

    ghost then = { GivesBack };
}

pub struct GiveMore;

impl Play<Core, View> for GiveMore {
    ghost use Rattle.plan_desk.specs.Rules.{GivesMore};

    ghost then = { GivesMore };
}

pub struct Count;

impl Play<Core, View> for Count {
    ghost use Rattle.plan_desk.specs.Rules.{Counts};

    ghost then = { Counts };
}

pub struct Part;

impl Split<View> for Part {
    ghost use Rattle.plan_desk.specs.Rules.{parted, newcomer};

    ghost left = { parted };

    ghost right = { newcomer };
}

pub struct Together;

impl Join<View> for Together {
    ghost use Rattle.plan_desk.specs.Rules.{met_with, spent};

    ghost both = { met_with };

    ghost spent = { spent };
}

pub struct Merge;

impl Play<Core, View> for Merge {
    ghost use Rattle.plan_desk.specs.Rules.{Merges};

    ghost then = { Merges };
}
