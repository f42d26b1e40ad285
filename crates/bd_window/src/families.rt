// The family of windows of a tree: the whole list, and a walk through it.
ghost use Rattle.std.specs.Prelude.{◌≡◌, ◌<◌, ◌^◌, IfOk, OnErr};
ghost use Rattle.bd_tree.specs.Tree.{nodes_of};
ghost use Rattle.bd_window.specs.Family.{Comes, family_of};
ghost use Rattle.bd_window.specs.Law.{AllStand};

use crate::cutting::{Cut, cuts};
use bd_base::NoMemory;
use bd_merge::Window;
use bd_tree::Tree;
use std::alloc::Global;
use std::marker::Model;

/// The family of windows of a tree at a width.
pub fn family(alloc: Global, tree: &Tree, width: u32) -> Result<Vec<Window>, NoMemory>
    requires few { nodes_of tree.now < 2 ^ 32 }
    ensures family { IfOk result (λ v. v.items ≡ family_of width tree.now) }
    ensures stand { IfOk result (λ v. AllStand tree.now v.items) }
{
    let cuts = cuts(alloc, tree, width)?;
    let mut windows = Vec::new(alloc);
    for cut in cuts.as_slice() {
        windows.push(cut.window(alloc)?)?;
    }
    Ok(windows)
}

/// A walk through the family of windows of a tree, seen as the windows that are still to come. It holds which kids
/// each window has, and copies them only when the window is given.
#[derive(Drop)]
pub struct FamilyWalk<'a> {
    cuts: Vec<Cut<'a>>,
    at: usize,
}

impl<'a> Model for FamilyWalk<'a> {
    ghost use Rattle.std.specs.Prelude.{List, drop};
    ghost use Rattle.std.specs.Coded.{codes};
    ghost use Rattle.bd_tree.specs.contracts.node.Node as node;
    ghost use Rattle.bd_merge.specs.declared.window.Window.{Window};

    ghost Value = { List Window };

    ghost coded = { Prim.hlevel (codes, node.the_row.coded) };

    ghost view = { λ w. drop w.at w.cuts.items };
}

impl<'a> FamilyWalk<'a> {
    /// The walk through the family of a tree at a width. It finds the sets of kids, and copies none.
    pub fn of(alloc: Global, tree: &'a Tree, width: u32) -> Result<FamilyWalk<'a>, NoMemory>
        requires few { nodes_of tree.now < 2 ^ 32 }
        ensures family { IfOk result (λ w. w ≡ family_of width tree.now) }
        ensures stand { IfOk result (λ w. AllStand tree.now w) }
    {
        Ok(FamilyWalk {
            cuts: cuts(alloc, tree, width)?,
            at: 0,
        })
    }

    /// The next window, or none at the end.
    pub fn next(&mut self, alloc: Global) -> Result<Option<Window>, NoMemory>
        ensures next { IfOk result (λ given. Comes given self.old self.new) }
        ensures err { OnErr result (self.new ≡ self.old) }
    {
        match self.cuts.get(self.at) {
            None => Ok(None),
            Some(cut) => {
                let window = cut.window(alloc)?;
                self.at += 1;
                Ok(Some(window))
            }
        }
    }
}
