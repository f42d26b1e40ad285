// What is kept of a block.
ghost use Rattle.std.specs.Prelude.{◌≡◌, IfOk};
ghost use Rattle.bd_subtask.specs.Level.{Keeps};

use crate::fact_rows::{FactRow, rows_of, touched_of};
use bd_base::{FactSet, NoMemory, NodeId, OwnedRow, PairList};
use bd_links::{Child, Effects, effects_of_block};
use bd_tree::Node;
use std::alloc::Global;

/// What is kept of a block: its node, what its kids do to each fact, what the whole of it does, what is certain there,
/// and what is mentioned outside it.
#[derive(Drop)]
pub struct Level<'t> {
    pub block: NodeId,
    pub node: &'t Node,
    pub rows: Vec<FactRow>,
    pub touched: Vec<OwnedRow>,
    pub whole: Effects,
    pub certain: FactSet,
    pub mentioned: FactSet,
}

/// What is kept of a block whose kids have these effects, where these facts are certain and mentioned.
pub fn level_of<'t>(
    alloc: Global,
    block: NodeId,
    node: &'t Node,
    parts: &[Child<'_>],
    order: &PairList,
    certain: FactSet,
    mentioned: FactSet,
) -> Result<Level<'t>, NoMemory>
    ensures kept { IfOk result (λ l. Keeps parts.now order.now l) }
    ensures block { IfOk result (λ l. l.block ≡ block) }
    ensures node { IfOk result (λ l. l.node.now ≡ node.now) }
    ensures certain { IfOk result (λ l. l.certain ≡ certain) }
    ensures mentioned { IfOk result (λ l. l.mentioned ≡ mentioned) }
{
    let rows = rows_of(alloc, parts)?;
    let touched = touched_of(alloc, &rows, parts)?;
    let whole = effects_of_block(alloc, order, parts)?;
    Ok(Level {
        block,
        node,
        rows,
        touched,
        whole,
        certain,
        mentioned,
    })
}
