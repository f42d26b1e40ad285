// What the sides of a pair may be.
ghost use Rattle.std.specs.Prelude.{◌≡◌, ◌||◌, ℕ, IfOk, [], ◌∷◌};
ghost use Rattle.bd_base.specs.Facts.{has};
ghost use Rattle.bd_tight.specs.Candidates.{concerns};
ghost use Rattle.bd_tight.specs.Gains.{facts_between, ids_related, sides_by};

use bd_base::{FactId, FromItems, IdList, Items, NoMemory, NodeId};
use bd_links::Child;
use bd_reason::reasons_between;
use bd_shape::hull;
use bd_tree::Node;
use std::alloc::Global;

// Whether the kid needs, gives or deletes the fact.
fn is_touched(kid: &Child<'_>, p: FactId) -> bool
    ensures { result ≡ (has kid.now.effects.need p || has kid.now.effects.add p || has kid.now.effects.del p) }
{
    kid.need().has(p) || kid.add().has(p) || kid.del().has(p)
}

// Whether it needs, gives or deletes one of the facts.
fn concerns(facts: &[FactId], kid: &Child<'_>) -> bool
    ensures { result ≡ concerns facts.now kid.now.effects }
{
    facts.iter().any(|p| is_touched(kid, *p))
}

/// The facts of the reasons of two.
pub(crate) fn facts_between(
    alloc: Global,
    from: &Child<'_>,
    to: &Child<'_>,
) -> Result<Vec<FactId>, NoMemory>
    ensures { IfOk result (λ v. v.items ≡ facts_between from.now.effects to.now.effects) }
{
    let reasons = reasons_between(alloc, from, to)?;
    let mut facts = Vec::new(alloc);
    for reason in &reasons {
        facts.push(reason.fact())?;
    }
    Ok(facts)
}

/// The ids of the kids that need, give or delete one of the facts.
pub(crate) fn related(
    alloc: Global,
    facts: &[FactId],
    kids: &[Child<'_>],
) -> Result<Vec<NodeId>, NoMemory>
    ensures { IfOk result (λ v. v.items ≡ ids_related facts.now kids.now) }
{
    let mut ids = Vec::new(alloc);
    for kid in kids {
        if concerns(facts, kid) {
            ids.push(kid.id())?;
        }
    }
    Ok(ids)
}

/// The same, those from place j on before the others.
pub(crate) fn related_from(
    alloc: Global,
    facts: &[FactId],
    kids: &[Child<'_>],
    j: u32,
) -> Result<Vec<NodeId>, NoMemory>
    ensures { IfOk result (λ v. (q : ℕ) → has v.items q ≡ has (ids_related facts.now kids.now) q) }
{
    let from = (j as usize).min(kids.len());
    let mut ids = related(alloc, facts, &kids[from..])?;
    let others = related(alloc, facts, &kids[..from])?;
    ids.extend_from_slice(&others)?;
    Ok(ids)
}

// The kid by itself.
fn alone(alloc: Global, id: NodeId) -> Result<IdList, NoMemory>
    ensures { IfOk result (λ ids. ids ≡ id ∷ []) }
{
    let mut ids = Vec::new(alloc);
    ids.push(id)?;
    Ok(Items::of(ids))
}

/// What a side may be: the kid by itself, or the hull of it and another.
pub(crate) fn sides(
    alloc: Global,
    block: &Node,
    id: NodeId,
    others: &[NodeId],
) -> Result<Vec<IdList>, NoMemory>
    ensures { IfOk result (λ v. v.items ≡ sides_by block.now id others.now) }
{
    let mut all = Vec::new(alloc);
    all.push(alone(alloc, id)?)?;
    for other in others {
        all.push(hull(alloc, block, id, *other)?)?;
    }
    Ok(all)
}
