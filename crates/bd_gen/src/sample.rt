ghost use Rattle.std.specs.Prelude.{◌≡◌, ◌≤◌, ◌<◌, IfOk};
ghost use Rattle.bd_gen.specs.Errands.{plan_of, problem_of};

use crate::lines::{
    push_all_wanted, push_errands, push_parcel_names, push_place_names, push_places, push_roads,
};
use bd_base::{FromItems, Items, NoMemory, Text};
use std::alloc::Global;

/// The domain of the errands: roads with lengths, and parcels that are got where they lie.
pub const DOMAIN: &[u8] =
    b"(define (domain errands)\n(:requirements :strips :typing :action-costs)\n(:types place parcel)\n(:predicates (at ?p - place) (road ?f ?t - place) (lies ?q - parcel ?p - place) (have ?q - parcel))\n(:functions (total-cost) - number (len ?f ?t - place) - number)\n(:action drive\n:parameters (?f ?t - place)\n:precondition (and (at ?f) (road ?f ?t))\n:effect (and (at ?t) (not (at ?f)) (increase (total-cost) (len ?f ?t))))\n(:action get\n:parameters (?q - parcel ?p - place)\n:precondition (and (at ?p) (lies ?q ?p))\n:effect (and (have ?q) (increase (total-cost) 1))))\n";

/// The texts of a problem with a plan.
#[derive(Drop)]
pub struct Sample {
    pub domain: Text,
    pub problem: Text,
    pub plan: Text,
}

fn problem_text(alloc: Global, n: u32) -> Result<Text, NoMemory>
    requires { (1 ≤ n) × (n ≤ 600) }
    ensures { IfOk result (λ text. text ≡ problem_of n) }
{
    let mut text = Vec::new(alloc);
    text.extend_from_slice(b"(define (problem errands)\n(:domain errands)\n(:objects l0")?;
    push_place_names(&mut text, n)?;
    text.extend_from_slice(b" - place")?;
    push_parcel_names(&mut text, n)?;
    text.extend_from_slice(b" - parcel)\n(:init (at l0) (= (total-cost) 0)\n")?;
    push_places(&mut text, n)?;
    push_roads(&mut text, n - 1)?;
    text.extend_from_slice(b")\n(:goal (and")?;
    push_all_wanted(&mut text, n)?;
    text.extend_from_slice(b" (at l0)))\n(:metric minimize (total-cost)))\n")?;
    Ok(Items::of(text))
}

fn plan_text(alloc: Global, n: u32) -> Result<Text, NoMemory>
    ensures { IfOk result (λ text. text ≡ plan_of n) }
{
    let mut text = Vec::new(alloc);
    push_errands(&mut text, n)?;
    Ok(Items::of(text))
}

/// The texts of so many errands, from 1 to 600; the plan costs 7 for each odd one and 5 for each even one.
/// docs/formats.md ("The generator") tells them.
pub fn generate(alloc: Global, n: u32) -> Result<Sample, NoMemory>
    requires { (1 ≤ n) × (n ≤ 600) }
    ensures domain { IfOk result (λ s. s.domain ≡ DOMAIN.now) }
    ensures problem { IfOk result (λ s. s.problem ≡ problem_of n) }
    ensures plan { IfOk result (λ s. s.plan ≡ plan_of n) }
{
    Ok(Sample {
        domain: Text::from_slice(alloc, DOMAIN)?,
        problem: problem_text(alloc, n)?,
        plan: plan_text(alloc, n)?,
    })
}
