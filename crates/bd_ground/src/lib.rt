//! Grounding: which instances the schemas of a domain have in a problem, and the ground task that they make.
//!
//! It may know bd_base, bd_task and pddl_types. It promises that `ground` answers exactly the defined task, whose actions
//! are the instances that have a cost, in order, or the first limit that is passed; and that a list is valid for that
//! task exactly where its calls run by the schemas from the init list to the goal (`calls_run`).
//! The definition tests each list of arguments by itself. The code chooses them one by one: it tries the objects that the
//! fewest stated atoms allow, found by an index, and tests each condition as soon as it is decided.
//! Crates above may cite the lemmas of proofs/MemberLemmas, AtomLemmas and TableLemmas.
#![tactic(auto)]

mod atoms;
mod choices;
mod costs;
mod extend;
mod facts;
mod filling;
mod fitting;
mod found;
mod gather;
mod grounding;
mod grounding_err;
mod index;
mod law;
mod made;
mod naming;
mod narrowing;
mod offers;
mod parts;
mod prices;
mod sets;
mod singles;
mod world;

pub use filling::{is_same, object_of};
pub use grounding::ground;
pub use grounding_err::GroundErr;
pub use law::calls_run;
pub use world::{fits, is_static, thing};
