ghost use Rattle.std.specs.Prelude.{◌≡◌, ◌≤◌, false, length, slice_get, take};
ghost use Rattle.std.specs.Option.{option_map, option_map_or};
ghost use Rattle.std.specs.Str.{bytes_eq};
ghost use Rattle.pddl_types.specs.Readable.{IsDomain, IsProblem};
ghost use Rattle.bd_ground.specs.Instances.{things_of};
ghost use Rattle.plan_calls.specs.Judging.{schema_named, thing_named, things_named, judged_at, judged, Fills};

use crate::meeting::{cost_of, is_instance};
use bd_base::Text;
use bd_ground::thing;
use pddl_types::{Call, Domain, Problem, Schema};

/// What a call comes to.
#[derive(Clone, Copy, Debug, PartialEq, Eq)]
pub enum Judged {
    /// It is an action of the ground task.
    Instance,
    /// It is an instance, but the function that is its cost has no value there.
    NoCost,
    /// It is no instance.
    NoAction,
}

/// The most parameters that a schema has.
const PARAMETERS: usize = 16;

fn schema_named<'a>(schemas: &'a [Schema], name: &[u8]) -> Option<&'a Schema>
    ensures { option_map (λ s. s.now) result ≡ schema_named schemas.now name.now }
{
    for s in schemas {
        if *s.name.as_slice() == *name {
            return Some(s);
        }
    }
    None
}

// Whether a constant or an object has the name.
fn is_named(domain: &Domain, problem: &Problem, o: u32, name: &[u8]) -> bool
    ensures { result ≡ option_map_or (λ t. bytes_eq t.name name.now) (slice_get (things_of domain.now problem.now) o) false }
{
    match thing(domain, problem, o) {
        None => false,
        Some(t) => *t.name.as_slice() == *name,
    }
}

// The number of the constant or object with a name.
fn thing_named(domain: &Domain, problem: &Problem, name: &[u8]) -> Option<u32>
    requires { IsProblem domain.now problem.now }
    ensures { result ≡ thing_named (things_of domain.now problem.now) name.now }
{
    let n = domain.constants.as_slice().len() + problem.objects.as_slice().len();
    for o in 0..n as u32 {
        if is_named(domain, problem, o, name) {
            return Some(o);
        }
    }
    None
}

// Writes the numbers of the constants and objects with these names, unless a name is none.
fn fill(domain: &Domain, problem: &Problem, names: &[Text], args: &mut [u32]) -> bool
    requires problem { IsProblem domain.now problem.now }
    requires room { length names.now ≤ length args.old }
    ensures fills { Fills (things_named (things_of domain.now problem.now) names.now) result (take (length names.now) args.new) }
{
    for (k, name) in names.iter().enumerate() {
        match thing_named(domain, problem, name.as_slice()) {
            None => return false,
            Some(o) => args[k] = o,
        }
    }
    true
}

fn judge_at(domain: &Domain, problem: &Problem, schema: &Schema, args: &[u32]) -> Judged
    ensures { result ≡ judged_at domain.now problem.now schema.now args.now }
{
    if !is_instance(domain, problem, schema, args) {
        return Judged::NoAction;
    }
    match cost_of(problem, schema, args) {
        None => Judged::NoCost,
        Some(_) => Judged::Instance,
    }
}

/// What a call comes to by the schemas, the objects and the init list. It takes no memory.
pub fn judge_call(domain: &Domain, problem: &Problem, call: &Call) -> Judged
    requires domain { IsDomain domain.now }
    requires problem { IsProblem domain.now problem.now }
    ensures { result ≡ judged domain.now problem.now call.now }
{
    let names = call.args.as_slice();
    match schema_named(domain.schemas.as_slice(), call.name.as_slice()) {
        None => Judged::NoAction,
        Some(schema) => {
            if names.len() > PARAMETERS {
                return Judged::NoAction;
            }
            let mut args = [0u32; PARAMETERS];
            if !fill(domain, problem, names, &mut args) {
                return Judged::NoAction;
            }
            judge_at(domain, problem, schema, &args[..names.len()])
        }
    }
}
