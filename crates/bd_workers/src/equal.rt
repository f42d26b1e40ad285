// Whether two subtasks are equal.
ghost use Rattle.std.specs.Prelude.{◌≡◌, IsTrue};

use bd_base::FactSet;
use bd_subtask::SubTask;

fn is_same_set(a: &FactSet, b: &FactSet) -> bool
    ensures { IsTrue result → a.now ≡ b.now }
{
    let _a = a.iter();
    let _b = b.iter();
    a.subset(b) && b.subset(a)
}

/// Where it holds, the two are equal.
pub fn is_same(a: &SubTask, b: &SubTask) -> bool
    ensures { IsTrue result → a.now ≡ b.now }
{
    a.bound == b.bound
        && is_same_set(&a.goal, &b.goal)
        && is_same_set(&a.make, &b.make)
        && is_same_set(&a.keep, &b.keep)
        && is_same_set(&a.init, &b.init)
}

// A number that changes with each fact of the set.
fn mixed(start: u64, set: &FactSet) -> u64 {
    let mut key = start.wrapping_mul(31).wrapping_add(set.len() as u64);
    for fact in set.iter() {
        key = (key ^ fact.0 as u64).wrapping_mul(1_099_511_628_211);
    }
    key
}

/// A number that equal subtasks share, and others hardly ever.
pub fn key_of(sub: &SubTask) -> u64 {
    let front = mixed(mixed(sub.bound, &sub.init), &sub.goal);
    mixed(mixed(front, &sub.make), &sub.keep)
}
