ghost use Rattle.pddl_types.specs.declared.domains.Domain.{Domain};
ghost use Rattle.pddl_types.specs.declared.problems.Problem.{Problem};
ghost use Rattle.pddl_types.specs.declared.calls.Call.{Call};
ghost use Rattle.pddl_types.specs.Readable.{AreNamed};
ghost use Rattle.plan_calls.specs.Agreement.{HasNames, Agrees, ActionsDiffer};

/// Where all names are declared once, a call is found in the ground task exactly where it is judged an instance that
/// has a cost.
pub fn calls_agree()
    ensures { (d : Domain) (p : Problem) (call : Call) → AreNamed d p → HasNames call → Agrees d p call }
{}

/// Where all names are declared once, the ground task's actions have names that differ: each instance stands once.
pub fn actions_differ()
    ensures { (d : Domain) (p : Problem) → AreNamed d p → ActionsDiffer d p }
{}
