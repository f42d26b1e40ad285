ghost use Rattle.std.specs.Prelude.{◌≡◌, ◌↔◌, List, Bool, Option, Ok};
ghost use Rattle.pddl_lex.specs.declared.sexp.Sexp.{Sexp};
ghost use Rattle.pddl_types.specs.declared.terms.Atom.{Atom};
ghost use Rattle.pddl_types.specs.declared.domains.Domain.{Domain};
ghost use Rattle.pddl_types.specs.declared.problems.Problem.{Problem};
ghost use Rattle.pddl_problem.specs.Whole.{problem_at};
ghost use Rattle.pddl_laws.specs.Whole.{SpellsProblem};
ghost use Rattle.pddl_form.specs.Trees.{Headed};
ghost use Rattle.pddl_form.specs.Things.{Table};
ghost use Rattle.pddl_form.specs.Terms.{Scope};
ghost use Rattle.pddl_problem.specs.Outline.{Body, outline_at};
ghost use Rattle.pddl_problem.specs.Init.{Init, no_init, init_from};
ghost use Rattle.pddl_problem.specs.Goal.{goal_at, metric_at};
ghost use Rattle.pddl_laws.specs.Outlines.{SpellsProblemOutline};
ghost use Rattle.pddl_laws.specs.Stated.{SpellsInit, SpellsGoal, SpellsMetric};

/// The sections of a problem.
pub fn problem_outline_law()
    ensures { (tree : Sexp) (b : Body) → outline_at tree ≡ Ok b ↔ SpellsProblemOutline tree b }
{}

/// What holds at first, and the values.
pub fn init_law()
    ensures { (scope : Scope) (predicates functions : Table) (items : List Sexp) (all : Init) → init_from scope predicates functions no_init items ≡ Ok all ↔ SpellsInit scope predicates functions no_init items all }
{}

/// The atoms of a goal.
pub fn goal_law()
    ensures { (scope : Scope) (predicates : Table) (h : Headed) (atoms : List Atom) → goal_at scope predicates h ≡ Ok atoms ↔ SpellsGoal scope predicates h atoms }
{}

/// Whether there is a metric.
pub fn metric_law()
    ensures { (functions : Table) (section : Option Headed) (metric : Bool) → metric_at functions section ≡ Ok metric ↔ SpellsMetric functions section metric }
{}

/// A whole problem for a domain.
pub fn problem_law()
    ensures { (d : Domain) (tree : Sexp) (p : Problem) → problem_at d tree ≡ Ok p ↔ SpellsProblem d tree p }
{}

/// No tree spells two problems for a domain.
pub fn one_problem()
    ensures { (d : Domain) (tree : Sexp) (a b : Problem) → SpellsProblem d tree a → SpellsProblem d tree b → a ≡ b }
{}
