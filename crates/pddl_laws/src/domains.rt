ghost use Rattle.std.specs.Prelude.{◌≡◌, ◌↔◌, ℕ, List, [], Option, Ok, false};
ghost use Rattle.pddl_lex.specs.declared.sexp.Sexp.{Sexp};
ghost use Rattle.pddl_types.specs.declared.domains.Schema.{Schema};
ghost use Rattle.pddl_types.specs.declared.domains.Domain.{Domain};
ghost use Rattle.pddl_form.specs.Groups.{groups};
ghost use Rattle.pddl_domain.specs.Types.{Types, only_object, types_from};
ghost use Rattle.pddl_domain.specs.Whole.{domain_at};
ghost use Rattle.pddl_laws.specs.Types.{SpellsTypes};
ghost use Rattle.pddl_laws.specs.Whole.{SpellsDomain};
ghost use Rattle.pddl_form.specs.Trees.{Headed};
ghost use Rattle.pddl_form.specs.Things.{Table, no_rows};
ghost use Rattle.pddl_form.specs.Terms.{Scope};
ghost use Rattle.pddl_domain.specs.Outline.{Outline, outline_at};
ghost use Rattle.pddl_domain.specs.Params.{params_at};
ghost use Rattle.pddl_domain.specs.Heads.{functions_from};
ghost use Rattle.pddl_domain.specs.Conditions.{Condition, condition_at};
ghost use Rattle.pddl_domain.specs.Effects.{Effect, effect_at};
ghost use Rattle.pddl_domain.specs.Domain.{Declared};
ghost use Rattle.pddl_domain.specs.Actions.{actions_from};
ghost use Rattle.pddl_laws.specs.Outlines.{SpellsDomainOutline};
ghost use Rattle.pddl_laws.specs.Params.{SpellsParamsField};
ghost use Rattle.pddl_laws.specs.Functions.{SpellsFunctions};
ghost use Rattle.pddl_laws.specs.Conditions.{SpellsCondition};
ghost use Rattle.pddl_laws.specs.Effects.{SpellsEffect};
ghost use Rattle.pddl_laws.specs.Actions.{SpellsActions};

/// The sections of a domain.
pub fn domain_outline_law()
    ensures { (tree : Sexp) (o : Outline) → outline_at tree ≡ Ok o ↔ SpellsDomainOutline tree o }
{}

/// The functions of a list at a place.
pub fn functions_law()
    ensures { (place : ℕ) (items : List Sexp) (table : Table) → functions_from place false false no_rows items ≡ Ok table ↔ SpellsFunctions items table }
{}

/// The parameters of an action.
pub fn parameters_law()
    ensures { (types : List (List ℕ)) (field : Option Sexp) (params : Table) → params_at types field ≡ Ok params ↔ SpellsParamsField types field params }
{}

/// A precondition.
pub fn condition_law()
    ensures { (scope : Scope) (predicates : Table) (tree : Sexp) (c : Condition) → condition_at scope predicates tree ≡ Ok c ↔ SpellsCondition scope predicates tree c }
{}

/// An effect.
pub fn effect_law()
    ensures { (scope : Scope) (predicates functions : Table) (tree : Sexp) (e : Effect) → effect_at scope predicates functions tree ≡ Ok e ↔ SpellsEffect scope predicates functions tree e }
{}

/// The actions of a domain, by what it declares before them.
pub fn actions_law()
    ensures { (d : Declared) (hs : List Headed) (schemas : List Schema) → actions_from d [] [] hs ≡ Ok schemas ↔ SpellsActions d hs schemas }
{}

/// The types of a list at a place.
pub fn types_law()
    ensures { (place : ℕ) (items : List Sexp) (t : Types) → types_from only_object (groups false place items) ≡ Ok t ↔ SpellsTypes items t }
{}

/// A whole domain.
pub fn domain_law()
    ensures { (tree : Sexp) (d : Domain) → domain_at tree ≡ Ok d ↔ SpellsDomain tree d }
{}

/// No tree spells two domains.
pub fn one_domain()
    ensures { (tree : Sexp) (a b : Domain) → SpellsDomain tree a → SpellsDomain tree b → a ≡ b }
{}
