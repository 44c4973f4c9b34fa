ghost use Rattle.std.specs.Prelude.{◌≡◌, ℕ, suc, List, ◌++◌};
ghost use Rattle.beh.specs.Agree.{Agree, GoesOn, Match};
ghost use Rattle.beh.specs.Behaviour.{Behaviour};
ghost use Rattle.mid_ast.specs.declared.item.MidUnit.{MidUnit};
ghost use Rattle.mid_rules.specs.Core.{Items};
ghost use Rattle.mid_rules.specs.Mid.{IsStill, Meaning, Mid, Placed, PlacedMeaning};
ghost use Rattle.mid_rules.specs.Units.{placed_tree, units_tree};
ghost use Rattle.runs.specs.Meaning.{Go, ev_items, then_do};
ghost use Rattle.runs.specs.Names.{Part};
ghost use Rattle.runs.specs.Ordered.{Still};
ghost use Rattle.runs.specs.Primitives.{St};
ghost use Rattle.runs.specs.Scope.{Scope};
ghost use Rattle.runs.specs.Seen.{Config, ConfigStep, seen_config};
ghost use Rattle.runs.specs.Tree.{Exp};

/// The meaning of units only goes on as n grows.
pub fn goes_on()
    ensures plain { (units : List Items) → GoesOn (Meaning units) }
    ensures declared { (units : List MidUnit) → GoesOn (Mid units) }
    ensures placed { (units : List (Part × MidUnit)) → GoesOn (Placed units) }
{}

/// What matches the meaning of units agrees with the runs with which that meaning agrees.
pub fn agrees_through()
    ensures units { (p : ℕ → Behaviour) (units : List MidUnit) (start : Config) → Match p (Mid units) → Agree (Mid units) ConfigStep seen_config start → Agree p ConfigStep seen_config start }
    ensures placed { (p : ℕ → Behaviour) (units : List (Part × MidUnit)) (start : Config) → Match p (Placed units) → Agree (Placed units) ConfigStep seen_config start → Agree p ConfigStep seen_config start }
{}

/// Of units one after another, the later ones are evaluated in the scope that the earlier ones leave.
pub fn one_after_another()
    ensures units { (go : Go) (us vs : List Items) (c : Scope) (s : St) → ev_items go c (units_tree (us ++ vs)) s ≡ then_do (ev_items go c (units_tree us) s) (λ d t. ev_items go d (units_tree vs) t) }
    ensures placed { (go : Go) (us vs : List (Part × Items)) (c : Scope) (s : St) → ev_items go c (placed_tree (us ++ vs)) s ≡ then_do (ev_items go c (placed_tree us) s) (λ d t. ev_items go d (placed_tree vs) t) }
{}

/// A literal, a name, a function, and a tuple, a constructor or a list of such is still.
pub fn still_by_form()
    ensures { (e : Exp) → Still e → IsStill e }
{}
