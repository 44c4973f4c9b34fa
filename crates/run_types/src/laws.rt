ghost use Rattle.std.specs.Prelude.{◌≡◌, ℕ, suc, [], ◌∷◌, Bool, true, List, length, Option, Some};
ghost use Rattle.run_types.specs.Safe.{GivensOk, Ok, val_has};
ghost use Rattle.run_types.specs.Types.{Bools, Ctx, Given, Has, HasVal, Holds, Kind, Names, Puts, Ty, Tys, World, bool_ty, equal, no_ctx, real};
ghost use Rattle.run_types.specs.Basic.{Basic, basic_world, text_types};
ghost use Rattle.run_types.specs.Quotient.{quotient_given};
ghost use Rattle.run_types.specs.TypedTexts.{after_hello, after_twice, bad_cell, twice};
ghost use Rattle.runs.specs.Examples.{hello};
ghost use Rattle.runs.specs.Forms.{choice, text_scope};
ghost use Rattle.runs.specs.Names.{Part};
ghost use Rattle.run_types.specs.Complete.{Complete, and_else};
ghost use Rattle.run_types.specs.Equality.{EqualNames, same_val};
ghost use Rattle.run_types.specs.Written.{Chosen, Levels, Polys, Realises, ScopeLevels, ScopePoly, Written, WrittenItems, at, scope_at};
ghost use Rattle.runs.specs.Env.{Env};
ghost use Rattle.runs.specs.Meaning.{Go, Raised, Wrong, ev, mean};
ghost use Rattle.runs.specs.Primitives.{St, start};
ghost use Rattle.runs.specs.Tree.{Case, Exp, Fall, Items, Raises, Rules, Stuck, Val};
ghost use Rattle.runs.specs.Items.{Scope, mean_items};
ghost use Rattle.runs.specs.Ordered.{OrderedItems, OrderedMem, OrderedScope};
ghost use Rattle.runs.specs.Seen.{ConfigStep, at_start, behaviour, seen_config};
ghost use Rattle.beh.specs.Agree.{Agree};
ghost use Rattle.run_types.specs.TypedItems.{HasItems, ScopeTy, scope_has};

/// The evaluation of a typed tree, at each n and in each state of the world, ends well: never where there is no rule, and with a value of the type, an exception or more to do.
pub fn ends_well()
    ensures { (n : ℕ) (w : World) (g : Ctx) (env : Env) (e : Exp) (t : Ty) (s : St) → GivensOk w.givens → Puts w g no_ctx env → Has w g e t → Holds w s → Ok (val_has t) w (mean n env e s) }
{}

/// The same for a row of items, with structures; what it leaves is typed again, so a further row may follow.
pub fn row_ends_well()
    ensures { (n : ℕ) (is : Items) (w : World) (c d : ScopeTy) (e : Scope) (s : St) → GivensOk w.givens → scope_has c w e → HasItems w c is d → Holds w s → Ok (scope_has d) w (mean_items n e is s) }
{}

/// A typed and ordered row of items runs, in whatever order, as it means.
pub fn typed_row()
    ensures { (is : Items) (w : World) (c d : ScopeTy) (e : Scope) (s : St) → GivensOk w.givens → scope_has c w e → HasItems w c is d → Holds w s → OrderedScope e → OrderedItems is → OrderedMem s.mem → Agree (λ n. behaviour (mean_items n e is s)) ConfigStep seen_config (at_start e is s) }
{}

/// A tree that is typed with type variables and type names has a type for each choice of types for the variables, and for what the names are.
pub fn each_choice()
    ensures { (e : Exp) (w k : World) (r : Names) → Realises w k r → (ds : List Kind) (g : Polys) (t : Ty) (f : ℕ → Ty) → Chosen ds f → Levels (length ds) g → Written w ds g e t → Has k (at r f g) e (real r f t) }
{}

/// A row of items that is typed with type variables ends well, and a further one may follow.
pub fn written_row()
    ensures { (n : ℕ) (is : Items) (w : World) (c d : ScopePoly) (e : Scope) (s : St) → GivensOk w.givens → ScopeLevels c → scope_has (scope_at c) w e → WrittenItems w c is d → Holds w s → ScopeLevels d × Ok (scope_has (scope_at d)) w (mean_items n e is s) }
{}

/// Where the rules take each value of the type, what would come else makes no difference.
pub fn dropped_rule()
    ensures { (n : ℕ) (w : World) (g : Ctx) (env : Env) (f h : Fall) (a : Exp) (u : Ty) (rs : Rules) (s : St) → GivensOk w.givens → Puts w g no_ctx env → Has w g a u → Holds w s → Complete w env rs u → mean n env (Case f a rs) s ≡ mean n env (Case h a rs) s }
{}

/// A last rule that raises serves in place of what would come else.
pub fn last_rule()
    ensures { (go : Go) (env : Env) (a : Exp) (rs : Rules) (b : Exp) (v : Val) (s : St) → ((t : St) → ev go env b t ≡ Raised v t) → ev go env (Case Stuck a (and_else rs b)) s ≡ ev go env (Case (Raises v) a rs) s }
{}

/// On two values of a type that admits equality, equality has an answer.
pub fn equality_answers()
    ensures { (w : World) (v : Val) (t : Ty) (u : Val) → EqualNames w → equal t ≡ true → HasVal w v t → HasVal w u t → (b : Bool) × (same_val v u ≡ Some b) }
{}

/// Where a text begins, its state is one of the world.
pub fn start_holds()
    ensures { (more : ℕ → Bool → Part → Option Tys) (givens : List Given) → Holds (basic_world more givens) start }
{}

/// And the predefined values have their types.
pub fn text_begins_typed()
    ensures { (w : World) → Bools w → scope_has text_types w text_scope }
{}

/// A condition is typed: its rules take both truth values, so nothing comes else.
pub fn choice_is_typed()
    ensures { (w : World) (g : Ctx) (a b c : Exp) (t : Ty) → Basic w → Has w g a bool_ty → Has w g b t → Has w g c t → Has w g (choice a b c) t }
{}

/// Where a text begins, bool and list have their constructors and no others.
pub fn begins_basic()
    ensures { (more : ℕ → Bool → Part → Option Tys) (givens : List Given) → Basic (basic_world more givens) }
{}

/// Where no function is given, nothing is owed for given functions.
pub fn none_given()
    ensures { GivensOk [] }
{}

/// A given function that divides where it may: each call of it ends well.
pub fn quotient_is_ok()
    ensures { GivensOk (quotient_given ∷ []) }
{}

/// A text whose structure calls the function of an earlier one is typed.
pub fn hello_is_typed()
    ensures { (w : World) (t : List ℕ) → HasItems w text_types (hello t) after_hello }
{}

/// A function that is used at two types is typed.
pub fn identity_is_typed()
    ensures { (w : World) → HasItems w text_types twice after_twice }
{}

/// A cell whose type would have to be a scheme goes wrong.
pub fn cell_goes_wrong()
    ensures { (n : ℕ) → (s : St) × (mean_items (suc (suc n)) text_scope bad_cell start ≡ Wrong s) }
{}
