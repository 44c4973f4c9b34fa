ghost use Rattle.std.specs.Prelude.{◌≡◌, ℕ, suc, List, [], ◌∷◌, codes, Bool, true, false, Option, Some};
ghost use Rattle.runs.specs.Env.{Env, close_pat, empty, put, under};
ghost use Rattle.runs.specs.Examples.{joined, many_prints, printer, rt_part};
ghost use Rattle.runs.specs.Forms.{call};
ghost use Rattle.runs.specs.Items.{Scope, ev_items, inside, with_struct, with_vars};
ghost use Rattle.runs.specs.Meaning.{Done, Go, ev, mean};
ghost use Rattle.runs.specs.Names.{Name, Part, same, same_part};
ghost use Rattle.runs.specs.Ordered.{OrderedItems};
ghost use Rattle.runs.specs.Patterns.{matched};
ghost use Rattle.runs.specs.Primitives.{St, body, written};
ghost use Rattle.runs.specs.Tree.{Clo, Const, Datum, Exp, Fall, Items, Lit, Pat, Rules, Struct, Val, Value, Var};

/// The test of parts is true exactly where they are equal.
pub fn same_parts()
    ensures equal { (p q : Part) → same_part p q ≡ true → p ≡ q }
    ensures itself { (p : Part) → same_part p p ≡ true }
    ensures apart { (p q : Part) → (p ≡ q → ⊥) → same_part p q ≡ false }
{}

/// So is that of paths.
pub fn same_paths()
    ensures equal { (x y : Name) → same x y ≡ true → x ≡ y }
    ensures itself { (x : Name) → same x x ≡ true }
    ensures apart { (x y : Name) → (x ≡ y → ⊥) → same x y ≡ false }
{}

/// A value that was put in is there, and the others are as before.
pub fn value_put()
    ensures here { (x : Name) (v : Val) (env : Env) → put x v env x ≡ Some v }
    ensures beside { (x y : Name) (v : Val) (env : Env) → same x y ≡ false → put x v env y ≡ env y }
{}

/// A path through a structure leads into it, and a path through another one leads where it led.
pub fn path_through()
    ensures inside { (p : Part) (b env : Env) (r : Part) (x : Name) → under p b env (p ∷ r ∷ x) ≡ b (r ∷ x) }
    ensures beside { (p q : Part) (b env : Env) (r : Part) (x : Name) → same_part p q ≡ false → under p b env (q ∷ r ∷ x) ≡ env (q ∷ r ∷ x) }
{}

/// One value item more: the row goes on with the variables of its pattern.
pub fn one_value_more()
    ensures { (go : Go) (c : Scope) (f : Fall) (p : Pat) (a : Exp) (is : Items) (s : St) (v : Val) (t : St) (bs : Env) → ev go c.env a s ≡ Done v t → matched t.mem (close_pat c.env p) v ≡ Some bs → ev_items go c (Value f p a is) s ≡ ev_items go (with_vars bs c) is t }
{}

/// One structure more: the row goes on with its values under its part.
pub fn one_structure_more()
    ensures { (go : Go) (c : Scope) (p : Part) (items is : Items) (s : St) (b : Scope) (t : St) → ev_items go (inside c) items s ≡ Done b t → ev_items go c (Struct p items is) s ≡ ev_items go (with_struct p b.own c) is t }
{}

/// The call of a function that stands at a path, on a literal.
pub fn call_by_path()
    ensures { (go : Go) (env : Env) (x : Name) (f : Fall) (rs : Rules) (k : Const) (s : St) → env x ≡ Some (Clo f rs) → ev go env (call (Var x) (Lit k)) s ≡ go empty (body f rs (Datum k)) s }
{}

/// A row of any number of prints writes its texts one after another, and is ordered.
pub fn many_prints_write()
    ensures means { (n : ℕ) (ts : List (List ℕ)) (c : Scope) (s : St) → c.env (rt_part ∷ codes "print" ∷ []) ≡ Some printer → ev_items (mean (suc n)) c (many_prints ts) s ≡ Done c (written (joined ts) s) }
    ensures ordered { (ts : List (List ℕ)) → OrderedItems (many_prints ts) }
{}
