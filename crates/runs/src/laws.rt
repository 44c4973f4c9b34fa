ghost use Rattle.std.specs.Prelude.{◌≡◌, ℕ, suc, List, [], ◌∷◌, pos, codes, Option, Some, None};
ghost use Rattle.beh.specs.Agree.{Agree, GoesOn};
ghost use Rattle.beh.specs.Behaviour.{Ended, Raised};
ghost use Rattle.runs.specs.Env.{Env, close, empty, over};
ghost use Rattle.runs.specs.Forms.{text_scope, var};
ghost use Rattle.runs.specs.Items.{Scope, after, ev_items, mean_items};
ghost use Rattle.runs.specs.Meaning as meaning;
ghost use Rattle.runs.specs.Meaning.{Done, Go, Right, mean, then_do};
ghost use Rattle.runs.specs.Ordered.{Ordered, OrderedItems, OrderedMem, OrderedScope};
ghost use Rattle.runs.specs.Primitives.{St, start, written};
ghost use Rattle.runs.specs.Seen.{Place, PlaceStep, ConfigStep, at_start, behaviour, exn_name, seen_config, seen_place, shown};
ghost use Rattle.runs.specs.Tree.{Datum, Exp, Int, Items, Str, Val};

/// A tree of which at most one part of each row is not still runs, in whatever order, as it means.
pub fn any_order()
    ensures { (e : Exp) (s : St) → Ordered e → OrderedMem s.mem → ((n : ℕ) → Right (mean n empty e s)) → Agree (λ n. behaviour (mean n empty e s)) PlaceStep seen_place (record { tree = e; st = s }) }
{}

/// The same of a row of items.
pub fn rows_any_order()
    ensures { (c : Scope) (is : Items) (s : St) → OrderedScope c → OrderedItems is → OrderedMem s.mem → ((n : ℕ) → Right (mean_items n c is s)) → Agree (λ n. behaviour (mean_items n c is s)) ConfigStep seen_config (at_start c is s) }
{}

/// The meaning of a tree only goes on as n grows.
pub fn goes_on()
    ensures { (env : Env) (e : Exp) (s : St) → GoesOn (λ n. behaviour (mean n env e s)) }
{}

/// The meaning of a row of items only goes on as n grows.
pub fn rows_go_on()
    ensures { (c : Scope) (is : Items) (s : St) → GoesOn (λ n. behaviour (mean_items n c is s)) }
{}

/// A tree into which values were put means what it means where they are read.
pub fn put_in_or_read()
    ensures { (n : ℕ) (e : Exp) (a b : Env) (s : St) → mean n b (close a e) s ≡ mean n (over a b) e s }
{}

/// Of two rows one after another, the second is evaluated in the scope that the first one leaves.
pub fn one_after_another()
    ensures { (go : Go) (is js : Items) (c : Scope) (s : St) → ev_items go c (after is js) s ≡ then_do (ev_items go c is s) (λ d t. ev_items go d js t) }
{}

/// A row that comes to its end at some n comes to it in each order.
pub fn ends_in_each_order()
    ensures { (c d : Scope) (is : Items) (s t : St) (n : ℕ) → OrderedScope c → OrderedItems is → OrderedMem s.mem → mean_items n c is s ≡ Done d t → Agree (λ m. shown t Ended) ConfigStep seen_config (at_start c is s) }
{}

/// A row that an exception leaves at some n is left by it in each order.
pub fn raises_in_each_order()
    ensures { (c : Scope) (is : Items) (s : St) (v : Val) (t : St) (n : ℕ) → OrderedScope c → OrderedItems is → OrderedMem s.mem → mean_items n c is s ≡ meaning.Raised v t → Agree (λ m. shown t (Raised (exn_name t.exns v))) ConfigStep seen_config (at_start c is s) }
{}

/// Where a text begins, its values are ordered.
pub fn begins_ordered()
    ensures { OrderedScope text_scope }
{}
