ghost use Rattle.std.specs.Prelude.{◌≡◌, ℕ, suc, List, [], ◌∷◌, pos, negsuc, codes, Option, Some, None};
ghost use Rattle.beh.specs.Agree.{Agree};
ghost use Rattle.beh.specs.Behaviour.{Ended, Raised};
ghost use Rattle.runs.specs.Examples.{Leaves, assigns, cut_out, decided, handled, hello, hidden, list_read, local, loops, new_each_time, no_quotient, no_rule, path_read, shadowed, twice_applied, two_prints, unit_part, wraps};
ghost use Rattle.runs.specs.Forms.{text_scope, var};
ghost use Rattle.runs.specs.Items.{Scope, mean_items};
ghost use Rattle.runs.specs.Meaning.{Done, Wrong};
ghost use Rattle.runs.specs.Primitives.{St, false_part, start, written};
ghost use Rattle.runs.specs.Seen.{ConfigStep, at_start, behaviour, seen_config, shown};
ghost use Rattle.runs.specs.Tree.{Con, Datum, Int, Item, NoVals, Str, Tup};

/// A row of two prints does not agree with its meaning: the second part may print first.
pub fn two_prints_differ()
    ensures { Agree (λ n. behaviour (mean_items n text_scope two_prints start)) ConfigStep seen_config (at_start text_scope two_prints start) → ⊥ }
{}

/// A structure calls the function of an earlier one by its path, and writes the text.
pub fn hello_writes()
    ensures { (t : List ℕ) (n : ℕ) → behaviour (mean_items (suc (suc n)) text_scope (hello t) start) ≡ shown (written t start) Ended }
{}

/// After it the value of the structure stands at its path.
pub fn hello_has()
    ensures { (t : List ℕ) (n : ℕ) → (c : Scope) × (s : St) × (mean_items (suc (suc n)) text_scope (hello t) start ≡ Done c s) × (c.own (unit_part ∷ codes "x" ∷ []) ≡ Some (Datum (Int (pos 1)))) }
{}

/// A value of a structure is read by its path from a later one.
pub fn path_is_read()
    ensures { (n : ℕ) → (c : Scope) × (s : St) × (mean_items (suc n) text_scope path_read start ≡ Done c s) × (c.own (codes "B" ∷ codes "y" ∷ []) ≡ Some (Datum (Str (codes "a")))) }
{}

/// Of two values of one name the later one counts.
pub fn later_value_counts()
    ensures { (n : ℕ) → (c : Scope) × (s : St) × (mean_items (suc n) text_scope shadowed start ≡ Done c s) × (c.own (var (codes "x")) ≡ Some (Datum (Int (pos 2)))) }
{}

/// A structure hides the values of an earlier one of its name.
pub fn older_structure_is_hidden()
    ensures { (n : ℕ) → (c : Scope) × (s : St) × (mean_items (suc n) text_scope hidden start ≡ Done c s) × (c.env (codes "A" ∷ codes "x" ∷ []) ≡ None) }
{}

/// Arithmetic wraps: the greatest integer and one more is the least.
pub fn wraps_text()
    ensures { (n : ℕ) → Leaves wraps ([]) (Some (Datum (Int (negsuc 4611686018427387903)))) (suc n) }
{}

/// A predefined function of three arguments takes them one by one.
pub fn cut_out_text()
    ensures { (n : ℕ) → Leaves cut_out ([]) (Some (Datum (Str (codes "ell")))) (suc n) }
{}

/// A reference holds what was assigned to it last.
pub fn assigns_text()
    ensures { (n : ℕ) → Leaves assigns ([]) (Some (Datum (Int (pos 2)))) (suc n) }
{}

/// A loop that runs three times writes three times.
pub fn loops_text()
    ensures { (n : ℕ) → Leaves loops (codes "aaa") (None) (suc (suc (suc (suc (suc n))))) }
{}

/// A handler takes the exception that it names.
pub fn handled_text()
    ensures { (n : ℕ) → Leaves handled (codes "ab") (None) (suc n) }
{}

/// A list is its first element before the rest.
pub fn list_read_text()
    ensures { (n : ℕ) → Leaves list_read ([]) (Some (Tup (Item (Datum (Int (pos 1))) (Item (Datum (Str (codes "y"))) NoVals)))) (suc n) }
{}

/// What a conjunction does not need is not evaluated.
pub fn decided_text()
    ensures { (n : ℕ) → Leaves decided ([]) (Some (Con false_part NoVals)) (suc n) }
{}

/// A division by zero has no step.
pub fn no_quotient_text()
    ensures { (n : ℕ) → mean_items (suc n) text_scope no_quotient start ≡ Wrong (written (codes "a") start) }
{}

/// A match of which no rule takes the value has no step.
pub fn no_rule_text()
    ensures { (n : ℕ) → mean_items (suc n) text_scope no_rule start ≡ Wrong start }
{}

/// Each evaluation of an exception binding makes another exception.
pub fn new_each_time_text()
    ensures { (n : ℕ) → behaviour (mean_items (suc (suc (suc n))) text_scope new_each_time start) ≡ shown start (Raised (codes "E")) }
{}

/// So each run of the text that writes `t` ends, and has written it.
pub fn hello_runs()
    ensures { (t : List ℕ) → Agree (λ m. shown (written t start) Ended) ConfigStep seen_config (at_start text_scope (hello t) start) }
{}

/// And each run of the text that makes an exception at each call raises the one of the outer call.
pub fn new_each_time_runs()
    ensures { Agree (λ m. shown start (Raised (codes "E"))) ConfigStep seen_config (at_start text_scope new_each_time start) }
{}

/// A local structure has its own values and exceptions, and hides an outer one only in its body.
pub fn local_text()
    ensures { (n : ℕ) → Leaves local (codes "ba") (Some (Datum (Str (codes "b")))) (suc n) }
{}

/// Each application of a functor evaluates its body anew, and makes other exceptions.
pub fn twice_applied_text()
    ensures { (n : ℕ) → Leaves twice_applied (codes "aa") (Some (Datum (Str (codes "own")))) (suc (suc n)) }
{}
