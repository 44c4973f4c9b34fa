ghost use Rattle.std.specs.Prelude.{◌≡◌, ℕ, suc, [], codes};
ghost use Rattle.beh.specs.Behaviour.{Ended, Raised};
ghost use Rattle.mid_rules.specs.Examples.{aliased, bound_together, by_dictionary, divides, left_to_right, made_anew, no_binding, no_rule_takes, references, too_large, used_later};
ghost use Rattle.mid_rules.specs.Mid.{Meaning};

/// Arguments are evaluated from left to right, and a later unit uses the function of an earlier one.
pub fn functions_mean()
    ensures order { (n : ℕ) → Meaning left_to_right (suc (suc n)) ≡ record { output = codes "ab"; ending = Ended } }
    ensures later { (n : ℕ) → Meaning used_later (suc (suc n)) ≡ record { output = codes "p"; ending = Ended } }
{}

/// A function whose rules take no argument raises Match, a binding whose pattern does not take its value Bind, and a
/// sum that is no int Overflow.
pub fn failures_raise()
    ensures function { (n : ℕ) → Meaning no_rule_takes (suc (suc n)) ≡ record { output = []; ending = Raised (codes "Match") } }
    ensures binding { (n : ℕ) → Meaning no_binding (suc n) ≡ record { output = []; ending = Raised (codes "Bind") } }
    ensures sum { (n : ℕ) → Meaning too_large (suc (suc n)) ≡ record { output = []; ending = Raised (codes "Overflow") } }
{}

/// The bindings of one declaration are made together: a right side sees what was bound before it.
pub fn bindings_are_together()
    ensures { (n : ℕ) → Meaning bound_together (suc (suc n)) ≡ record { output = codes "old"; ending = Ended } }
{}

/// An alias of a structure has its exceptions; each evaluation of an exception declaration makes another one.
pub fn exceptions_mean()
    ensures alias { (n : ℕ) → Meaning aliased (suc n) ≡ record { output = codes "own"; ending = Ended } }
    ensures anew { (n : ℕ) → Meaning made_anew (suc (suc (suc (suc (suc (suc (suc n))))))) ≡ record { output = codes "outer"; ending = Ended } }
{}

/// A function with an equality variable tests by the dictionary that it is given.
pub fn dictionaries_test()
    ensures { (n : ℕ) → Meaning by_dictionary (suc (suc (suc (suc (suc n))))) ≡ record { output = codes "yn"; ending = Ended } }
{}

/// Division rounds down, and by zero it raises Div.
pub fn division_means()
    ensures { (n : ℕ) → Meaning divides (suc (suc n)) ≡ record { output = codes "yy"; ending = Raised (codes "Div") } }
{}

/// Names of one cell see what is put into it, and a cell is equal to itself alone.
pub fn references_mean()
    ensures { (n : ℕ) → Meaning references (suc (suc n)) ≡ record { output = codes "yyn"; ending = Ended } }
{}
