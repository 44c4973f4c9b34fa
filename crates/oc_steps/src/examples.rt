ghost use Rattle.std.specs.Prelude.{◌≡◌, ℕ, suc, [], codes};
ghost use Rattle.beh.specs.Agree.{CanStep, Run};
ghost use Rattle.beh.specs.Behaviour.{Behaviour, Ended, More, Raised};
ghost use Rattle.oc_steps.specs.Examples.{cells, divides, dropped_arm, endless, in_place, letters, loops, made_anew, no_match, overflows, sequenced, structures, two_prints};
ghost use Rattle.oc_steps.specs.OcSteps.{Agrees, Settles, Step, begins, ends, evaluated, meaning};
ghost use Rattle.runs.specs.Meaning.{Wrong};
ghost use Rattle.runs.specs.Primitives.{start};
ghost use Rattle.runs.specs.Seen.{Config};

/// Arguments that print are named before the call, and print in their order.
pub fn arguments_in_order()
    ensures means { (n : ℕ) → meaning sequenced (suc (suc n)) ≡ ends (codes "ab") Ended }
    ensures runs { Settles sequenced (codes "ab") Ended }
{}

/// Each call makes its own exception: the handler of the outer call takes the one that the outer call made.
pub fn exceptions_are_made_anew()
    ensures means { (n : ℕ) → meaning made_anew (suc (suc (suc (suc n)))) ≡ ends (codes "outer") Ended }
    ensures runs { Settles made_anew (codes "outer") Ended }
{}

/// A sum that asks first raises Overflow where it would wrap, and adds where it would not.
pub fn overflow_is_raised()
    ensures means { (n : ℕ) → meaning overflows (suc (suc n)) ≡ ends ([]) (Raised (codes "Overflow")) }
    ensures runs { Settles overflows ([]) (Raised (codes "Overflow")) }
{}

/// A quotient is rounded down, and one by zero raises Div.
pub fn division_asks_first()
    ensures means { (n : ℕ) → meaning divides (suc (suc n)) ≡ ends (codes "y") (Raised (codes "Div")) }
    ensures runs { Settles divides (codes "y") (Raised (codes "Div")) }
{}

/// A last arm raises Match where no rule takes the value.
pub fn match_is_raised()
    ensures means { (n : ℕ) → meaning no_match (suc (suc n)) ≡ ends ([]) (Raised (codes "Match")) }
    ensures runs { Settles no_match ([]) (Raised (codes "Match")) }
{}

/// Two names of one cell see one content; cells are compared by identity, and not by what they hold.
pub fn references_are_cells()
    ensures means { (n : ℕ) → meaning cells (suc n) ≡ ends (codes "yyn") Ended }
    ensures runs { Settles cells (codes "yyn") Ended }
{}

/// A loop that runs three times prints three times.
pub fn loop_runs()
    ensures means { (n : ℕ) → meaning loops (suc (suc (suc (suc (suc n))))) ≡ ends (codes "aaa") Ended }
    ensures runs { Settles loops (codes "aaa") Ended }
{}

/// A local structure hides an outer one of its name, and its exception is not that of the outer one or of its aliases.
pub fn structures_hold_names()
    ensures means { (n : ℕ) → meaning structures (suc n) ≡ ends (codes "a") Ended }
    ensures runs { Settles structures (codes "a") Ended }
{}

/// Two prints in a tuple do not agree with their meaning, nor do two arguments that stay in place: the second one may
/// print first.
pub fn two_prints_differ()
    ensures tuple { Agrees (meaning two_prints) two_prints → ⊥ }
    ensures call { Agrees (meaning in_place) in_place → ⊥ }
{}

/// A match without an arm that takes its value has no step, so that it agrees with no meaning.
pub fn dropped_arm_sticks()
    ensures wrong { (n : ℕ) → evaluated dropped_arm (suc n) ≡ Wrong start }
    ensures differs { (p : ℕ → Behaviour) → Agrees p dropped_arm → ⊥ }
{}

/// A loop without end prints for ever: each number of turns is in some meaning, and each run can go on.
pub fn endless_loop()
    ensures means { (n : ℕ) → meaning endless (suc n) ≡ ends (letters n) More }
    ensures runs { (j : ℕ) (c : Config) → Run Step j (begins endless) c → (CanStep Step c → ⊥) → ⊥ }
{}
