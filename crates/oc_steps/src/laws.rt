ghost use Rattle.std.specs.Prelude.{◌≡◌, ℕ};
ghost use Rattle.beh.specs.Agree.{GoesOn};
ghost use Rattle.beh.specs.Behaviour.{Ended, Raised};
ghost use Rattle.oc_ast.specs.Plain.{PItems, PSimple};
ghost use Rattle.oc_ast.specs.View.{plain_text};
ghost use Rattle.oc_ast.specs.declared.expression.Text.{Text};
ghost use Rattle.oc_steps.specs.Known.{Known, items_know, over};
ghost use Rattle.oc_steps.specs.OcSteps.{Agrees, NeverWrong, evaluated, meaning};
ghost use Rattle.oc_steps.specs.Ordered.{Ordered, StillSimple};
ghost use Rattle.oc_steps.specs.View.{items_tree};
ghost use Rattle.oc_typing.specs.More.{after};
ghost use Rattle.oc_typing.specs.NonExpansive.{NonExpansive};
ghost use Rattle.runs.specs.Meaning as of;
ghost use Rattle.runs.specs.Meaning.{Done, Go, ev_items, then_do};
ghost use Rattle.runs.specs.Primitives.{St};
ghost use Rattle.runs.specs.Scope.{Scope};
ghost use Rattle.runs.specs.Seen.{exn_name, shown};
ghost use Rattle.runs.specs.Tree.{Val};

/// A text in which at most one part of each row is not still runs, in whatever order, as it means.
pub fn any_order()
    ensures plain { (text : PItems) → Ordered text → NeverWrong text → Agrees (meaning text) text }
    ensures declared { (text : Text) → Ordered (plain_text text) → NeverWrong (plain_text text) → Agrees (meaning (plain_text text)) (plain_text text) }
{}

/// The meaning of a text only goes on as n grows.
pub fn goes_on()
    ensures { (text : PItems) → GoesOn (meaning text) }
{}

/// An evaluation with an end, at one n, settles all runs: they end so,
pub fn ends_in_each_order()
    ensures { (text : PItems) (n : ℕ) (d : Scope) (t : St) → Ordered text → evaluated text n ≡ Done d t → Agrees (λ m. shown t Ended) text }
{}

/// or raise this exception.
pub fn raises_in_each_order()
    ensures { (text : PItems) (n : ℕ) (v : Val) (t : St) → Ordered text → evaluated text n ≡ of.Raised v t → Agrees (λ m. shown t (Raised (exn_name t.exns v))) text }
{}

/// Of two rows one after another, the second is evaluated in the scope that the first one leaves, with its
/// constructors known; and both are ordered where each is.
pub fn one_after_another()
    ensures evaluated { (go : Go) (k : Known) (is js : PItems) (c : Scope) (s : St) → ev_items go c (items_tree k (after is js)) s ≡ then_do (ev_items go c (items_tree k is) s) (λ d t. ev_items go d (items_tree (over (items_know k is) k) js) t) }
    ensures ordered { (is js : PItems) → Ordered is → Ordered js → Ordered (after is js) }
{}

/// What a `let` of a text generalises only makes its value.
pub fn generalised_is_still()
    ensures { (e : PSimple) → NonExpansive e → StillSimple e }
{}
