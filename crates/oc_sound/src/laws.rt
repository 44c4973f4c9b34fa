ghost use Rattle.std.specs.Prelude.{◌≡◌, ℕ, ◌≤◌, true};
ghost use Rattle.oc_ast.specs.Plain.{PFull, PItems};
ghost use Rattle.oc_ast.specs.View.{plain_text};
ghost use Rattle.oc_ast.specs.declared.expression.Text.{Text};
ghost use Rattle.oc_sound.specs.Meant.{meant};
ghost use Rattle.oc_sound.specs.Rows.{ClosedTable, NeverWrongBehind, RowEndsWell, Table};
ghost use Rattle.oc_sound.specs.Secure.{Secure, SecureFull, SecureItems};
ghost use Rattle.oc_sound.specs.Words.{Variants};
ghost use Rattle.oc_sound.specs.Served.{Apart, Closed, Place};
ghost use Rattle.oc_steps.specs.Known.{Known};
ghost use Rattle.oc_steps.specs.OcSteps.{Agrees, NeverWrong, meaning};
ghost use Rattle.oc_steps.specs.Ordered.{Ordered};
ghost use Rattle.oc_steps.specs.View.{full_tree};
ghost use Rattle.oc_typing.specs.Env.{Env};
ghost use Rattle.oc_typing.specs.OcText.{OcText};
ghost use Rattle.oc_typing.specs.OcTypes.{FullTypes, ItemsBind};
ghost use Rattle.oc_typing.specs.Ty as oc;
ghost use Rattle.oc_typing.specs.Ty.{first_stamp, inst};
ghost use Rattle.run_types.specs.Types as run;
ghost use Rattle.run_types.specs.Types.{Ctx, Has, World};

/// An instance of a scheme stands for the scheme at what its types stand for.
pub fn types_are_meant()
    ensures { (f b : ℕ → run.Ty) (us : ℕ → oc.Ty) (t : oc.Ty) → meant f b (inst us t) ≡ meant f (λ i. meant f b (us i)) t }
{}

/// A typed expression is a typed tree of runs, at each choice of types for its variables, where what it reads is served.
pub fn typed_expression()
    ensures { (vs : Variants) (w : World) (k : Known) → Closed vs w → Apart vs k → (g : Env) (f : ℕ → run.Ty) (x : Ctx) → Place w k g f x → (b : ℕ → run.Ty) (e : PFull) → SecureFull vs e → (t : oc.Ty) → FullTypes g e t → Has w x (full_tree k e) (meant f b t) }
{}

/// A typed row of items ends well in any place where what it reads is served, in each world that has the types that it
/// declares; and what it leaves is served, so a further row may follow.
pub fn typed_row()
    ensures { (vs : Variants) (c e : ℕ) (g d : Env) (is : PItems) → first_stamp ≤ c → SecureItems vs true is → ItemsBind c g is e d → (T : Table) × ClosedTable vs T × RowEndsWell vs c e T g is d }
{}

/// A typed row never comes where there is no rule behind one that has ended, if what it reads is served there: the first
/// one may be given, with what the typing leaves out.
pub fn typed_behind()
    ensures { (vs : Variants) (c e : ℕ) (g d : Env) (first rest : PItems) → first_stamp ≤ c → SecureItems vs true rest → ItemsBind c g rest e d → (T : Table) × ClosedTable vs T × NeverWrongBehind vs c e T g first rest }
{}

/// A typed and secure text never comes where there is no rule.
pub fn typed_never_wrong()
    ensures { (text : PItems) (env : Env) → OcText text env → Secure text → NeverWrong text }
{}

/// So it runs, in any order of its arguments, as it means.
pub fn typed_any_order()
    ensures plain { (text : PItems) (env : Env) → OcText text env → Secure text → Ordered text → Agrees (meaning text) text }
    ensures declared { (text : Text) (env : Env) → OcText (plain_text text) env → Secure (plain_text text) → Ordered (plain_text text) → Agrees (meaning (plain_text text)) (plain_text text) }
{}
