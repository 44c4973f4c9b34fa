//! The table of derived forms of the core (the Definition, appendix A, figures 15 to 17), for all parts: each form has the
//! tree of what it stands for. Where that tree has rows, the trees are one after the rows are unrolled.

ghost use Rattle.std.specs.Prelude.{◌≡◌, Bool, true, false, List, [], ◌∷◌, Option, Some, None};
ghost use Rattle.tl_text.specs.declared.place.Place.{Place};
ghost use Rattle.tl_text.specs.declared.name.Name.{Name};
ghost use Rattle.sml_ast.specs.Rows.{unrolled_dec, unrolled_exp, unrolled_pat};
ghost use Rattle.sml_ast.specs.declared.name.Lab.{Lab};
ghost use Rattle.sml_ast.specs.declared.name.Lab.TheVariants as lab;
ghost use Rattle.sml_ast.specs.declared.ty.Ty.{Ty};
ghost use Rattle.sml_ast.specs.declared.ty.Ty.TheVariants as ty;
ghost use Rattle.sml_ast.specs.declared.pat.AtPat.{AtPat};
ghost use Rattle.sml_ast.specs.declared.pat.AtPat.TheVariants as at_pat;
ghost use Rattle.sml_ast.specs.declared.pat.PField.TheVariants as field;
ghost use Rattle.sml_ast.specs.declared.pat.Pat.{Pat};
ghost use Rattle.sml_ast.specs.declared.pat.Pat.TheVariants as pat;
ghost use Rattle.sml_ast.specs.declared.exp.AtExp.TheVariants as at_exp;
ghost use Rattle.sml_ast.specs.declared.exp.Clause.TheVariants as clause;
ghost use Rattle.sml_ast.specs.declared.exp.Dec.{Dec};
ghost use Rattle.sml_ast.specs.declared.exp.Dec.TheVariants as dec;
ghost use Rattle.sml_ast.specs.declared.exp.Exp.{Exp};
ghost use Rattle.sml_ast.specs.declared.exp.Exp.TheVariants as exp;
ghost use Rattle.sml_ast.specs.declared.exp.Rule.{Rule};
ghost use Rattle.sml_ast.specs.declared.exp.Rule.TheVariants as rule;
ghost use Rattle.sml_derive_core.specs.Patterns.{derived_at_pat, derived_field, derived_pat};
ghost use Rattle.sml_derive_core.specs.Types.{derived_ty};
ghost use Rattle.sml_derive_exp.specs.Declarations.{derived_at_exp, derived_dec, derived_exp};
ghost use Rattle.sml_derive_tests.specs.Phrases as row;

/// `()`, `(e, f, g)`, `#l`, and the sequence and the list.
#[tactic(auto, using(crate::proofs::Folds::expressions))]
pub fn atomic_expressions()
    ensures unit { (p : Place) → derived_at_exp (at_exp.Unit p) ≡ derived_at_exp (at_exp.Fields p []) }
    ensures tuple { (p : Place) (e f g : Exp) → derived_at_exp (at_exp.Tuple p e (f ∷ g ∷ [])) ≡ derived_at_exp (row.tuple p e f g) }
    ensures pick { (p : Place) (l : Place × Lab) → derived_at_exp (at_exp.Pick p l) ≡ derived_at_exp (row.pick p l) }
    ensures body { (p : Place) (ds : List Dec) (e f : Exp) → derived_at_exp (at_exp.Let p ds (e ∷ f ∷ [])) ≡ derived_at_exp (at_exp.Let p ds (row.atom p (at_exp.Seq p e (f ∷ [])) ∷ [])) }
    ensures seq { (p : Place) (e f g : Exp) → unrolled_exp (derived_exp (row.atom p (at_exp.Seq p e (f ∷ g ∷ [])))) ≡ unrolled_exp (derived_exp (row.atom p (row.seq p e f g))) }
    ensures items { (p : Place) (e f : Exp) → unrolled_exp (derived_exp (row.atom p (at_exp.Items p (e ∷ f ∷ [])))) ≡ unrolled_exp (derived_exp (row.atom p (row.row p e f))) }
{}

/// `case`, `if`, `orelse`, `andalso` and `while`.
#[tactic(auto, using(crate::proofs::Folds::expressions, crate::proofs::Loops::loop_unfolds))]
pub fn expressions()
    ensures case { (p : Place) (e : Exp) (m : List Rule) → derived_exp (exp.Case p e m) ≡ derived_exp (row.case p e m) }
    ensures choice { (p : Place) (e f g : Exp) → derived_exp (exp.If p e f g) ≡ derived_exp (row.choice p e f g) }
    ensures either { (p : Place) (e f : Exp) → derived_exp (exp.OrElse p e f) ≡ derived_exp (row.either p e f) }
    ensures both { (p : Place) (e f : Exp) → derived_exp (exp.AndAlso p e f) ≡ derived_exp (row.both p e f) }
    ensures repeat { (p : Place) (e f : Exp) → derived_exp (exp.While p e f) ≡ derived_exp (row.repeat p e f) }
{}

/// `()`, `(q, r, s)` and the list as patterns, and a tuple as a type.
#[tactic(auto, using(crate::proofs::Folds::patterns))]
pub fn patterns()
    ensures unit { (p : Place) → derived_at_pat (at_pat.PUnit p) ≡ derived_at_pat (at_pat.PFields p []) }
    ensures tuple { (p : Place) (q r s : Pat) → derived_at_pat (at_pat.PTuple p q (r ∷ s ∷ [])) ≡ derived_at_pat (row.tuple_pat p q r s) }
    ensures items { (p : Place) (q r : Pat) → unrolled_pat (derived_pat (pat.PAtom p (at_pat.PItems p (q ∷ r ∷ [])))) ≡ unrolled_pat (derived_pat (pat.PAtom p (row.row_pat p q r))) }
    ensures tuple_ty { (p : Place) (t u x : Ty) → derived_ty (ty.TTuple p t (u ∷ x ∷ [])) ≡ derived_ty (row.tuple_ty p t u x) }
{}

/// `x`, `x : t`, `x as q` and `x : t as q` alone in a record pattern.
#[tactic(auto, using(crate::proofs::Folds::patterns))]
pub fn fields()
    ensures name { (p q : Place) (x : Name) → derived_field (field.Pun p (q, x) None None) ≡ derived_field (field.Named p (p, lab.Word x) (pat.PAtom p (at_pat.PId p false (q, x ∷ [])))) }
    ensures typed { (p q : Place) (x : Name) (t : Ty) → derived_field (field.Pun p (q, x) (Some t) None) ≡ derived_field (field.Named p (p, lab.Word x) (pat.PTyped p (pat.PAtom p (at_pat.PId p false (q, x ∷ []))) t)) }
    ensures layer { (p : Place) (x : Place × Name) (t : Option Ty) (r : Pat) → derived_field (field.Pun p x t (Some r)) ≡ derived_field (field.Named p (p, lab.Word x.1) (pat.Layer p false x t r)) }
{}

/// A function of two clauses with two arguments, and clauses with the name between two arguments.
#[tactic(auto, using(crate::proofs::Folds::expressions, crate::proofs::Clauses::clauses_unfold))]
pub fn functions()
    ensures infix { (p i : Place) (vs : List (Place × Name)) (a b : AtPat) (f : Place × Name) (t : Option Ty) (e : Exp) → derived_dec (dec.Funs p vs ((clause.Mid i a f b t e ∷ []) ∷ [])) ≡ derived_dec (dec.Funs p vs ((clause.Prefix i true f (row.pair p a b ∷ []) t e ∷ []) ∷ [])) }
    ensures infix_more { (p i : Place) (vs : List (Place × Name)) (a b c : AtPat) (f : Place × Name) (t : Option Ty) (e : Exp) → derived_dec (dec.Funs p vs ((clause.MidMore i a f b (c ∷ []) t e ∷ []) ∷ [])) ≡ derived_dec (dec.Funs p vs ((clause.Prefix i true f (row.pair p a b ∷ c ∷ []) t e ∷ []) ∷ [])) }
    ensures clauses { (p i j : Place) (vs : List (Place × Name)) (o u : Bool) (f g : Place × Name) (a b c d : AtPat) (t : Ty) (e h : Exp) → unrolled_dec (derived_dec (dec.Funs p vs ((clause.Prefix i o f (a ∷ b ∷ []) None e ∷ clause.Prefix j u g (c ∷ d ∷ []) (Some t) h ∷ []) ∷ []))) ≡ unrolled_dec (derived_dec (dec.Vals p vs true ((pat.PAtom p (at_pat.PId p o (f.0, f.1 ∷ [])), row.curried p f.0 (rule.Arm i (pat.PAtom p (row.pair p a b)) e ∷ rule.Arm j (pat.PAtom p (row.pair p c d)) (exp.Typed p h t) ∷ [])) ∷ []))) }
{}
