//! The table of derived forms of datatypes, signatures, structures, functors and sources (the Definition, appendix A,
//! figures 17 to 19), for all parts: each form has the tree of what it stands for.

ghost use Rattle.std.specs.Prelude.{◌≡◌, List, [], ◌∷◌, Option, Some, None};
ghost use Rattle.tl_text.specs.declared.place.Place.{Place};
ghost use Rattle.tl_text.specs.declared.name.Name.{Name};
ghost use Rattle.sml_ast.specs.declared.ty.Ty.{Ty};
ghost use Rattle.sml_ast.specs.declared.exp.Dec.{Dec};
ghost use Rattle.sml_ast.specs.declared.exp.Dec.TheVariants as dec;
ghost use Rattle.sml_ast.specs.declared.exp.Exp.{Exp};
ghost use Rattle.sml_ast.specs.declared.sig.Ascribe.{Ascribe};
ghost use Rattle.sml_ast.specs.declared.sig.SigExp.{SigExp};
ghost use Rattle.sml_ast.specs.declared.sig.SigExp.TheVariants as sig;
ghost use Rattle.sml_ast.specs.declared.sig.Spec.{Spec};
ghost use Rattle.sml_ast.specs.declared.sig.Spec.TheVariants as spec;
ghost use Rattle.sml_ast.specs.declared.program.StrBind.TheVariants as str_bind;
ghost use Rattle.sml_ast.specs.declared.program.StrDec.{StrDec};
ghost use Rattle.sml_ast.specs.declared.program.StrExp.{StrExp};
ghost use Rattle.sml_ast.specs.declared.program.StrExp.TheVariants as str_exp;
ghost use Rattle.sml_ast.specs.declared.program.FunBind.TheVariants as fun_bind;
ghost use Rattle.sml_ast.specs.declared.program.Top.TheVariants as top;
ghost use Rattle.sml_derive_exp.specs.Declarations.{derived_dec};
ghost use Rattle.sml_derive.specs.Programs.{derived_fun_bind, derived_str, derived_str_bind, derived_top};
ghost use Rattle.sml_derive.specs.Signatures.{derived_sig};
ghost use Rattle.sml_derive_tests.specs.Modules as row;

/// `datatype 'a t = c of 'a u withtype 'b u = 'b -> 'b`, and the same of an `abstype`.
#[tactic(auto, using(crate::proofs::Folds::modules, crate::proofs::Folds::types), unfolding(sml_derive_forms::specs::Datatypes::in_place, sml_derive_forms::specs::Datatypes::types))]
pub fn datatypes()
    ensures withtype { (p q r : Place) (t c : Name) → derived_dec (dec.Datas p (row.written q t c ∷ []) (row.bind r ∷ [])) ≡ derived_dec (dec.Local p [] (dec.Datas p (row.in_place q r t c ∷ []) [] ∷ dec.Types p (row.bind r ∷ []) ∷ [])) }
    ensures hidden { (p q r : Place) (t c : Name) (ds : List Dec) → derived_dec (dec.Abs p (row.written q t c ∷ []) (row.bind r ∷ []) ds) ≡ derived_dec (dec.Abs p (row.in_place q r t c ∷ []) [] (dec.Types p (row.bind r ∷ []) ∷ ds)) }
{}

/// `type t = u and s = w` and `include x y` as specifications.
#[tactic(auto, using(crate::proofs::Folds::modules))]
pub fn specifications()
    ensures synonyms { (p q : Place) (vs us : List (Place × Name)) (t s : Place × Name) (u w : Ty) → derived_sig (sig.Specs q (spec.SynSpec p ((vs, t, u) ∷ (us, s, w) ∷ []) ∷ [])) ≡ derived_sig (sig.Specs q (row.synonym p vs t u ∷ row.synonym p us s w ∷ [])) }
    ensures included { (p q : Place) (x y : Place × Name) → derived_sig (sig.Specs q (spec.Incls p (x ∷ y ∷ []) ∷ [])) ≡ derived_sig (sig.Specs q (spec.Incl p (sig.SigAt p x) ∷ spec.Incl p (sig.SigAt p y) ∷ [])) }
{}

/// The ascription of a structure, and an application to declarations.
#[tactic(auto, using(crate::proofs::Folds::modules))]
pub fn structures()
    ensures ascribed { (p : Place) (x : Place × Name) (a : Ascribe) (e : StrExp) → derived_str_bind (str_bind.Bind p x (Some a) e) ≡ derived_str_bind (str_bind.Bind p x None (str_exp.Seal p e a)) }
    ensures body { (p : Place) (f : Place × Name) (ds : List StrDec) → derived_str (str_exp.CallBody p f ds) ≡ derived_str (str_exp.Call p f (str_exp.Body p ds)) }
{}

/// The ascription of a functor's result, a parameter given by specifications, and an expression at top level.
#[tactic(auto, using(crate::proofs::Folds::modules, crate::proofs::Folds::patterns))]
pub fn sources()
    ensures ascribed { (p : Place) (f x : Place × Name) (s : SigExp) (a : Ascribe) (e : StrExp) → derived_fun_bind (fun_bind.FunOf p f x s (Some a) e) ≡ derived_fun_bind (fun_bind.FunOf p f x s None (str_exp.Seal p e a)) }
    ensures of_specs { (p : Place) (f : Place × Name) (ss : List Spec) (e : StrExp) → derived_fun_bind (fun_bind.FunSpecs p f ss None e) ≡ derived_fun_bind (row.of_specs p f ss e) }
    ensures sealed { (p : Place) (f : Place × Name) (ss : List Spec) (a : Ascribe) (e : StrExp) → derived_fun_bind (fun_bind.FunSpecs p f ss (Some a) e) ≡ derived_fun_bind (row.of_specs p f ss (str_exp.Seal p e a)) }
    ensures run { (p : Place) (e : Exp) → derived_top (top.Run p e) ≡ derived_top (row.run p e) }
{}
