ghost use Rattle.std.specs.Prelude.{◌≤◌, ℕ, List};
ghost use Rattle.mid_typing.specs.Basis.{basis};
ghost use Rattle.mid_typing.specs.Dicts.{DictFits, Setting, Stage};
ghost use Rattle.mid_typing.specs.Env.{Env};
ghost use Rattle.mid_typing.specs.Examples.{alone, general_cell, leaving, other_copy, recursive, refutable, split_equality, twice_parameter, used_equality, wrong_true};
ghost use Rattle.mid_typing.specs.MidTypes.{ExpHas, ItemBinds};
ghost use Rattle.mid_ast.specs.Tree.{Dict};
ghost use Rattle.mid_typing.specs.Types.{arrow};
ghost use Rattle.mid_typing.specs.Units.{UnitsType};
ghost use Rattle.sml_static.specs.declared.ty.Ty.{Ty};
ghost use Rattle.sml_static.specs.declared.ty.VarKind.{VarKind};

/// A reference is not generalised; a parameter has one type, and so has a function inside its own group.
pub fn others_have_one_type()
    ensures cell { (s : Setting) (c : ℕ) (g : Env) (c2 : ℕ) (e : Env) → ItemBinds s c g general_cell c2 e → ⊥ }
    ensures parameter { (s : Setting) (c : ℕ) (g : Env) (ks : List VarKind) (u v w r : Ty) → ExpHas s c g ks (twice_parameter u v w) r → ⊥ }
    ensures recursion { (s : Setting) (c : ℕ) (g : Env) (c2 : ℕ) (e : Env) → ItemBinds s c g recursive c2 e → ⊥ }
{}

/// A constructor has no type that is not an instance of its own; a type that is made inside a `let`, and so is not yet
/// drawn before it, is not the type of the whole; two datatypes of one type name have the same constructors.
pub fn types_are_written_rightly()
    ensures constructor { (s : Setting) (c : ℕ) (ks : List VarKind) (u : Ty) → ExpHas s c basis ks wrong_true u → ⊥ }
    ensures inside { (s : Setting) (c : ℕ) (g : Env) (ks : List VarKind) (u : Ty) → c ≤ 16 → ExpHas s c g ks leaving u → ⊥ }
    ensures copy { (s : Setting) (c : ℕ) (g : Env) (c2 : ℕ) (e : Env) → UnitsType s c g (alone other_copy) c2 e → ⊥ }
{}

/// No dictionary is for a function type.
pub fn functions_have_no_equality()
    ensures { (s : Stage) (g : Env) (ks : List VarKind) (d : Dict) (x y : Ty) → DictFits s g ks d (arrow x y) → ⊥ }
{}

/// What the profile refuses has no typing: a refutable pattern with a polymorphic variable; a pattern other than one
/// variable with a variable that has an equality variable; in a right side that is generalised, outside any `fn`, a
/// variable with an equality variable at a type that is no function.
pub fn profile_refuses()
    ensures refutable { (s : Setting) (c : ℕ) (g : Env) (c2 : ℕ) (e : Env) → ItemBinds s c g refutable c2 e → ⊥ }
    ensures pattern { (s : Setting) (c : ℕ) (g : Env) (c2 : ℕ) (e : Env) → ItemBinds s c g split_equality c2 e → ⊥ }
    ensures uses { (s : Setting) (c : ℕ) (g : Env) (c2 : ℕ) (e : Env) → ItemBinds s c g used_equality c2 e → ⊥ }
{}
