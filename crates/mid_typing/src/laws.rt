ghost use Rattle.std.specs.Prelude.{◌≡◌, ◌≤◌, ◌++◌, ℕ, length, List, [], ◌∷◌, None, Some};
ghost use Rattle.mid_ast.specs.declared.item.MidUnit.{MidUnit};
ghost use Rattle.mid_typing.specs.Dicts.{Setting};
ghost use Rattle.mid_typing.specs.Env.{Env, General, Variable, local_at, mod_at, over, type_at, vid_at};
ghost use Rattle.mid_typing.specs.MidTypes.{DecBinds, ExpHas, HomeOf, ItemsBind, UseOf};
ghost use Rattle.mid_typing.specs.More.{EachGeneralIsStill, More, after};
ghost use Rattle.mid_ast.specs.Tree.{Dec, Dicts, Exp, Items, Part};
ghost use Rattle.mid_typing.specs.Types.{IsTypeAt};
ghost use Rattle.mid_typing.specs.Units.{MidTypes, UnitsBind};
ghost use Rattle.sml_static.specs.declared.ty.Ty.{Ty};
ghost use Rattle.sml_static.specs.declared.ty.VarKind.{VarKind};
ghost use Rattle.sml_static.specs.WellFormed.{HasFixedNames};

/// What types, or binds, where names are bound does so where more are bound.
pub fn more_is_typed()
    ensures types { (s : Setting) (g h : Env) → More g h → (c : ℕ) (ks : List VarKind) (e : Exp) (t : Ty) → ExpHas s c g ks e t → ExpHas s c h ks e t }
    ensures binds { (s : Setting) (g h : Env) → More g h → (c : ℕ) (is : Items) (c2 : ℕ) (d : Env) → ItemsBind s c g is c2 d → ItemsBind s c h is c2 d }
    ensures units { (s : Setting) (g h : Env) → More g h → (c : ℕ) (us : List (Part × MidUnit)) (c2 : ℕ) (d : Env) → MidTypes s c g us c2 d → MidTypes s c h us c2 d }
{}

/// More is bound where an environment stands behind another one.
pub fn more_stands_behind()
    ensures { (g h : Env) → More g (over g h) }
{}

/// Type names are drawn from the first number on, and the number that is left is no smaller.
pub fn type_names_only_rise()
    ensures items { (s : Setting) (c : ℕ) (g : Env) (is : Items) (c2 : ℕ) (d : Env) → ItemsBind s c g is c2 d → c ≤ c2 }
    ensures units { (s : Setting) (c : ℕ) (g : Env) (us : List (Part × Items)) (c2 : ℕ) (d : Env) → UnitsBind s c g us c2 d → c ≤ c2 }
{}

/// Two rows of items, or of units, one after another: the second one is typed in what the first one leaves, and its
/// environment stands over that of the first one. So a typed item only adds to the scope.
pub fn one_after_another()
    ensures split { (s : Setting) (is js : Items) (c : ℕ) (g : Env) (c2 : ℕ) (d : Env) → ItemsBind s c g (after is js) c2 d → (c1 : ℕ) × (a : Env) × (b : Env) × ItemsBind s c g is c1 a × ItemsBind s c1 (over a g) js c2 b × (d ≡ over b a) }
    ensures join { (s : Setting) (is js : Items) (c c1 : ℕ) (g : Env) (c2 : ℕ) (a b : Env) → ItemsBind s c g is c1 a → ItemsBind s c1 (over a g) js c2 b → ItemsBind s c g (after is js) c2 (over b a) }
    ensures units_split { (s : Setting) (us vs : List (Part × Items)) (c : ℕ) (g : Env) (c2 : ℕ) (d : Env) → UnitsBind s c g (us ++ vs) c2 d → (c1 : ℕ) × (a : Env) × (b : Env) × UnitsBind s c g us c1 a × UnitsBind s c1 (over a g) vs c2 b × (d ≡ over b a) }
    ensures units_join { (s : Setting) (us vs : List (Part × Items)) (c c1 : ℕ) (g : Env) (c2 : ℕ) (a b : Env) → UnitsBind s c g us c1 a → UnitsBind s c1 (over a g) vs c2 b → UnitsBind s c g (us ++ vs) c2 (over b a) }
{}

/// A name that is not bound again is found where it was.
pub fn behind_is_found()
    ensures binder { (x : ℕ) (d g : Env) → local_at x d ≡ None → local_at x (over d g) ≡ local_at x g }
    ensures value { (x : Part) (d g : Env) → vid_at (x ∷ []) d ≡ None → vid_at (x ∷ []) (over d g) ≡ vid_at (x ∷ []) g }
    ensures type_name { (x : Part) (d g : Env) → type_at (x ∷ []) d ≡ None → type_at (x ∷ []) (over d g) ≡ type_at (x ∷ []) g }
    ensures structure { (x : Part) (d g : Env) → mod_at (x ∷ []) d ≡ None → mod_at (x ∷ []) (over d g) ≡ mod_at (x ∷ []) g }
{}

/// What a declaration generalises is not expansive, by its form.
pub fn general_is_not_expansive()
    ensures { (s : Setting) (c : ℕ) (g : Env) (ks : List VarKind) (d : Dec) (c2 : ℕ) (h : Env) → DecBinds s c g ks d c2 h → EachGeneralIsStill d }
{}

/// At structure level a binder is used the same by its number and by its path: at an instance of its scheme.
pub fn number_and_path_agree()
    ensures path { (s : Setting) (c : ℕ) (g : Env) (ks vars : List VarKind) (body t : Ty) (ds : Dicts) → UseOf s c g ks (Some (General 0 vars body)) t ds → HomeOf s c g ks (Some (Variable (record { vars = vars; body = body }))) t ds }
    ensures number { (s : Setting) (c : ℕ) (g : Env) (ks vars : List VarKind) (body t : Ty) (ds : Dicts) → HomeOf s c g ks (Some (Variable (record { vars = vars; body = body }))) t ds → UseOf s c g ks (Some (General 0 vars body)) t ds }
{}

/// What an expression has is a type here: its type names are drawn, with as many arguments as they take, and its type
/// variables are in scope.
pub fn typed_is_type()
    ensures { (s : Setting) → HasFixedNames s.names → (c : ℕ) → 16 ≤ c → (g : Env) (ks : List VarKind) (e : Exp) (t : Ty) → ExpHas s c g ks e t → IsTypeAt s.names c (length ks) t }
{}
