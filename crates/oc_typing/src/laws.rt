ghost use Rattle.std.specs.Prelude.{◌≡◌, ◌≤◌, ℕ, List, ◌∷◌, None};
ghost use Rattle.oc_ast.specs.Plain.{Bytes, Long, PFull, PItems};
ghost use Rattle.oc_typing.specs.Env.{Env, con_at, con_of, mod_at, mod_of, over, type_at, type_of, val_at, val_of};
ghost use Rattle.oc_typing.specs.More.{More, after};
ghost use Rattle.oc_typing.specs.OcText.{OcText, predefined};
ghost use Rattle.oc_typing.specs.OcTypes.{FullTypes, ItemsBind, OnceEach};
ghost use Rattle.oc_typing.specs.Ty.{Ty, first_stamp};

/// What types, or binds, where names are bound does so where more are bound.
pub fn more_is_typed()
    ensures types { (g h : Env) → More g h → (f : PFull) (t : Ty) → FullTypes g f t → FullTypes h f t }
    ensures binds { (g h : Env) → More g h → (c : ℕ) (is : PItems) (c2 : ℕ) (d : Env) → ItemsBind c g is c2 d → ItemsBind c h is c2 d }
{}

/// More is bound where an environment stands behind another one.
pub fn more_stands_behind()
    ensures { (g h : Env) → More g (over g h) }
{}

/// A row of items draws its stamps from the first number on, and leaves a number that is no smaller.
pub fn stamps_only_rise()
    ensures { (c : ℕ) (g : Env) (is : PItems) (c2 : ℕ) (d : Env) → ItemsBind c g is c2 d → c ≤ c2 }
{}

/// Two rows one after another: the second one is typed in what the first one leaves, and its environment stands over
/// that of the first one.
pub fn one_after_another()
    ensures split { (is js : PItems) (c : ℕ) (g : Env) (c2 : ℕ) (d : Env) → ItemsBind c g (after is js) c2 d → (c1 : ℕ) × (a : Env) × (b : Env) × ItemsBind c g is c1 a × ItemsBind c1 (over a g) js c2 b × (d ≡ over b a) }
    ensures join { (is js : PItems) (c c1 : ℕ) (g : Env) (c2 : ℕ) (a b : Env) → ItemsBind c g is c1 a → ItemsBind c1 (over a g) js c2 b → ItemsBind c g (after is js) c2 (over b a) }
{}

/// The environment of a text is a front of that of the text with more items.
pub fn text_only_grows()
    ensures front { (is js : PItems) (env : Env) → OcText (after is js) env → (c : ℕ) × (c2 : ℕ) × (a : Env) × (b : Env) × ItemsBind first_stamp predefined is c a × OnceEach a × ItemsBind c (over a predefined) js c2 b × (env ≡ over b a) }
    ensures more { (is js : PItems) (a b : Env) (c c2 : ℕ) → ItemsBind first_stamp predefined is c a → ItemsBind c (over a predefined) js c2 b → OnceEach (over b a) → OcText (after is js) (over b a) }
{}

/// A name that is not bound again is found where it was.
pub fn behind_is_found()
    ensures value { (x : Bytes) (d g : Env) → val_of x d ≡ None → val_of x (over d g) ≡ val_of x g }
    ensures constructor { (x : Bytes) (d g : Env) → con_of x d ≡ None → con_of x (over d g) ≡ con_of x g }
    ensures type_name { (x : Bytes) (d g : Env) → type_of x d ≡ None → type_of x (over d g) ≡ type_of x g }
    ensures structure { (x : Bytes) (d g : Env) → mod_of x d ≡ None → mod_of x (over d g) ≡ mod_of x g }
{}

/// A path through a module that is not bound again leads where it led.
pub fn path_behind_is_found()
    ensures value { (m x : Bytes) (q : Long) (d g : Env) → mod_of m d ≡ None → val_at (m ∷ x ∷ q) (over d g) ≡ val_at (m ∷ x ∷ q) g }
    ensures constructor { (m x : Bytes) (q : Long) (d g : Env) → mod_of m d ≡ None → con_at (m ∷ x ∷ q) (over d g) ≡ con_at (m ∷ x ∷ q) g }
    ensures type_name { (m x : Bytes) (q : Long) (d g : Env) → mod_of m d ≡ None → type_at (m ∷ x ∷ q) (over d g) ≡ type_at (m ∷ x ∷ q) g }
    ensures structure { (m x : Bytes) (q : Long) (d g : Env) → mod_of m d ≡ None → mod_at (m ∷ x ∷ q) (over d g) ≡ mod_at (m ∷ x ∷ q) g }
{}
