ghost use Rattle.std.specs.Prelude.{ℕ, suc, Some};
ghost use Rattle.oc_typing.specs.Env.{AddCon, AddMod, AddVal, Empty, Env};
ghost use Rattle.oc_typing.specs.Examples.{A, M, cells, circle, copied, f, functions_compared, handled, inside, leaving, module_twice, nested, no_circle, twice, twice_called, twice_parameter, unbound, x, y};
ghost use Rattle.oc_typing.specs.OcText.{OcText, predefined};
ghost use Rattle.oc_typing.specs.OcTypes.{FullTypes, ItemBinds, raises};
ghost use Rattle.oc_typing.specs.Ty.{Arrow, MoreTypes, NoTypes, Product, Stamped, Ty, bool, int, ref, unit};
ghost use Rattle.std.specs.Prelude.{codes};

/// A function that a `let` binds is used at two types.
pub fn let_is_general()
    ensures { (g : Env) → FullTypes g twice (Product (MoreTypes int (MoreTypes unit NoTypes))) }
{}

/// A parameter is not, nor is what an expansive right side binds.
pub fn others_have_one_type()
    ensures parameter { (g : Env) (a : Ty) → FullTypes g twice_parameter a → ⊥ }
    ensures expansive { (g : Env) (a : Ty) → FullTypes g twice_called a → ⊥ }
{}

/// References are made, assigned to and compared by identity; functions are not compared.
pub fn cells_are_compared()
    ensures cells { OcText cells (AddVal y bool (AddVal x (ref int) Empty)) }
    ensures functions { (g : Env) (a : Ty) → FullTypes g functions_compared a → ⊥ }
{}

/// A function with its scheme written calls itself at another type, on a datatype that is not regular.
pub fn written_scheme_is_general()
    ensures { (env : Env) × OcText nested env }
{}

/// A variant that is written with `=` is the one that it names, though a later one has its constructor's name.
pub fn copy_is_the_same()
    ensures { (env : Env) × OcText copied (AddVal x (Stamped 11 NoTypes) (AddMod M env Empty)) }
{}

/// An exception and its alias are one, with one argument.
pub fn exceptions_type()
    ensures { OcText handled (AddVal f (Arrow int int) (AddCon (codes "B") (raises (Some int)) (AddCon A (raises (Some int)) Empty))) }
{}

/// A type that is made inside a local module is used there, and does not leave it.
pub fn local_type_stays()
    ensures used { FullTypes predefined inside int }
    ensures left { (g : Env) (a : Ty) → FullTypes g leaving a → ⊥ }
{}

/// An alias may stand for a variant of its own group; two aliases for one another bind nothing.
pub fn equations_end()
    ensures ends { (c : ℕ) (g : Env) → (d : Env) × ItemBinds c g no_circle (suc c) d }
    ensures circle { (c : ℕ) (g : Env) (c2 : ℕ) (d : Env) → ItemBinds c g circle c2 d → ⊥ }
{}

/// What is not bound has no type, and no module is bound twice in one structure.
pub fn names_are_bound_once()
    ensures unbound { (a : Ty) → FullTypes Empty unbound a → ⊥ }
    ensures twice { (env : Env) → OcText module_twice env → ⊥ }
{}
