use crate::dict::Dict;
use crate::exp::MidDec;
use sml_static::{Env, Realisation, Sig};
use tl_text::{Boxed, List, Name, Path};

/// A declaration at structure level or at the top (the Definition, chapter 3).
///
/// A module that is made by the translator, or that a `local` or a structure's `let` hides, has a name whose first byte
/// is a digit.
#[cycle(mid_item)]
#[derive(Drop)]
pub enum MidItem {
    /// A declaration of the core.
    Core(MidDec),
    /// `structure strid = strexp`
    Module(Name, MidMod),
    /// `functor funid (strid : sigexp) = strexp`: the functor's name, its parameter's name, the parameter's signature,
    /// and the body.
    Functor(Name, Name, Sig, MidMod),
}

/// A structure expression (the Definition, section 3.4).
#[cycle(mid_item)]
#[derive(Drop)]
pub enum MidMod {
    /// `struct strdec end`
    Body(List<MidItem>),
    /// `longstrid`
    At(Path),
    /// `strexp :> sigexp`: the structure seen by the signature alone, whose bound type names are new ones.
    Sealed(Boxed<MidMod>, Sig),
    /// `strexp : sigexp`: the structure cut down to what the signature shows.
    Thinned(Boxed<MidMod>, Coercion),
    /// `funid (longstrid)`: the functor, its argument, the environment of the result with the type names that this
    /// application makes, and the new type name for each that the functor's result binds.
    Applied(Path, Path, Env, Realisation),
}

/// How a structure is seen by a signature that it matches.
#[derive(Drop)]
pub struct Coercion {
    /// The environment that the signature shows, with the structure's types in the place of the signature's.
    pub env: Env,
    /// For each path of `env` the path in what is coerced.
    pub from: List<(Path, Path)>,
    /// For each path of a value the dictionaries of the instance at which it is taken, where `Given(i)` is the
    /// dictionary of the equality variable at place i among the equality ones of the path's scheme in `env`. For each
    /// type name that the signature binds and that admits equality, under the path `eq` and its number, the one
    /// dictionary of the type function that realises it, where `Given(i)` is that function's parameter at place i.
    pub dicts: List<(Path, List<Dict>)>,
}

/// What a source is elaborated to: the number of the source in its session, and its declarations in order.
#[derive(Drop)]
pub struct MidUnit {
    pub number: u32,
    pub items: List<MidItem>,
}
