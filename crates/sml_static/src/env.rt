use crate::ty::{Scheme, TyFun, TyName};
use tl_text::{List, Name};

/// The types that an overloaded name stands for: int and word, the same, or these with char and string.
#[derive(Clone, Copy, Debug, PartialEq, Eq)]
pub enum Class {
    Num,
    WordInt,
    NumTxt,
}

/// What an identifier of a value is (the Definition, section 4.1). An overloaded name has `Over`, and
/// the one variable of its scheme stands for a type of the class.
#[derive(Clone, Copy, Debug, PartialEq, Eq)]
pub enum Status {
    Variable,
    Constructor,
    Exception,
    Over(Class),
}

/// An environment (the Definition, section 4.2): values, type constructors with their data constructors,
/// and structures. Each name stands once in each row.
pub struct Env {
    pub vals: List<(Name, Status, Scheme)>,
    pub tycons: List<(Name, TyFun, List<(Name, Scheme)>)>,
    pub strs: List<(Name, Env)>,
}

impl Drop for Env {
    fn drop(self) {
        let Env {
            vals: _,
            tycons: _,
            strs: _,
        } = self;
    }
}

/// A signature: an environment and the type names that it binds (the Definition, section 5.1).
pub struct Sig {
    pub bound: List<TyName>,
    pub env: Env,
}

impl Drop for Sig {
    fn drop(self) {
        let Sig { bound: _, env: _ } = self;
    }
}

/// A functor's signature: what it takes, and what it gives for it (the Definition, section 5.1).
pub struct FunSig {
    pub param: Sig,
    pub result: Sig,
}

impl Drop for FunSig {
    fn drop(self) {
        let FunSig {
            param: _,
            result: _,
        } = self;
    }
}

/// A realisation: type functions in the place of type names, each name once (the Definition, section 5.2).
pub struct Realisation {
    pub pairs: List<(TyName, TyFun)>,
}

impl Drop for Realisation {
    fn drop(self) {
        let Realisation { pairs: _ } = self;
    }
}

/// Counts the type names that are drawn. The number of the next one is 16 more than those drawn so far.
#[derive(Clone, Copy, Debug)]
pub struct Stamps {
    pub next: u32,
}
