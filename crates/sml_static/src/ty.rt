use tl_text::{Boxed, List, Name};

/// A type name (the Definition, section 4.1): its number, how many arguments it takes, and whether it
/// admits equality. One number stands for one arity and one equality.
#[derive(Clone, Copy, Debug, PartialEq, Eq)]
pub struct TyName {
    pub id: u32,
    pub arity: u32,
    pub equality: bool,
}

/// A label of a record: a number from 1, or an identifier (the Definition, section 2.4). In a type the
/// numbers come first, in their order, and then the words by their bytes.
#[derive(Debug)]
pub enum Label {
    Num(u32),
    Word(Name),
}

impl Drop for Label {
    fn drop(self) {
        match self {
            Label::Num(_) => {}
            Label::Word(_) => {}
        }
    }
}

/// A type (the Definition, section 4.2).
#[cycle(ty)]
#[derive(Debug)]
pub enum Ty {
    /// A type that is not yet known: the number of a node of a store of types.
    Free(u32),
    /// The variable at that place of what binds it.
    Bound(u32),
    /// `{lab: ty, ..}`, in the order of the labels, each label once. `unit` has no fields.
    Fields(List<(Label, Ty)>),
    /// `ty -> ty`
    Arrow(Boxed<Ty>, Boxed<Ty>),
    /// `(ty, ..) t`, with as many arguments as the name takes.
    Con(TyName, List<Ty>),
}

impl Drop for Ty {
    #[cycle(ty_drop)]
    fn drop(self) {
        match self {
            Ty::Free(_) => {}
            Ty::Bound(_) => {}
            Ty::Fields(_) => {}
            Ty::Arrow(_, _) => {}
            Ty::Con(_, _) => {}
        }
    }
}

/// What a type variable stands for: any type, or one that admits equality, as `''a` does.
#[derive(Clone, Copy, Debug, PartialEq, Eq)]
pub enum VarKind {
    Plain,
    Equal,
}

/// A type for all types of its variables, where `Bound(i)` is the variable at place i (the Definition,
/// section 4.2, type schemes).
#[derive(Debug)]
pub struct Scheme {
    pub vars: List<VarKind>,
    pub body: Ty,
}

impl Drop for Scheme {
    fn drop(self) {
        let Scheme { vars: _, body: _ } = self;
    }
}

/// A type function, where `Bound(i)` is its parameter at place i (the Definition, section 4.4).
#[derive(Debug)]
pub struct TyFun {
    pub arity: u32,
    pub body: Ty,
}

impl Drop for TyFun {
    fn drop(self) {
        let TyFun { arity: _, body: _ } = self;
    }
}
