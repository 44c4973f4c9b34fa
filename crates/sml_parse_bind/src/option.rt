ghost use Rattle.std.specs.Prelude.{◌≡◌, max};
ghost use Rattle.sml_grammar_exp.specs.Binds as grammar;

use sml_ast::Tyvars;
use std::alloc::Global;
use tl_text::{List, Place};

/// The greater height.
pub fn higher(left: u32, right: u32) -> u32
    ensures { result ≡ max left right }
{
    left.max(right)
}

/// The variables, none where none are written.
pub fn listed(alloc: Global, vars: Option<(Place, Tyvars)>) -> Tyvars
    ensures { result ≡ grammar.vars_of vars }
{
    match vars {
        None => List::new(alloc),
        Some((_, vars)) => vars,
    }
}

/// The place of the first token, which is this one where no variables are written.
pub fn first_place(vars: &Option<(Place, Tyvars)>, place: Place) -> Place
    ensures { result ≡ grammar.vars_place vars.now place }
{
    match vars {
        None => place,
        Some((first, _)) => *first,
    }
}
