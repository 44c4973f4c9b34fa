ghost use Rattle.std.specs.Prelude.{◌≡◌, IfOk};

use crate::{Full, Item, MExp, Simple};
use std::alloc::Global;
use tl_text::{Boxed, NoMemory};

/// What stands behind `in`, `;` or the arrow of a `fun`, on the heap. Such chains are as long as a source has
/// declarations, expressions or parameters, and are dropped in a loop.
#[cycle(expressions)]
pub struct Rest {
    full: Boxed<Full>,
}

impl Rest {
    ghost use Rattle.oc_ast.specs.declared.rest.Rest.{out-Rest};
    ghost use Rattle.oc_ast.specs.declared.expression.Full.{Full};

    /// Moves an expression to the heap. NoMemory where none is left; it is then dropped.
    pub fn new(alloc: Global, full: Full) -> Result<Rest, NoMemory>
        ensures { IfOk result (λ rest. (out-Rest rest).full ≡ full) }
    {
        let full = Boxed::new(alloc, full)?;
        Ok(Rest { full })
    }

    /// The expression.
    pub fn get(&self) -> &Full
        ensures { result.now ≡ (out-Rest self.now).full }
    {
        self.full.get()
    }

    /// The expression, moved off the heap.
    pub fn into_inner(self) -> Full
        ensures { result ≡ (out-Rest self).full }
    {
        let Rest { full } = self;
        full.into_inner()
    }
}

impl Drop for Rest {
    #[cycle(expressions)]
    fn drop(mut self) {
        'chain: loop {
            let Rest { full } = self;
            match full.into_inner() {
                Full::LetIn(pattern, right, rest) => {
                    drop(pattern);
                    drop(right.into_inner());
                    self = rest;
                }
                Full::LetRecIn(bindings, rest) => {
                    drop(Item::LetRec(bindings));
                    self = rest;
                }
                Full::LetMod(name, items, rest) => {
                    drop(name);
                    drop(MExp::Struct(items));
                    self = rest;
                }
                Full::LetExn(name, arg, rest) => {
                    drop(name);
                    drop(arg);
                    self = rest;
                }
                Full::Then(first, rest) => {
                    drop(first.into_inner());
                    self = rest;
                }
                Full::Is(inner) => match inner {
                    Simple::Fun(pattern, rest) => {
                        drop(pattern);
                        self = rest;
                    }
                    other => return drop(other),
                },
                last => return drop(last),
            }
        }
    }
}
