//! Rows of specifications, one after another.

ghost use Rattle.std.specs.Prelude.{◌≡◌, ◌++◌, IfOk, OnOk};
ghost use Rattle.sml_derive.specs.Signatures.{joined};

use sml_ast::BareSpec;
use std::alloc::Global;
use tl_text::{List, NoMemory};

/// Adds the specifications of a row at the end of `done`.
fn append(done: &mut List<BareSpec>, part: List<BareSpec>) -> Result<(), NoMemory>
    ensures { OnOk result (done.new ≡ done.old ++ part) }
{
    for one in part.into_vec() {
        done.push(one)?;
    }
    Ok(())
}

/// One row of all.
pub(crate) fn join(alloc: Global, parts: List<List<BareSpec>>) -> Result<List<BareSpec>, NoMemory>
    ensures { IfOk result (λ ss. ss ≡ joined parts) }
{
    let mut done = List::new(alloc);
    for part in parts.into_vec() {
        append(&mut done, part)?;
    }
    Ok(done)
}
