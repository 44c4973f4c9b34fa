ghost use Rattle.std.specs.Prelude.{◌≡◌, OnOk, map};
ghost use Rattle.oc_ast.specs.View.{plain_sig, plain_sitem, row_of_sitems};
ghost use Rattle.oc_layout.specs.Layout as layout;

use crate::names::params;
use crate::pen::{Pen, deeper};
use crate::types::{constructor, definitions, type_of};
use oc_ast::{MSig, SItem};
use tl_text::{Name, NoMemory};

/// A signature.
#[cycle(signatures)]
pub fn signature(pen: &mut Pen, sig: &MSig) -> Result<(), NoMemory>
    ensures { OnOk result (pen.new ≡ layout.msig (plain_sig sig.now) pen.old) }
{
    let MSig::Sig(items) = sig;
    let line = pen.line();
    let item = pen.item();
    let inner = deeper(item)?;
    pen.name(b"sig")?;
    signature_items(pen, inner, items.items())?;
    pen.start(line, item)?;
    pen.name(b"end")
}

/// The items of a signature, each on a line of its own.
#[cycle(signatures)]
fn signature_items(pen: &mut Pen, indentation: usize, items: &[SItem]) -> Result<(), NoMemory>
    ensures { OnOk result (pen.new ≡ layout.sitems indentation (row_of_sitems (map plain_sitem items.now)) pen.old) }
{
    for item in items {
        pen.start(indentation, indentation)?;
        signature_item(pen, item)?;
    }
    Ok(())
}

/// An item of a signature.
#[cycle(signatures)]
fn signature_item(pen: &mut Pen, item: &SItem) -> Result<(), NoMemory>
    ensures { OnOk result (pen.new ≡ layout.sitem (plain_sitem item.now) pen.old) }
{
    match item {
        SItem::SVal(name, ty) => {
            named(pen, b"val", name)?;
            pen.mark(b":")?;
            type_of(pen, ty)
        }
        SItem::STypes(defs) => definitions(pen, defs.items()),
        SItem::SAbs(vars, name) => {
            pen.name(b"type")?;
            params(pen, vars.items())?;
            pen.name(name.bytes())
        }
        SItem::SExn(name, arg) => {
            pen.name(b"exception")?;
            constructor(pen, name, arg)
        }
        SItem::SModule(name, inner) => {
            named(pen, b"module", name)?;
            pen.mark(b":")?;
            signature(pen, inner.get())
        }
    }
}

/// A word and the name that it binds.
pub fn named(pen: &mut Pen, word: &[u8], name: &Name) -> Result<(), NoMemory>
    ensures { OnOk result (pen.new ≡ layout.name name.now (layout.name word.now pen.old)) }
{
    pen.name(word)?;
    pen.name(name.bytes())
}
