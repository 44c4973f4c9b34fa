ghost use Rattle.std.specs.Prelude.{◌≡◌, OnOk, IfOk, map};
ghost use Rattle.oc_ast.specs.Plain.{PItems};
ghost use Rattle.oc_ast.specs.View.{plain_text, plain_item, row_of_items};
ghost use Rattle.oc_rules.specs.Allowed.{Allowed};
ghost use Rattle.oc_rules.specs.Reads.{Reads};
ghost use Rattle.oc_layout.specs.Layout as layout;
ghost use Rattle.oc_layout.specs.Layout.{Layout};

use crate::expressions::item;
use crate::pen::Pen;
use oc_ast::{Item, Text};
use std::alloc::Global;
use tl_text::NoMemory;

/// The bytes of a text, which the grammar and its rules allow. They read as this text and as no other.
pub fn print(alloc: Global, text: &Text) -> Result<Vec<u8>, NoMemory>
    requires { Allowed (plain_text text.now) }
    ensures layout { IfOk result (λ bytes. bytes.items ≡ Layout (plain_text text.now)) }
    ensures reads { IfOk result (λ bytes. Reads bytes.items (plain_text text.now)) }
    ensures alone { (other : PItems) → IfOk result (λ bytes. Reads bytes.items other → other ≡ plain_text text.now) }
{
    laid_out(alloc, text)
}

/// The layout of a text.
fn laid_out(alloc: Global, text: &Text) -> Result<Vec<u8>, NoMemory>
    ensures { IfOk result (λ bytes. bytes.items ≡ Layout (plain_text text.now)) }
{
    let Text::All(items) = text;
    let mut pen = Pen::new(alloc);
    lines(&mut pen, items.items())?;
    Ok(pen.into_bytes())
}

/// The items of a text, each ended by a line feed.
fn lines(pen: &mut Pen, items: &[Item]) -> Result<(), NoMemory>
    ensures { OnOk result (pen.new ≡ layout.lines (row_of_items (map plain_item items.now)) pen.old) }
{
    for it in items {
        item(pen, it)?;
        pen.start(0, 0)?;
    }
    Ok(())
}

#[cfg(test)]
mod tests;
