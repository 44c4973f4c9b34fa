//! Copies of names, labels and literals, and the names that derived forms bind.

ghost use Rattle.std.specs.Prelude.{◌≡◌, [], ◌∷◌, IfOk};
ghost use Rattle.sml_derive_core.specs.Names.{fresh_name};

use sml_ast::{Ident, Lab, Label, LongIdent};
use std::alloc::Global;
use tl_text::{List, Lit, Name, NoMemory, Path};

/// The same name.
pub fn copy_name(alloc: Global, name: &Name) -> Result<Name, NoMemory>
    ensures { IfOk result (λ n. n ≡ name.now) }
{
    Name::new(alloc, name.bytes())
}

/// The same identifier at the same place.
pub fn copy_ident(alloc: Global, ident: &Ident) -> Result<Ident, NoMemory>
    ensures { IfOk result (λ x. x ≡ ident.now) }
{
    let name = copy_name(alloc, &ident.1)?;
    Ok((ident.0, name))
}

/// The same identifiers.
pub fn copy_idents(alloc: Global, idents: &[Ident]) -> Result<List<Ident>, NoMemory>
    ensures { IfOk result (λ xs. xs ≡ idents.now) }
{
    let mut done = List::new(alloc);
    for one in idents {
        done.push(copy_ident(alloc, one)?)?;
    }
    Ok(done)
}

/// The same path.
fn copy_path(alloc: Global, path: &Path) -> Result<Path, NoMemory>
    ensures { IfOk result (λ p. p ≡ path.now) }
{
    let mut done = Path::new(alloc);
    for one in path.parts() {
        done.push(copy_name(alloc, one)?)?;
    }
    Ok(done)
}

/// The same long identifier at the same place.
pub fn copy_long(alloc: Global, long: &LongIdent) -> Result<LongIdent, NoMemory>
    ensures { IfOk result (λ x. x ≡ long.now) }
{
    let path = copy_path(alloc, &long.1)?;
    Ok((long.0, path))
}

/// The same long identifiers.
pub fn copy_longs(alloc: Global, longs: &[LongIdent]) -> Result<List<LongIdent>, NoMemory>
    ensures { IfOk result (λ xs. xs ≡ longs.now) }
{
    let mut done = List::new(alloc);
    for one in longs {
        done.push(copy_long(alloc, one)?)?;
    }
    Ok(done)
}

/// The same label at the same place.
pub fn copy_label(alloc: Global, label: &Label) -> Result<Label, NoMemory>
    ensures { IfOk result (λ l. l ≡ label.now) }
{
    match &label.1 {
        Lab::Num(number) => Ok((label.0, Lab::Num(*number))),
        Lab::Word(word) => Ok((label.0, Lab::Word(copy_name(alloc, word)?))),
    }
}

/// The same literal.
pub fn copy_lit(alloc: Global, lit: &Lit) -> Result<Lit, NoMemory>
    ensures { IfOk result (λ l. l ≡ lit.now) }
{
    match lit {
        Lit::Int(value) => Ok(Lit::Int(*value)),
        Lit::Word(value) => Ok(Lit::Word(*value)),
        Lit::Char(value) => Ok(Lit::Char(*value)),
        Lit::Text(text) => Ok(Lit::Text(copy_name(alloc, text)?)),
    }
}

/// The long identifier of one part.
pub fn long_of(alloc: Global, ident: &Ident) -> Result<LongIdent, NoMemory>
    ensures { IfOk result (λ x. x ≡ (ident.now.0, ident.now.1 ∷ [])) }
{
    let mut path = Path::new(alloc);
    path.push(copy_name(alloc, &ident.1)?)?;
    Ok((ident.0, path))
}

/// The name of a number that a derived form binds. It is no identifier of a source, since it begins with a digit.
pub fn fresh(alloc: Global, number: u32) -> Result<Name, NoMemory>
    ensures { IfOk result (λ n. n ≡ fresh_name number) }
{
    let text = format!(in alloc; "{number}")?;
    Name::new(alloc, text.as_bytes())
}
