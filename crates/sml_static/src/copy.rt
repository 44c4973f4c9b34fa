ghost use Rattle.std.specs.Prelude.{◌≡◌, IfOk};

use crate::ty::{Label, Ty};
use std::alloc::Global;
use tl_text::{Boxed, List, Name, NoMemory};

/// The same label. NoMemory where none is left.
pub fn copy_label(alloc: Global, label: &Label) -> Result<Label, NoMemory>
    ensures { IfOk result (λ l. l ≡ label.now) }
{
    match label {
        Label::Num(number) => Ok(Label::Num(*number)),
        Label::Word(name) => Ok(Label::Word(Name::new(alloc, name.bytes())?)),
    }
}

/// The same type. NoMemory where none is left.
#[cycle(copy)]
pub fn copy_ty(alloc: Global, ty: &Ty) -> Result<Ty, NoMemory>
    ensures { IfOk result (λ t. t ≡ ty.now) }
{
    match ty {
        Ty::Free(node) => Ok(Ty::Free(*node)),
        Ty::Bound(place) => Ok(Ty::Bound(*place)),
        Ty::Fields(fields) => Ok(Ty::Fields(copy_fields(alloc, fields.items())?)),
        Ty::Arrow(from, to) => {
            let from = Boxed::new(alloc, copy_ty(alloc, from.get())?)?;
            let to = Boxed::new(alloc, copy_ty(alloc, to.get())?)?;
            Ok(Ty::Arrow(from, to))
        }
        Ty::Con(name, args) => Ok(Ty::Con(*name, copy_all(alloc, args.items())?)),
    }
}

#[cycle(copy)]
fn copy_fields(alloc: Global, fields: &[(Label, Ty)]) -> Result<List<(Label, Ty)>, NoMemory>
    ensures { IfOk result (λ fs. fs ≡ fields.now) }
{
    let mut done = List::new(alloc);
    for field in fields {
        let label = copy_label(alloc, &field.0)?;
        done.push((label, copy_ty(alloc, &field.1)?))?;
    }
    Ok(done)
}

#[cycle(copy)]
fn copy_all(alloc: Global, tys: &[Ty]) -> Result<List<Ty>, NoMemory>
    ensures { IfOk result (λ ts. ts ≡ tys.now) }
{
    let mut done = List::new(alloc);
    for ty in tys {
        done.push(copy_ty(alloc, ty)?)?;
    }
    Ok(done)
}
