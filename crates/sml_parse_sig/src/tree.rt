ghost use Rattle.std.specs.Prelude.{◌≡◌, ◌∷◌, IfOk, is_some, max, suc};
ghost use Rattle.sml_ast.specs.declared.sig.SigExp.{out-SigExp};
ghost use Rattle.sml_ast.specs.declared.sig.Spec.TheVariants as specs;
ghost use Rattle.sml_grammar_sig.specs.Sigs as grammar;
ghost use Rattle.sml_grammar_sig.specs.ReadSigs as read;

use crate::real::Suffix;
use sml_ast::{Ident, SigExp, Spec};
use sml_scan::above;
use std::alloc::Global;
use tl_text::{Boxed, List, NoMemory, Place};

/// The place of the first token.
fn place_of(sig: &SigExp) -> Place
    ensures { result ≡ grammar.sig_place sig.now }
{
    match sig {
        SigExp::Specs(place, _) => *place,
        SigExp::SigAt(place, _) => *place,
        SigExp::Real(place, ..) => *place,
    }
}

/// The place of the `where` that it ends with, if it does.
fn where_place(sig: &SigExp) -> Option<Place>
    ensures { result ≡ grammar.where_place sig.now }
{
    match sig {
        SigExp::Real(_, place, ..) => Some(*place),
        SigExp::Specs(..) => None,
        SigExp::SigAt(..) => None,
    }
}

/// Whether it ends with `where` and a type.
pub fn ends_with_where(sig: &SigExp) -> bool
    ensures { result ≡ grammar.ends_with_where (grammar.where_place sig.now) }
{
    where_place(sig).is_some()
}

/// The least room in which a type may stand behind a signature of this height.
pub fn needed(height: u32) -> Result<u32, NoMemory>
    ensures { IfOk result (λ n. n ≡ suc (max 1 height)) }
{
    above(1, height)
}

/// A signature that is an identifier.
pub fn named(name: Ident) -> (SigExp, u32)
    ensures { result ≡ grammar.sig_at name }
{
    (SigExp::SigAt(name.0, name), 1)
}

/// With a type behind it.
pub fn suffixed(
    alloc: Global,
    sig: (SigExp, u32),
    suffix: Suffix,
) -> Result<(SigExp, u32), NoMemory>
    ensures { IfOk result (λ x. x ≡ read.suffixed sig suffix) }
{
    let (word, ((vars, name, ty), least)) = suffix;
    let place = place_of(&sig.0);
    let word = match word {
        Some(word) => word,
        None => match where_place(&sig.0) {
            Some(word) => word,
            None => place,
        },
    };
    let height = above(sig.1, 0)?.max(least);
    let inner = Boxed::new(alloc, sig.0)?;
    Ok((SigExp::Real(place, word, inner, vars, name, ty), height))
}

/// Whether it is an identifier alone.
pub fn is_name(sig: &SigExp) -> bool
    ensures { result ≡ is_some (read.name_in (out-SigExp sig.now)) }
{
    match sig {
        SigExp::SigAt(..) => true,
        SigExp::Specs(..) => false,
        SigExp::Real(..) => false,
    }
}

/// Whether it is `include` with one identifier.
pub fn is_lone(spec: &Spec) -> bool
    ensures { result ≡ read.is_lone spec.now }
{
    match spec {
        Spec::Incl(_, sig) => is_name(sig.get()),
        _ => false,
    }
}

/// `include G H`, of identifiers.
fn identifiers(place: Place, name: Ident, others: List<Ident>) -> Result<Spec, NoMemory>
    ensures { IfOk result (λ x. x ≡ specs.Incls place (name ∷ others)) }
{
    let mut names = others.into_vec();
    names.insert(0, name)?;
    Ok(Spec::Incls(place, List::from_vec(names)))
}

/// `include G`, or `include G H`, where it is an identifier and others stand behind it.
pub fn included(
    alloc: Global,
    place: Place,
    sig: (SigExp, u32),
    others: Option<List<Ident>>,
) -> Result<(Spec, u32), NoMemory>
    ensures { IfOk result (λ x. x ≡ read.included place sig others) }
{
    match others {
        None => {
            let height = above(sig.1, 0)?;
            Ok((Spec::Incl(place, Boxed::new(alloc, sig.0)?), height))
        }
        Some(others) => {
            let (sig, height) = sig;
            match sig.into_identifier() {
                Some(name) => Ok((identifiers(place, name, others)?, 1)),
                None => Ok((Spec::Incls(place, others), above(height, 0)?)),
            }
        }
    }
}
