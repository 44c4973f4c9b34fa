ghost use Rattle.std.specs.Prelude.{◌≡◌, IfOk, suc, max};
ghost use Rattle.sml_grammar_mod.specs.ReadStrs as read;
ghost use Rattle.sml_grammar_mod.specs.Strs as grammar;
ghost use Rattle.sml_parse_mod.specs.Trees as trees;

use crate::tree::sealed;
use sml_ast::{Ascribe, SigExp, StrExp};
use sml_parse_sig::{Suffix, suffixed};
use sml_scan::above;
use std::alloc::Global;
use tl_text::{NoMemory, Place};

/// An ascription whose types are still to come.
#[derive(Drop)]
pub struct Seal {
    pub opaque: bool,
    pub place: Place,
    pub sig: (SigExp, u32),
}

/// A structure expression that ends with no ascription, or with this one; each with its height.
#[derive(Drop)]
pub enum Growing {
    Whole((StrExp, u32)),
    Sealed((StrExp, u32), Seal),
}

/// A further ascription, or a type for the last one.
#[derive(Drop)]
pub enum Grow {
    Seals(Seal),
    Types(Suffix),
}

/// The ascription with all its types.
fn ascribed(seal: Seal) -> Result<(Ascribe, u32), NoMemory>
    ensures { IfOk result (λ x. x ≡ read.ascribed (trees.seal seal)) }
{
    let height = above(seal.sig.1, 0)?;
    if seal.opaque {
        Ok((Ascribe::Opaque(seal.place, seal.sig.0), height))
    } else {
        Ok((Ascribe::Clear(seal.place, seal.sig.0), height))
    }
}

/// The structure expression so far.
pub fn grown(alloc: Global, growing: Growing) -> Result<(StrExp, u32), NoMemory>
    ensures { IfOk result (λ x. x ≡ read.grown_str (trees.growing growing)) }
{
    match growing {
        Growing::Whole(found) => Ok(found),
        Growing::Sealed(found, seal) => sealed(alloc, found, ascribed(seal)?),
    }
}

/// A binding with all of its structure expression.
pub fn grown_bind<F: Drop>(
    alloc: Global,
    bind: (F, Growing),
) -> Result<(F, (StrExp, u32)), NoMemory>
    ensures { IfOk result (λ x. x ≡ (bind.0, read.grown_str (trees.growing bind.1))) }
{
    let (front, growing) = bind;
    let found = grown(alloc, growing)?;
    Ok((front, found))
}

/// The least room in which an ascription may stand behind it.
pub fn least(growing: &Growing) -> Result<u32, NoMemory>
    ensures { IfOk result (λ n. n ≡ read.above (trees.growing growing.now)) }
{
    match growing {
        Growing::Whole(found) => above(2, found.1),
        Growing::Sealed(found, seal) => {
            let inner = above(seal.sig.1, 0)?;
            let height = above(found.1, inner)?;
            above(2, height)
        }
    }
}

/// With a type for its last ascription, where it has one.
fn typed(alloc: Global, growing: Growing, suffix: Suffix) -> Result<Growing, NoMemory>
    ensures { IfOk result (λ x. trees.growing x ≡ read.typed_by (trees.growing growing) suffix) }
{
    match growing {
        Growing::Whole(found) => Ok(Growing::Whole(found)),
        Growing::Sealed(found, seal) => {
            let sig = suffixed(alloc, seal.sig, suffix)?;
            let seal = Seal {
                opaque: seal.opaque,
                place: seal.place,
                sig,
            };
            Ok(Growing::Sealed(found, seal))
        }
    }
}

/// A binding whose structure expression goes on so.
pub fn extended<F: Drop>(
    alloc: Global,
    bind: (F, Growing),
    more: Grow,
) -> Result<(F, Growing), NoMemory>
    ensures { IfOk result (λ x. trees.bind x ≡ (bind.0, read.grown_by (trees.growing bind.1) (trees.grow more))) }
{
    let (front, growing) = bind;
    let growing = with(alloc, growing, more)?;
    Ok((front, growing))
}

/// With an ascription or a type behind it.
pub fn with(alloc: Global, growing: Growing, more: Grow) -> Result<Growing, NoMemory>
    ensures { IfOk result (λ x. trees.growing x ≡ read.grown_by (trees.growing growing) (trees.grow more)) }
{
    match more {
        Grow::Seals(seal) => Ok(Growing::Sealed(grown(alloc, growing)?, seal)),
        Grow::Types(suffix) => typed(alloc, growing, suffix),
    }
}
