ghost use Rattle.std.specs.Prelude.{◌≡◌, ◌<◌, ◌≤◌, ◌^◌, ℕ, length, drop, true, IfOk};
ghost use Rattle.readers.specs.Given.{Gives};
ghost use Rattle.readers.specs.Reader.{first};
ghost use Rattle.sml_ast.specs.declared.ty.Ty.{Ty};
ghost use Rattle.sml_fix.specs.Fixities.{settings};
ghost use Rattle.sml_grammar.specs.ReadTypes as read;
ghost use Rattle.sml_scan.specs.Faults.{RefusesAs};
ghost use Rattle.sml_parse_ty.specs.Promise as spec;

use crate::inside::{self, Read};
use sml_ast::Ty;
use sml_fix::Fixities;
use sml_lex::{Token, Tokens};
use sml_scan::fault;
use std::alloc::Global;
use tl_text::Fault;

/// The type that is next, of at most this height, as far as the tokens go on with it.
///
/// # Errors
/// Grammar, Depth at the first token with which no type goes on. NoMemory where none is left.
pub fn ty<'a>(alloc: Global, room: u32, tokens: &'a [Token]) -> Read<'a, (Ty, u32)>
    ensures { Gives (λ x. (x.0, x.1.now)) result (read.ty_read room tokens.now) }
{
    let ((found, height), rest) = inside::ty(alloc, room, tokens)?;
    Ok(((found.into_inner(), height), rest))
}

/// The type at a place of the tokens, as far as they go on with it, and the number of the token behind it. Types do not
/// depend on fixities, which stay as they are.
///
/// # Errors
/// - Grammar at the first token with which no type goes on, where the tokens before it are no type.
/// - Depth at the first token with which no type of the height goes on, but a higher one does.
/// - NoMemory where none is left.
pub fn parse_ty(
    alloc: Global,
    tokens: &Tokens,
    at: u32,
    room: u32,
    fix: &mut Fixities,
) -> Result<(Ty, u32), Fault>
    requires within { at < length tokens.now }
    requires few { length tokens.now < 2 ^ 32 }
    requires roomy { 1 ≤ room }
    // What is given is the type of the tokens up to the next one, and none of any height goes on with that.
    ensures found { IfOk result (λ x. spec.IsType room tokens.now at x.0 x.1) }
    // The type of tokens that end it is given, unless memory runs out.
    ensures only { (t : Ty) (next : ℕ) → spec.Derives room tokens.now at t next → spec.ends (first (drop next tokens.now)) ≡ true → spec.GivesType result t next }
    // A refusal stands at the first token with which no type of the height goes on, and its code says why.
    ensures refused { RefusesAs (spec.Refusal room tokens.now at) result }
    ensures kept { settings fix.new ≡ settings fix.old }
{
    let _ = fix;
    let all = tokens.items();
    match ty(alloc, room, &all[at as usize..]) {
        Ok((found, rest)) => {
            let next = all.len() - rest.len();
            Ok((found.0, next as u32))
        }
        Err(error) => Err(fault(error)),
    }
}
