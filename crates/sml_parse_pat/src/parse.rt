ghost use Rattle.std.specs.Prelude.{◌≡◌, ◌<◌, ◌≤◌, ◌^◌, ℕ, length, drop, true, IfOk};
ghost use Rattle.readers.specs.Reader.{first};
ghost use Rattle.sml_ast.specs.declared.pat.Pat.{Pat};
ghost use Rattle.sml_fix.specs.Fixities.{settings};
ghost use Rattle.sml_scan.specs.Faults as faults;
ghost use Rattle.sml_parse_pat.specs.Promise as spec;

use crate::inside::pat;
use sml_ast::Pat;
use sml_fix::Fixities;
use sml_lex::Tokens;
use sml_scan::fault;
use std::alloc::Global;
use tl_text::Fault;

/// The pattern at a place of the tokens, as far as they go on with it, and the number of the token behind it. The fixities
/// in force stay as they are.
///
/// # Errors
/// - Grammar at the first token with which no pattern goes on, where the tokens before it are no pattern, or are one behind
///   which it may not stand.
/// - Depth at the first token with which no pattern of the height goes on, but a higher one does.
/// - FixityClash at the first token with which none of any height goes on, but one in which operators may clash does.
/// - NoMemory where none is left.
pub fn parse_pat(
    alloc: Global,
    tokens: &Tokens,
    at: u32,
    room: u32,
    fix: &mut Fixities,
) -> Result<(Pat, u32), Fault>
    requires within { at < length tokens.now }
    requires few { length tokens.now < 2 ^ 32 }
    requires roomy { 2 ≤ room }
    // What is given is the pattern of the tokens up to the next one, and none of any height goes on with that.
    ensures found { IfOk result (λ x. spec.IsPat (settings fix.old) room tokens.now at x.0 x.1) }
    // The pattern of tokens that end it is given, unless memory runs out.
    ensures only { (p : Pat) (next : ℕ) → spec.Derives (settings fix.old) room tokens.now at p next → spec.ends (first (drop next tokens.now)) ≡ true → spec.GivesPat result p next }
    // A refusal stands at the first token with which no pattern of the height goes on, and its code says why.
    ensures refused { faults.RefusesAs (spec.Refusal (settings fix.old) room tokens.now at) result }
    ensures kept { settings fix.new ≡ settings fix.old }
{
    let all = tokens.items();
    match pat(alloc, room, fix, &all[at as usize..]) {
        Ok((found, rest)) => {
            let next = all.len() - rest.len();
            Ok((found.0, next as u32))
        }
        Err(error) => Err(fault(error)),
    }
}
