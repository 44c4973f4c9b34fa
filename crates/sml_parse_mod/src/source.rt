ghost use Rattle.std.specs.Prelude.{◌≡◌, [], IfOk};
ghost use Rattle.readers.specs.Given.{Gives};
ghost use Rattle.sml_ast.specs.declared.program.Program.{Program};
ghost use Rattle.sml_fix.specs.Fixities.{settings, Settings};
ghost use Rattle.sml_scan.specs.Faults.{RefusesAs};
ghost use Rattle.sml_parse_mod.specs.Levels as levels;
ghost use Rattle.sml_parse_mod.specs.Nested.{MovesWhole};
ghost use Rattle.sml_parse_mod.specs.Promise as spec;

use crate::late::unsupported;
use crate::program::program;
use readers::{ReadError, at_end};
use sml_ast::Program;
use sml_fix::Fixities;
use sml_lex::{Token, Tokens};
use sml_scan::fault;
use sml_scope::Scope;
use std::alloc::Global;
use tl_text::{Fault, NoMemory};

/// The greatest height of a program's tree.
const HEIGHT: u32 = 1000;

/// The program that all of the tokens are. Its directives come into force.
fn whole<'a>(
    alloc: Global,
    scope: &mut Scope,
    tokens: &'a [Token],
) -> Result<Program, ReadError<'a, Token>>
    ensures gives { Gives (λ x. (x, [])) result (levels.whole scope.old tokens.now) }
    ensures moves { MovesWhole scope.old scope.new result }
{
    let (found, rest) = program(alloc, HEIGHT, scope, tokens)?;
    at_end(rest)?;
    Ok(found.0)
}

/// A scope with a directive for each identifier that was ever set in these fixities, with what it is there.
fn told(alloc: Global, fix: &Fixities) -> Result<Scope, NoMemory>
    ensures { IfOk result (λ s. s ≡ spec.told fix.now) }
{
    let mut scope = Scope::start(alloc)?;
    scope.leave(0)?;
    for (name, _) in fix.entries()? {
        let fixity = fix.get(&name);
        scope.note(&name, fixity)?;
    }
    Ok(scope)
}

/// The program that the tokens are, the fixities before it being these, and the fixities in force behind it.
///
/// # Errors
/// - Grammar at the first token with which no program goes on.
/// - Depth at the first token with which no program of a height up to 1,000 goes on, but a higher one does.
/// - FixityClash at the first token with which none of any height goes on, but one in which operators may clash does.
/// - Abstype, TopExp where the tokens are a program, at the first `abstype` or the first expression that stands as a top-level
///   declaration.
/// - NoMemory where none is left.
pub fn parse(alloc: Global, tokens: &Tokens, fix: &Fixities) -> Result<(Program, Fixities), Fault>
    // What is given is the program of the tokens, in which no phrase is unsupported, and the fixities behind it.
    ensures found { IfOk result (λ x. spec.IsProgram (spec.told fix.now) tokens.now x.0 (settings x.1)) }
    // A program without such phrases is given, unless memory runs out.
    ensures only { (p : Program) (left : Settings) → spec.IsProgram (spec.told fix.now) tokens.now p left → spec.GivesProgram result p left }
    // A refusal stands at the first token with which no program of the height goes on, and its code says why; or the tokens are
    // a program, and it stands at the first phrase that is not supported.
    ensures refused { RefusesAs (spec.Refusal (spec.told fix.now) tokens.now) result }
{
    let mut scope = told(alloc, fix)?;
    let tokens = tokens.items();
    let found = match whole(alloc, &mut scope, tokens) {
        Ok(found) => found,
        Err(error) => return Err(fault(error)),
    };
    match unsupported(tokens, &found) {
        Some(refusal) => Err(Fault::Refused(refusal)),
        None => Ok((found, scope.fixities().copy()?)),
    }
}
