ghost use Rattle.std.specs.Prelude.{◌-◌, ◌<◌, ◌^◌, IfOk, length};
ghost use Rattle.tl_text.specs.declared.place.Place.{Place};
ghost use Rattle.tl_text.specs.declared.code.Code.{Code};
ghost use Rattle.sml_ast.specs.declared.program.Program.{Program};
ghost use Rattle.sml_fix.specs.Fixities.{settings, Settings};
ghost use Rattle.sml_scan.specs.Faults.{RefusesAs};
ghost use Rattle.sml_front.specs.Sources.{FoundUnder, GivesRefusal, GivesSource, IsSourceUnder, RefusedUnder};

use sml_ast::BareProgram;
use sml_derive::derive;
use sml_fix::Fixities;
use sml_lex::lex;
use sml_parse_mod::parse;
use sml_restrict::restrict;
use std::alloc::Global;
use tl_text::Fault;

/// The program without derived forms that the bytes of the source of this number are, the fixities before it being these, and the
/// fixities in force behind it (the Definition, chapters 2 and 3 and appendices A and B).
///
/// # Errors
/// - The codes of `lex` at the first byte where no token begins, or at the first name that is too long.
/// - Grammar, FixityClash and Depth at the first token with which no program goes on; Abstype and TopExp at the first phrase that
///   is not supported.
/// - The codes of `restrict` at the first phrase that breaks a rule of form.
/// - NoMemory where none is left.
pub fn read_source(
    alloc: Global,
    number: u32,
    bytes: &[u8],
    fix: &Fixities,
) -> Result<(BareProgram, Fixities), Fault>
    requires { length bytes.now < 2 ^ 32 - 1 }
    // What is given is the program of the bytes without its derived forms, and the fixities behind it.
    ensures found { IfOk result (λ x. FoundUnder number (settings fix.now) bytes.now x.0 (settings x.1)) }
    // Bytes that are a lawful program are not refused: it is given, unless memory runs out.
    ensures only { (p : Program) (left : Settings) → IsSourceUnder number (settings fix.now) bytes.now p left → GivesSource result p left }
    // A refusal is of the first step that fails, at its place and with its code.
    ensures refused { RefusesAs (RefusedUnder number (settings fix.now) bytes.now) result }
    // Where a step fails that refusal is given, unless memory runs out.
    ensures refuses { (place : Place) (code : Code) → RefusedUnder number (settings fix.now) bytes.now place code → GivesRefusal result place code }
{
    let tokens = lex(alloc, number, bytes)?;
    let (program, left) = parse(alloc, &tokens, fix)?;
    if let Err(refusal) = restrict(&program) {
        return Err(Fault::Refused(refusal));
    }
    Ok((derive(alloc, &program)?, left))
}
