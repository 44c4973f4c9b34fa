ghost use Rattle.std.specs.Prelude.{◌≡◌};
ghost use Rattle.readers.specs.Reader.{token_by};
ghost use Rattle.readers.specs.Forms.{seps};
ghost use Rattle.readers.specs.Given.{Gives};
ghost use Rattle.sml_grammar.specs.Words.{COMMA as SEPARATES};
ghost use Rattle.sml_grammar.specs.Tokens.{is, tyvar};
ghost use Rattle.sml_grammar_exp.specs.ReadDecs as decs;
ghost use Rattle.sml_parse_bind.specs.Levels as levels;

use crate::first::begins_vars;
use crate::name::Read;
use sml_ast::{Ident, Tyvars};
use sml_lex::Token;
use sml_scan::{behind, is_next, is_tyvar, place_of, type_variable};
use std::alloc::Global;
use tl_text::{List, Place};

const OPEN_PAREN: u32 = 40;

const CLOSE_PAREN: u32 = 41;

const COMMA: u32 = 46;

/// One type variable or more, with commas between.
fn tyvars(alloc: Global, tokens: &[Token]) -> Read<'_, Tyvars>
    ensures { Gives (λ x. (x.0, x.1.now)) result (seps (is SEPARATES) (token_by tyvar) tokens.now) }
{
    let (first, mut rest) = type_variable(alloc, tokens)?;
    let mut found = List::new(alloc);
    found.push(first)?;
    'items: while is_next(COMMA, rest) {
        let after = behind(COMMA, rest)?;
        let (other, after) = type_variable(alloc, after)?;
        found.push(other)?;
        rest = after;
    }
    Ok((found, rest))
}

fn alone(alloc: Global, tokens: &[Token]) -> Read<'_, (Place, Tyvars)>
    ensures { Gives (λ x. (x.0, x.1.now)) result (levels.one_var tokens.now) }
{
    let (one, rest): (Ident, &[Token]) = type_variable(alloc, tokens)?;
    let place = one.0;
    let mut found = List::new(alloc);
    found.push(one)?;
    Ok(((place, found), rest))
}

/// Type variables before a name, `'a` or `('a, 'b)`, with the place of the first token.
pub fn variables(alloc: Global, tokens: &[Token]) -> Read<'_, (Place, Tyvars)>
    ensures { Gives (λ x. (x.0, x.1.now)) result (levels.vars tokens.now) }
{
    if is_next(OPEN_PAREN, tokens) {
        let (place, rest) = place_of(OPEN_PAREN, tokens)?;
        let (found, rest) = tyvars(alloc, rest)?;
        let rest = behind(CLOSE_PAREN, rest)?;
        return Ok(((place, found), rest));
    }
    alone(alloc, tokens)
}

/// Type variables, where some begin; what follows begins with no parenthesis.
pub fn under_one(alloc: Global, tokens: &[Token]) -> Read<'_, Option<(Place, Tyvars)>>
    ensures { Gives (λ x. (x.0, x.1.now)) result (levels.under tokens.now) }
{
    if !begins_vars(tokens) {
        return Ok((None, tokens));
    }
    let (vars, rest) = variables(alloc, tokens)?;
    Ok((Some(vars), rest))
}

/// Whether type variables begin: one is next, or one behind a parenthesis.
fn are_next(tokens: &[Token]) -> bool
    ensures { result ≡ decs.vars_next tokens.now }
{
    match tokens {
        [_, behind @ ..] => is_tyvar(tokens) || (is_next(OPEN_PAREN, tokens) && is_tyvar(behind)),
        [] => false,
    }
}

/// Type variables, where some begin; what follows may begin with a parenthesis.
pub fn under_two(alloc: Global, tokens: &[Token]) -> Read<'_, Option<(Place, Tyvars)>>
    ensures { Gives (λ x. (x.0, x.1.now)) result (levels.under_two tokens.now) }
{
    if !are_next(tokens) {
        return Ok((None, tokens));
    }
    let (vars, rest) = variables(alloc, tokens)?;
    Ok((Some(vars), rest))
}

/// Type variables before clauses: where no identifier is an operator, none of these begins with a parenthesis.
pub fn under_by(
    alloc: Global,
    some_operator: bool,
    tokens: &[Token],
) -> Read<'_, Option<(Place, Tyvars)>>
    ensures { Gives (λ x. (x.0, x.1.now)) result (levels.under_by some_operator tokens.now) }
{
    if some_operator {
        under_two(alloc, tokens)
    } else {
        under_one(alloc, tokens)
    }
}
