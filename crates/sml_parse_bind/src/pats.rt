ghost use Rattle.std.specs.Prelude.{◌≡◌, false};
ghost use Rattle.readers.specs.Reader.{mapped, row};
ghost use Rattle.readers.specs.Given.{Gives};
ghost use Rattle.sml_fix.specs.Fixities.{settings};
ghost use Rattle.sml_grammar.specs.ReadPats as pats;
ghost use Rattle.sml_grammar_exp.specs.ReadClauses.{many_read};
ghost use Rattle.sml_parse_bind.specs.Rows as rows;

use crate::name::Read;
use crate::option::higher;
use sml_ast::AtPat;
use sml_fix::Fixities;
use sml_lex::Token;
use sml_parse_pat::{at_pat, begins_at};
use std::alloc::Global;
use tl_text::List;

/// Atomic patterns as far as they go.
pub fn more_pats<'a>(
    alloc: Global,
    room: u32,
    fix: &Fixities,
    tokens: &'a [Token],
) -> Read<'a, (List<AtPat>, u32)>
    ensures { Gives (λ x. (x.0, x.1.now)) result (mapped rows.at_pats (row (pats.begins_at (settings fix.now)) (pats.at_read room false (settings fix.now))) tokens.now) }
{
    let mut found = List::new(alloc);
    let mut height = 0;
    let mut rest = tokens;
    'items: while begins_at(fix, rest) {
        let (other, after) = at_pat(alloc, room, fix, rest)?;
        height = higher(height, other.1);
        found.push(other.0)?;
        rest = after;
    }
    Ok(((found, height), rest))
}

/// One atomic pattern or more.
pub fn some_pats<'a>(
    alloc: Global,
    room: u32,
    fix: &Fixities,
    tokens: &'a [Token],
) -> Read<'a, (List<AtPat>, u32)>
    ensures { Gives (λ x. (x.0, x.1.now)) result (mapped rows.at_pats (many_read (pats.begins_at (settings fix.now)) (pats.at_read room false (settings fix.now))) tokens.now) }
{
    let (first, mut rest) = at_pat(alloc, room, fix, tokens)?;
    let mut found = List::new(alloc);
    let mut height = first.1;
    found.push(first.0)?;
    'items: while begins_at(fix, rest) {
        let (other, after) = at_pat(alloc, room, fix, rest)?;
        height = higher(height, other.1);
        found.push(other.0)?;
        rest = after;
    }
    Ok(((found, height), rest))
}
