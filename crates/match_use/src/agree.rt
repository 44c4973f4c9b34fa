ghost use Rattle.std.specs.Prelude.{◌≡◌, ◌||◌};
ghost use Rattle.std.specs.List.{list_all};
ghost use Rattle.sml_static.specs.Shapes.{is_same_literal, is_other_literal, is_same_key, is_other_key};
ghost use Rattle.match_use.specs.Alike.{agree};
ghost use Rattle.match_use.specs.Answer.{patterns_of};
ghost use Rattle.match_use.specs.Columns.{column_of};
ghost use Rattle.match_use.specs.Keys.{shared_key};

use crate::column::{Begin, Column, beginning};
use crate::key::Key;
use mid_ast::MidRule;
use tl_text::Lit;

/// Whether each two patterns of the rules can be of one type.
pub fn all_agree(rules: &[MidRule]) -> bool
    ensures { result ≡ list_all (λ p. list_all (agree p) (patterns_of rules.now)) (patterns_of rules.now) }
{
    for rule in rules {
        if !agrees_with_all(Column::One(&rule.pat), rules) {
            return false;
        }
    }
    true
}

fn agrees_with_all(column: Column<'_>, rules: &[MidRule]) -> bool
    ensures { result ≡ list_all (agree (column_of column.entry)) (patterns_of rules.now) }
{
    for rule in rules {
        if !columns_agree(column, Column::One(&rule.pat)) {
            return false;
        }
    }
    true
}

#[tactic(auto, using(crate::proofs::Heads::key_same))]
fn columns_agree(a: Column<'_>, b: Column<'_>) -> bool
    ensures { result ≡ agree (column_of a.entry) (column_of b.entry) }
{
    match (beginning(a), beginning(b)) {
        (Begin::Wild, _) => true,
        (_, Begin::Wild) => true,
        (Begin::Parts(p, q), Begin::Parts(r, s)) => columns_agree(p, r) && columns_agree(q, s),
        (Begin::Cell(p), Begin::Cell(q)) => columns_agree(p, q),
        (Begin::Literal(l), Begin::Literal(m)) => literals_agree(l, m),
        (Begin::Made(k, _, p), Begin::Made(j, _, q)) => {
            if k == j {
                columns_agree(p, q)
            } else {
                keys_agree(k, j)
            }
        }
        _ => false,
    }
}

// Whether two literals are of one type.
fn literals_agree(a: &Lit, b: &Lit) -> bool
    ensures { result ≡ (is_same_literal a.now b.now || is_other_literal a.now b.now) }
{
    match (a, b) {
        (Lit::Int(_), Lit::Int(_)) => true,
        (Lit::Word(_), Lit::Word(_)) => true,
        (Lit::Char(_), Lit::Char(_)) => true,
        (Lit::Text(_), Lit::Text(_)) => true,
        _ => false,
    }
}

// Whether two constructors are of one datatype, or both are exceptions.
fn keys_agree(a: Key<'_>, b: Key<'_>) -> bool
    ensures { result ≡ (is_same_key (shared_key a.entry) (shared_key b.entry) || is_other_key (shared_key a.entry) (shared_key b.entry)) }
{
    match (a, b) {
        (Key::Of(d, _), Key::Of(e, _)) => d == e,
        (Key::Exception(_), Key::Exception(_)) => true,
        _ => false,
    }
}
