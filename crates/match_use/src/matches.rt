ghost use Rattle.std.specs.Prelude.{◌≡◌, ◌↔◌, [], ◌∷◌, IfOk, IsTrue, IsFalse};
ghost use Rattle.sml_static.specs.Shapes.{pattern_of};
ghost use Rattle.mid_ast.specs.declared.exp.MidRule.{out-MidRule};
ghost use Rattle.match_use.specs.Alike.{AreOfOneType};
ghost use Rattle.match_use.specs.Answer.{patterns_of, lines_from, SplitsWithin, IsWhole, IsGivenUp};
ghost use Rattle.match_use.specs.Lines.{line_of, lines_of, columns_of};

use crate::column::Column;
use crate::row::{Columns, Row};
use crate::walk::{SPLITS, Tally, all_of, walked};
use bumpalo::Bump;
use mid_ast::MidRule;
use std::alloc::Global;
use tl_text::{List, NoMemory};

/// What is known of the rules of a match.
#[derive(Drop)]
pub struct UseAnswer {
    /// Whether the rules take every value.
    pub exhaustive: bool,
    /// For each rule whether some value comes to it.
    pub reached: List<bool>,
    /// Whether the match was looked at to the end. If not, it counts as not exhaustive and each rule as reached.
    pub whole: bool,
}

/// Whether the rules are exhaustive and which of them are reached, where the match splits at most `SPLITS` times (the
/// Definition, section 4.11, restrictions 2 and 3). NoMemory where none is left.
pub fn usefulness(alloc: Global, rules: &[MidRule]) -> Result<UseAnswer, NoMemory>
    requires { AreOfOneType (patterns_of rules.now) }
    ensures whole { IfOk result (λ a. IsTrue a.whole ↔ SplitsWithin SPLITS (patterns_of rules.now)) }
    ensures exact { IfOk result (λ a. IsTrue a.whole → IsWhole (patterns_of rules.now) a.exhaustive a.reached) }
    ensures given_up { IfOk result (λ a. IsFalse a.whole → IsGivenUp (patterns_of rules.now) a.exhaustive a.reached) }
{
    let arena = Bump::new(alloc);
    let end = Columns::End;
    let first = first_rows(alloc, rules, &end)?;
    match walked(alloc, &arena, first, rules.len())? {
        Some(tally) => {
            let Tally {
                reached,
                exhaustive,
                splits: _,
            } = tally;
            Ok(UseAnswer {
                exhaustive,
                reached: List::from_vec(reached),
                whole: true,
            })
        }
        None => Ok(UseAnswer {
            exhaustive: false,
            reached: List::from_vec(all_of(alloc, true, rules.len())?),
            whole: false,
        }),
    }
}

// The matrix of the rules: a row for each, with its pattern as the one column.
fn first_rows<'a>(
    alloc: Global,
    rules: &'a [MidRule],
    end: &'a Columns<'a>,
) -> Result<Vec<Row<'a>>, NoMemory>
    requires { columns_of end.now ≡ [] }
    ensures { IfOk result (λ v. lines_of v.items ≡ lines_from 0 (patterns_of rules.entry.now)) }
{
    let mut done = Vec::new(alloc);
    for (i, rule) in rules.iter().enumerate() {
        done.push(first_row(i, rule, end))?;
    }
    Ok(done)
}

fn first_row<'a>(rule: usize, of: &'a MidRule, end: &'a Columns<'a>) -> Row<'a>
    requires { columns_of end.now ≡ [] }
    ensures { line_of result ≡ record { rule = rule; columns = pattern_of (out-MidRule of.entry.now).pat ∷ [] } }
{
    Row {
        rule,
        columns: Columns::More(Column::One(&of.pat), end),
    }
}
