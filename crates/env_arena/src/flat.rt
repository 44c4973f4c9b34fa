//! The whole rows of an environment, gathered along the chain of nodes for which it stands.

ghost use Rattle.std.specs.Prelude.{◌≡◌, ◌<◌, ◌||◌, ℕ, List, All, map, reverse, IfOk, OnOk};
ghost use Rattle.sml_static.specs.declared.env.Env.{out-Env};
ghost use Rattle.env_arena.specs.declared.node.EnvNode.TheViews.{size-EnvNode, size-StrNode};
ghost use Rattle.env_arena.specs.Names.{has};
ghost use Rattle.env_arena.specs.Over.{has_name as has_item, over};
ghost use Rattle.env_arena.specs.Spelling.{spelled, spelled_val, spelled_tycon, spelled_str};

use crate::names::{Names, add_name, has_name, no_names};
use crate::node::{EnvNode, StrNode, TyNode, ValNode};
use crate::row::Named;
use bumpalo::Bump;
use tl_text::NoMemory;

// Puts the items of a row whose names are not among those seen before a reversed row.
fn push_unseen<'a, 'b, T: Named<'a>>(
    row: &mut Vec<T, &'b Bump>,
    seen: &Names<'a, 'b>,
    first: &[T],
) -> Result<(), NoMemory>
    requires { (n : List ℕ) → has seen.now n ≡ has_item T.name_of n (reverse row.old.items) }
    ensures { OnOk result (reverse row.new.items ≡ over T.name_of first.now (reverse row.old.items)) }
{
    let mut left = first.len();
    while left > 0 {
        left -= 1;
        let item = first[left];
        if !has_name(seen, item.name()) {
            row.push(item)?;
        }
    }
    Ok(())
}

// Adds the names of a row to those seen.
fn see_all<'a, T: Named<'a>>(seen: &mut Names<'a, '_>, row: &[T]) -> Result<(), NoMemory>
    ensures { OnOk result ((n : List ℕ) → has seen.new n ≡ (has_item T.name_of n row.now || has seen.old n)) }
{
    let mut left = row.len();
    while left > 0 {
        left -= 1;
        add_name(seen, row[left].name())?;
    }
    Ok(())
}

// The values of the environment.
#[tactic(auto, using(crate::proofs::Over::over_nothing))]
pub fn all_vals<'a, 'b>(
    scratch: &'b Bump,
    node: &EnvNode<'a>,
) -> Result<Vec<ValNode<'a>, &'b Bump>, NoMemory>
    ensures { IfOk result (λ r. map spelled_val r.items ≡ (out-Env (spelled node.now)).vals) }
{
    let mut row = Vec::new(scratch);
    let mut seen = no_names(scratch);
    let mut level = *node;
    'levels: loop {
        push_unseen(&mut row, &seen, level.vals)?;
        match level.under {
            Some(under) => {
                see_all(&mut seen, level.vals)?;
                level = *under;
            }
            None => break,
        }
    }
    row.reverse();
    Ok(row)
}

// The type constructors of the environment.
#[tactic(auto, using(crate::proofs::Over::over_nothing))]
pub fn all_tycons<'a, 'b>(
    scratch: &'b Bump,
    node: &EnvNode<'a>,
) -> Result<Vec<TyNode<'a>, &'b Bump>, NoMemory>
    ensures { IfOk result (λ r. map spelled_tycon r.items ≡ (out-Env (spelled node.now)).tycons) }
{
    let mut row = Vec::new(scratch);
    let mut seen = no_names(scratch);
    let mut level = *node;
    'levels: loop {
        push_unseen(&mut row, &seen, level.tycons)?;
        match level.under {
            Some(under) => {
                see_all(&mut seen, level.tycons)?;
                level = *under;
            }
            None => break,
        }
    }
    row.reverse();
    Ok(row)
}

// The structures of the environment.
#[tactic(auto, using(crate::proofs::Over::over_nothing))]
pub fn all_strs<'a, 'b>(
    scratch: &'b Bump,
    node: &EnvNode<'a>,
) -> Result<Vec<StrNode<'a>, &'b Bump>, NoMemory>
    ensures row { IfOk result (λ r. map spelled_str r.items ≡ (out-Env (spelled node.now)).strs) }
    ensures depth { IfOk result (λ r. All (λ s. size-StrNode s < size-EnvNode node.now) r.items) }
{
    let mut row = Vec::new(scratch);
    let mut seen = no_names(scratch);
    let mut level = *node;
    'levels: loop {
        push_unseen(&mut row, &seen, level.strs)?;
        match level.under {
            Some(under) => {
                see_all(&mut seen, level.strs)?;
                level = *under;
            }
            None => break,
        }
    }
    row.reverse();
    Ok(row)
}
