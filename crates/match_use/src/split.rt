ghost use Rattle.std.specs.Prelude.{◌≡◌, ◌∷◌, ◌++◌, map, length, IfOk, OnOk, IsTrue};
ghost use Rattle.std.specs.Option.{option_map};
ghost use Rattle.std.specs.List.{list_all};
ghost use Rattle.sml_static.specs.Exhaustive.{head_of, heads, split_by};
ghost use Rattle.match_use.specs.Keys.{shared_head};
ghost use Rattle.match_use.specs.Heads.{stands, with_head, with_others, OnHead};
ghost use Rattle.match_use.specs.Lines.{lines_of, columns_of, plain};

use crate::column::{Begin, beginning};
use crate::head::{Head, literal_head, others_than};
use crate::row::{Columns, Row};
use indexmap::IndexSet;
use std::alloc::Global;
use tl_text::NoMemory;

/// The heads by which the first column is split: each head in it once, in order, and another where there are others.
pub fn heads_to_split<'a>(alloc: Global, rows: &[Row<'a>]) -> Result<IndexSet<Head<'a>>, NoMemory>
    ensures by { IfOk result (λ s. map shared_head s.keys ≡ split_by (heads (plain (lines_of rows.now)))) }
    ensures standing { IfOk result (λ _. IsTrue (list_all stands (heads (plain (lines_of rows.now))))) }
{
    let mut found = heads_once(alloc, rows)?;
    if has_others(found.as_slice()) {
        found.insert(Head::Another)?;
    }
    Ok(found)
}

// Whether the type of a column with these heads has others.
fn has_others(heads: &[Head<'_>]) -> bool
    ensures { split_by (map shared_head heads.now) ≡ with_others result (map shared_head heads.now) }
{
    match heads {
        [] => false,
        [first, ..] => others_than(*first, heads.len()),
    }
}

// Each head of the first column once, in order.
fn heads_once<'a>(alloc: Global, rows: &[Row<'a>]) -> Result<IndexSet<Head<'a>>, NoMemory>
    ensures each { IfOk result (λ s. map shared_head s.keys ≡ heads (plain (lines_of rows.now))) }
    ensures standing { IfOk result (λ s. IsTrue (list_all stands (map shared_head s.keys))) }
{
    let mut found = IndexSet::new(alloc);
    for row in rows {
        add_head(&mut found, &row.columns)?;
    }
    Ok(found)
}

// Adds the head with which a row begins, where there is one and none of those there is alike to it.
fn add_head<'a>(found: &mut IndexSet<Head<'a>>, columns: &Columns<'a>) -> Result<(), NoMemory>
    ensures each { OnOk result (map shared_head found.new.keys ≡ with_head (map shared_head found.old.keys) (head_of (columns_of columns.now))) }
    ensures standing { OnHead (head_of (columns_of columns.now)) }
{
    if let Some(head) = head_at(columns) {
        found.insert(head)?;
    }
    Ok(())
}

/// The head with which a row begins.
pub fn head_at<'a>(columns: &Columns<'a>) -> Option<Head<'a>>
    ensures head { option_map shared_head result ≡ head_of (columns_of columns.now) }
    ensures standing { OnHead (option_map shared_head result) }
{
    let Columns::More(column, _) = *columns else {
        return None;
    };
    match beginning(column) {
        Begin::Literal(literal) => Some(literal_head(literal)),
        Begin::Made(key, count, _) => Some(Head::Key(key, count)),
        _ => None,
    }
}
