ghost use Rattle.std.specs.Prelude.{◌≡◌, ◌++◌, length, map, IfOk, OnOk};
ghost use Rattle.std.specs.List.{list_all, list_any};
ghost use Rattle.match_use.specs.Answer.{patterns_of};
ghost use Rattle.match_use.specs.Columns.{column_of};
ghost use Rattle.match_use.specs.Keys.{shared_key};
ghost use Rattle.match_use.specs.Standing.{standing_of, standing_at, standing_in, all_standing, is_of, is_alike, counts_agree, all_counts_agree, names_of, each_few};

use crate::column::{Begin, Column, beginning};
use crate::key::Key;
use mid_ast::MidRule;
use std::alloc::Global;
use tl_text::NoMemory;

/// A constructor of a datatype where it stands in a pattern.
#[derive(Clone, Copy)]
pub struct Constructor<'a> {
    /// The number of the datatype's name.
    pub datatype: u32,
    /// The last part of the constructor's path.
    pub name: &'a [u8],
    /// How many constructors the datatype has, as the pattern says.
    pub count: u32,
}

/// The constructors of datatypes in the patterns of the rules.
pub fn constructors<'a>(
    alloc: Global,
    rules: &'a [MidRule],
) -> Result<Vec<Constructor<'a>>, NoMemory>
    ensures { IfOk result (λ v. map standing_of v.items ≡ all_standing (patterns_of rules.entry.now)) }
{
    let mut found = Vec::new(alloc);
    for rule in rules {
        add_constructors(&mut found, Column::One(&rule.pat))?;
    }
    Ok(found)
}

fn add_constructors<'a>(
    found: &mut Vec<Constructor<'a>>,
    column: Column<'a>,
) -> Result<(), NoMemory>
    ensures { OnOk result (map standing_of found.new.items ≡ map standing_of found.old.items ++ standing_in (column_of column.entry)) }
{
    match beginning(column) {
        Begin::Wild => Ok(()),
        Begin::Literal(_) => Ok(()),
        Begin::Cell(inner) => add_constructors(found, inner),
        Begin::Parts(first, others) => {
            add_constructors(found, first)?;
            add_constructors(found, others)
        }
        Begin::Made(key, count, argument) => {
            add_constructor(found, key, count)?;
            add_constructors(found, argument)
        }
    }
}

fn add_constructor<'a>(
    found: &mut Vec<Constructor<'a>>,
    key: Key<'a>,
    count: u32,
) -> Result<(), NoMemory>
    ensures { OnOk result (map standing_of found.new.items ≡ map standing_of found.old.items ++ standing_at (shared_key key.entry) count) }
{
    if let Key::Of(datatype, name) = key {
        found.push(Constructor {
            datatype,
            name,
            count,
        })?;
    }
    Ok(())
}

/// Whether those of one datatype say the same number of constructors.
pub fn counts_are_same(found: &[Constructor<'_>]) -> bool
    ensures { result ≡ all_counts_agree (map standing_of found.now) }
{
    for one in found {
        if !has_same_count(*one, found) {
            return false;
        }
    }
    true
}

fn has_same_count(one: Constructor<'_>, found: &[Constructor<'_>]) -> bool
    ensures { result ≡ list_all (counts_agree (standing_of one.entry)) (map standing_of found.now) }
{
    for other in found {
        if one.datatype == other.datatype && one.count != other.count {
            return false;
        }
    }
    true
}

/// Whether no datatype has more constructors here than it has. The last one of each datatype is asked.
pub fn are_few(found: &[Constructor<'_>]) -> bool
    ensures { result ≡ each_few (map standing_of found.now) (map standing_of found.now) }
{
    for (i, one) in found.iter().enumerate() {
        let later = &found[i + 1..];
        if !has_datatype(later, one.datatype)
            && names_in(found, one.datatype) > one.count as usize
        {
            return false;
        }
    }
    true
}

fn has_datatype(found: &[Constructor<'_>], datatype: u32) -> bool
    ensures { result ≡ list_any (is_of datatype) (map standing_of found.now) }
{
    for one in found {
        if one.datatype == datatype {
            return true;
        }
    }
    false
}

// How many constructors of a datatype there are, alike ones counted once.
fn names_in(found: &[Constructor<'_>], datatype: u32) -> usize
    ensures { result ≡ length (names_of datatype (map standing_of found.now)) }
{
    let mut count = 0;
    for (i, one) in found.iter().enumerate() {
        if one.datatype == datatype && !has_alike(&found[i + 1..], *one) {
            count += 1;
        }
    }
    count
}

fn has_alike(found: &[Constructor<'_>], one: Constructor<'_>) -> bool
    ensures { result ≡ list_any (is_alike (standing_of one.entry)) (map standing_of found.now) }
{
    for other in found {
        if one.datatype == other.datatype && one.name == other.name {
            return true;
        }
    }
    false
}
