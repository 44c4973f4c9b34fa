ghost use Rattle.std.specs.Prelude.{◌≡◌, ◌⊎◌, ℕ, ◌+◌, ◌-◌, ◌^◌, ◌<◌, ◌≤◌, ◌==◌, vec_len, List, map, length, take, Bool, true, false, IfOk, IfSome, IfNone, IsSome, IsErr};
ghost use Rattle.std.specs.List.{slice_split, count_by, list_any};
ghost use Rattle.std.specs.Str.{bytes_eq};
ghost use Rattle.std.specs.Str.Lines.{strip_carriage_return};
ghost use Rattle.smltl.specs.declared.list.ListEnd.TheVariants as end_is;
ghost use Rattle.smltl.specs.Listing.{Listed, BadLine, HoldsPastLimit, IsNoName, is_passed_over, parts_of, list_limit, names_limit};

use std::alloc::{AllocFailed, Global};
use thiserror::Error;

/// How many bytes a list may have.
pub const LIST_LIMIT: usize = 8_388_608;

/// How many bytes a name in the list may have.
const NAME_LIMIT: usize = 1_024;

/// How many names a list may have.
const NAMES_LIMIT: usize = 4_096;

/// Why a list gives no names: its first bad line, from 1, or want of memory.
#[derive(Clone, Copy, Debug, PartialEq, Eq, Error)]
pub enum ListEnd {
    #[error("bad list line {line}")]
    Bad { line: u32 },
    #[error("no memory")]
    NoMemory,
}

impl<T: Drop> From<AllocFailed<T>> for ListEnd {
    ghost from_gives = { λ _ e. e ≡ end_is.NoMemory };

    fn from(_e: AllocFailed<T>) -> ListEnd {
        ListEnd::NoMemory
    }
}

/// The end at the line of this number, from 0.
fn bad_line(i: usize) -> ListEnd
    requires { i < 2 ^ 32 - 1 }
    ensures { result ≡ ListEnd.Bad (i + 1) }
{
    ListEnd::Bad { line: i as u32 + 1 }
}

/// The line without one carriage return at its end.
fn without_return(line: &[u8]) -> &[u8]
    ensures { result.now ≡ strip_carriage_return line.now }
{
    match line.split_last() {
        Some((last, front)) if *last == b'\r' => front,
        _ => line,
    }
}

/// Whether the line is empty or begins with `#`.
fn is_no_entry(line: &[u8]) -> bool
    ensures { result ≡ is_passed_over line.now }
{
    match line.first() {
        None => true,
        Some(first) => *first == b'#',
    }
}

/// Whether the line is one of the names.
fn is_given(line: &[u8], names: &[&str]) -> bool
    ensures { result ≡ list_any (λ name. bytes_eq name line.now) (map (λ n. n.now) names.now) }
{
    for name in names {
        if name.as_bytes() == line {
            return true;
        }
    }
    false
}

/// The name on a line, unless it is too long, no text, one of those before it, or one too many.
fn name_on<'a>(line: &'a [u8], names: &[&'a str]) -> Option<&'a str>
    ensures name { IfSome result (λ name. (name.now ≡ line.now) × (IsNoName (map (λ n. n.now) names.now) line.now → ⊥)) }
    ensures none { IfNone result (IsNoName (map (λ n. n.now) names.now) line.now) }
    ensures room { IsSome result → length names.now < names_limit }
{
    if line.len() > NAME_LIMIT {
        return None;
    }
    let Ok(name) = str::from_utf8(line) else {
        return None;
    };
    if is_given(line, names) {
        return None;
    }
    if names.len() >= NAMES_LIMIT {
        return None;
    }
    Some(name)
}

/// The number, from 0, of the line that holds the first byte past the limit.
fn line_past_limit(list: &[u8]) -> Option<usize>
    ensures past { IfSome result (λ i. HoldsPastLimit list.now i) }
    ensures within { IfNone result (length list.now ≤ list_limit) }
{
    if list.len() <= LIST_LIMIT {
        return None;
    }
    Some(list[..LIST_LIMIT].iter().filter(|b| **b == b'\n').count())
}

/// The names that a list holds, or its first bad line.
pub fn names_in(alloc: Global, list: &[u8]) -> Result<Vec<&str>, ListEnd>
    requires { length list.now ≤ list_limit + 1 }
    ensures listed { IfOk result (λ names. Listed list.now (map (λ n. n.now) names.items)) }
    ensures bad { (line : ℕ) → result ≡ Err (ListEnd.Bad line) → BadLine list.now line }
    ensures few { IfOk result (λ names. vec_len names ≤ names_limit) }
{
    let past = line_past_limit(list);
    let mut names = Vec::new(alloc);
    for (i, part) in list.split(|b| *b == b'\n').enumerate() {
        if past == Some(i) {
            return Err(bad_line(i));
        }
        let line = without_return(part);
        if is_no_entry(line) {
            continue;
        }
        let Some(name) = name_on(line, &names) else {
            return Err(bad_line(i));
        };
        names.push(name)?;
    }
    Ok(names)
}

/// The law that a list has one reading: it has names or a first bad line, not both, and no two of either.
pub fn one_reading()
    ensures some { (bytes : List ℕ) → ((names : List (List ℕ)) × Listed bytes names) ⊎ ((line : ℕ) × BadLine bytes line) }
    ensures apart { (bytes : List ℕ) (names : List (List ℕ)) (line : ℕ) → Listed bytes names → BadLine bytes line → ⊥ }
    ensures names { (bytes : List ℕ) (names others : List (List ℕ)) → Listed bytes names → Listed bytes others → names ≡ others }
    ensures line { (bytes : List ℕ) (line other : ℕ) → BadLine bytes line → BadLine bytes other → line ≡ other }
{}
