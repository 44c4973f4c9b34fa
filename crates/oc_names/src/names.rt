ghost use Rattle.std.specs.Prelude.{◌≡◌, ◌≢◌, ℕ, List, [], ◌∷◌, ◌++◌, IfOk, IsTrue};
ghost use Rattle.oc_rules.specs.Bytes.{is_small, is_capital, heads};
ghost use Rattle.oc_names.specs.Mangled as spec;
ghost use Rattle.oc_names.specs.declared.names.NameKind.TheVariants as spec_kind;

use crate::tables::{base_types, fixed_constructors, own_modules};
use std::alloc::Global;
use tl_cases::oc_words;
use tl_text::{Name, NoMemory};

/// What a name stands for.
#[derive(Clone, Copy, Debug, PartialEq, Eq)]
pub enum NameKind {
    Value,
    /// Exceptions too.
    Constructor,
    TypeName,
    Module,
    Functor,
}

/// The name as OCaml writes it. It takes one part of an identifier, an alphanumeric one for modules and functors.
pub fn mangle(alloc: Global, kind: NameKind, name: &Name) -> Result<Name, NoMemory>
    requires { IsTrue (spec.may_name kind name.now) }
    ensures written { IfOk result (λ n. n ≡ spec.mangled kind name.now) }
    ensures lawful { IfOk result (λ n. IsTrue (spec.lawful kind n)) }
    ensures injective { (other : List ℕ) → IsTrue (spec.may_name kind other) → IfOk result (λ n. n ≡ spec.mangled kind other → other ≡ name.now) }
    ensures apart { (other : List ℕ) → kind ≡ spec_kind.Functor → IsTrue (spec.may_name spec_kind.Module other) → IfOk result (λ n. n ≢ spec.mangled spec_kind.Module other) }
{
    mangled(alloc, kind, name)
}

/// The spelling of a name.
fn mangled(alloc: Global, kind: NameKind, name: &Name) -> Result<Name, NoMemory>
    ensures { IfOk result (λ n. n ≡ spec.mangled kind name.now) }
{
    let bytes = name.bytes();
    match kind {
        NameKind::Value => spelling(alloc, b's', b'v', keeps_low(bytes), bytes),
        NameKind::TypeName => spelling(alloc, b's', b'v', keeps_type(bytes), bytes),
        NameKind::Constructor => constructor(alloc, bytes),
        NameKind::Module => {
            if keeps_module(bytes) {
                Name::new(alloc, bytes)
            } else {
                behind(alloc, b'C', bytes)
            }
        }
        NameKind::Functor => behind(alloc, b'F', bytes),
    }
}

/// A constructor: one that is fixed, or any other.
fn constructor(alloc: Global, bytes: &[u8]) -> Result<Name, NoMemory>
    ensures { IfOk result (λ n. n ≡ spec.mangled spec_kind.Constructor bytes.now) }
{
    match fixed_constructors().find(bytes) {
        None => spelling(alloc, b'S', b'C', keeps_cap(bytes), bytes),
        Some(number) => fixed(alloc, number),
    }
}

/// The spelling of a fixed constructor.
fn fixed(alloc: Global, number: u32) -> Result<Name, NoMemory>
    ensures { IfOk result (λ n. n ≡ spec.fixed_of number) }
{
    if number == 0 {
        Name::new(alloc, b"::")
    } else if number == 1 {
        Name::new(alloc, b"false")
    } else if number == 2 {
        Name::new(alloc, b"[]")
    } else if number == 3 {
        Name::new(alloc, b"ref")
    } else {
        Name::new(alloc, b"true")
    }
}

/// A symbolic name by its words behind a letter, and another one as it is or behind the other letter.
fn spelling(
    alloc: Global,
    symbolic: u8,
    other: u8,
    keeps: bool,
    bytes: &[u8],
) -> Result<Name, NoMemory>
    ensures { IfOk result (λ n. n ≡ spec.spelling symbolic other keeps bytes.now) }
{
    if begins_with_symbol(bytes) {
        return by_words(alloc, symbolic, bytes);
    }
    if keeps {
        Name::new(alloc, bytes)
    } else {
        behind(alloc, other, bytes)
    }
}

/// The name behind a letter and `_`.
fn behind(alloc: Global, letter: u8, bytes: &[u8]) -> Result<Name, NoMemory>
    ensures { IfOk result (λ n. n ≡ spec.behind letter bytes.now) }
{
    let mut out = Vec::from_slice(alloc, &[letter, b'_'])?;
    out.extend_from_slice(bytes)?;
    Name::new(alloc, out.as_slice())
}

/// The words of the symbols, each behind `_`, after a letter.
fn by_words(alloc: Global, letter: u8, bytes: &[u8]) -> Result<Name, NoMemory>
    ensures { IfOk result (λ n. n ≡ (letter ∷ []) ++ spec.words_of bytes.now) }
{
    let mut out = Vec::from_slice(alloc, &[letter])?;
    for symbol in bytes {
        out.push(b'_')?;
        out.extend_from_slice(word_of(*symbol))?;
    }
    Name::new(alloc, out.as_slice())
}

/// The word of a symbol; no bytes for any other byte.
fn word_of(symbol: u8) -> &'static [u8]
    ensures { result.now ≡ spec.word_of symbol }
{
    match symbol {
        b'!' => b"bang",
        b'%' => b"percent",
        b'&' => b"amp",
        b'$' => b"dollar",
        b'#' => b"hash",
        b'+' => b"plus",
        b'-' => b"minus",
        b'/' => b"slash",
        b':' => b"colon",
        b'<' => b"lt",
        b'=' => b"eq",
        b'>' => b"gt",
        b'?' => b"quest",
        b'@' => b"at",
        b'\\' => b"backslash",
        b'~' => b"tilde",
        b'`' => b"tick",
        b'^' => b"hat",
        b'|' => b"bar",
        b'*' => b"star",
        _ => b"",
    }
}

/// Whether a symbol stands first.
fn begins_with_symbol(bytes: &[u8]) -> bool
    ensures { result ≡ heads spec.is_symbol bytes.now }
{
    match bytes {
        [first, ..] => is_symbol(*first),
        [] => false,
    }
}

/// Whether the byte is a symbol.
fn is_symbol(byte: u8) -> bool
    ensures { result ≡ spec.is_symbol byte }
{
    matches!(
        byte,
        b'!' | b'%'
            | b'&'
            | b'$'
            | b'#'
            | b'+'
            | b'-'
            | b'/'
            | b':'
            | b'<'
            | b'='
            | b'>'
            | b'?'
            | b'@'
            | b'\\'
            | b'~'
            | b'`'
            | b'^'
            | b'|'
            | b'*'
    )
}

/// Whether this letter and `_` stand first.
fn prefixed(letter: u8, bytes: &[u8]) -> bool
    ensures { result ≡ spec.prefixed letter bytes.now }
{
    match bytes {
        [a, b, ..] => *a == letter && *b == b'_',
        _ => false,
    }
}

/// Whether `U` and a digit stand first.
fn is_unit_like(bytes: &[u8]) -> bool
    ensures { result ≡ spec.is_unit_like bytes.now }
{
    match bytes {
        [a, b, ..] => *a == b'U' && *b >= b'0' && *b <= b'9',
        _ => false,
    }
}

/// Whether a small letter stands first.
fn begins_small(bytes: &[u8]) -> bool
    ensures { result ≡ heads is_small bytes.now }
{
    match bytes {
        [first, ..] => *first >= b'a' && *first <= b'z',
        [] => false,
    }
}

/// Whether a capital stands first.
fn begins_capital(bytes: &[u8]) -> bool
    ensures { result ≡ heads is_capital bytes.now }
{
    match bytes {
        [first, ..] => *first >= b'A' && *first <= b'Z',
        [] => false,
    }
}

/// Whether a value keeps its name.
fn keeps_low(bytes: &[u8]) -> bool
    ensures { result ≡ spec.keeps_low bytes.now }
{
    begins_small(bytes)
        && oc_words().find(bytes).is_none()
        && !prefixed(b'v', bytes)
        && !prefixed(b's', bytes)
        && !prefixed(b'z', bytes)
}

/// Whether a type keeps its name.
fn keeps_type(bytes: &[u8]) -> bool
    ensures { result ≡ spec.keeps_type bytes.now }
{
    keeps_low(bytes) && base_types().find(bytes).is_none()
}

/// Whether a constructor keeps its name.
fn keeps_cap(bytes: &[u8]) -> bool
    ensures { result ≡ spec.keeps_cap bytes.now }
{
    begins_capital(bytes)
        && !prefixed(b'C', bytes)
        && !prefixed(b'S', bytes)
        && !prefixed(b'Z', bytes)
}

/// Whether a module keeps its name.
fn keeps_module(bytes: &[u8]) -> bool
    ensures { result ≡ spec.keeps_module bytes.now }
{
    keeps_cap(bytes)
        && own_modules().find(bytes).is_none()
        && !prefixed(b'F', bytes)
        && !is_unit_like(bytes)
}

#[cfg(test)]
mod tests {
    use super::*;

    // A table with another word or prefix would be proved too: these are the examples of the rules.
    fn is_spelled(alloc: Global, kind: NameKind, source: &[u8], want: &[u8]) -> bool
        requires { IsTrue (spec.may_name kind source.now) }
    {
        match Name::new(alloc, source) {
            Ok(name) =>
                matches!(mangle(alloc, kind, &name), Ok(written) if written.bytes() == want),
            Err(NoMemory) => false,
        }
    }

    #[test]
    fn values_are_spelled(rt: HostRuntime) {
        let alloc = rt.alloc();
        assert!(rt; is_spelled(alloc, NameKind::Value, b"Foo'", b"v_Foo'"));
        assert!(rt; is_spelled(alloc, NameKind::Value, b"it's", b"it's"));
        assert!(rt; is_spelled(alloc, NameKind::Value, b"effect", b"v_effect"));
        assert!(rt; is_spelled(alloc, NameKind::Value, b"v_x", b"v_v_x"));
        assert!(rt; is_spelled(alloc, NameKind::Value, b"z_1", b"v_z_1"));
        assert!(rt; is_spelled(alloc, NameKind::Value, b"<>", b"s_lt_gt"));
        assert!(rt; is_spelled(alloc, NameKind::Value, b"<+>", b"s_lt_plus_gt"));
        assert!(rt; is_spelled(alloc, NameKind::Value, b"\\`", b"s_backslash_tick"));
    }

    #[test]
    fn types_and_constructors_are_spelled(rt: HostRuntime) {
        let alloc = rt.alloc();
        assert!(rt; is_spelled(alloc, NameKind::TypeName, b"int", b"v_int"));
        assert!(rt; is_spelled(alloc, NameKind::TypeName, b"option", b"v_option"));
        assert!(rt; is_spelled(alloc, NameKind::TypeName, b"tree", b"tree"));
        assert!(rt; is_spelled(alloc, NameKind::Constructor, b"nil", b"[]"));
        assert!(rt; is_spelled(alloc, NameKind::Constructor, b"leaf", b"C_leaf"));
        assert!(rt; is_spelled(alloc, NameKind::Constructor, b"Leaf", b"Leaf"));
        assert!(rt; is_spelled(alloc, NameKind::Constructor, b"S_x", b"C_S_x"));
        assert!(rt; is_spelled(alloc, NameKind::Constructor, b"++", b"S_plus_plus"));
    }

    #[test]
    fn modules_and_functors_are_spelled(rt: HostRuntime) {
        let alloc = rt.alloc();
        assert!(rt; is_spelled(alloc, NameKind::Module, b"String", b"C_String"));
        assert!(rt; is_spelled(alloc, NameKind::Module, b"U1", b"C_U1"));
        assert!(rt; is_spelled(alloc, NameKind::Module, b"F_Set", b"C_F_Set"));
        assert!(rt; is_spelled(alloc, NameKind::Module, b"Upper", b"Upper"));
        assert!(rt; is_spelled(alloc, NameKind::Module, b"low", b"C_low"));
        assert!(rt; is_spelled(alloc, NameKind::Functor, b"Set", b"F_Set"));
        assert!(rt; is_spelled(alloc, NameKind::Functor, b"F_Set", b"F_F_Set"));
    }
}
