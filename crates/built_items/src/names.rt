//! Which identifiers are free, and which are known.

ghost use Rattle.std.specs.Prelude.{◌≡◌, codes};
ghost use Rattle.std.specs.Str.{bytes_eq};
ghost use Rattle.oc_rules.specs.Bytes.{every};
ghost use Rattle.oc_rules.specs.Bytes as rule;
ghost use Rattle.oc_names.specs.Mangled as mangled;
ghost use Rattle.built_items.specs.Built as spec;

use crate::basis::basis_names;
use sml_ast::Ident;
use tl_text::Name;

/// Whether the byte is a letter.
fn is_letter(byte: u8) -> bool
    ensures { result ≡ rule.is_letter byte }
{
    byte >= b'a' && byte <= b'z' || byte >= b'A' && byte <= b'Z'
}

/// Whether the byte may stand behind the first letter of a name.
fn is_part(byte: u8) -> bool
    ensures { result ≡ rule.is_part byte }
{
    is_letter(byte) || byte >= b'0' && byte <= b'9' || byte == b'_' || byte == b'\''
}

/// Whether the byte is a symbol.
fn is_symbol(byte: u8) -> bool
    ensures { result ≡ mangled.is_symbol byte }
{
    matches!(
        byte,
        b'!' | b'%'
            | b'&'
            | b'$'
            | b'#'
            | b'+'
            | b'-'
            | b'/'
            | b':'
            | b'<'
            | b'='
            | b'>'
            | b'?'
            | b'@'
            | b'\\'
            | b'~'
            | b'`'
            | b'^'
            | b'|'
            | b'*'
    )
}

/// Whether each byte may stand behind the first letter of a name.
fn are_parts(bytes: &[u8]) -> bool
    ensures { result ≡ every rule.is_part bytes.now }
{
    for byte in bytes {
        if !is_part(*byte) {
            return false;
        }
    }
    true
}

/// Whether each byte is a symbol.
fn are_symbols(bytes: &[u8]) -> bool
    ensures { result ≡ every mangled.is_symbol bytes.now }
{
    for byte in bytes {
        if !is_symbol(*byte) {
            return false;
        }
    }
    true
}

/// Whether a letter stands first, and then parts of names.
fn is_alphanumeric(bytes: &[u8]) -> bool
    ensures { result ≡ mangled.is_alphanumeric bytes.now }
{
    match bytes {
        [first, rest @ ..] => is_letter(*first) && are_parts(rest),
        [] => false,
    }
}

/// Whether these are symbols, one or more.
fn is_symbolic(bytes: &[u8]) -> bool
    ensures { result ≡ mangled.is_symbolic bytes.now }
{
    match bytes {
        [first, rest @ ..] => is_symbol(*first) && are_symbols(rest),
        [] => false,
    }
}

/// Whether this is a name of the initial basis.
fn is_basis(bytes: &[u8]) -> bool
    ensures { result ≡ spec.is_basis bytes.now }
{
    basis_names().find(bytes).is_some()
}

/// Whether this is an identifier that is no name of the initial basis.
pub fn is_free(bytes: &[u8]) -> bool
    ensures { result ≡ spec.is_free bytes.now }
{
    (is_alphanumeric(bytes) || is_symbolic(bytes)) && !is_basis(bytes)
}

/// Whether this is `print`.
pub fn is_print(bytes: &[u8]) -> bool
    ensures { result ≡ bytes_eq bytes.now (codes "print") }
{
    bytes == b"print".as_slice()
}

/// Whether each is no name of the initial basis other than `print`.
pub fn all_known(names: &[Ident]) -> bool
    ensures { result ≡ spec.all_known names.now }
{
    for name in names {
        if !is_known(&name.1) {
            return false;
        }
    }
    true
}

/// Whether this is no name of the initial basis other than `print`.
fn is_known(name: &Name) -> bool
    ensures { result ≡ spec.is_known name.now }
{
    let bytes = name.bytes();
    is_print(bytes) || !is_basis(bytes)
}
