ghost use Rattle.std.specs.Prelude.{◌≡◌, ◌++◌, OnOk, IfOk};
ghost use Rattle.oc_layout.specs.Sheet.{all_bytes, byte, quoted, literal, integer, three_digits};

use oc_ast::OcLit;
use std::alloc::Global;
use tl_text::NoMemory;

/// The bytes of a literal.
pub fn literal_bytes(alloc: Global, lit: &OcLit) -> Result<Vec<u8>, NoMemory>
    ensures { IfOk result (λ v. v.items ≡ literal lit.now) }
{
    match lit {
        OcLit::Int(number) => integer_bytes(alloc, *number),
        OcLit::Char(code) => quoted_bytes(alloc, b'\'', &[*code]),
        OcLit::Text(bytes) => quoted_bytes(alloc, b'"', bytes.bytes()),
    }
}

/// An integer in decimal, in parentheses where it is negative.
fn integer_bytes(alloc: Global, number: i64) -> Result<Vec<u8>, NoMemory>
    ensures { IfOk result (λ v. v.items ≡ integer number) }
{
    let digits = number.unsigned_abs().to_string(alloc)?;
    if number >= 0 {
        return Ok(digits.into_bytes());
    }
    let mut out = Vec::from_slice(alloc, b"(-")?;
    out.extend_from_slice(digits.as_bytes())?;
    out.push(b')')?;
    Ok(out)
}

/// A character or a string between its quotes.
fn quoted_bytes(alloc: Global, quote: u8, bytes: &[u8]) -> Result<Vec<u8>, NoMemory>
    ensures { IfOk result (λ v. v.items ≡ quoted quote bytes.now) }
{
    let mut out = Vec::from_slice(alloc, &[quote])?;
    for c in bytes {
        add_byte(&mut out, quote, *c)?;
    }
    out.push(quote)?;
    Ok(out)
}

/// Adds one byte as it stands between such quotes.
fn add_byte(out: &mut Vec<u8>, quote: u8, c: u8) -> Result<(), NoMemory>
    ensures { OnOk result (out.new.items ≡ out.old.items ++ byte quote c) }
{
    if c == b'\\' || c == quote {
        out.extend_from_slice(&[b'\\', c])?;
    } else if c >= 32 && c <= 126 {
        out.push(c)?;
    } else if c == b'\n' {
        out.extend_from_slice(b"\\n")?;
    } else if c == b'\t' {
        out.extend_from_slice(b"\\t")?;
    } else if c == b'\r' {
        out.extend_from_slice(b"\\r")?;
    } else if c == 8 {
        out.extend_from_slice(b"\\b")?;
    } else {
        out.extend_from_slice(&[b'\\', 48 + c / 100, 48 + c / 10 % 10, 48 + c % 10])?;
    }
    Ok(())
}
