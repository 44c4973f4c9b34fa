//! Which literals are in the range of their types, and copies of literals.

ghost use Rattle.std.specs.Prelude.{◌≡◌, ◌^◌, nat_lt, IfOk, IsTrue};
ghost use Rattle.built_items.specs.Built as spec;

use std::alloc::Global;
use tl_text::{Lit, Name, NoMemory};

/// The least integer.
const LEAST: i64 = -(1 << 62);

/// The greatest integer.
const GREATEST: i64 = (1 << 62) - 1;

/// Whether an integer has 63 bits.
fn in_range(int: i64) -> bool
    ensures { result ≡ spec.in_range int }
{
    int >= LEAST && int <= GREATEST
}

/// Whether a literal is in the range of its type. Words, characters and strings always are.
pub fn is_literal(lit: &Lit) -> bool
    ensures { result ≡ spec.is_literal lit.now }
{
    match lit {
        Lit::Int(int) => in_range(*int),
        Lit::Word(word) => {
            word_fits(*word);
            true
        },
        Lit::Char(byte) => {
            byte_fits(*byte);
            true
        },
        Lit::Text(text) => {
            bytes_fit(text.bytes());
            true
        },
    }
}

/// A word has 32 bits.
fn word_fits(word: u32)
    ensures { IsTrue (nat_lt word (2 ^ 32)) }
{}

/// A byte has 8 bits.
fn byte_fits(byte: u8)
    ensures { IsTrue (nat_lt byte 256) }
{}

/// Each byte has 8 bits.
pub fn bytes_fit(bytes: &[u8])
    ensures { IsTrue (spec.are_bytes bytes.now) }
{}

/// A copy of a literal.
pub fn copy_lit(alloc: Global, lit: &Lit) -> Result<Lit, NoMemory>
    ensures { IfOk result (λ l. l ≡ lit.now) }
{
    match lit {
        Lit::Int(int) => Ok(Lit::Int(*int)),
        Lit::Word(word) => Ok(Lit::Word(*word)),
        Lit::Char(byte) => Ok(Lit::Char(*byte)),
        Lit::Text(text) => Ok(Lit::Text(Name::new(alloc, text.bytes())?)),
    }
}
