ghost use Rattle.std.specs.Prelude.{◌≡◌, ℕ, ◌+◌, ◌-◌, ◌<◌, ◌≤◌, ◌^◌, IfOk, List, length};
ghost use Rattle.std.specs.List.{All};
ghost use Rattle.sml_lex.specs.Bytes.{has, IsDigits};
ghost use Rattle.sml_lex.specs.Literals.{simple_escape, control_escape, code_escape, gap_end, escape_at, item_at, ItemWithin, BodyReads, BodyWithin};

use crate::class::{Class, digit_value, is_control, is_digit, is_white};
use std::alloc::Global;
use tl_text::{Code, NoMemory};

/// What stands next inside a literal: its closing quote, a character with its number of bytes, a gap, or a failure.
#[derive(Clone, Copy, Debug)]
pub enum Item {
    Close,
    Char(u8, usize),
    Gap(usize),
    Fails(Code),
}

/// What stands behind an opening quote: the characters and how many bytes they take with the closing quote, or how many
/// bytes stand before the failure that is met first.
#[derive(Debug, Drop)]
pub enum Literal {
    Read(Vec<u8>, usize),
    Open(usize, Code),
}

fn simple_escape(byte: u8) -> Option<u8>
    ensures { result ≡ simple_escape byte }
{
    match byte {
        b'a' => Some(7),
        b'b' => Some(8),
        b't' => Some(9),
        b'n' => Some(10),
        b'v' => Some(11),
        b'f' => Some(12),
        b'r' => Some(13),
        b'"' => Some(34),
        b'\\' => Some(92),
        _ => None,
    }
}

fn control_escape(bytes: &[u8]) -> Item
    ensures value { result ≡ control_escape bytes.now }
    ensures within { ItemWithin result (length bytes.now + 2) }
{
    match bytes.first() {
        None => Item::Fails(Code::OpenString),
        Some(byte) => {
            let byte = *byte;
            if 64 <= byte && byte <= 95 {
                Item::Char(byte - 64, 3)
            } else {
                Item::Fails(Code::BadEscape)
            }
        }
    }
}

/// The character of an escape by its code, whose digits have these weights.
fn code_escape(class: Class, long: usize, weights: &[u32], bytes: &[u8]) -> Item
    requires small { All (λ w. w ≤ 4096) weights.now }
    requires digits { IsDigits class }
    requires long { length weights.now < long }
    ensures value { result ≡ code_escape (has class) long weights.now 0 bytes.now }
    ensures within { ItemWithin result (length bytes.now + (long - length weights.now)) }
{
    let mut sum: u32 = 0;
    for (i, weight) in weights.iter().enumerate() {
        if i >= bytes.len() {
            return Item::Fails(Code::OpenString);
        }
        let byte = bytes[i];
        if !class.has(byte) {
            return Item::Fails(Code::BadEscape);
        }
        sum += u32::from(digit_value(byte)) * *weight;
        if sum > 255 {
            return Item::Fails(Code::BadEscape);
        }
    }
    Item::Char(sum as u8, long)
}

fn gap_end(n: usize, bytes: &[u8]) -> Item
    requires { n < 2 ^ 63 }
    ensures value { result ≡ gap_end n bytes.now }
    ensures within { ItemWithin result (length bytes.now + n + 1) }
{
    match bytes.first() {
        None => Item::Fails(Code::OpenString),
        Some(byte) => {
            if *byte == b'\\' {
                Item::Gap(n + 2)
            } else {
                Item::Fails(Code::BadEscape)
            }
        }
    }
}

/// What the bytes behind a backslash stand for, counted with the backslash.
fn escape_at(bytes: &[u8]) -> Item
    ensures value { result ≡ escape_at bytes.now }
    ensures within { ItemWithin result (length bytes.now + 1) }
{
    let Some(first) = bytes.first() else {
        return Item::Fails(Code::OpenString);
    };
    let first = *first;
    if let Some(value) = simple_escape(first) {
        return Item::Char(value, 2);
    }
    if first == b'^' {
        control_escape(&bytes[1..])
    } else if is_digit(first) {
        code_escape(Class::Digit, 4, &[100, 10, 1], bytes)
    } else if first == b'u' {
        code_escape(Class::Hex, 6, &[4096, 256, 16, 1], &bytes[1..])
    } else if is_white(first) {
        let n = Class::White.run(bytes);
        gap_end(n, &bytes[n..])
    } else {
        Item::Fails(Code::BadEscape)
    }
}

fn item_at(bytes: &[u8]) -> Item
    ensures value { result ≡ item_at bytes.now }
    ensures within { ItemWithin result (length bytes.now) }
{
    let Some(first) = bytes.first() else {
        return Item::Fails(Code::OpenString);
    };
    let first = *first;
    if first == b'"' {
        Item::Close
    } else if first == b'\\' {
        escape_at(&bytes[1..])
    } else if first == b'\n' {
        Item::Fails(Code::OpenString)
    } else if is_control(first) && first != b'\t' {
        Item::Fails(Code::BadToken)
    } else {
        Item::Char(first, 1)
    }
}

/// Reads the literal behind its opening quote. NoMemory where none is left.
pub fn read_literal(alloc: Global, bytes: &[u8]) -> Result<Literal, NoMemory>
    ensures value { IfOk result (λ x. BodyReads bytes.now x) }
    ensures within { IfOk result (λ x. BodyWithin x (length bytes.now)) }
{
    let mut text = Vec::new(alloc);
    let mut rest = bytes;
    let mut at = 0;
    loop {
        match item_at(rest) {
            Item::Close => return Ok(Literal::Read(text, at + 1)),
            Item::Char(value, n) => {
                text.push(value)?;
                at += n;
                let (_, behind) = rest.split_at(n);
                rest = behind;
            }
            Item::Gap(n) => {
                at += n;
                let (_, behind) = rest.split_at(n);
                rest = behind;
            }
            Item::Fails(code) => return Ok(Literal::Open(at, code)),
        }
    }
}
