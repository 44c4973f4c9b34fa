ghost use Rattle.std.specs.Prelude.{◌≡◌, [], ◌≤◌, true, length, nat_le, if◌then◌else◌, Some, None, IfSome, IfNone, false, ◌<◌, ◌^◌, ◌+◌};
ghost use Rattle.sml_lex.specs.Bytes.{has, number, all_are, is_hex, is_digit, first_is};
ghost use Rattle.sml_lex.specs.Numbers.{int_reading, word_reading, behind_two, behind_three, has_exponent, goes_on, with_sign, NoWord};
ghost use Rattle.sml_lex.specs.Steps.{step_of, RunStep, StepWithin, begins_number};

use crate::Kind;
use crate::class::{Class, digit_value, is_digit};
use crate::step::Step;
use tl_text::{Code, Lit};

/// The largest integer, and without its sign the least one.
const MOST_INT: u64 = 4611686018427387903;

/// The largest word.
const MOST_WORD: u64 = 4294967295;

/// The number that these digits write. None where it is greater than the most.
fn value_of(base: u64, most: u64, digits: &[u8]) -> Option<u64>
    requires base { 1 ≤ base }
    requires digits { all_are is_hex digits.now ≡ true }
    ensures { result ≡ (if nat_le (number base digits.now) most then Some (number base digits.now) else None) }
{
    let mut sum: u64 = 0;
    for digit in digits {
        let Some(scaled) = sum.checked_mul(base) else {
            return None;
        };
        let Some(next) = scaled.checked_add(u64::from(digit_value(*digit))) else {
            return None;
        };
        sum = next;
    }
    if sum > most { None } else { Some(sum) }
}

fn int_step(negative: bool, base: u64, digits: &[u8], len: usize) -> Step
    requires base { 1 ≤ base }
    requires digits { all_are is_hex digits.now ≡ true }
    ensures { result ≡ step_of (int_reading negative (number base digits.now)) len }
{
    match value_of(base, MOST_INT, digits) {
        None => Step::Fail(0, Code::LiteralRange),
        Some(value) => {
            let value = value as i64;
            let value = if negative { -value } else { value };
            Step::Take(Kind::Lit(Lit::Int(value)), len)
        }
    }
}

fn word_step(base: u64, digits: &[u8], len: usize) -> Step
    requires base { 1 ≤ base }
    requires digits { all_are is_hex digits.now ≡ true }
    ensures { result ≡ step_of (word_reading (number base digits.now)) len }
{
    match value_of(base, MOST_WORD, digits) {
        None => Step::Fail(0, Code::LiteralRange),
        Some(value) => Step::Take(Kind::Lit(Lit::Word(value as u32)), len),
    }
}

/// What stands behind these two bytes, nothing where the text does not begin with them.
fn behind_two(first: u8, second: u8, bytes: &[u8]) -> &[u8]
    ensures { result.now ≡ behind_two first second bytes.now }
{
    if bytes.len() >= 2 && bytes[0] == first && bytes[1] == second {
        let (_, rest) = bytes.split_at(2);
        rest
    } else {
        &[]
    }
}

/// The same of three bytes.
fn behind_three(first: u8, second: u8, third: u8, bytes: &[u8]) -> &[u8]
    ensures { result.now ≡ behind_three first second third bytes.now }
{
    if bytes.len() >= 1 && bytes[0] == first {
        let (_, rest) = bytes.split_at(1);
        behind_two(second, third, rest)
    } else {
        &[]
    }
}

/// Whether digits follow, behind a sign or at once.
fn has_exponent(bytes: &[u8]) -> bool
    ensures { result ≡ has_exponent bytes.now }
{
    match bytes.first() {
        None => false,
        Some(first) => {
            if *first == b'~' {
                let (_, rest) = bytes.split_at(1);
                Class::Digit.begins(rest)
            } else {
                is_digit(*first)
            }
        }
    }
}

/// Whether digits go on to a real literal with these bytes: a point and a digit, or an exponent.
fn goes_on(bytes: &[u8]) -> bool
    ensures { result ≡ goes_on bytes.now }
{
    match bytes.first() {
        None => false,
        Some(first) => {
            let (_, rest) = bytes.split_at(1);
            if *first == b'.' {
                Class::Digit.begins(rest)
            } else {
                (*first == b'E' || *first == b'e') && has_exponent(rest)
            }
        }
    }
}

/// The word literal at the front. None where none stands there.
fn word(bytes: &[u8]) -> Option<Step>
    ensures value { IfSome result (λ step. RunStep bytes.now step) }
    ensures within { IfSome result (λ step. StepWithin step (length bytes.now)) }
    ensures none { IfNone result (NoWord bytes.now) }
{
    let digits = behind_three(b'0', b'w', b'x', bytes);
    let n = Class::Hex.run(digits);
    if n > 0 {
        let (digits, _) = digits.split_at(n);
        return Some(word_step(16, digits, 3 + n));
    }
    let digits = behind_two(b'0', b'w', bytes);
    let n = Class::Digit.run(digits);
    if n > 0 {
        let (digits, _) = digits.split_at(n);
        return Some(word_step(10, digits, 2 + n));
    }
    None
}

/// How many bytes a sign takes, if there is one.
fn sign_length(negative: bool) -> usize
    ensures value { result ≡ length (with_sign negative []) }
    ensures small { result ≤ 1 }
{
    if negative { 1 } else { 0 }
}

/// The integer at the front, behind its sign if it has one, or the failure of a real literal.
fn integer(negative: bool, bytes: &[u8]) -> Step
    requires digit { first_is is_digit bytes.now ≡ true }
    requires no_word { negative ≡ false → NoWord bytes.now }
    requires small { length bytes.now < 2 ^ 63 }
    ensures value { RunStep (with_sign negative bytes.now) result }
    ensures within { StepWithin result (length (with_sign negative bytes.now)) }
{
    let sign = sign_length(negative);
    let digits = behind_two(b'0', b'x', bytes);
    let n = Class::Hex.run(digits);
    if n > 0 {
        let (digits, _) = digits.split_at(n);
        return int_step(negative, 16, digits, sign + 2 + n);
    }
    let n = Class::Digit.run(bytes);
    let (digits, rest) = bytes.split_at(n);
    if goes_on(rest) {
        return Step::Fail(0, Code::RealLiteral);
    }
    int_step(negative, 10, digits, sign + n)
}

/// The literal at the front of bytes that begin with a digit, or with `~` and a digit.
pub fn number_step(bytes: &[u8]) -> Step
    requires { begins_number bytes.now ≡ true }
    ensures value { RunStep bytes.now result }
    ensures within { StepWithin result (length bytes.now) }
{
    if bytes.len() > 0 && bytes[0] == b'~' {
        let (_, digits) = bytes.split_at(1);
        return integer(true, digits);
    }
    match word(bytes) {
        Some(step) => step,
        None => integer(false, bytes),
    }
}
