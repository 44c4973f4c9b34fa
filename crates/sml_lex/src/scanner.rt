ghost use Rattle.std.specs.Prelude.{◌≡◌, ◌+◌, ◌<◌, ◌≤◌, ◌^◌, IfOk, true, length, drop};
ghost use Rattle.sml_lex.specs.Steps.{start_of, Steps, CommentStep, TextStep, CharStep, RunStep, fail_behind, begins_number, StepWithin, char_step};
ghost use Rattle.tl_cases.specs.Words.{sml_rows};
ghost use Rattle.sml_lex.specs.declared.step.Start.TheVariants as starts;

use crate::Kind;
use crate::class::{Class, begins_with, is_digit, is_white};
use crate::comment::comment_end;
use crate::literal::{Literal, read_literal};
use crate::number::number_step;
use crate::step::{Start, Step};
use std::alloc::Global;
use tl_cases::{Table, sml_words};
use tl_text::{Code, Lit, Name, NoMemory};

/// What reading a place needs: where memory comes from, and the reserved words.
#[derive(Debug, Drop)]
pub struct Scanner {
    pub alloc: Global,
    pub words: Table<58>,
    ghost are_sml: { words ≡ sml_rows },
}

fn start_of(bytes: &[u8]) -> Start
    ensures { result ≡ start_of bytes.now }
{
    match bytes.first() {
        None => Start::End,
        Some(first) => {
            let first = *first;
            let (_, rest) = bytes.split_at(1);
            if is_white(first) {
                Start::White
            } else if first == b'(' && begins_with(b'*', rest) {
                Start::Comment
            } else if first == b'"' {
                Start::Text
            } else if first == b'#' && begins_with(b'"', rest) {
                Start::Char
            } else {
                Start::Run
            }
        }
    }
}

fn comment_step(bytes: &[u8]) -> Step
    requires { start_of bytes.now ≡ starts.Comment }
    ensures value { CommentStep (drop 2 bytes.now) result }
    ensures within { StepWithin result (length bytes.now) }
{
    let (_, inside) = bytes.split_at(2);
    match comment_end(inside) {
        Some(n) => Step::Skip(n + 2),
        None => Step::Fail(0, Code::OpenComment),
    }
}

/// Where a literal fails: at its opening quote if it is open, else so many bytes behind the quote.
fn literal_fails(quote: usize, n: usize, code: Code) -> Step
    requires { quote + 1 + n < 2 ^ 64 }
    ensures value { result ≡ fail_behind quote n code }
    ensures within { StepWithin result (quote + 1 + n) }
{
    match code {
        Code::OpenString => Step::Fail(quote, code),
        _ => Step::Fail(quote + 1 + n, code),
    }
}

fn begins_number(bytes: &[u8]) -> bool
    ensures { result ≡ begins_number bytes.now }
{
    match bytes.first() {
        None => false,
        Some(first) => {
            let first = *first;
            let (_, rest) = bytes.split_at(1);
            is_digit(first) || (first == b'~' && Class::Digit.begins(rest))
        }
    }
}

/// The step of a character literal of these characters, which takes so many bytes behind its quote.
fn char_of(text: &[u8], n: usize) -> Step
    requires { n + 2 < 2 ^ 64 }
    ensures value { result ≡ char_step text.now n }
    ensures within { StepWithin result (n + 2) }
{
    if text.len() == 1 {
        Step::Take(Kind::Lit(Lit::Char(text[0])), n + 2)
    } else {
        Step::Fail(0, Code::BadToken)
    }
}

impl Scanner {
    pub fn new(alloc: Global) -> Scanner {
        Scanner {
            alloc,
            words: sml_words(),
        }
    }

    fn text_step(&self, bytes: &[u8]) -> Result<Step, NoMemory>
        requires { start_of bytes.now ≡ starts.Text }
        ensures value { IfOk result (λ step. TextStep (drop 1 bytes.now) step) }
        ensures within { IfOk result (λ step. StepWithin step (length bytes.now)) }
    {
        let (_, inside) = bytes.split_at(1);
        match read_literal(self.alloc, inside)? {
            Literal::Open(n, code) => Ok(literal_fails(0, n, code)),
            Literal::Read(text, n) => {
                let name = Name::new(self.alloc, text.as_slice())?;
                Ok(Step::Take(Kind::Lit(Lit::Text(name)), n + 1))
            }
        }
    }

    fn char_step(&self, bytes: &[u8]) -> Result<Step, NoMemory>
        requires { start_of bytes.now ≡ starts.Char }
        ensures value { IfOk result (λ step. CharStep (drop 2 bytes.now) step) }
        ensures within { IfOk result (λ step. StepWithin step (length bytes.now)) }
    {
        let (_, inside) = bytes.split_at(2);
        match read_literal(self.alloc, inside)? {
            Literal::Open(n, code) => Ok(literal_fails(1, n, code)),
            Literal::Read(text, n) => { Ok(char_of(text.as_slice(), n)) }
        }
    }

    fn run_step(&self, bytes: &[u8]) -> Result<Step, NoMemory>
        requires { start_of bytes.now ≡ starts.Run }
        ensures value { IfOk result (λ step. RunStep bytes.now step) }
        ensures within { IfOk result (λ step. StepWithin step (length bytes.now)) }
    {
        if Class::Letter.begins(bytes) {
            self.name_step(bytes)
        } else if begins_with(b'\'', bytes) {
            self.tyvar_step(bytes)
        } else if begins_number(bytes) {
            Ok(number_step(bytes))
        } else if Class::Symbol.begins(bytes) {
            self.symbol_step(bytes)
        } else {
            Ok(self.mark_step(bytes))
        }
    }

    /// What stands at the front.
    pub fn step(&self, bytes: &[u8]) -> Result<Step, NoMemory>
        ensures value { IfOk result (λ step. Steps bytes.now step) }
        ensures within { IfOk result (λ step. StepWithin step (length bytes.now)) }
    {
        match start_of(bytes) {
            Start::End => Ok(Step::Done),
            Start::White => Ok(Step::Skip(Class::White.run(bytes))),
            Start::Comment => Ok(comment_step(bytes)),
            Start::Text => self.text_step(bytes),
            Start::Char => self.char_step(bytes),
            Start::Run => self.run_step(bytes),
        }
    }
}
