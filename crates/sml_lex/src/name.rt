ghost use Rattle.std.specs.Prelude.{◌≡◌, ◌==◌, ◌+◌, ◌<◌, ◌≤◌, IfOk, true, false, length};
ghost use Rattle.sml_lex.specs.Bytes.{is_letter, is_symbol, first_is};
ghost use Rattle.sml_lex.specs.Names.{free_run, next_part};
ghost use Rattle.sml_lex.specs.Steps.{RunStep, StepWithin, begins_number, is_mark_first, mark_length};
ghost use Rattle.tl_cases.specs.Rows.{value_at};
ghost use Rattle.tl_cases.specs.Words.{sml_rows};

use crate::Kind;
use crate::class::{Class, is_letter};
use crate::scanner::Scanner;
use crate::step::Step;
use tl_text::{Code, Name, NoMemory, Path};

impl Scanner {
    /// The number of the reserved word that these bytes are.
    fn word(&self, run: &[u8]) -> Option<u32>
        ensures { result ≡ value_at run.now sml_rows }
    {
        self.words.find(run)
    }

    /// How many bytes the whole run at the front takes if it is an identifier: letters, digits, primes and underscores
    /// behind a letter, or symbols. 0 where it is none, or a reserved word.
    fn free_run(&self, bytes: &[u8]) -> usize
        ensures value { result ≡ free_run bytes.now }
        ensures within { result ≤ length bytes.now }
    {
        let n = if Class::Letter.begins(bytes) {
            Class::Name.run(bytes)
        } else {
            Class::Symbol.run(bytes)
        };
        let (run, _) = bytes.split_at(n);
        match self.word(run) {
            None => n,
            Some(_) => 0,
        }
    }

    /// The same behind a dot.
    fn next_part(&self, bytes: &[u8]) -> usize
        ensures value { result ≡ next_part bytes.now }
        ensures within { result ≤ length bytes.now }
        ensures behind { 0 < result → result < length bytes.now }
    {
        if bytes.len() > 0 && bytes[0] == b'.' {
            let (_, rest) = bytes.split_at(1);
            self.free_run(rest)
        } else {
            0
        }
    }

    /// The long identifier at the front of bytes that begin with a letter, whose first part has so many bytes.
    fn id_step(&self, bytes: &[u8], first: usize) -> Result<Step, NoMemory>
        requires letter { first_is is_letter bytes.now ≡ true }
        requires first { first ≡ free_run bytes.now }
        requires some { 0 < first }
        ensures value { IfOk result (λ step. RunStep bytes.now step) }
        ensures within { IfOk result (λ step. StepWithin step (length bytes.now)) }
    {
        let mut path = Path::new(self.alloc);
        let (run, mut rest) = bytes.split_at(first);
        path.push(Name::new(self.alloc, run)?)?;
        let mut at = first;
        loop {
            let n = self.next_part(rest);
            if n == 0 {
                return Ok(Step::Take(Kind::Id(path), at));
            }
            let (_, behind) = rest.split_at(1);
            let (part, next) = behind.split_at(n);
            path.push(Name::new(self.alloc, part)?)?;
            at += 1 + n;
            rest = next;
            if !Class::Letter.begins(part) {
                return Ok(Step::Take(Kind::Id(path), at));
            }
        }
    }

    /// The reserved word or the long identifier at the front of bytes that begin with a letter.
    pub fn name_step(&self, bytes: &[u8]) -> Result<Step, NoMemory>
        requires { first_is is_letter bytes.now ≡ true }
        ensures value { IfOk result (λ step. RunStep bytes.now step) }
        ensures within { IfOk result (λ step. StepWithin step (length bytes.now)) }
    {
        let n = Class::Name.run(bytes);
        let (run, _) = bytes.split_at(n);
        match self.word(run) {
            Some(word) => Ok(Step::Take(Kind::Word(word), n)),
            None => self.id_step(bytes, n),
        }
    }

    /// The type variable at the front of bytes that begin with a prime.
    pub fn tyvar_step(&self, bytes: &[u8]) -> Result<Step, NoMemory>
        requires { first_is (λ c. c == 39) bytes.now ≡ true }
        ensures value { IfOk result (λ step. RunStep bytes.now step) }
        ensures within { IfOk result (λ step. StepWithin step (length bytes.now)) }
    {
        let n = Class::Name.run(bytes);
        let (run, _) = bytes.split_at(n);
        Ok(Step::Take(Kind::Tyvar(Name::new(self.alloc, run)?), n))
    }

    /// The reserved word or the identifier at the front of bytes that begin with a symbol.
    pub fn symbol_step(&self, bytes: &[u8]) -> Result<Step, NoMemory>
        requires symbol { first_is is_symbol bytes.now ≡ true }
        requires no_number { begins_number bytes.now ≡ false }
        ensures value { IfOk result (λ step. RunStep bytes.now step) }
        ensures within { IfOk result (λ step. StepWithin step (length bytes.now)) }
    {
        let n = Class::Symbol.run(bytes);
        let (run, _) = bytes.split_at(n);
        match self.word(run) {
            Some(word) => Ok(Step::Take(Kind::Word(word), n)),
            None => {
                let mut path = Path::new(self.alloc);
                path.push(Name::new(self.alloc, run)?)?;
                Ok(Step::Take(Kind::Id(path), n))
            }
        }
    }

    /// The reserved word at the front of bytes that begin with none of these.
    pub fn mark_step(&self, bytes: &[u8]) -> Step
        requires { is_mark_first bytes.now ≡ true }
        ensures value { RunStep bytes.now result }
        ensures within { StepWithin result (length bytes.now) }
    {
        let n = mark_length(bytes);
        let (run, _) = bytes.split_at(n);
        match self.word(run) {
            Some(word) => Step::Take(Kind::Word(word), n),
            None => Step::Fail(0, Code::BadToken),
        }
    }
}

/// How many bytes a mark has: three for the three dots, else one.
fn mark_length(bytes: &[u8]) -> usize
    requires { 0 < length bytes.now }
    ensures value { result ≡ mark_length bytes.now }
    ensures within { result ≤ length bytes.now }
    ensures some { 0 < result }
{
    if bytes.len() >= 3 && bytes[0] == b'.' && bytes[1] == b'.' && bytes[2] == b'.' {
        3
    } else {
        1
    }
}
