use tl_text::{List, Lit, Name, Path, Place};

/// What a token is. A reserved word has its number in the list of words; a type variable keeps its primes.
#[derive(Debug)]
pub enum Kind {
    Word(u32),
    Id(Path),
    Tyvar(Name),
    Lit(Lit),
    End,
}

impl Drop for Kind {
    fn drop(self) {
        match self {
            Kind::Word(_) => {}
            Kind::Id(_) => {}
            Kind::Tyvar(_) => {}
            Kind::Lit(_) => {}
            Kind::End => {}
        }
    }
}

/// A token with the place of its first byte and its number of bytes, 0 for `End`. `decimal` tells an integer literal in
/// decimal digits alone, the first of which is not 0 where there are several.
#[derive(Debug)]
pub struct Token {
    pub kind: Kind,
    pub place: Place,
    pub len: u32,
    pub decimal: bool,
}

impl Drop for Token {
    fn drop(self) {
        let Token {
            kind: _,
            place: _,
            len: _,
            decimal: _,
        } = self;
    }
}

/// The tokens of a source, first to last.
pub type Tokens = List<Token>;
