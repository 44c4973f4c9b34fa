use std::fmt;

/// A place in a source: the source's number in the session from 1, the line from 1, the column in
/// bytes from 1, and the byte from 0. Places compare by source, then byte.
#[derive(Clone, Copy, Debug)]
#[derive_where(PartialEq, Eq, PartialOrd, Ord)]
pub struct Place {
    pub source: u32,
    #[derive_where(skip(EqHashOrd))]
    pub line: u32,
    #[derive_where(skip(EqHashOrd))]
    pub col: u32,
    pub byte: u32,
}

impl fmt::Display for Place {
    fn fmt<W: fmt::Write>(&self, f: &mut fmt::Formatter<W>) -> fmt::Result {
        let line = self.line;
        let col = self.col;
        write!(f, "{line}:{col}")
    }
}
