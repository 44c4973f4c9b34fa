ghost use Rattle.std.specs.Prelude.{◌≡◌, ◌+◌, OnOk, IfOk, true, codes};
ghost use Rattle.oc_rules.specs.Token.{Name, Tyvar, Sign, Lit};
ghost use Rattle.oc_layout.specs.Sheet.{blank, added, noted, started, one_byte, opens_byte, leans_byte};
ghost use Rattle.oc_layout.specs.Layout as layout;
ghost use Rattle.oc_layout.specs.Layout.{body, line, ◌▸◌};

use crate::literal::literal_bytes;
use oc_ast::OcLit;
use std::alloc::Global;
use std::marker::Model;
use tl_text::NoMemory;

/// What is written so far. Contracts see a `Sheet`.
#[derive(Drop)]
pub struct Pen {
    alloc: Global,
    out: Vec<u8>,
    tight: bool,
    line: usize,
    item: usize,
}

impl Model for Pen {
    ghost use Rattle.oc_layout.specs.Sheet.{Sheet};

    ghost Value = { Sheet };

    ghost view = { λ p. record { written = p.out.items; tight = p.tight; line = p.line; item = p.item } };
}

impl Pen {
    /// The empty sheet.
    pub fn new(alloc: Global) -> Pen
        ensures { result ≡ blank }
    {
        Pen {
            alloc,
            out: Vec::new(alloc),
            tight: true,
            line: 0,
            item: 0,
        }
    }

    /// All bytes that were written.
    pub fn into_bytes(self) -> Vec<u8>
        ensures { result.items ≡ self.written }
    {
        self.out
    }

    /// The indentation of the line at hand.
    pub fn line(&self) -> usize
        ensures { result ≡ self.now.line }
    {
        self.line
    }

    /// The indentation of the innermost item.
    pub fn item(&self) -> usize
        ensures { result ≡ self.now.item }
    {
        self.item
    }

    /// Writes a name or a word.
    pub fn name(&mut self, bytes: &[u8]) -> Result<(), NoMemory>
        ensures { OnOk result (self.new ≡ noted (Name bytes.now) self.old) }
    {
        self.add(bytes, false, false)
    }

    /// Writes a type variable.
    pub fn tyvar(&mut self, bytes: &[u8]) -> Result<(), NoMemory>
        ensures { OnOk result (self.new ≡ noted (Tyvar bytes.now) self.old) }
    {
        self.add(bytes, false, false)
    }

    /// Writes a mark or an operator.
    pub fn mark(&mut self, bytes: &[u8]) -> Result<(), NoMemory>
        ensures { OnOk result (self.new ≡ noted (Sign bytes.now) self.old) }
    {
        let leaning = leans(bytes);
        let opening = opens(bytes);
        self.add(bytes, leaning, opening)
    }

    /// Begins a line two deeper than the item.
    pub fn body(&mut self) -> Result<(), NoMemory>
        ensures { OnOk result (self.new ≡ body self.old) }
    {
        let line = deeper(self.item)?;
        self.start(line, self.item)
    }

    /// Writes `in`, and begins a line two deeper than the item.
    pub fn behind_in(&mut self) -> Result<(), NoMemory>
        ensures { OnOk result (self.new ≡ (layout.name (codes "in") ▸ body) self.old) }
    {
        self.name(b"in")?;
        self.body()
    }

    /// Begins a line with this indentation, for the same item.
    pub fn line_at(&mut self, indentation: usize) -> Result<(), NoMemory>
        ensures { OnOk result (self.new ≡ line indentation self.old) }
    {
        self.start(indentation, self.item)
    }

    /// Writes a literal.
    pub fn literal(&mut self, lit: &OcLit) -> Result<(), NoMemory>
        ensures { OnOk result (self.new ≡ noted (Lit lit.now) self.old) }
    {
        let bytes = literal_bytes(self.alloc, lit)?;
        self.add(bytes.as_slice(), false, false)
    }

    /// Writes no space before the next token.
    pub fn glue(&mut self)
        ensures { self.new ≡ record self.old { tight = true } }
    {
        self.tight = true;
    }

    /// Ends the line, and begins one with the indentation `line` for the item at `item`.
    pub fn start(&mut self, line: usize, item: usize) -> Result<(), NoMemory>
        ensures { OnOk result (self.new ≡ started line item self.old) }
    {
        self.out.push(b'\n')?;
        let len = self.out.len().checked_add(line).ok_or(NoMemory)?;
        self.out.resize(len, b' ')?;
        self.tight = true;
        self.line = line;
        self.item = item;
        Ok(())
    }

    /// Writes a token by its bytes, after a space where one is wanted.
    fn add(&mut self, bytes: &[u8], leaning: bool, opening: bool) -> Result<(), NoMemory>
        ensures { OnOk result (self.new ≡ added bytes.now leaning opening self.old) }
    {
        if !(self.tight || leaning) {
            self.out.push(b' ')?;
        }
        self.out.extend_from_slice(bytes)?;
        self.tight = opening;
        Ok(())
    }
}

/// The indentation two deeper. NoMemory where no such line can be held.
pub fn deeper(n: usize) -> Result<usize, NoMemory>
    ensures { IfOk result (λ m. m ≡ n + 2) }
{
    n.checked_add(2).ok_or(NoMemory)
}

/// Whether no space stands before the mark.
fn leans(bytes: &[u8]) -> bool
    ensures { result ≡ one_byte leans_byte bytes.now }
{
    match bytes {
        [b] => *b == b')' || *b == b']' || *b == b'}' || *b == b',' || *b == b';',
        _ => false,
    }
}

/// Whether no space stands behind the mark.
fn opens(bytes: &[u8]) -> bool
    ensures { result ≡ one_byte opens_byte bytes.now }
{
    match bytes {
        [b] => *b == b'(' || *b == b'[' || *b == b'{',
        _ => false,
    }
}
