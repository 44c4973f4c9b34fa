//! Names where they stand.

use tl_text::{List, Name, Path, Place};

/// A label of a record: a number from 1 on, or a word (the Definition, section 2.4).
#[derive(Debug)]
pub enum Lab {
    Num(u32),
    Word(Name),
}

impl Drop for Lab {
    fn drop(self) {
        match self {
            Lab::Num(_) => {}
            Lab::Word(_) => {}
        }
    }
}

/// An identifier or a type variable, with the place of its first byte.
pub type Ident = (Place, Name);

/// A long identifier, with the place of its first byte.
pub type LongIdent = (Place, Path);

/// A label, with the place of its first byte.
pub type Label = (Place, Lab);

/// The type variables before a type's name, none where none are written.
pub type Tyvars = List<Ident>;
