use crate::Name;

/// A literal of the source by its value: an integer of 63 bits, a word of 32 bits, a character by its
/// code, or a string by its bytes (the Definition, section 2.2, in this project's ranges).
#[derive(Debug)]
pub enum Lit {
    Int(i64),
    Word(u32),
    Char(u8),
    Text(Name),
}

impl Drop for Lit {
    fn drop(self) {
        match self {
            Lit::Int(_) => {}
            Lit::Word(_) => {}
            Lit::Char(_) => {}
            Lit::Text(_) => {}
        }
    }
}
