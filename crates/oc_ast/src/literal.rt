use tl_text::Name;

/// A constant by its value: `5` or `(-5)`, `'c'`, `"s"` (the manual, section 9.2).
pub enum OcLit {
    /// From -4611686018427387904 to 4611686018427387903.
    Int(i64),
    /// By its code.
    Char(u8),
    /// By its bytes.
    Text(Name),
}

impl Drop for OcLit {
    fn drop(self) {
        match self {
            OcLit::Int(_) => {}
            OcLit::Char(_) => {}
            OcLit::Text(_) => {}
        }
    }
}
