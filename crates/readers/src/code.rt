/// Why no phrase goes on with a token.
#[derive(Clone, Copy, Debug, PartialEq, Eq)]
pub enum Code {
    /// No tree goes on with the token.
    Grammar,
    /// Only higher trees go on with the token.
    Depth,
    /// The token is an operator that clashes with a neighbour.
    FixityClash,
}
