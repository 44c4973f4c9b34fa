//! Of the directives in force the grammar sees only the fixities that they leave.

ghost use Rattle.std.specs.Prelude.{◌≡◌, ℕ, List, ◌∷◌};
ghost use Rattle.readers.specs.declared.code.Code.{Code};
ghost use Rattle.readers.specs.Room.{Room};
ghost use Rattle.sml_lex.specs.declared.token.Token.{Token};
ghost use Rattle.sml_grammar.specs.Promise.{Refusal};
ghost use Rattle.sml_grammar_exp.specs.Decs.{Changes, fixed};
ghost use Rattle.sml_grammar_mod.specs.Programs.{left_by, Pr, ProgramR};

/// Under directives that leave the same fixities the same programs derive the same tokens, at each height, and also where operators
/// may clash.
pub fn programs_by_fixities()
    ensures { (cs ds : Changes) (r : Room) (t : Pr) (tokens : List Token) → fixed cs ≡ fixed ds → ProgramR cs r t tokens → ProgramR ds r t tokens }
{}

/// Behind a program they leave the same fixities again.
pub fn left_by_fixities()
    ensures { (cs ds : Changes) (t : Pr) → fixed cs ≡ fixed ds → fixed (left_by cs t) ≡ fixed (left_by ds t) }
{}

/// Under them tokens are refused at one token alone, with one code.
pub fn refused_by_fixities()
    ensures { (cs ds : Changes) (h : ℕ) (tokens : List Token) (c d : Code) (t u : Token) (rest more : List Token) → fixed cs ≡ fixed ds → Refusal (ProgramR cs) h tokens c (t ∷ rest) → Refusal (ProgramR ds) h tokens d (u ∷ more) → (c ≡ d) × (t ∷ rest ≡ u ∷ more) }
{}
