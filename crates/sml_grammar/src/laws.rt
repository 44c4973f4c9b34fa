//! What reading promises, as laws of readers: whole texts, and fronts of them.

ghost use Rattle.std.specs.Prelude.{ℕ, List, ◌≤◌, ◌≡◌};
ghost use Rattle.sml_lex.specs.declared.token.Token.{Token};
ghost use Rattle.sml_fix.specs.Fixities.{Settings};
ghost use Rattle.sml_grammar.specs.Types.{Tx, TyR, ty_on};
ghost use Rattle.sml_grammar.specs.ReadTypes.{ty_read};
ghost use Rattle.sml_grammar.specs.Pats.{Pt, PatR};
ghost use Rattle.sml_grammar.specs.ReadPats.{pat_read};
ghost use Rattle.sml_grammar.specs.Promise.{Derives, Exactly, Front};
ghost use Rattle.std.specs.Prelude.{false};

/// Tokens are derived by at most one type.
pub fn one_type()
    ensures { (h : ℕ) (tokens : List Token) (t u : Tx) → Derives TyR h tokens t → Derives TyR h tokens u → t ≡ u }
{}

/// What is read is the type of the tokens, and a refusal stands at the first token with which none goes on, with the right code.
pub fn types_exactly()
    ensures { (h : ℕ) (tokens : List Token) → 1 ≤ h → Exactly TyR h tokens (ty_read h tokens) }
{}

/// Of more tokens the longest front that is a type is read, and a refusal stands where the tokens read so far are no front of one.
pub fn types_front()
    ensures { (h : ℕ) (tokens : List Token) → 1 ≤ h → Front TyR h tokens (ty_read h tokens) }
{}

/// Tokens are derived by at most one pattern.
pub fn one_pattern()
    ensures { (h : ℕ) (fix : Settings) (tokens : List Token) (p q : Pt) → Derives (PatR fix) h tokens p → Derives (PatR fix) h tokens q → p ≡ q }
{}

/// What is read is the pattern of the tokens, and a refusal stands at the first token with which none goes on, with the right code.
pub fn patterns_exactly()
    ensures { (h : ℕ) (fix : Settings) (tokens : List Token) → 2 ≤ h → Exactly (PatR fix) h tokens (pat_read h false fix tokens) }
{}
