//! What reading promises, as laws of readers: whole texts, and fronts of them.

ghost use Rattle.std.specs.Prelude.{ℕ, List, ◌≤◌, ◌≡◌};
ghost use Rattle.tl_text.specs.declared.place.Place.{Place};
ghost use Rattle.sml_lex.specs.declared.token.Token.{Token};
ghost use Rattle.sml_grammar.specs.Promise.{Derives, Exactly, Front};
ghost use Rattle.sml_grammar_sig.specs.Sigs.{EnclosedR, SigR, Sp, Sx};
ghost use Rattle.sml_grammar_sig.specs.ReadSigs.{enclosed_read, sig_read};

/// Tokens are derived by at most one signature expression.
pub fn one_signature()
    ensures { (h : ℕ) (tokens : List Token) (t u : Sx) → Derives SigR h tokens t → Derives SigR h tokens u → t ≡ u }
{}

/// What is read is the signature of the tokens, and a refusal stands at the first token with which none goes on, with the right code.
pub fn signatures_exactly()
    ensures { (h : ℕ) (tokens : List Token) → 1 ≤ h → Exactly SigR h tokens (sig_read h tokens) }
{}

/// Of more tokens the longest front that is a signature is read, and a refusal stands where the tokens read so far are no front of one.
pub fn signatures_front()
    ensures { (h : ℕ) (tokens : List Token) → 1 ≤ h → Front SigR h tokens (sig_read h tokens) }
{}

/// Tokens are derived by at most one row of specifications in parentheses.
pub fn one_row()
    ensures { (h : ℕ) (tokens : List Token) (t u : Place × List Sp) → Derives EnclosedR h tokens t → Derives EnclosedR h tokens u → t ≡ u }
{}

/// What is read is the row in parentheses of the tokens, and a refusal stands at the first token with which none goes on, with the right code.
pub fn rows_exactly()
    ensures { (h : ℕ) (tokens : List Token) → Exactly EnclosedR h tokens (enclosed_read h tokens) }
{}
