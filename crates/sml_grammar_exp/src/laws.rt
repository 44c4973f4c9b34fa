//! What reading promises, as laws of readers: whole texts, and fronts of them.

ghost use Rattle.std.specs.Prelude.{ℕ, List, ◌≤◌, ◌≡◌, false};
ghost use Rattle.sml_lex.specs.declared.token.Token.{Token};
ghost use Rattle.sml_grammar.specs.Promise.{Derives, Exactly, Front};
ghost use Rattle.sml_grammar_exp.specs.Exps.{Ex, De};
ghost use Rattle.sml_grammar_exp.specs.Decs.{Changes};
ghost use Rattle.sml_grammar_exp.specs.Levels.{ExpR, DecR};
ghost use Rattle.sml_grammar_exp.specs.ReadLevels.{exp_read, dec_read};

/// Tokens are derived by at most one expression.
pub fn one_expression()
    ensures { (h : ℕ) (cs : Changes) (tokens : List Token) (t u : Ex) → Derives (ExpR cs) h tokens t → Derives (ExpR cs) h tokens u → t ≡ u }
{}

/// What is read is the expression of the tokens, and a refusal stands at the first token with which none goes on, with the right code.
pub fn expressions_exactly()
    ensures { (h : ℕ) (cs : Changes) (tokens : List Token) → 2 ≤ h → Exactly (ExpR cs) h tokens (exp_read h false cs tokens) }
{}

/// Of more tokens the longest front that is an expression is read, and a refusal stands where the tokens read so far are no front of one.
pub fn expressions_front()
    ensures { (h : ℕ) (cs : Changes) (tokens : List Token) → 2 ≤ h → Front (ExpR cs) h tokens (exp_read h false cs tokens) }
{}

/// Tokens are derived by at most one declaration.
pub fn one_declaration()
    ensures { (h : ℕ) (cs : Changes) (tokens : List Token) (t u : De) → Derives (DecR cs) h tokens t → Derives (DecR cs) h tokens u → t ≡ u }
{}

/// What is read is the declaration of the tokens, and a refusal stands at the first token with which none goes on, with the right code.
pub fn declarations_exactly()
    ensures { (h : ℕ) (cs : Changes) (tokens : List Token) → 1 ≤ h → Exactly (DecR cs) h tokens (dec_read h false cs tokens) }
{}

/// Of more tokens the longest front that is a declaration is read, and a refusal stands where the tokens read so far are no front of one
/// that the next token goes on with.
pub fn declarations_front()
    ensures { (h : ℕ) (cs : Changes) (tokens : List Token) → 1 ≤ h → Front (DecR cs) h tokens (dec_read h false cs tokens) }
{}
