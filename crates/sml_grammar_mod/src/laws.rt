//! What reading promises, as laws of readers: whole texts, and fronts of them.

ghost use Rattle.std.specs.Prelude.{ℕ, List, ◌≤◌, ◌≡◌, false};
ghost use Rattle.sml_lex.specs.declared.token.Token.{Token};
ghost use Rattle.sml_grammar.specs.Promise.{Derives, Exactly, Front};
ghost use Rattle.sml_grammar_exp.specs.Decs.{Changes};
ghost use Rattle.sml_grammar_mod.specs.Strs.{St, Sd, StrR, StrDecR};
ghost use Rattle.sml_grammar_mod.specs.ReadStrs.{str_read, strdec_read};
ghost use Rattle.sml_grammar_mod.specs.Programs.{Pr, ProgramR, SourceR};
ghost use Rattle.sml_grammar_mod.specs.ReadPrograms.{program_read, source_read};

/// Tokens are derived by at most one program.
pub fn one_program()
    ensures { (h : ℕ) (cs : Changes) (tokens : List Token) (t u : Pr) → Derives (ProgramR cs) h tokens t → Derives (ProgramR cs) h tokens u → t ≡ u }
{}

/// What is read is the program of the tokens, and a refusal stands at the first token with which none goes on, with the right code.
pub fn programs_exactly()
    ensures { (h : ℕ) (cs : Changes) (tokens : List Token) → 1 ≤ h → Exactly (ProgramR cs) h tokens (program_read h false cs tokens) }
{}

/// The same of a program with the directives in force behind it.
pub fn sources_exactly()
    ensures { (h : ℕ) (cs : Changes) (tokens : List Token) → 1 ≤ h → Exactly (SourceR cs) h tokens (source_read h false cs tokens) }
{}

/// Tokens are derived by at most one structure expression.
pub fn one_structure()
    ensures { (h : ℕ) (cs : Changes) (tokens : List Token) (t u : St) → Derives (StrR cs) h tokens t → Derives (StrR cs) h tokens u → t ≡ u }
{}

/// What is read is the structure expression of the tokens, and a refusal stands at the first token with which none goes on, with the
/// right code.
pub fn structures_exactly()
    ensures { (h : ℕ) (cs : Changes) (tokens : List Token) → 1 ≤ h → Exactly (StrR cs) h tokens (str_read h false cs tokens) }
{}

/// Of more tokens the longest front that is a structure expression is read, and a refusal stands where the tokens read so far are no
/// front of one.
pub fn structures_front()
    ensures { (h : ℕ) (cs : Changes) (tokens : List Token) → 1 ≤ h → Front (StrR cs) h tokens (str_read h false cs tokens) }
{}

/// Tokens are derived by at most one declaration at structure level.
pub fn one_declaration()
    ensures { (h : ℕ) (cs : Changes) (tokens : List Token) (t u : Sd) → Derives (StrDecR cs) h tokens t → Derives (StrDecR cs) h tokens u → t ≡ u }
{}

/// What is read is the declaration at structure level of the tokens, and a refusal stands at the first token with which none goes on,
/// with the right code.
pub fn declarations_exactly()
    ensures { (h : ℕ) (cs : Changes) (tokens : List Token) → 2 ≤ h → Exactly (StrDecR cs) h tokens (strdec_read h false cs tokens) }
{}

/// Of more tokens the longest front that is a declaration at structure level is read, and a refusal stands where the tokens read so
/// far are no front of one that the next token goes on with.
pub fn declarations_front()
    ensures { (h : ℕ) (cs : Changes) (tokens : List Token) → 2 ≤ h → Front (StrDecR cs) h tokens (strdec_read h false cs tokens) }
{}
