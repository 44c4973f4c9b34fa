ghost use Rattle.std.specs.Prelude.{◌≡◌, ℕ, List};
ghost use Rattle.oc_ast.specs.Plain.{PItems};
ghost use Rattle.oc_rules.specs.Reads.{Reads};

/// A law, and no code: two trees that the same bytes read as are one tree.
pub fn one_text()
    ensures { (bytes : List ℕ) (t u : PItems) → Reads bytes t → Reads bytes u → t ≡ u }
{}
