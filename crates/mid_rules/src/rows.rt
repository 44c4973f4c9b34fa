ghost use Rattle.std.specs.Prelude.{◌≡◌, ◌<◌, ◌^◌, ℕ, ℤ, pos, negsuc, ◌+ℤ◌, ◌-ℤ◌, int_lt, Bool, not, nat_lt, List, length, Some, None, slice_get, unsigned_abs};
ghost use Rattle.mid_rules.specs.Basis.{div_exn, overflow_exn};
ghost use Rattle.mid_rules.specs.Mid.{IsInt, RoundedDown, a_char, a_string, an_int, called, pair};
ghost use Rattle.runs.specs.Meaning.{Done, Raised};
ghost use Rattle.runs.specs.Patterns.{same_int};
ghost use Rattle.runs.specs.Primitives.{St, less_text, truth, unit, with_value, written};
ghost use Rattle.runs.specs.Tree.{Loc, Val};

/// The rows on one value, and `before` and `:=`: print, ignore, size, not, !.
pub fn simple_rows()
    ensures print { (t : List ℕ) (s : St) (n : ℕ) → called 35 None (a_string t) s n ≡ Done unit (written t s) }
    ensures ignore { (v : Val) (s : St) (n : ℕ) → called 31 None v s n ≡ Done unit s }
    ensures size { (t : List ℕ) (s : St) (n : ℕ) → length t < 2 ^ 62 → called 37 None (a_string t) s n ≡ Done (an_int (pos (length t))) s }
    ensures negation { (b : Bool) (s : St) (n : ℕ) → called 30 None (truth b) s n ≡ Done (truth (not b)) s }
    ensures content { (l : ℕ) (v : Val) (s : St) (n : ℕ) → slice_get s.mem l ≡ Some v → called 33 None (Loc l) s n ≡ Done v s }
    ensures assignment { (l : ℕ) (v : Val) (s : St) (n : ℕ) → called 34 None (pair (Loc l) v) s n ≡ Done unit (with_value l v s) }
    ensures before { (v w : Val) (s : St) (n : ℕ) → called 32 None (pair v w) s n ≡ Done v s }
{}

/// The comparisons <, <=, > and >= at int, char and string, and = at int.
pub fn comparisons()
    ensures ints { (a b : ℤ) (s : St) (n : ℕ) → (called 14 None (pair (an_int a) (an_int b)) s n ≡ Done (truth (int_lt a b)) s) × (called 18 None (pair (an_int a) (an_int b)) s n ≡ Done (truth (not (int_lt b a))) s) × (called 22 None (pair (an_int a) (an_int b)) s n ≡ Done (truth (int_lt b a)) s) × (called 26 None (pair (an_int a) (an_int b)) s n ≡ Done (truth (not (int_lt a b))) s) }
    ensures chars { (a b : ℕ) (s : St) (n : ℕ) → (called 16 None (pair (a_char a) (a_char b)) s n ≡ Done (truth (nat_lt a b)) s) × (called 20 None (pair (a_char a) (a_char b)) s n ≡ Done (truth (not (nat_lt b a))) s) × (called 24 None (pair (a_char a) (a_char b)) s n ≡ Done (truth (nat_lt b a)) s) × (called 28 None (pair (a_char a) (a_char b)) s n ≡ Done (truth (not (nat_lt a b))) s) }
    ensures strings { (a b : List ℕ) (s : St) (n : ℕ) → (called 17 None (pair (a_string a) (a_string b)) s n ≡ Done (truth (less_text a b)) s) × (called 21 None (pair (a_string a) (a_string b)) s n ≡ Done (truth (not (less_text b a))) s) × (called 25 None (pair (a_string a) (a_string b)) s n ≡ Done (truth (less_text b a)) s) × (called 29 None (pair (a_string a) (a_string b)) s n ≡ Done (truth (not (less_text a b))) s) }
    ensures equal { (a b : ℤ) (s : St) (n : ℕ) → called 0 (Some 0) (pair (an_int a) (an_int b)) s n ≡ Done (truth (same_int a b)) s }
{}

/// + and - at int: the sum, or the difference, where it is an int, and else Overflow.
pub fn checked_sums()
    ensures adds { (a b : ℤ) (s : St) (n : ℕ) → IsInt a → IsInt b → IsInt (a +ℤ b) → called 2 None (pair (an_int a) (an_int b)) s n ≡ Done (an_int (a +ℤ b)) s }
    ensures adds_too_much { (a b : ℤ) (s : St) (n : ℕ) → IsInt a → IsInt b → (IsInt (a +ℤ b) → ⊥) → called 2 None (pair (an_int a) (an_int b)) s n ≡ Raised overflow_exn s }
    ensures subtracts { (a b : ℤ) (s : St) (n : ℕ) → IsInt a → IsInt b → IsInt (a -ℤ b) → called 4 None (pair (an_int a) (an_int b)) s n ≡ Done (an_int (a -ℤ b)) s }
    ensures subtracts_too_much { (a b : ℤ) (s : St) (n : ℕ) → IsInt a → IsInt b → (IsInt (a -ℤ b) → ⊥) → called 4 None (pair (an_int a) (an_int b)) s n ≡ Raised overflow_exn s }
{}

/// div and mod at int, rounded down: Div where the divisor is 0, and Overflow where the quotient is no int.
pub fn checked_quotients()
    ensures divides { (a b : ℤ) (s : St) (n : ℕ) → IsInt a → IsInt b → (b ≡ pos 0 → ⊥) → (a ≡ negsuc 4611686018427387903 → b ≡ negsuc 0 → ⊥) → (q : ℤ) × (m : ℤ) × RoundedDown a b q m × (called 8 None (pair (an_int a) (an_int b)) s n ≡ Done (an_int q) s) }
    ensures divides_too_much { (s : St) (n : ℕ) → called 8 None (pair (an_int (negsuc 4611686018427387903)) (an_int (negsuc 0))) s n ≡ Raised overflow_exn s }
    ensures remains { (a b : ℤ) (s : St) (n : ℕ) → IsInt b → (b ≡ pos 0 → ⊥) → (q : ℤ) × (m : ℤ) × RoundedDown a b q m × (called 10 None (pair (an_int a) (an_int b)) s n ≡ Done (an_int m) s) }
    ensures by_zero { (a : ℤ) (s : St) (n : ℕ) → (called 8 None (pair (an_int a) (an_int (pos 0))) s n ≡ Raised div_exn s) × (called 10 None (pair (an_int a) (an_int (pos 0))) s n ≡ Raised div_exn s) }
{}

/// ~ and abs at int: the negation or the magnitude where it is an int, and else Overflow.
pub fn checked_negations()
    ensures negates { (a : ℤ) (s : St) (n : ℕ) → IsInt (pos 0 -ℤ a) → called 12 None (an_int a) s n ≡ Done (an_int (pos 0 -ℤ a)) s }
    ensures negates_too_much { (a : ℤ) (s : St) (n : ℕ) → IsInt a → (IsInt (pos 0 -ℤ a) → ⊥) → called 12 None (an_int a) s n ≡ Raised overflow_exn s }
    ensures magnitude { (a : ℤ) (s : St) (n : ℕ) → IsInt (pos (unsigned_abs a)) → called 13 None (an_int a) s n ≡ Done (an_int (pos (unsigned_abs a))) s }
    ensures magnitude_too_much { (a : ℤ) (s : St) (n : ℕ) → IsInt a → (IsInt (pos (unsigned_abs a)) → ⊥) → called 13 None (an_int a) s n ≡ Raised overflow_exn s }
{}
