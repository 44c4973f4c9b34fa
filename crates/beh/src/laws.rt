ghost use Rattle.std.specs.Prelude.{◌≡◌, ℕ, ◌+◌, ◌≤◌, List};
ghost use Rattle.beh.specs.Agree.{Agree, GoesOn, Match, Run};
ghost use Rattle.beh.specs.Behaviour.{Behaviour, Extends, renamed};

/// What runs by single steps, as contracts see it.
pub trait Machine {
    ghost step: { Self → Self → Type 0 };

    ghost seen: { Self → Behaviour };
}

/// Each meaning matches itself.
pub fn same()
    ensures { (p : ℕ → Behaviour) → Match p p }
{}

/// Matching goes through a meaning in between.
pub fn through()
    ensures { (p q r : ℕ → Behaviour) → Match p q → Match q r → Match p r }
{}

/// Agreement goes over a meaning in between.
pub fn over<C: Machine>()
    ensures { (p q : ℕ → Behaviour) (start : C) → Match p q → Agree q C.step C.seen start → Agree p C.step C.seen start }
{}

/// Of a meaning that only goes on as n grows, a larger n goes on from a smaller one.
pub fn goes_on()
    ensures { (p : ℕ → Behaviour) (m n : ℕ) → GoesOn p → m ≤ n → Extends (p n) (p m) }
{}

/// A meaning matches the one that it becomes where n is shifted by k.
pub fn shifted()
    ensures { (p q : ℕ → Behaviour) (k : ℕ) → GoesOn q → ((n : ℕ) → q (n + k) ≡ p n) → Match p q }
{}

/// What matches still matches where the exceptions get other names.
pub fn over_names()
    ensures { (f : List ℕ → List ℕ) (p q : ℕ → Behaviour) → Match p q → Match (λ n. renamed f (p n)) (λ n. renamed f (q n)) }
{}
